//! Entity tags, and the tags that a request names: the examples of RFC 9110, and what is at the edges
//! of its grammar.

use crate::outcome::same;
use crate::parts::blob;
use registry_wire::{EntityTag, FieldValue, TAG_LIMIT, names_tag};
use std::alloc::Global;
use std::process::Abort;

// Texts that may be tags (8.8.3), and texts that may not.
const TAGS: &str = "xyzzy
a
!
#
~
a,b
a\\
*";

const NO_TAGS: &str = "
\"
a\"b
a b
a\tb
\x1f
\x7f";

fn is_tag(rt: &impl Abort, text: &[u8], wanted: bool) {
    let tag = EntityTag::of(text);
    same(rt, text, tag.is_some(), wanted);
    let is_kept = match &tag {
        Some(tag) => tag.as_slice() == text,
        None => false,
    };
    same(rt, text, is_kept, wanted);
}

#[test]
fn texts_are_tags(rt: HostRuntime) {
    for text in TAGS.lines() {
        is_tag(&rt, text.as_bytes(), true);
    }
    for text in NO_TAGS.lines() {
        is_tag(&rt, text.as_bytes(), false);
    }
    is_tag(&rt, b"\x80\xff", true);
    let long = [b'a'; TAG_LIMIT + 1];
    is_tag(&rt, &long, false);
    let (longest, _) = long.split_at(TAG_LIMIT);
    is_tag(&rt, longest, true);
}

// Each line says whether a value of `if-none-match`, which stands behind the colon, names a tag.

// Examples of RFC 9110: of 13.1.2, of the comparison in 8.8.3.2, and of lists in 5.6.1.2.
const EXAMPLES: &str = r#"names xyzzy: "xyzzy"
names xyzzy: W/"xyzzy"
names xyzzy: "xyzzy", "r2d2xxxx", "c3piozzzz"
names r2d2xxxx: "xyzzy", "r2d2xxxx", "c3piozzzz"
names c3piozzzz: "xyzzy", "r2d2xxxx", "c3piozzzz"
lacks r2d2: "xyzzy", "r2d2xxxx", "c3piozzzz"
names xyzzy: W/"xyzzy", W/"r2d2xxxx", W/"c3piozzzz"
names c3piozzzz: W/"xyzzy", W/"r2d2xxxx", W/"c3piozzzz"
names xyzzy: *
names 1: W/"1"
lacks 1: W/"2"
names 1: "1"
lacks 1: "2"
lacks 1: ""
lacks 1:
lacks 1: ,
lacks 1: ,   ,
names bar: "foo","bar"
names bar: "foo" ,"bar",
names charlie: "foo" , ,"bar","charlie"
names foo: "foo" , ,"bar","charlie""#;

// Lists with commas and white space where they may be, and bytes that may stand in a tag.
const LISTS: &str = "names 1: ,\"1\"
names 1: \"1\",
names 1: ,,,\"2\",,W/\"1\",,
names 1: \"2\"\t \t,\t \t\"1\"
names 1: \"2\",\t\"1\"\t,\t
names 1: \"\", \"1\"
names 1: W/\"\", W/\"1\"
names a,b: \"a,b\"
lacks a: \"a,b\"
lacks b: \"a,b\"
names 1: \"2,\", \",1\", \"1\"
names *: \"*\"
lacks 1: \"*\"
names a\\: \"a\\\"
names !#~: \"!#~\"
lacks xyzzy: \"XYZZY\"";

// Values that are neither `*` nor a list of tags. Each of them has the tag's text in it.
const OTHERS: &str = "lacks 1: 1
lacks 1: \"1
lacks 1: 1\"
lacks 1: '1'
lacks 1: \"1\", \"2
lacks 1: \"1\", 2
lacks 1: 2, \"1\"
lacks 1: \"1\" \"2\"
lacks 1: \"2\"\"1\"
lacks 1: \"1\"; \"2\"
lacks 1: \"1\", \"2\"3
lacks 1: \"1\", \"2 3\"
lacks 1: \"1\", \"2\t3\"
lacks 1: \"1\", \"\x7f\"
lacks 1: \"1\", \"\x1f\"
lacks 1\\: \"1\\\"2\"
lacks 1: w/\"1\"
lacks 1: W\"1\"
lacks 1: /\"1\"
lacks 1: W /\"1\"
lacks 1: W/ \"1\"
lacks 1: W/W/\"1\"
lacks 1: W/1
lacks 1: \"1\", W/
lacks 1: *, \"1\"
lacks 1: \"1\", *";

fn are_named(rt: &impl Abort, alloc: Global, lines: &str) {
    for line in lines.lines() {
        let (told, value) = line.split_once(':').expect(rt, line);
        let (told, tag) = told.split_once(' ').expect(rt, line);
        let value = value.strip_prefix(' ').unwrap_or("");
        let is_named = is_named(rt, alloc, value.as_bytes(), tag.as_bytes());
        same(rt, line, is_named, told == "names");
    }
}

fn is_named(rt: &impl Abort, alloc: Global, value: &[u8], tag: &[u8]) -> bool {
    let field = FieldValue::Once(blob(rt, alloc, value));
    names_tag(&field, &EntityTag::of(tag).expect(rt, "a tag"))
}

#[test]
fn values_name_tags(rt: HostRuntime) {
    for lines in [EXAMPLES, LISTS, OTHERS] {
        are_named(&rt, rt.alloc(), lines);
    }
    let is_named = is_named(&rt, rt.alloc(), b"\"\x80\xff\"", b"\x80\xff");
    same(&rt, "no UTF-8", is_named, true);
    let tag = EntityTag::of(b"1").expect(&rt, "a tag");
    let absent = names_tag(&FieldValue::Absent, &tag);
    same(&rt, "absent", absent, false);
    let repeated = names_tag(&FieldValue::Repeated, &tag);
    same(&rt, "repeated", repeated, false);
}
