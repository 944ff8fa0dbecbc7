//! What responses say to those who keep documents, what is answered to those who have one, and which form
//! of a document is given to whom.

use super::{BOB, turned, wanted};
use crate::outcome::same;
use crate::parts::{as_text, blob, concat, field, method_of};
use registry_wire::FieldValue;
use std::alloc::Global;
use std::process::Abort;

/// The abbreviated packument of `tool`.
const ABBREVIATED: &str =
    r#"{"dist-tags":{"latest":"1.1.0"},"modified":"1970-01-01T00:00:00.000Z","name":"tool","versions":{"1.0.0":{"name":"tool"},"1.1.0":{"name":"tool"}}}"#;

/// The packument of `tool` as npm reads it.
const FULL: &str =
    r#"{"_rev":"a19ad3ca0a750021e752d6f385405e7e46a195a2a4b27f058a11b88727114031","maintainers":[{"email":"","name":"ann"},{"email":"","name":"bob"}],"_id":"tool","dist-tags":{"latest":"1.1.0"},"name":"tool","versions":{"1.0.0":{"name":"tool"},"1.1.0":{"name":"tool"}}}"#;

// What npm 10 sends where it installs.
const OF_NPM: &str = "application/vnd.npm.install-v1+json; q=1.0, application/json; q=0.8, */*";

// A request; whether bob asks, or nobody; and the values of `accept` and `if-none-match`, which are absent
// where they are empty. ` => ` and what is asked, the status, the tag, which is absent where it is empty,
// how long it may be kept, the form, and the body. The tags are the revision of `tool`, and the digests
// of its abbreviated packument and of `archive`, as `sha256sum` told. Of two packages bob reads both, and
// nobody in particular only `tool`. `npm view`, `npm publish` and `npm deprecate` accept
// `application/json`. A change is none the less one: npm sends `accept` with each request.
const LABELLED: &str =
    r#"GET /tool|bob|| => RevisedPackument|200|a19ad3ca0a750021e752d6f385405e7e46a195a2a4b27f058a11b88727114031|Checked|Full|full
GET /tool|nobody|| => RevisedPackument|200|a19ad3ca0a750021e752d6f385405e7e46a195a2a4b27f058a11b88727114031|Checked|Full|full
GET /tool|bob||"a19ad3ca0a750021e752d6f385405e7e46a195a2a4b27f058a11b88727114031" => RevisedPackument|304|a19ad3ca0a750021e752d6f385405e7e46a195a2a4b27f058a11b88727114031|Checked|Full|
GET /tool|bob||"0a1b", W/"a19ad3ca0a750021e752d6f385405e7e46a195a2a4b27f058a11b88727114031" => RevisedPackument|304|a19ad3ca0a750021e752d6f385405e7e46a195a2a4b27f058a11b88727114031|Checked|Full|
GET /tool|bob||* => RevisedPackument|304|a19ad3ca0a750021e752d6f385405e7e46a195a2a4b27f058a11b88727114031|Checked|Full|
GET /tool|bob||"0a1b" => RevisedPackument|200|a19ad3ca0a750021e752d6f385405e7e46a195a2a4b27f058a11b88727114031|Checked|Full|full
GET /tool|bob||a19ad3ca0a750021e752d6f385405e7e46a195a2a4b27f058a11b88727114031 => RevisedPackument|200|a19ad3ca0a750021e752d6f385405e7e46a195a2a4b27f058a11b88727114031|Checked|Full|full
GET /hidden|bob||* => RevisedPackument|404||Unsaid|Only|{"error":"NotFound"}
GET /-/whoami|nobody||* => WhoAmI|401||Unsaid|Only|{"error":"NoCaller"}
GET /-/whoami|bob||* => WhoAmI|200||Unsaid|Only|{"username":"bob"}
GET /-/package/tool/dist-tags|bob||* => Tags|200||Unsaid|Only|{}
GET /-/ping|bob||* => nothing|200||Unsaid|Only|{}
GET /tool/-/tool-1.0.0.tgz|bob|| => Archive|200|0eb3e36bfb24dcd9bb1d1bece1531216b59539a8fde17ee80224af0653c92aa3|Kept|Only|archive
GET /tool/-/tool-1.0.0.tgz|nobody|| => Archive|200|0eb3e36bfb24dcd9bb1d1bece1531216b59539a8fde17ee80224af0653c92aa3|Shared|Only|archive
GET /tool/-/tool-1.0.0.tgz|nobody||"0eb3e36bfb24dcd9bb1d1bece1531216b59539a8fde17ee80224af0653c92aa3" => Archive|304|0eb3e36bfb24dcd9bb1d1bece1531216b59539a8fde17ee80224af0653c92aa3|Shared|Only|
GET /tool/-/tool-1.0.0.tgz|nobody||"5b6dd9a0246a391d959e635ec56a82a7bf0a299cfabbceeb0c65020839d1a22f" => Archive|200|0eb3e36bfb24dcd9bb1d1bece1531216b59539a8fde17ee80224af0653c92aa3|Shared|Only|archive
GET /@lab/kit/-/@lab/kit-1.0.0.tgz|bob|| => Archive|200|0eb3e36bfb24dcd9bb1d1bece1531216b59539a8fde17ee80224af0653c92aa3|Kept|Only|archive
GET /@lab%2fkit/-/kit-1.0.0.tgz|bob||* => Archive|304|0eb3e36bfb24dcd9bb1d1bece1531216b59539a8fde17ee80224af0653c92aa3|Kept|Only|
GET /@lab/kit/-/@lab/kit-1.0.0.tgz|nobody||* => Archive|404||Unsaid|Only|{"error":"NotFound"}
GET /tool|bob|npm| => AbbreviatedPackument|200|b8a4e15dfcecbabb6a8a16bcca50eb7c9f62c1afeb2bcc91c68617a7ab90264a|Checked|Abbreviated|abbreviated
GET /tool|bob|npm|"b8a4e15dfcecbabb6a8a16bcca50eb7c9f62c1afeb2bcc91c68617a7ab90264a" => AbbreviatedPackument|304|b8a4e15dfcecbabb6a8a16bcca50eb7c9f62c1afeb2bcc91c68617a7ab90264a|Checked|Abbreviated|
GET /tool|bob|npm|"a19ad3ca0a750021e752d6f385405e7e46a195a2a4b27f058a11b88727114031" => AbbreviatedPackument|200|b8a4e15dfcecbabb6a8a16bcca50eb7c9f62c1afeb2bcc91c68617a7ab90264a|Checked|Abbreviated|abbreviated
GET /tool?write=true|bob|application/vnd.npm.install-v1+json| => AbbreviatedPackument|200|b8a4e15dfcecbabb6a8a16bcca50eb7c9f62c1afeb2bcc91c68617a7ab90264a|Checked|Abbreviated|abbreviated
GET /tool|bob|application/json| => RevisedPackument|200|a19ad3ca0a750021e752d6f385405e7e46a195a2a4b27f058a11b88727114031|Checked|Full|full
GET /tool|bob|*/*| => RevisedPackument|200|a19ad3ca0a750021e752d6f385405e7e46a195a2a4b27f058a11b88727114031|Checked|Full|full
GET /tool|bob|| => RevisedPackument|200|a19ad3ca0a750021e752d6f385405e7e46a195a2a4b27f058a11b88727114031|Checked|Full|full
GET /tool|bob||"b8a4e15dfcecbabb6a8a16bcca50eb7c9f62c1afeb2bcc91c68617a7ab90264a" => RevisedPackument|200|a19ad3ca0a750021e752d6f385405e7e46a195a2a4b27f058a11b88727114031|Checked|Full|full
GET /hidden|bob|npm|* => AbbreviatedPackument|404||Unsaid|Only|{"error":"NotFound"}
GET /hidden|bob|*/*|* => RevisedPackument|404||Unsaid|Only|{"error":"NotFound"}
GET /gone|bob|*/*| => RevisedPackument|404||Unsaid|Only|{"error":"NotFound"}
GET /-/whoami|bob|npm|* => WhoAmI|200||Unsaid|Only|{"username":"bob"}
GET /tool/1.0.0|bob|npm|* => VersionDoc|200||Unsaid|Only|{}
GET /tool/-/tool-1.0.0.tgz|bob|npm| => Archive|200|0eb3e36bfb24dcd9bb1d1bece1531216b59539a8fde17ee80224af0653c92aa3|Kept|Only|archive
PUT /-/package/tool/dist-tags/next "1.0.0"|bob|npm|* => another|409||Unsaid|Only|{"error":"Waiting"}"#;

// The field of this value, which is absent where it is empty.
fn field_of(rt: &impl Abort, alloc: Global, value: &str) -> FieldValue {
    match value {
        "" => FieldValue::Absent,
        "npm" => FieldValue::Once(blob(rt, alloc, OF_NPM.as_bytes())),
        _ => FieldValue::Once(blob(rt, alloc, value.as_bytes())),
    }
}

fn is_labelled(rt: &impl Abort, alloc: Global, line: &str) {
    let (told, outcome) = line.split_once(" => ").expect(rt, line);
    let request = field(told, '|', 0);
    let who = field(told, '|', 1);
    let accept = field(told, '|', 2);
    let if_none_match = field(told, '|', 3);
    let method = field(request, ' ', 0);
    let target = field(request, ' ', 1);
    let body = field(request, ' ', 2);
    let token = if who == "bob" { Some(BOB) } else { None };
    let mut wanted = wanted(rt, alloc, method_of(method), target, body, token);
    wanted.accept = field_of(rt, alloc, accept);
    wanted.if_none_match = field_of(rt, alloc, if_none_match);
    let (asked, turned) = turned(rt, alloc, &wanted);
    let (asked, status) = (asked.trim_end(), turned.answer.status.as_u16());
    let labels = &turned.answer.labels;
    let tag = match &labels.tag {
        Some(tag) => as_text(tag.as_slice()),
        None => "",
    };
    let (caching, form) = (labels.caching, labels.form);
    let (front, rest) = turned.answer.body.as_slices();
    let body = concat(rt, alloc, &[as_text(front), as_text(rest)]);
    let body = match body.as_str() {
        FULL => "full",
        ABBREVIATED => "abbreviated",
        text => text,
    };
    let came_out = format!(in alloc; "{asked}|{status}|{tag}|{caching:?}|{form:?}|{body}");
    same(rt, line, came_out.expect(rt, "memory").as_str(), outcome);
}

#[test]
fn what_is_kept_is_labelled(rt: HostRuntime) {
    for line in LABELLED.lines() {
        is_labelled(&rt, rt.alloc(), line);
    }
}
