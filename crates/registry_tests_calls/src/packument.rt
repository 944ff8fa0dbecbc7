//! Packuments, documents and lists, from the rules as they are written down. Stories have lists of three
//! members and of three grants.

mod abbreviated;
mod manifests;
mod moments;
mod sending;
mod stream;
mod within;

use crate::outcome::same;
use crate::packument::stream::{KIT, KIT_TAGS, KIT_VERSIONS, KIT_WITHOUT_VERSIONS};
use crate::parts::{text, texts};
use registry_names::{DistTag, Fault, Moment, Text};
use registry_packument::{
    List, PackHead, PackTimes, VersionRow, VersionRows, VersionTime, list_text, packument_text,
    version_text,
};
use std::alloc::Global;
use std::process::Abort;

/// A tag, and the version that it names.
type TagCase = (&'static str, &'static str);

/// A version, its manifest and its message.
type VersionCase = (&'static str, &'static str, &'static str);

fn tags(rt: &impl Abort, alloc: Global, cases: &[TagCase]) -> Vec<DistTag> {
    let mut tags = Vec::new(alloc);
    for (tag, version) in cases {
        let (tag, version) = (text(rt, alloc, tag), text(rt, alloc, version));
        tags.push(DistTag { tag, version }).expect(rt, "memory");
    }
    tags
}

// The head of a package with these tags and versions, each published at 100, and one withdrawn at
// 200.
fn head(
    rt: &impl Abort,
    alloc: Global,
    name: &str,
    cases: &[TagCase],
    versions: &[VersionCase],
) -> PackHead {
    let times = PackTimes {
        versions: times(rt, alloc, versions),
        created: Moment::clamped(100),
        modified: Moment::clamped(200),
    };
    PackHead::new(text(rt, alloc, name), tags(rt, alloc, cases), times).expect(
        rt,
        "tags and versions in their order",
    )
}

fn times(rt: &impl Abort, alloc: Global, cases: &[VersionCase]) -> Vec<VersionTime> {
    let mut times = Vec::new(alloc);
    for (version, _, _) in cases {
        let version = text(rt, alloc, version);
        let published = Moment::clamped(100);
        times
            .push(VersionTime { version, published })
            .expect(rt, "memory");
    }
    times
}

fn versions(rt: &impl Abort, alloc: Global, cases: &[VersionCase]) -> Vec<VersionRow> {
    let mut rows = Vec::new(alloc);
    for (version, manifest, message) in cases {
        let row = VersionRow {
            version: text(rt, alloc, version),
            manifest: text(rt, alloc, manifest),
            message: text(rt, alloc, message),
        };
        rows.push(row).expect(rt, "memory");
    }
    rows
}

fn source(rt: &impl Abort, alloc: Global, cases: &[VersionCase]) -> VersionRows {
    VersionRows::new(versions(rt, alloc, cases)).expect(rt, "versions in their order")
}

// Checks a text, or that there is none because of the fault that says so.
fn is_text(rt: &impl Abort, shows: &str, told: &Result<Text, Fault>, wanted: &str) {
    let text = match told {
        Ok(text) => text.as_str(),
        Err(Fault::Database) => "none",
        Err(fault) => fault.text(),
    };
    same(rt, shows, text, wanted);
}

fn is_packument(
    rt: &impl Abort,
    alloc: Global,
    name: &str,
    tags: &[TagCase],
    versions: &[VersionCase],
    wanted: &str,
) {
    let head = head(rt, alloc, name, tags, versions);
    let told = packument_text(alloc, &head, &mut source(rt, alloc, versions));
    is_text(rt, wanted, &told, wanted);
}

const LAB_KIT: &[VersionCase] = &[(
    "1.0.0",
    r#"{"dist":{"integrity":"sha512-3a81oZNherrMQXNJriBBMRLm+k6JqX6iCp7u5ktV05ohkpkqJ0/BqDa6PCOj/uu9RU1EI2Q86A4qmslPpUyknw==","shasum":"a9993e364706816aba3e25717850c26c9cd0d89d","tarball":"http://localhost:8080/@lab/kit/-/@lab/kit-1.0.0.tgz"},"name":"@lab/kit","version":"1.0.0"}"#,
    "",
)];

const LAB_KIT_PACKUMENT: &str =
    r#"{"_id":"@lab/kit","dist-tags":{"latest":"1.0.0"},"name":"@lab/kit","time":{"1.0.0":"1970-01-01T00:01:40.000Z","created":"1970-01-01T00:01:40.000Z","modified":"1970-01-01T00:03:20.000Z"},"versions":{"1.0.0":{"dist":{"integrity":"sha512-3a81oZNherrMQXNJriBBMRLm+k6JqX6iCp7u5ktV05ohkpkqJ0/BqDa6PCOj/uu9RU1EI2Q86A4qmslPpUyknw==","shasum":"a9993e364706816aba3e25717850c26c9cd0d89d","tarball":"http://localhost:8080/@lab/kit/-/@lab/kit-1.0.0.tgz"},"name":"@lab/kit","version":"1.0.0"}}}"#;

// The tags have quotes, and a version has a message.
const QUOTES: &[TagCase] = &[("it's", "1.10.0"), (r#"say "hi""#, "1.9.0")];

const MESSAGE: &[VersionCase] = &[("1.10.0", r#"{"a":1}"#, "old"), ("1.9.0", "{}", "")];

const QUOTES_PACKUMENT: &str =
    r#"{"_id":"kit","dist-tags":{"it's":"1.10.0","say \"hi\"":"1.9.0"},"name":"kit","time":{"1.10.0":"1970-01-01T00:01:40.000Z","1.9.0":"1970-01-01T00:01:40.000Z","created":"1970-01-01T00:01:40.000Z","modified":"1970-01-01T00:03:20.000Z"},"versions":{"1.10.0":{"a":1,"deprecated":"old"},"1.9.0":{}}}"#;

const NOTHING: &str =
    r#"{"_id":"kit","dist-tags":{},"name":"kit","time":{"created":"1970-01-01T00:01:40.000Z","modified":"1970-01-01T00:03:20.000Z"},"versions":{}}"#;

const NO_DOCUMENT: &[VersionCase] = &[("1.0.0", "{}", ""), ("1.0.1", "[1]", "old")];

#[test]
fn packuments(rt: HostRuntime) {
    let (alloc, latest) = (rt.alloc(), [("latest", "1.0.0")]);
    is_packument(&rt, alloc, "@lab/kit", &latest, LAB_KIT, LAB_KIT_PACKUMENT);
    is_packument(&rt, alloc, "kit", &[], &[], NOTHING);
    is_packument(&rt, alloc, "kit", QUOTES, MESSAGE, QUOTES_PACKUMENT);
    is_packument(&rt, alloc, "kit", KIT_TAGS, KIT_VERSIONS, KIT);
    is_packument(&rt, alloc, "kit", KIT_TAGS, &[], KIT_WITHOUT_VERSIONS);
    is_packument(&rt, alloc, "kit", &[], NO_DOCUMENT, "none");
}

// A message; ` => ` and a manifest; ` => ` and the document, or `none`. The message stands in its place.
const DOCUMENTS: &str =
    r#"old => {"dist":{"integrity":"sha512-3a81oZNherrMQXNJriBBMRLm+k6JqX6iCp7u5ktV05ohkpkqJ0/BqDa6PCOj/uu9RU1EI2Q86A4qmslPpUyknw==","shasum":"a9993e364706816aba3e25717850c26c9cd0d89d","tarball":"http://localhost:8080/@lab/kit/-/@lab/kit-1.0.0.tgz"},"name":"@lab/kit","version":"1.0.0"} => {"deprecated":"old","dist":{"integrity":"sha512-3a81oZNherrMQXNJriBBMRLm+k6JqX6iCp7u5ktV05ohkpkqJ0/BqDa6PCOj/uu9RU1EI2Q86A4qmslPpUyknw==","shasum":"a9993e364706816aba3e25717850c26c9cd0d89d","tarball":"http://localhost:8080/@lab/kit/-/@lab/kit-1.0.0.tgz"},"name":"@lab/kit","version":"1.0.0"}
old => {"a":1,"z":2} => {"a":1,"deprecated":"old","z":2}
old => {"deprecated":"older"} => {"deprecated":"old"}
 => { "b": 1.50, "a": [] } => { "b": 1.50, "a": [] }
old => {"a":1.50,"b":-0,"z":{"c":[1e3]}} => {"a":1.50,"b":-0,"deprecated":"old","z":{"c":[1e3]}}
old => {"b":1,"z":2,"a":3,"a":4} => {"b":1,"deprecated":"old","z":2,"a":3,"a":4}
old => {"deprecated":1,"z":2,"deprecated":[3]} => {"deprecated":"old","z":2}
old => [1] => none
 => [1] => none"#;

#[test]
fn the_message_stands_in_its_place(rt: HostRuntime) {
    let alloc = rt.alloc();
    for line in DOCUMENTS.lines() {
        let (message, rest) = line.split_once(" => ").expect(&rt, line);
        let (manifest, wanted) = rest.split_once(" => ").expect(&rt, line);
        is_text(&rt, line, &version_text(alloc, manifest, message), wanted);
    }
    let told = version_text(alloc, "{}", "say \"no\"\n");
    is_text(&rt, "alone", &told, r#"{"deprecated":"say \"no\"\n"}"#);
    let spaced = "{ \"\\u0061\" : [ \"\\u00e9\\n\" ] ,\n\"z\" : null }\n";
    let wanted = "{\"a\":[\"\u{e9}\\n\"],\"deprecated\":\"old\",\"z\":null}";
    is_text(&rt, "spaces", &version_text(alloc, spaced, "old"), wanted);
}

#[test]
fn lists_of_none_and_of_three(rt: HostRuntime) {
    let alloc = rt.alloc();
    let none = List::Tags(Vec::new(alloc));
    is_text(&rt, "no tags", &list_text(alloc, &none), "{}");
    let none = List::Members(Vec::new(alloc));
    is_text(&rt, "no members", &list_text(alloc, &none), "{}");
    let none = List::Names(Vec::new(alloc));
    is_text(&rt, "no names", &list_text(alloc, &none), "[]");
    let none = List::Grants(Vec::new(alloc));
    is_text(&rt, "no grants", &list_text(alloc, &none), "{}");
    let tags = tags(
        &rt,
        alloc,
        &[("beta", "2.0.0-b"), ("it's", "1.10.0"), ("latest", "1.9.0")],
    );
    let wanted = r#"{"beta":"2.0.0-b","it's":"1.10.0","latest":"1.9.0"}"#;
    is_text(&rt, "tags", &list_text(alloc, &List::Tags(tags)), wanted);
    let names = texts(&rt, alloc, &["builders", "developers", "say \"hi\""]);
    let wanted = r#"["builders","developers","say \"hi\""]"#;
    is_text(&rt, "names", &list_text(alloc, &List::Names(names)), wanted);
}
