//! What a manifest is: a text that can be read into an object, and nothing else. The crate
//! `serde_json` 1.0 of Rust decides what can.

use crate::outcome::same;
use crate::packument::{VersionCase, head, source, versions};
use crate::parts::{as_text, concat, repeated};
use registry_names::{Fault, ToWrite};
use registry_packument::{
    PackFault, PackHead, VersionRows, packument_len, packument_text, version_text, write_packument,
};
use std::alloc::Global;
use std::process::Abort;

// The first is empty. One has a tab in a text.
const NO_MANIFESTS: [&str; 17] = [
    "",
    " ",
    "[1]",
    "\"x\"",
    "null",
    "1",
    "1e400",
    r#"{"a":1e400}"#,
    r#"{"a":[{"b":-1e400}]}"#,
    "\u{feff}{}",
    r#"{"a":1"#,
    r#"{"a":1,}"#,
    r#"{"a":01}"#,
    r#"{"a":"\ud800"}"#,
    "{\"a\":\"\t\"}",
    "{} {}",
    "{}x",
];

const MANIFESTS: [&str; 6] = [
    "{}",
    " {\n} ",
    r#"{"a":1.5,"b":1e300,"c":1e-400,"d":-0,"e":18446744073709551616}"#,
    r#"{"a":-9223372036854775808,"b":-9223372036854775809,"c":18446744073709551615}"#,
    r#"{"a":1,"a":2}"#,
    r#"{"z":[[],{},"\ud83d\ude00",true,false,null],"a":""}"#,
];

// Checks that a manifest has a document with a message and without one, or none because of this fault.
fn has_fault(rt: &impl Abort, alloc: Global, manifest: &str, fault: Option<Fault>) {
    let came_out = version_text(alloc, manifest, "").err();
    same(rt, manifest, came_out, fault);
    let came_out = version_text(alloc, manifest, "old").err();
    same(rt, manifest, came_out, fault);
}

const PREFIX: &str =
    r#"{"_id":"kit","dist-tags":{},"name":"kit","time":{"created":"1970-01-01T00:01:40.000Z","modified":"1970-01-01T00:03:20.000Z"},"versions":{"1.0.0":{}"#;

// Checks that where such a manifest follows one in form, there is no packument and no length, and what
// comes before it is written.
fn is_no_packument(rt: &impl Abort, alloc: Global, head: &PackHead, rows: &[VersionCase]) {
    let told = packument_text(alloc, head, &mut source(rt, alloc, rows)).err();
    same(rt, rows, told, Some(Fault::Database));
    let counted = packument_len(alloc, head, &mut source(rt, alloc, rows));
    same(rt, rows, counted, Err(Fault::Database));
    let mut out = Vec::new(alloc);
    let mut source = source(rt, alloc, rows);
    let end = write_packument(alloc, head, &mut source, &mut ToWrite::new(&mut out));
    same(rt, rows, end, Err(PackFault::Source(Fault::Database)));
    same(rt, rows, as_text(&out), PREFIX);
}

#[test]
fn what_is_no_object_has_no_document(rt: HostRuntime) {
    let alloc = rt.alloc();
    let head = head(&rt, alloc, "kit", &[], &[]);
    for text in NO_MANIFESTS {
        has_fault(&rt, alloc, text, Some(Fault::Database));
        for message in ["", "old"] {
            let rows = [("1.0.0", "{}", ""), ("1.0.1", text, message)];
            is_no_packument(&rt, alloc, &head, &rows);
        }
    }
}

// How deep arrays may be in one another, in an object.
const DEPTHS: [(usize, Option<Fault>); 3] = [
    (126, None),
    (127, Some(Fault::Database)),
    (200, Some(Fault::Database)),
];

#[test]
fn a_manifest_is_its_document(rt: HostRuntime) {
    let alloc = rt.alloc();
    for manifest in MANIFESTS {
        let document = version_text(alloc, manifest, "").expect(&rt, "a document");
        same(&rt, manifest, document.as_str(), manifest);
        has_fault(&rt, alloc, manifest, None);
    }
    for (depth, fault) in DEPTHS {
        let opened = repeated(&rt, alloc, "[", depth);
        let closed = repeated(&rt, alloc, "]", depth);
        let parts = ["{\"a\":", opened.as_str(), closed.as_str(), "}"];
        has_fault(&rt, alloc, concat(&rt, alloc, &parts).as_str(), fault);
    }
}

// Versions in byte order, each once, and versions that aren't.
const IN_ORDER: [&[VersionCase]; 3] = [
    &[],
    &[("1.0.0", "{}", "")],
    &[
        ("1.10.0", "{}", ""),
        ("1.9.0", "{}", ""),
        ("2.0.0", "{}", ""),
        ("2.0.0-b", "{}", ""),
    ],
];

const OUT_OF_ORDER: [&[VersionCase]; 4] = [
    &[("1.9.0", "{}", ""), ("1.10.0", "{}", "")],
    &[("1.0.0", "{}", ""), ("1.0.0", "{}", "")],
    &[
        ("1.0.0", "{}", ""),
        ("2.0.0", "{}", ""),
        ("1.1.0", "{}", ""),
    ],
    &[
        ("2.0.0", "{}", ""),
        ("1.0.0", "{}", ""),
        ("3.0.0", "{}", ""),
    ],
];

#[test]
fn rows_in_order_are_a_source(rt: HostRuntime) {
    for cases in IN_ORDER {
        let rows = VersionRows::new(versions(&rt, rt.alloc(), cases));
        same(&rt, cases, rows.is_some(), true);
    }
    for cases in OUT_OF_ORDER {
        let rows = VersionRows::new(versions(&rt, rt.alloc(), cases));
        same(&rt, cases, rows.is_some(), false);
    }
}
