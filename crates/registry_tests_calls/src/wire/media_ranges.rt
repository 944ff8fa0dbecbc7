//! Which requests accept an abbreviated document: what clients send, the examples of RFC 9110 (12.5.1),
//! and what is at the edges of its grammar.

use crate::outcome::same;
use crate::parts::{as_text, blob};
use registry_wire::{FieldValue, First, accepts_abbreviated, first_in};
use std::alloc::Global;
use std::process::Abort;

// Each line says whether a value of `accept`, which stands behind the colon, accepts an abbreviated
// document or declines it.

// What clients send: yarn, pnpm and `npm outdated` the first, `npm install` the third, a browser the
// fourth and curl the last.
const CLIENTS: &str =
    "accepts: application/vnd.npm.install-v1+json; q=1.0, application/json; q=0.8, */*
accepts: application/vnd.npm.install-v1+json
declines: application/json
declines: text/html,application/xhtml+xml,application/xml;q=0.9,*/*;q=0.8
declines: */*";

// The examples of RFC 9110, and the same with the type in them.
const EXAMPLES: &str = "declines: audio/*; q=0.2, audio/basic
declines: text/plain; q=0.5, text/html, text/x-dvi; q=0.8, text/x-c
declines: text/*, text/plain, text/plain;format=flowed, */*
declines: text/*;q=0.3, text/plain;q=0.7, text/plain;format=flowed, text/plain;format=fixed;q=0.4, */*;q=0.5
accepts: audio/*; q=0.2, application/vnd.npm.install-v1+json
accepts: text/plain; q=0.5, text/html, application/vnd.npm.install-v1+json; q=0.8, text/x-c
accepts: text/*;q=0.3, application/vnd.npm.install-v1+json;format=fixed;q=0.4, */*;q=0.5
declines: text/*;q=0.3, application/vnd.npm.install-v1+json;format=fixed;q=0, */*;q=0.5";

// Weights, behind the type. A weight has three digits at most, so what isn't one refuses nothing.
const WEIGHTS: &str = "declines: application/vnd.npm.install-v1+json;q=0
declines: application/vnd.npm.install-v1+json;q=0.
declines: application/vnd.npm.install-v1+json;q=0.0
declines: application/vnd.npm.install-v1+json;q=0.00
declines: application/vnd.npm.install-v1+json;q=0.000
declines: application/vnd.npm.install-v1+json;Q=0
declines: application/vnd.npm.install-v1+json;Q=0.000
declines: application/vnd.npm.install-v1+json; q=0
declines: application/vnd.npm.install-v1+json ;q=0 
declines: application/vnd.npm.install-v1+json\t; \tq=0.0\t 
declines: application/vnd.npm.install-v1+json;level=1;q=0
declines: application/vnd.npm.install-v1+json;q=0;level=1
declines: application/vnd.npm.install-v1+json;;q=0
declines: application/vnd.npm.install-v1+json;q=0, */*
accepts: application/vnd.npm.install-v1+json
accepts: application/vnd.npm.install-v1+json;
accepts: application/vnd.npm.install-v1+json;q=1
accepts: application/vnd.npm.install-v1+json;q=1.000
accepts: application/vnd.npm.install-v1+json;q=0.001
accepts: application/vnd.npm.install-v1+json;q=0.5
accepts: application/vnd.npm.install-v1+json;q=0.0000
accepts: application/vnd.npm.install-v1+json;q=00
accepts: application/vnd.npm.install-v1+json;q=
accepts: application/vnd.npm.install-v1+json;q
accepts: application/vnd.npm.install-v1+json;q = 0
accepts: application/vnd.npm.install-v1+json;qq=0
accepts: application/vnd.npm.install-v1+json;q=0, application/vnd.npm.install-v1+json";

// Lists, empty elements and white space in them, and letters of either case.
const LISTS: &str = "accepts: ,application/vnd.npm.install-v1+json
accepts: application/vnd.npm.install-v1+json,
accepts: , ,,\tapplication/vnd.npm.install-v1+json\t, ,
accepts: a/b,application/vnd.npm.install-v1+json,c/d
accepts: Application/VND.npm.Install-V1+JSON
accepts: APPLICATION/VND.NPM.INSTALL-V1+JSON;Q=0.1
declines: 
declines: ,
declines:  , ,
declines: ;q=1";

// Other types, and values with a quotation mark.
const OTHERS: &str = "declines: application/*
declines: application/vnd.npm.install-v1
declines: application/vnd.npm.install-v1+jso
declines: application/vnd.npm.install-v1+jsonx
declines: xapplication/vnd.npm.install-v1+json
declines: application/ vnd.npm.install-v1+json
declines: application/vnd.npm.install-v1+json a/b
declines: application/vnd-npm.install-v1+json
declines: a/b;application/vnd.npm.install-v1+json
declines: a/b;c=\", application/vnd.npm.install-v1+json, \"
declines: application/vnd.npm.install-v1+json;c=\";q=0\"
declines: application/vnd.npm.install-v1+json, a/b;c=\"d\"
declines: \"application/vnd.npm.install-v1+json\"
declines: application/vnd.npm.install-v1+json, \"";

fn once(rt: &impl Abort, alloc: Global, value: &str) -> FieldValue {
    FieldValue::Once(blob(rt, alloc, value.as_bytes()))
}

fn are_accepted(rt: &impl Abort, alloc: Global, lines: &str) {
    for line in lines.lines() {
        let (told, value) = line.split_once(':').expect(rt, line);
        let value = value.strip_prefix(' ').unwrap_or("");
        let is_accepted = accepts_abbreviated(&once(rt, alloc, value));
        same(rt, line, is_accepted, told == "accepts");
    }
}

#[test]
fn values_accept_abbreviated_documents(rt: HostRuntime) {
    for lines in [CLIENTS, EXAMPLES, WEIGHTS, LISTS, OTHERS] {
        are_accepted(&rt, rt.alloc(), lines);
    }
    let absent = accepts_abbreviated(&FieldValue::Absent);
    same(&rt, "absent", absent, false);
    let repeated = accepts_abbreviated(&FieldValue::Repeated);
    same(&rt, "repeated", repeated, false);
}

// What the field `accept` of a request comes to.
fn said(rt: &impl Abort, alloc: Global, case: &str, head: &str, wanted: &FieldValue) {
    match first_in(alloc, head.as_bytes()) {
        Ok(First::Whole(request, _)) => {
            let is_same = request.accept == *wanted;
            same(rt, case, is_same, true);
        }
        _ => same(rt, case, as_text(head.as_bytes()), "a whole request"),
    }
}

#[test]
fn a_request_keeps_what_it_accepts(rt: HostRuntime) {
    let alloc = rt.alloc();
    let none = "GET /kit HTTP/1.1\r\nhost: l\r\nx-accept: a/b\r\n\r\n";
    said(&rt, alloc, "none", none, &FieldValue::Absent);
    let one = "GET /kit HTTP/1.1\r\naccept-encoding: gzip\r\nAccept: \t*/* ;q=0.1 \r\n\r\n";
    said(&rt, alloc, "one", one, &once(&rt, alloc, "*/* ;q=0.1"));
    let empty = "GET /kit HTTP/1.1\r\naccept:\r\n\r\n";
    said(&rt, alloc, "empty", empty, &once(&rt, alloc, ""));
    let two = "GET /kit HTTP/1.1\r\naccept: a/b\r\nACCEPT: c/d\r\n\r\n";
    said(&rt, alloc, "two", two, &FieldValue::Repeated);
}
