//! What npm's documents ask for, and what is shown to npm.

mod judging;

use crate::outcome::{is_shown, same};
use crate::parts::{texts, words};
use registry_cache::ContentDigest;
use registry_documents::{Document, Revision, front};
use std::alloc::Global;
use std::process::Abort;

fn is_revision(rt: &impl Abort, alloc: Global, packument: &str, names: &str, wanted: &str) {
    let names = words(rt, alloc, names);
    let digest = ContentDigest::of(packument.as_bytes());
    let revision = Revision::of(alloc, &digest, &names).expect(rt, "memory");
    same(rt, packument, revision.text(), wanted);
    same(rt, packument, revision.is(wanted), true);
    same(rt, packument, revision.is("undefined"), false);
}

// The revision of a packument with the names of its maintainers, which `sha256sum` told: the digest of
// the packument's digest in hexadecimal and of the names, each with a line feed.
#[test]
fn revisions(rt: HostRuntime) {
    let none = "b8a4120408a76e335316de9a0c139291da653eaffab9cb1406bccf615a0ff495";
    is_revision(&rt, rt.alloc(), "{}", "", none);
    let two = "e061943b1620b6f0d5d7268741ab0875598c6e2cf336d459e2af31a53b186a66";
    is_revision(&rt, rt.alloc(), judging::TOOL, "bob eve", two);
}

// The names of a package's maintainers; ` => ` and what comes before its packument's second byte.
const FRONTS: &str =
    r#" => {"_rev":"b8a4120408a76e335316de9a0c139291da653eaffab9cb1406bccf615a0ff495",
bob => {"_rev":"b8a4120408a76e335316de9a0c139291da653eaffab9cb1406bccf615a0ff495","maintainers":[{"email":"","name":"bob"}],
bob e"e => {"_rev":"b8a4120408a76e335316de9a0c139291da653eaffab9cb1406bccf615a0ff495","maintainers":[{"email":"","name":"bob"},{"email":"","name":"e\"e"}],"#;

#[test]
fn fronts(rt: HostRuntime) {
    let digest = ContentDigest::of(b"{}");
    let none = texts(&rt, rt.alloc(), &[]);
    let revision = Revision::of(rt.alloc(), &digest, &none).expect(&rt, "memory");
    for line in FRONTS.lines() {
        let (names, wanted) = line.split_once(" => ").expect(&rt, line);
        let names = words(&rt, rt.alloc(), names);
        let front = front(rt.alloc(), &revision, &names).expect(&rt, "memory");
        same(&rt, wanted, front.as_str(), wanted);
    }
}

// The body of a request; ` => ` and what it is about, or why it is refused.
const KINDS: &str = r#"{"_attachments":{}} => Publication
{"_attachments":null,"_rev":"1","versions":{},"maintainers":[]} => Publication
{} => Publication
{"maintainers":[]} => Publication
{"_rev":"1","versions":{}} => Package
 {"versions":null} => Package
{"_rev":"1","versions":{},"maintainers":[]} => Package
{"_id":"tool","_rev":"1","maintainers":[]} => Maintainers
{"_rev":null,"maintainers":0} => Maintainers
{"_id":"tool","_rev":"1","users":{"bob":true}} => Other
 => BadBody
null => BadBody
[] => BadBody
{"_rev":"1"}} => BadBody
{"_rev":1e400} => BadBody"#;

#[test]
fn kinds_of_documents(rt: HostRuntime) {
    for line in KINDS.lines() {
        let (body, wanted) = line.split_once(" => ").expect(&rt, line);
        match Document::read(rt.alloc(), body.as_bytes()) {
            Ok(document) => is_shown(&rt, rt.alloc(), body, &document.kind(), wanted),
            Err(stop) => same(&rt, body, stop.text(), wanted),
        }
    }
}
