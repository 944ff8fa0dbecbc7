//! Routes: the part of them that no answer over HTTP shows, and their table beside that of
//! `matchit`; the escapes of a path, and the tokens of authorizations.

mod agreement;
mod npm;

use crate::outcome::{is_shown, same};
use crate::parts::{as_text, method_of, string};
use registry_routes::{Values, bearer_token, decode_text, route_of};
use std::alloc::Global;
use std::fmt::Debug;
use std::process::Abort;

// Routes whose values no answer shows: a name or a file that isn't in form is refused like any
// other. The stories of `http_paths.txt` have what an answer shows of routes. A line has a method and a
// target, and ` => ` and what they ask for with the values of the path. An empty target leads nowhere.
const UNSHOWN: &str = "GET /@lab => Packument|@lab||
GET /@lab/- => Packument|@lab/-||
GET /@lab/-/x.tgz => VersionDoc|@lab/-|x.tgz|
GET /kit/-/a/b => Archive|kit|a/b|
GET /kit/-/- => Archive|kit|-|
GET /kit/- => VersionDoc|kit|-|
GET /%2d => Packument|%2d||
GET /% => Packument|%||
GET /-/org/- => Members|-||
GET /-/package/-/dist-tags => Tags|-||
GET  => nothing";

// What is asked for, and the values of the path.
fn told<E: Debug>(rt: &impl Abort, alloc: Global, endpoint: &E, values: &Values<'_>) -> String {
    let (first, second) = (as_text(values.first), as_text(values.second));
    let third = as_text(values.third);
    format!(in alloc; "{endpoint:?}|{first}|{second}|{third}").expect(rt, "memory")
}

// What a request asks for by the registry's own routes.
fn asked_for(rt: &impl Abort, alloc: Global, method: &str, target: &str) -> String {
    match route_of(method_of(method), target.as_bytes()) {
        Some(route) => told(rt, alloc, &route.endpoint, &route.values),
        None => string(rt, alloc, "nothing"),
    }
}

#[test]
fn values_that_no_answer_shows(rt: HostRuntime) {
    for line in UNSHOWN.lines() {
        let (request, wanted) = line.split_once(" => ").expect(&rt, line);
        let (method, target) = request.split_once(' ').expect(&rt, line);
        let came_out = asked_for(&rt, rt.alloc(), method, target);
        same(&rt, line, came_out.as_str(), wanted);
    }
}

fn is_read(rt: &impl Abort, alloc: Global, written: &[u8], wanted: &str) {
    match decode_text(alloc, written) {
        Ok(text) => same(rt, written, text.as_str(), wanted),
        Err(stop) => same(rt, written, stop.text(), wanted),
    }
}

// What is written, before what it spells is a name, a version or a tag; and ` => ` and the text that it
// spells, or the refusal.
const WRITTEN: &str = "a%20b => a b
%C3%a4 => \u{e4}
% => %
%2 => %2
%%41 => %A
%zz => %zz
%2525 => %25
%c3 => BadName";

#[test]
fn escapes_spell_texts(rt: HostRuntime) {
    for line in WRITTEN.lines() {
        let (written, wanted) = line.split_once(" => ").expect(&rt, line);
        is_read(&rt, rt.alloc(), written.as_bytes(), wanted);
    }
    is_read(&rt, rt.alloc(), b"\xff", "BadName");
}

// The value of an `authorization` field, and ` => ` and the token that it shows. No user has these: such a
// token is refused like one that isn't in form.
const SHOWN: &str = "BEARER   a => Some(\"a\")
bEaReR a b => Some(\"a b\")
Bearer \u{e4} => Some(\"\u{e4}\")
Bearer  => Some(\"\")
 Bearer a => None";

#[test]
fn tokens_of_authorizations(rt: HostRuntime) {
    for line in SHOWN.lines() {
        let (value, wanted) = line.split_once(" => ").expect(&rt, line);
        let token = bearer_token(value.as_bytes());
        is_shown(&rt, rt.alloc(), line, &token, wanted);
    }
    same(&rt, "no text", bearer_token(b"Bearer \xff"), None);
}
