//! The table agrees with the crate `matchit`, where that can express what the table does: it has no
//! scopes of two segments, no file names of two, and treats `-` like any other name.

use super::asked_for;
use crate::outcome::same;
use crate::parts::{concat, string};
use matchit::Router;
use std::alloc::Global;
use std::process::Abort;

// A method, a route as `matchit` writes it, and what it asks for.
const ROWS: &str = "GET /{first} Packument
PUT /{first} Publish
GET /{first}/{second} VersionDoc
GET /{first}/-/{second} Archive
GET /-/package/{first}/dist-tags Tags
PUT /-/package/{first}/dist-tags/{second} TagSet
DELETE /-/package/{first}/dist-tags/{second} TagRemove
PUT /-/package/{first}/access SetAccess
PUT /-/package/{first}/owners/{second} OwnerAdd
DELETE /-/package/{first}/owners/{second} OwnerRemove
POST /-/package/{first}/deprecate Deprecate
DELETE /-/package/{first}/versions/{second} Withdraw
GET /-/org/{first} Members
PUT /-/org/{first}/{second} OrgSet
DELETE /-/org/{first}/{second} OrgRemove
GET /-/team/{first} Teams
GET /-/team/{first}/{second} TeamMembers
PUT /-/team/{first}/{second} TeamCreate
DELETE /-/team/{first}/{second} TeamDestroy
PUT /-/team/{first}/{second}/{third} TeamAdd
DELETE /-/team/{first}/{second}/{third} TeamRemove
GET /-/grant/{first}/{second} TeamPackages
PUT /-/grant/{first}/{second}/{third} Grant
DELETE /-/grant/{first}/{second}/{third} Revoke";

// Segments that don't begin a scope.
const SEGMENTS: [&str; 6] = ["kit", "@lab%2Fkit", "-", "org", "team", "%2d"];

const PREFIXES: [&str; 4] = ["/-/package", "/-/org", "/-/team", "/-/grant"];

const ENDS: [&str; 6] = [
    "kit",
    "dist-tags",
    "access",
    "owners",
    "versions",
    "deprecate",
];

// The routes of a method.
fn router_of(rt: &impl Abort, alloc: Global, method: &str) -> Router<&'static str> {
    let mut router = Router::new(alloc);
    for row in ROWS.lines() {
        let (row_method, rest) = row.split_once(' ').expect(rt, row);
        let (route, endpoint) = rest.split_once(' ').expect(rt, row);
        if row_method == method {
            router.insert(route, endpoint).expect(rt, "a route");
        }
    }
    router
}

// The route that `matchit` finds, except one of a package whose name is `-`.
fn found(rt: &impl Abort, alloc: Global, router: &Router<&str>, path: &str) -> String {
    let Ok(found) = router.at(path) else {
        return string(rt, alloc, "nothing");
    };
    let endpoint = *found.value;
    let first = found.params.get("first").unwrap_or("");
    let second = found.params.get("second").unwrap_or("");
    let third = found.params.get("third").unwrap_or("");
    let names_package = matches!(endpoint, "Packument" | "Publish" | "VersionDoc" | "Archive");
    if first == "-" && names_package {
        return string(rt, alloc, "nothing");
    }
    format!(in alloc; "{endpoint}|{first}|{second}|{third}").expect(rt, "memory")
}

// Checks that both say the same of a path.
fn agree(rt: &impl Abort, alloc: Global, router: &Router<&str>, method: &str, path: &str) {
    let came_out = asked_for(rt, alloc, method, path);
    let wanted = found(rt, alloc, router, path);
    same(rt, (method, path), came_out.as_str(), wanted.as_str());
}

// Checks that they do for each path of a prefix and one segment.
fn agree_behind(
    rt: &impl Abort,
    alloc: Global,
    router: &Router<&str>,
    method: &str,
    front: &str,
    segments: &[&str],
) {
    for first in segments {
        let path = concat(rt, alloc, &[front, "/", first]);
        agree(rt, alloc, router, method, &path);
    }
}

// Checks that they do for each path of a prefix and one or two segments.
fn agree_on_two(
    rt: &impl Abort,
    alloc: Global,
    router: &Router<&str>,
    method: &str,
    front: &str,
    segments: &[&str],
) {
    agree_behind(rt, alloc, router, method, front, segments);
    for first in segments {
        let path = concat(rt, alloc, &[front, "/", first]);
        agree_behind(rt, alloc, router, method, &path, segments);
    }
}

// Checks that they do for each path of a prefix and one to three of these segments.
fn agree_on(
    rt: &impl Abort,
    alloc: Global,
    router: &Router<&str>,
    method: &str,
    front: &str,
    segments: &[&str],
) {
    agree_behind(rt, alloc, router, method, front, segments);
    for first in segments {
        let path = concat(rt, alloc, &[front, "/", first]);
        agree_on_two(rt, alloc, router, method, &path, segments);
    }
}

#[test]
fn the_table_agrees_with_matchit(rt: HostRuntime) {
    for method in ["GET", "PUT", "POST", "DELETE", "HEAD"] {
        let router = router_of(&rt, rt.alloc(), method);
        agree_on(&rt, rt.alloc(), &router, method, "", &SEGMENTS);
        for front in PREFIXES {
            agree_on(&rt, rt.alloc(), &router, method, front, &ENDS);
        }
    }
}
