//! The policy on packages by the rows of a small registry, with answers written by hand from the
//! table of rules. The program decides by a standing instead; the stories of who may do what have
//! the same cases.
//!
//! The organisation `lab` has the owner ann, the admin amy and the developers bob and dan. Bob is
//! in its teams `developers` and `ops`, dan is in no team, and eve isn't a member. `@lab/kit` is
//! restricted: `developers` write it and `ops` read it. `@lab/app` is public: `developers` read it
//! and `ops` write it. The organisation `inc` has the owner eve, who is in its team `ops`. Bob
//! maintains `tool`, which is public. `@lab/none` and `none` were never published, and there is no
//! organisation `ghost`.

mod fixture;

use crate::access::fixture::registry;
use crate::outcome::same;
use crate::parts::{ident, name};
use registry_access::{AccessRows, Ask, Caller, allowed, level};
use std::alloc::Global;
use std::process::Abort;

// A caller and a package; ` => ` and the caller's level on it, and the answers where they ask to publish
// it, to write it, to manage its maintainers, and to read it.
const PACKAGES: &str =
    "operator @lab/kit => Nothing Err(Denied(A4)) Err(NotFound) Err(NotFound) Err(NotFound)
ann @lab/kit => Write Ok(A6) Ok(A6) Err(Denied(A7)) Ok(A8)
amy @lab/kit => Write Ok(A6) Ok(A6) Err(Denied(A7)) Ok(A8)
bob @lab/kit => Write Ok(A6) Ok(A6) Err(Denied(A7)) Ok(A8)
dan @lab/kit => Nothing Err(Denied(A6)) Err(NotFound) Err(NotFound) Err(NotFound)
eve @lab/kit => Nothing Err(Denied(A4)) Err(NotFound) Err(NotFound) Err(NotFound)
anonymous @lab/kit => Nothing Err(NoCaller) Err(NoCaller) Err(NoCaller) Err(NotFound)
operator @lab/app => Read Err(Denied(A4)) Err(Denied(A6)) Err(Denied(A7)) Ok(A8)
ann @lab/app => Write Ok(A6) Ok(A6) Err(Denied(A7)) Ok(A8)
amy @lab/app => Write Ok(A6) Ok(A6) Err(Denied(A7)) Ok(A8)
bob @lab/app => Write Ok(A6) Ok(A6) Err(Denied(A7)) Ok(A8)
dan @lab/app => Read Err(Denied(A6)) Err(Denied(A6)) Err(Denied(A7)) Ok(A8)
eve @lab/app => Read Err(Denied(A4)) Err(Denied(A6)) Err(Denied(A7)) Ok(A8)
anonymous @lab/app => Read Err(NoCaller) Err(NoCaller) Err(NoCaller) Ok(A8)
operator tool => Read Err(Denied(A6)) Err(Denied(A6)) Err(Denied(A7)) Ok(A8)
ann tool => Read Err(Denied(A6)) Err(Denied(A6)) Err(Denied(A7)) Ok(A8)
bob tool => Write Ok(A6) Ok(A6) Ok(A7) Ok(A8)
eve tool => Read Err(Denied(A6)) Err(Denied(A6)) Err(Denied(A7)) Ok(A8)
anonymous tool => Read Err(NoCaller) Err(NoCaller) Err(NoCaller) Ok(A8)
operator @lab/none => Nothing Err(Denied(A4)) Err(NotFound) Err(NotFound) Err(NotFound)
ann @lab/none => Nothing Ok(A4) Err(NotFound) Err(NotFound) Err(NotFound)
dan @lab/none => Nothing Ok(A4) Err(NotFound) Err(NotFound) Err(NotFound)
eve @lab/none => Nothing Err(Denied(A4)) Err(NotFound) Err(NotFound) Err(NotFound)
anonymous @lab/none => Nothing Err(NoCaller) Err(NoCaller) Err(NoCaller) Err(NotFound)
operator none => Nothing Err(Denied(A5)) Err(NotFound) Err(NotFound) Err(NotFound)
dan none => Nothing Ok(A5) Err(NotFound) Err(NotFound) Err(NotFound)
eve none => Nothing Ok(A5) Err(NotFound) Err(NotFound) Err(NotFound)
anonymous none => Nothing Err(NoCaller) Err(NoCaller) Err(NoCaller) Err(NotFound)
operator @ghost/kit => Nothing Err(NotFound) Err(NotFound) Err(NotFound) Err(NotFound)
ann @ghost/kit => Nothing Err(NotFound) Err(NotFound) Err(NotFound) Err(NotFound)
anonymous @ghost/kit => Nothing Err(NoCaller) Err(NoCaller) Err(NoCaller) Err(NotFound)";

fn caller(rt: &impl Abort, alloc: Global, who: &str) -> Caller {
    match who {
        "operator" => Caller::Operator,
        "anonymous" => Caller::Anonymous,
        _ => Caller::User(ident(rt, alloc, who)),
    }
}

fn is_told(rt: &impl Abort, alloc: Global, rows: &AccessRows, line: &str) {
    let (asked, wanted) = line.split_once(" => ").expect(rt, line);
    let (who, package) = asked.split_once(' ').expect(rt, line);
    let caller = caller(rt, alloc, who);
    let name = name(rt, alloc, package);
    let level = level(rows, &caller, &name);
    let publish = allowed(rows, &caller, &Ask::Publish(&name));
    let write = allowed(rows, &caller, &Ask::Write(&name));
    let owners = allowed(rows, &caller, &Ask::Owners(&name));
    let read = allowed(rows, &caller, &Ask::Read(&name));
    let told = format!(in alloc; "{level:?} {publish:?} {write:?} {owners:?} {read:?}");
    same(rt, line, told.expect(rt, "memory").as_str(), wanted);
}

#[test]
fn packages_by_rows(rt: HostRuntime) {
    let rows = registry(&rt, rt.alloc());
    for line in PACKAGES.lines() {
        is_told(&rt, rt.alloc(), &rows, line);
    }
}
