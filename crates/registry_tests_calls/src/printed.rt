//! What is printed of answers, and how roles, grants and statuses are spelled.

use crate::outcome::{is_displayed, is_shown, same};
use crate::parts::{shared, shared_blob};
use registry_access::{Grant, Role};
use registry_cli::{print_reply, render};
use registry_names::{Refusal, Rule, Status, ToWrite};
use registry_rules::Reply;
use std::alloc::Global;
use std::process::Abort;

// Checks that this is rendered, and that the same is written to two streams.
fn is_printed(rt: &impl Abort, alloc: Global, reply: Reply, wanted: (&str, &str, u8)) {
    let printed = render(alloc, &reply).expect(rt, "memory");
    let came_out = (printed.out.as_slice(), printed.err.as_str(), printed.status);
    let (out, err, status) = wanted;
    same(rt, &reply, came_out, (out.as_bytes(), err, status));
    let mut output = Vec::new(alloc);
    let mut errors = Vec::new(alloc);
    let ended = print_reply(
        &reply,
        &mut ToWrite::new(&mut output),
        &mut ToWrite::new(&mut errors),
    );
    same(rt, &reply, &ended, &Ok(status));
    same(rt, &reply, output.as_slice(), out.as_bytes());
    same(rt, &reply, errors.as_slice(), err.as_bytes());
}

#[test]
fn answers_are_printed(rt: HostRuntime) {
    let alloc = rt.alloc();
    let ok = ("{\"ok\":true}\n", "", 0);
    is_printed(&rt, alloc, Reply::Created, ok);
    is_printed(&rt, alloc, Reply::Done, ok);
    let counted = ("{\"count\":12,\"ok\":true}\n", "", 0);
    is_printed(&rt, alloc, Reply::Count(12), counted);
    let document = Reply::Doc(shared(&rt, alloc, "{\"latest\":\"1.0.0\"}"));
    is_printed(&rt, alloc, document, ("{\"latest\":\"1.0.0\"}\n", "", 0));
    for bytes in ["", "abc", "abc\n"] {
        let archive = shared_blob(&rt, alloc, bytes.as_bytes());
        is_printed(&rt, alloc, Reply::Bytes(archive), (bytes, "", 0));
    }
    let refused = Reply::Refused(Refusal::NotFound);
    is_printed(&rt, alloc, refused, ("", "refused: NotFound\n", 1));
    let denied = Reply::Refused(Refusal::Denied(Rule::A6));
    is_printed(&rt, alloc, denied, ("", "refused: Denied A6\n", 1));
}

// Texts; and ` => ` and what they spell as a role, a grant or a status.
const SPELLED: &str = "role developer => Some(Developer)
role admin => Some(Admin)
role owner => Some(Owner)
role Owner => None
role owner  => None
role  => None
grant read-only => Some(ReadOnly)
grant read-write => Some(ReadWrite)
grant read_only => None
grant nothing => None
status public => Some(Public)
status restricted => Some(Restricted)
status private => None
status PUBLIC => None";

#[test]
fn roles_grants_and_statuses_are_spelled(rt: HostRuntime) {
    let alloc = rt.alloc();
    for line in SPELLED.lines() {
        let (told, wanted) = line.split_once(" => ").expect(&rt, line);
        let (kind, text) = told.split_once(' ').expect(&rt, line);
        match kind {
            "role" => is_shown(&rt, alloc, line, &Role::parse(text), wanted),
            "grant" => is_shown(&rt, alloc, line, &Grant::parse(text), wanted),
            _ => is_shown(&rt, alloc, line, &Status::parse(text), wanted),
        }
    }
    is_displayed(&rt, alloc, &Role::Owner, "owner");
    is_displayed(&rt, alloc, &Grant::ReadWrite, "read-write");
    is_displayed(&rt, alloc, &Status::Restricted, "restricted");
}
