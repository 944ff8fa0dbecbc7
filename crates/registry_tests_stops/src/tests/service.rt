//! A service over a registry whose log fails after some calls: a fault is returned, and the service
//! is over where the fault has shut the registry.

use crate::asking::{First, requests};
use crate::disks::{Kept, Leaves, Stop, Stopping, Visit, visited};
use crate::outcome::same;
use crate::requests::{ADD_ANN, TAGS_OF_NONE};
use registry_names::Fault;
use registry_tests_requests::Outcome;
use std::alloc::Global;
use std::process::Abort;

/// More calls than an open and a request make of the log.
const ENOUGH: u64 = 1_000;

#[test]
fn a_service_is_over_once_the_disk_has_shut_its_registry(rt: HostRuntime) {
    is_over_once_shut(&rt, rt.alloc());
}

// Lets the log fail after its first call, after its second, and so on, until the request is
// answered. Of the faults, some end the service, and some don't.
fn is_over_once_shut(ends: &impl Abort, alloc: Global) {
    let commands = requests(ends, alloc, ADD_ANN);
    let queries = requests(ends, alloc, TAGS_OF_NONE);
    let command = commands.first().expect(ends, "a command");
    let query = queries.first().expect(ends, "a query");
    let kept = Kept::nothing(alloc);
    let mut seen = (false, false);
    for calls in 0..ENOUGH {
        let stop = Stop {
            stopping: Stopping::Log,
            calls,
            leaves: Leaves::Written,
        };
        let visit = Visit::Asks(First::Served(command, query), &[]);
        let (came, _) = visited(ends, alloc, &kept, stop, visit);
        if is_answered(ends, &came.outcomes, &mut seen) {
            return same(ends, "both are seen", seen, (true, true));
        }
    }
    panic!(ends; "no request is answered")
}

// Whether the command is answered. If it is answered by a fault, that is the one of a disk that fails,
// and it is noted whether the query is answered, or the service is over.
fn is_answered(ends: &impl Abort, outcomes: &[Outcome], seen: &mut (bool, bool)) -> bool {
    match outcomes {
        [Ok(_)] => return true,
        [Err(fault), Ok(_)] => {
            same(ends, "it goes on", *fault, Fault::Database);
            seen.0 = true;
        }
        [Err(fault), Err(_)] => {
            same(ends, "it is over", *fault, Fault::Database);
            seen.1 = true;
        }
        _ => {}
    }
    false
}
