//! Connections that a registry takes over, and those that it hands back.

ghost use Rattle.std.specs.Prelude.{◌≡◌, true};

use crate::asking::{Asks, First, answered, asked, requests};
use crate::checks::{adopted, handed_back};
use crate::disks::{Kept, Leaves, NEVER, Stop, Stopping, Visit, visited};
use crate::outcome::same;
use crate::requests::COMMANDS;
use crate::sql::Work;
use registry_desk::Registry;
use registry_names::Fault;
use registry_tests_requests::QUERIES;
use sqlite::{Alter, Connection};
use std::alloc::Global;
use std::process::Abort;

/// More calls than an open makes of one file.
const MOST_CALLS: u64 = 1_000;

/// What something else changes in a registry's file, so that no registry opens, and what changes it
/// back.
static CHANGES: [(&str, &str); 4] = [
    (
        "CREATE VIEW people AS SELECT name FROM users",
        "DROP VIEW people",
    ),
    ("CREATE TABLE notes (note TEXT)", "DROP TABLE notes"),
    (
        "UPDATE meta SET value = 2 WHERE name = 'schema'",
        "UPDATE meta SET value = 3 WHERE name = 'schema'",
    ),
    (
        "UPDATE meta SET value = 4 WHERE name = 'schema'",
        "UPDATE meta SET value = 3 WHERE name = 'schema'",
    ),
];

#[test]
fn a_released_registry_is_adopted(rt: HostRuntime) {
    let registry = Registry::in_memory(rt.alloc()).expect(&rt, "a registry");
    shows_the_same(&rt, rt.alloc(), registry);
}

// What a registry shows after the commands is shown again where its connection is adopted.
fn shows_the_same<S: Alter + Drop>(ends: &impl Abort, alloc: Global, registry: Registry<S>) {
    let commands = requests(ends, alloc, COMMANDS);
    let queries = requests(ends, alloc, QUERIES);
    let queried = Asks::InTurn(queries.as_slice());
    let lists = [Asks::InTurn(commands.as_slice()), queried];
    let (shown, connection) = asked(ends, alloc, registry, First::Nothing, &lists);
    same(ends, "answered", answered(&shown), shown.len());
    let registry = adopted(ends, alloc, connection);
    let (found, connection) = asked(ends, alloc, registry, First::Nothing, &[queried]);
    let is_shown = shown.get(commands.len()..) == Some(found.as_slice());
    same(ends, "what is shown", is_shown, true);
    is_back_inside(ends, alloc, connection);
}

// A connection inside a transaction is handed back.
fn is_back_inside<S: Alter + Drop>(ends: &impl Abort, alloc: Global, connection: Connection<S>) {
    let mut connection = connection;
    connection
        .execute_batch("BEGIN")
        .expect(ends, "a transaction");
    if connection.is_autocommit() {
        panic!(ends; "no transaction is open");
    }
    is_back_as_it_was(ends, alloc, connection);
}

fn is_back_as_it_was<S: Alter + Drop>(ends: &impl Abort, alloc: Global, connection: Connection<S>)
    requires inside { connection.in_transaction ≡ true }
{
    let mut faults = Vec::new(alloc);
    let connection = handed_back(ends, alloc, connection, &mut faults);
    let is_fault = matches!(faults.as_slice(), [Err(Fault::Database)]);
    let comes_back = (is_fault, connection.is_autocommit());
    same(
        ends,
        "the fault, and it is inside",
        comes_back,
        (true, false),
    );
}

#[test]
fn what_another_hand_changed_is_handed_back(rt: HostRuntime) {
    are_handed_back(&rt, rt.alloc());
}

fn are_handed_back(ends: &impl Abort, alloc: Global) {
    let commands = requests(ends, alloc, COMMANDS);
    let lists = [Asks::InTurn(commands.as_slice())];
    let visit = Visit::Asks(First::Nothing, &lists);
    let (made, kept) = visited(ends, alloc, &Kept::nothing(alloc), NEVER, visit);
    same(ends, "answered", answered(&made.outcomes), commands.len());
    for (change, undo) in &CHANGES {
        is_handed_back(ends, alloc, &kept, change, undo);
    }
}

// The connection to changed files is handed back, and what an open of them hands back opens once the
// change is undone.
fn is_handed_back(ends: &impl Abort, alloc: Global, kept: &Kept, change: &str, undo: &str) {
    let changed = after(ends, alloc, kept, change);
    let (came, _) = visited(ends, alloc, &changed, NEVER, Visit::Works(Work::Adopts));
    let faults = came.outcomes.as_slice();
    let are_two = matches!(faults, [Err(Fault::Database), Err(Fault::Database)]);
    same(ends, change, are_two, true);
    let (fault, back) = opens(ends, alloc, &changed);
    same(ends, change, fault, Some(Fault::Database));
    let (fault, _) = opens(ends, alloc, &after(ends, alloc, &back, undo));
    same(ends, undo, fault, None);
}

// The files of a database that is changed by this SQL.
fn after(ends: &impl Abort, alloc: Global, kept: &Kept, change: &str) -> Kept {
    let visit = Visit::Works(Work::Runs(&[change], ""));
    let (came, kept) = visited(ends, alloc, kept, NEVER, visit);
    same(ends, change, came.unopened, None);
    kept
}

// The fault with which no registry opens from the files, and the files.
fn opens(ends: &impl Abort, alloc: Global, kept: &Kept) -> (Option<Fault>, Kept) {
    let visit = Visit::Asks(First::Nothing, &[]);
    let (came, kept) = visited(ends, alloc, kept, NEVER, visit);
    (came.unopened, kept)
}

#[test]
fn a_fault_of_the_disk_is_met_again(rt: HostRuntime) {
    is_met_again(&rt, rt.alloc());
}

// Lets the log of empty files stop at each call, until an adoption meets no fault: after a fault,
// another adoption meets it again, and a crash leaves files that open.
fn is_met_again(ends: &impl Abort, alloc: Global) {
    let nothing = Kept::nothing(alloc);
    let mut faults = 0u64;
    for calls in 0..MOST_CALLS {
        let stop = Stop {
            stopping: Stopping::Log,
            calls,
            leaves: Leaves::Synced,
        };
        let (came, left) = visited(ends, alloc, &nothing, stop, Visit::Works(Work::Adopts));
        if came.unopened.is_none() {
            if came.outcomes.is_empty() {
                return same(ends, "some adoptions fail", faults > 0, true);
            }
            same(ends, (calls, "both fail"), came.outcomes.len(), 2);
            let (fault, _) = opens(ends, alloc, &left);
            same(ends, (calls, "it opens"), fault, None);
            faults = faults.saturating_add(1);
        }
    }
    panic!(ends; "it stops after {MOST_CALLS} calls, too")
}
