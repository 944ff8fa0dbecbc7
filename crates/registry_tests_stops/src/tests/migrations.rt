//! Registries of older schemas whose files stop at each call while they are migrated. Whatever the
//! stop leaves, the registry opens afterwards with everything that it held. What else can be seen of
//! a migration is told by stories.

mod first;
mod second;

use crate::asking::First;
use crate::disks::{Kept, Leaves, NEVER, Stop, Stopping, Visit, visited};
use crate::outcome::same;
use crate::sql::Work;
use registry_tables::TABLES;
use std::alloc::Global;
use std::process::Abort;

/// More calls than an open makes of one file.
const MOST_CALLS: u64 = 10_000;

#[test]
fn a_loss_of_power_loses_nothing(rt: HostRuntime) {
    no_stop_loses_anything(&rt, rt.alloc(), Leaves::Synced);
}

#[test]
fn a_kill_loses_nothing(rt: HostRuntime) {
    no_stop_loses_anything(&rt, rt.alloc(), Leaves::Written);
}

// Registries of both older schemas outlive all stops.
fn no_stop_loses_anything(ends: &impl Abort, alloc: Global, leaves: Leaves) {
    let first = made(ends, alloc, &TABLES[..14], first::ROWS);
    let second = made(ends, alloc, &TABLES[..17], second::ROWS);
    for stopping in [Stopping::Database, Stopping::Log, Stopping::Both] {
        let stop = Stop {
            stopping,
            calls: 0,
            leaves,
        };
        outlives_stops(ends, alloc, &first, first::SHOWN, stop);
        outlives_stops(ends, alloc, &second, second::SHOWN, stop);
    }
}

// Files with the tables that these texts make, and the rows that the statements of a text put.
fn made(ends: &impl Abort, alloc: Global, tables: &[&str], rows: &str) -> Kept {
    let nothing = Kept::nothing(alloc);
    let work = Visit::Works(Work::Runs(tables, ""));
    let (made, older) = visited(ends, alloc, &nothing, NEVER, work);
    same(ends, "the tables", made.is_whole, true);
    let work = Visit::Works(Work::Runs(&[rows], ""));
    let (made, older) = visited(ends, alloc, &older, NEVER, work);
    same(ends, "the rows", made.is_whole, true);
    older
}

// Lets a file of the older registry, or each, stop at its first call, at its second, and so on,
// until an open and a close aren't stopped.
fn outlives_stops(ends: &impl Abort, alloc: Global, older: &Kept, shows: &str, stop: Stop) {
    for calls in 0..MOST_CALLS {
        let stop = Stop { calls, ..stop };
        let (is_whole, left) = opened_once(ends, alloc, older, stop, First::Nothing);
        opens_again(ends, alloc, calls, &left, shows);
        if is_whole {
            return;
        }
    }
    panic!(ends; "it stops after {MOST_CALLS} calls, too")
}

// Checks that the registry in the files opens and closes, and again; that no row of it breaks a
// rule; and that it holds afterwards what the text says.
fn opens_again(ends: &impl Abort, alloc: Global, calls: u64, left: &Kept, shows: &str) {
    let (is_whole, kept) = opened_once(ends, alloc, left, NEVER, First::Nothing);
    same(ends, (calls, "opened and closed"), is_whole, true);
    let (is_whole, kept) = opened_once(ends, alloc, &kept, NEVER, First::Checked);
    same(ends, (calls, "and once more"), is_whole, true);
    let work = Visit::Works(Work::Runs(&[], shows));
    let (shown, _) = visited(ends, alloc, &kept, NEVER, work);
    same(ends, (calls, "and shown"), shown.unopened.is_none(), true);
}

// Whether a registry in the files opens and closes, and what it leaves.
fn opened_once(
    ends: &impl Abort,
    alloc: Global,
    kept: &Kept,
    stop: Stop,
    first: First,
) -> (bool, Kept) {
    let (came, left) = visited(ends, alloc, kept, stop, Visit::Asks(first, &[]));
    (came.is_whole, left)
}
