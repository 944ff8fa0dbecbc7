//! Registries that are made from copies: over files in memory, and at paths.

use super::{DONE, begin, end, leaves};
use crate::outcome::same;
use crate::tests::at_path::change;
use crate::tests::in_files::{asked, released};
use crate::tests::lists::LAB_KIT;
use registry_files::settle_copy;
use registry_tests_requests::Outcome;
use sqlite::Files;
use sqlite_disk::{Disk, Memory};
use std::alloc::Global;
use std::fs;
use std::process::Abort;

#[test]
fn a_copy_with_a_log_becomes_one_file_with_all_of_the_registry(rt: HostRuntime) {
    let alloc = rt.alloc();
    let (files, tags) = left_open(&rt, alloc, alone(&rt, alloc, &[]), LAB_KIT);
    let is_empty = files.log.bytes().is_empty();
    same(&rt, "the log is empty", is_empty, false);
    let (files, wrong) = settled(&rt, &rt, files);
    same(&rt, "what is wrong", wrong, 0);
    let whole = alone(&rt, alloc, files.db.bytes());
    let (_files, same_tags) = left_open(&rt, alloc, whole, "");
    same(&rt, "the tags", &same_tags, &tags);
}

// A database file of these bytes, without a log.
fn alone(ends: &impl Abort, alloc: Global, bytes: &[u8]) -> Files<Memory> {
    let mut db = Memory::new(alloc);
    db.write_at(0, bytes).expect(ends, "bytes");
    db.sync().expect(ends, "bytes");
    Files {
        log: Memory::new(alloc),
        db,
    }
}

// The registry in the files is asked the requests of a text: the files as they lie then, and what is
// answered for the tags of `@lab/kit`.
fn left_open<D: Disk + Drop>(
    ends: &impl Abort,
    alloc: Global,
    files: Files<D>,
    text: &str,
) -> (Files<D>, Outcome) {
    let (registry, tags) = asked(ends, alloc, files, text);
    (released(registry).into_store().close(), tags)
}

// The files of a registry that is closed, and how many things are wrong in it.
fn settled<D: Disk + Drop>(
    rt: &HostRuntime,
    ends: &impl Abort,
    files: Files<D>,
) -> (Files<D>, usize) {
    if !files.may_be_used() {
        panic!(ends; "the files can't be used");
    }
    match settle_copy(rt, rt.alloc(), "registry.db", files, true) {
        Ok((files, lines)) => (files, lines.len()),
        Err(_) => panic!(ends; "nothing is restored"),
    }
}

const COPY: &str = "files_of_copies/copy.db";

const MADE: &str = "files_of_copies/made.db";

/// The log of an earlier file, which an open of the file would take for its own.
const LOG: &str = "files_of_copies/made.db-wal";

const ADD_ANN: &str = "--db files_of_copies/copy.db --operator user-add ann";

const RESTORE: &str = "--db files_of_copies/made.db restore files_of_copies/copy.db";

const RESTORE_UNCHECKED: &str =
    "--db files_of_copies/made.db restore --no-check files_of_copies/copy.db";

/// An organisation that nobody owns, and that has no team.
const CHANGE: &str = "INSERT INTO orgs (name) VALUES ('lab')";

/// What is wrong in such a copy is told, and nothing is put in its place.
const BROKEN: &str =
    "wrong: organisation lab has no owner\nwrong: organisation lab has no team developers\n";

/// A file that is there stays, and so does a log.
const TAKEN: &str =
    "fault: File\nthe registry's file is there, or its -wal, -part or -part-wal: move it away first\n";

#[test]
fn a_copy_that_breaks_a_rule_is_not_put_in_place(rt: HostRuntime) {
    begin(&rt, &rt, "files_of_copies");
    leaves(&rt, &rt, ADD_ANN, DONE);
    change(&rt, &rt, COPY, CHANGE);
    leaves(&rt, &rt, RESTORE, (1, "", BROKEN));
    let is_there = fs::exists(&rt, MADE).expect(&rt, "a look at the folder");
    same(&rt, "a file is there", is_there, false);
    fs::write(&rt, LOG, b"").expect(&rt, "a log");
    leaves(&rt, &rt, RESTORE_UNCHECKED, (3, "", TAKEN));
    fs::remove_file(&rt, LOG).expect(&rt, "no log");
    leaves(&rt, &rt, RESTORE_UNCHECKED, DONE);
    leaves(&rt, &rt, RESTORE_UNCHECKED, (3, "", TAKEN));
    end(&rt, "files_of_copies");
}
