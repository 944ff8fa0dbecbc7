//! Registries in the machine's files: which files become one, and from which none opens. Such a
//! file isn't changed, and the program reports why.

use crate::outcome::same;
use crate::tests::at_path::number_in;
use crate::tests::in_files::released;
use crate::tests::lies::{ADD_ANN, FOLDER, LOG, Lies, PATH, lay};
use crate::tests::program::{DONE, Left, end, leaves};
use registry_desk::Registry;
use sqlite::{FileStore, Unknown};
use sqlite_disk::Disk;
use std::os::unix::fs::PermissionsExt;
use std::process::Abort;
use std::{fs, io};

/// The file has the user `ann`.
const THERE: Left<'static> = (1, "", "refused: Exists\n");

const FOREIGN: &str =
    "fault: Database\nthe file holds no registry, or was changed by another hand\n";

const NEWER: &str = "fault: Database\na newer program wrote the registry's file\n";

const OLDER: &str =
    "fault: Database\nthe registry's file has an older schema and can't be migrated\n";

const UNREACHABLE: &str = "fault: Database\nthe registry's file can't be opened or written\n";

const BUSY: &str = "fault: Database\nanother process has the registry's file\n";

/// A command, a query and a server, each of which opens the registry's file.
static LINES: [&str; 3] = [
    ADD_ANN,
    "--db files_of_registries/registry.db tags kit",
    "--db files_of_registries/registry.db serve",
];

/// Where a registry opens: nothing, an empty file, one of one byte, and a database without tables
/// become one.
static NEW: [Lies; 4] = [
    Lies::Nothing,
    Lies::Text(""),
    Lies::Text("S"),
    Lies::Program("CREATE TABLE gone (a TEXT); DROP TABLE gone"),
];

/// Registries, which hold what they held. One counts for its archives.
static OLD: [Lies; 2] = [
    Lies::Registry,
    Lies::Changed("INSERT INTO sqlite_sequence VALUES ('archives', 5)"),
];

/// Files that aren't a registry. Spoiled is a byte of the file's head, and one of a row.
static DAMAGED: [Lies; 6] = [
    Lies::Text("no registry, but some text"),
    Lies::Text("SQLite format 3\0 and then something else"),
    Lies::Cut(100_000),
    Lies::Cut(4096),
    Lies::Spoiled(24),
    Lies::Spoiled(100_000),
];

/// Where there is no file of a registry alone.
static MISPLACED: [Lies; 3] = [Lies::Folder, Lies::Nowhere, Lies::Linked];

/// Databases that aren't a registry of this schema, and what is printed: another program's tables, a
/// number of no schema, the last index less, a greater number, and tables of an older schema without a
/// number.
static OTHERS: [(Lies, &str); 5] = [
    (
        Lies::Program("CREATE TABLE note (id INTEGER PRIMARY KEY, title TEXT)"),
        FOREIGN,
    ),
    (Lies::Changed("UPDATE meta SET value = 0"), FOREIGN),
    (Lies::Changed("DROP INDEX owners_by_user"), FOREIGN),
    (Lies::Changed("UPDATE meta SET value = 4"), NEWER),
    (Lies::Older, OLDER),
];

/// What else makes a registry one of another schema: a table more and one less, no number, an index
/// less, and tables that count for something else, for archives twice, and for no name.
const CHANGES: &str = "CREATE TABLE more (a TEXT)
DROP TABLE tags
DELETE FROM meta
DROP INDEX need_ranges_by_target
INSERT INTO sqlite_sequence VALUES ('ann', 1)
INSERT INTO sqlite_sequence VALUES ('archives', 1), ('archives', 2)
INSERT INTO sqlite_sequence VALUES (NULL, 'ann')";

#[test]
fn files_become_registries(rt: HostRuntime) {
    for lies in &NEW {
        lay(&rt, &rt, *lies);
        leaves(&rt, &rt, ADD_ANN, DONE);
    }
    for lies in &OLD {
        lay(&rt, &rt, *lies);
        leaves(&rt, &rt, ADD_ANN, THERE);
    }
    end(&rt, FOLDER);
}

#[test]
fn damaged_files_are_kept(rt: HostRuntime) {
    for lies in &DAMAGED {
        is_kept(&rt, &rt, *lies, &LINES, FOREIGN);
    }
    for lies in &MISPLACED {
        is_kept(&rt, &rt, *lies, &LINES, UNREACHABLE);
    }
    end(&rt, FOLDER);
}

#[test]
fn databases_of_others_are_kept(rt: HostRuntime) {
    for (lies, errors) in &OTHERS {
        is_kept(&rt, &rt, *lies, &LINES, errors);
    }
    for change in CHANGES.lines() {
        is_kept(&rt, &rt, Lies::Changed(change), &[ADD_ANN], FOREIGN);
    }
    end(&rt, FOLDER);
}

#[test]
fn a_registry_is_its_owners_alone_and_held_by_one(rt: HostRuntime) {
    lay(&rt, &rt, Lies::Registry);
    match Registry::open(&rt, PATH, Unknown) {
        Ok(held) => is_held(&rt, &rt, held),
        Err(_) => panic!(rt; "the registry doesn't open"),
    }
    leaves(&rt, &rt, ADD_ANN, THERE);
    end(&rt, FOLDER);
}

// No registry opens from this, and it isn't changed. Each line prints these errors.
fn is_kept(rt: &HostRuntime, ends: &impl Abort, lies: Lies, lines: &[&str], errors: &str) {
    lay(rt, ends, lies);
    stays(rt, ends, lies, lines, errors);
}

fn stays(rt: &HostRuntime, ends: &impl Abort, lies: Lies, lines: &[&str], errors: &str) {
    let before = fs::read(rt, PATH).ok();
    for line in lines {
        leaves(rt, ends, line, (3, "", errors));
    }
    let is_kept = fs::read(rt, PATH).ok() == before;
    same(ends, (lies, "kept"), is_kept, true);
}

// While a registry is held, its file and its log are only its owner's, and no other registry opens.
fn is_held<D: Disk + Drop>(rt: &HostRuntime, ends: &impl Abort, held: Registry<FileStore<D>>) {
    is_seen_held(rt, ends);
    let (_one, _files) = number_in(ends, released(held), "", "SELECT 1");
}

fn is_seen_held(rt: &HostRuntime, ends: &impl Abort) {
    for path in [PATH, LOG] {
        let mode = mode_of(rt, path).expect(ends, "a file");
        same(ends, path, mode & 0o777, 0o600);
    }
    stays(rt, ends, Lies::Registry, &LINES, BUSY);
}

fn mode_of(rt: &HostRuntime, path: &str) -> io::Result<u32> {
    Ok(fs::metadata(rt, path)?.permissions().mode())
}
