//! Walks over versions that were put and committed, and what each gives.

ghost use Rattle.std.specs.Prelude.{◌≡◌, IsTrue, None, OnOk};
ghost use Rattle.sqlite.specs.Held.{state};
ghost use Rattle.sqlite.specs.State.{HasCleanDisk};
ghost use Rattle.sqlite.specs.Steps.{IsEmpty};
ghost use Rattle.registry_tables.specs.Walking.{lent, stopped_at};
ghost use Rattle.registry_tables.specs.Walks.{Begins, HasGoneOn, IsLeftAlone, reference, shown_by};
ghost use Rattle.registry_tests_tables.specs.Resting.{AwaitsWalk};

use super::call::all_answer;
use crate::outcome::same;
use registry_names::{Fault, Name, Stop};
use registry_packument::{VersionRow, VersionSource};
use registry_rows::{commit, fault_of};
use registry_tables::{LiveRows, VersionWalk, create, walk_versions};
use sqlite::{Alter, Connection};
use std::alloc::{AllocError, Global};
use std::process::Abort;

/// Checks that all walks over versions that cases put give what they should. After the lines of a case
/// come lines with the name of a package each, and what the walk over its versions gives.
pub fn all_give(rt: &impl Abort, alloc: Global, cases: &str) {
    for case in cases.trim().split("\n\n") {
        let mut conn = Connection::open_in_memory(alloc).expect(rt, "a database");
        gives_on(rt, alloc, &mut conn, case).expect(rt, "tables");
    }
}

fn gives_on<S: Alter>(
    rt: &impl Abort,
    alloc: Global,
    conn: &mut Connection<S>,
    case: &str,
) -> Result<(), Fault>
    requires empty { IsEmpty (state S.Store conn.old) }
{
    let (lines, walks) = case.split_once("\nthen walks\n").expect(rt, case);
    put(rt, alloc, conn, lines)?;
    each_gives(rt, alloc, conn, walks);
    Ok(())
}

// Makes the tables, makes the calls, and commits.
fn put<S: Alter>(
    rt: &impl Abort,
    alloc: Global,
    conn: &mut Connection<S>,
    lines: &str,
) -> Result<(), Fault>
    requires empty { IsEmpty (state S.Store conn.old) }
    ensures awaits { OnOk result (AwaitsWalk (state S.Store conn.new)) }
{
    let mut tx = conn.transaction();
    create(&mut tx)?;
    all_answer(rt, alloc, &mut tx, lines);
    match commit(tx) {
        Ok(()) => Ok(()),
        Err(fault) => Err(fault),
    }
}

fn each_gives<S: Alter>(rt: &impl Abort, alloc: Global, conn: &mut Connection<S>, walks: &str)
    requires awaits { AwaitsWalk (state S.Store conn.old) }
{
    for walk in walks.lines() {
        gives(rt, alloc, conn, walk);
    }
}

fn gives<S: Alter>(rt: &impl Abort, alloc: Global, conn: &mut Connection<S>, walk: &str)
    requires awaits { AwaitsWalk (state S.Store conn.old) }
    ensures awaits { AwaitsWalk (state S.Store conn.new) }
{
    let (name, wanted) = walk.split_once(" ->").expect(rt, walk);
    let name = Name::parse(alloc, name).expect(rt, walk);
    match walked(alloc, conn, &name) {
        Ok(text) => same(rt, walk, text.as_str(), wanted),
        Err(stop) => panic!(rt; "{walk} comes out as {stop:?}"),
    }
}

// A walk leaves the connection as the next one awaits it.
fn walked<S: Alter>(alloc: Global, conn: &mut Connection<S>, name: &Name) -> Result<String, Stop>
    requires awaits { AwaitsWalk (state S.Store conn.old) }
    ensures awaits { OnOk result (AwaitsWalk (state S.Store conn.new)) }
{
    text_of_walk(alloc, conn, name)
}

// What a walk over the versions of the package gives.
fn text_of_walk<S: Alter>(
    alloc: Global,
    conn: &mut Connection<S>,
    name: &Name,
) -> Result<String, Stop>
    requires awaits { AwaitsWalk (state S.Store conn.old) }
    ensures left { IsLeftAlone (state S.Store conn.old) (state S.Store conn.new) }
    ensures unshut { HasCleanDisk (state S.Store conn.new)
        → OnOk result (IsTrue (state S.Store conn.new).is_open) }
{
    match walk_versions(conn, name) {
        Ok(mut rows) => rows_text(alloc, name, &mut rows),
        Err(error) => Err(Stop::from(fault_of(error))),
    }
}

// What a walk over these rows gives.
fn rows_text<R: LiveRows>(alloc: Global, name: &Name, rows: &mut R) -> Result<String, Stop>
    requires begun { Begins R.store name.now (R.rows rows.old) }
    ensures same_reference { reference R.store (R.rows rows.new)
        ≡ reference R.store (R.rows rows.old) }
    ensures left { IsLeftAlone (shown_by R.store (R.rows rows.old))
        (shown_by R.store (R.rows rows.new)) }
    ensures unshut { HasCleanDisk (shown_by R.store (R.rows rows.new))
        → OnOk result (IsTrue (shown_by R.store (R.rows rows.new)).is_open) }
{
    let mut walk = VersionWalk::over(rows, name);
    walk_text(alloc, &mut walk)
}

// What is left of a walk.
fn walk_text<R: LiveRows>(alloc: Global, walk: &mut VersionWalk<'_, R>) -> Result<String, Stop>
    ensures same_rows { (lent R.LiveRows walk.new).ghost_name
        ≡ (lent R.LiveRows walk.old).ghost_name }
    ensures goes_on { HasGoneOn R.store (lent R.LiveRows walk.old) (lent R.LiveRows walk.new)
        (stopped_at R.LiveRows walk.new) }
    ensures unstopped { OnOk result (stopped_at R.LiveRows walk.new ≡ None) }
{
    source_text(alloc, walk)
}

// Each version that the source gives, with its manifest and its message.
fn source_text<S: VersionSource>(alloc: Global, source: &mut S) -> Result<String, Stop>
    ensures behind { S.leaves source.old source.new }
    ensures goes_on { OnOk result (S.stopped source.new ≡ None) }
{
    let mut text = String::new(alloc);
    'rows: while let Some(row) = source.next(alloc)? {
        push_version(alloc, &mut text, &row)?;
    }
    Ok(text)
}

// Adds a version with its manifest and its message in brackets.
fn push_version(alloc: Global, text: &mut String, row: &VersionRow) -> Result<(), AllocError> {
    let (version, manifest) = (row.version.as_str(), row.manifest.as_str());
    let message = row.message.as_str();
    text.push_str(&format!(in alloc; " {version} {manifest} [{message}]")?)
}
