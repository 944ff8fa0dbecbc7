//! Checking everything that a registry's file holds.

ghost use Rattle.std.specs.Prelude.{◌≡◌, ◌++◌, [], false, IfOk, OnErr, OnOk, map};
ghost use Rattle.sqlite.specs.Held.{state};
ghost use Rattle.sqlite.specs.State.{HasCleanDisk};
ghost use Rattle.registry_names.specs.ByteStreams.{Writes};
ghost use Rattle.registry_check.specs.Right.{AreProblems, TellsRight};
ghost use Rattle.registry_rows.specs.Ready.{Ready};
ghost use Rattle.registry_tables.specs.Schema as tables;
ghost use Rattle.registry_desk.specs.Adopted.{CanBeAdopted, CanBeAdoptedAgain};
ghost use Rattle.registry_cli.specs.Prints.{done, newline};
ghost use Rattle.registry_files.specs.Copies.{StaysCommitted};
ghost use Rattle.registry_files.specs.Lines.{NoneFailed, printed_lines, problem_line};

use crate::begins::Begins;
use crate::beside::{TRIES, busy, hold_server, is_busy, pause, require_no_other};
use crate::checking_beside::problems_beside;
use crate::ending::{Ending, Failure, Obstacle};
use crate::lines::{DONE, print_wrong, print_wrong_line, problem_lines};
use crate::opening::{obstacle_left, require_file, unopened};
use crate::progress::{Progress, Work};
use crate::reporting::obstacle_text;
use registry_check::{Problem, check};
use registry_desk::{Registry, Unopened, has_tables};
use registry_names::{ByteOut, Fault};
use sqlite::{Alter, Connection, FileStore};
use sqlite_disk::Disk;
use std::alloc::Global;

/// Checks the registry in the file at the path, lets go of the file, and gives the exit status: 0
/// where nothing is wrong, and otherwise 1, with a line on the errors for each thing that is wrong.
/// A file whose tables are a registry's is checked even where what they hold keeps it from opening.
/// Any other file that doesn't open is wrong as a whole. Where a server has the file, a copy is
/// checked, which is made in the server's folder. A file that isn't there, that another process has,
/// or that can't be read or copied is a fault.
pub fn print_check<S: Begins, O: ByteOut, E: ByteOut>(
    rt: &HostRuntime,
    alloc: Global,
    path: &str,
    output: &mut O,
    errors: &mut E,
) -> Result<u8, Ending> {
    match problems_at::<S>(rt, alloc, path) {
        Ok(problems) => print_problems(alloc, &problems, output, errors),
        Err(Ending::Fault(Failure::Opening(Obstacle::Foreign))) => {
            print_wrong_line(errors, obstacle_text(Obstacle::Foreign));
            Ok(1)
        }
        Err(ending) => Err(ending),
    }
}

// Says that all is done where there is no problem, and otherwise prints a line for each. Gives the exit
// status.
fn print_problems<O: ByteOut, E: ByteOut>(
    alloc: Global,
    problems: &[Problem],
    output: &mut O,
    errors: &mut E,
) -> Result<u8, Ending>
    ensures status { IfOk result (λ status. status
        ≡ (printed_lines (done ++ newline) (map problem_line problems.now)).status) }
    ensures output { OnOk result (Writes (O.bytes output.old) (O.bytes output.new)
        (O.is_unknown output.new)
        (printed_lines (done ++ newline) (map problem_line problems.now)).out) }
    ensures errors { OnOk result (NoneFailed (E.failures errors.old) (E.failures errors.new)
        → Writes (E.bytes errors.old) (E.bytes errors.new) (E.is_unknown errors.new)
        (printed_lines (done ++ newline) (map problem_line problems.now)).err) }
    ensures silent { OnErr result (errors.new ≡ errors.old) }
{
    let lines = problem_lines(alloc, problems)?;
    print_wrong(&lines, DONE, output, errors)
}

// What is wrong in a file, even if another process has it.
fn problems_at<S: Begins>(
    rt: &HostRuntime,
    alloc: Global,
    path: &str,
) -> Result<Vec<Problem>, Ending> {
    require_file(rt, path)?;
    require_no_other(rt, alloc, path)?;
    let _opening = Progress::begin(rt, Work::Opening, path);
    for _ in 0..TRIES {
        let found = problems_alone::<S>(rt, alloc, path);
        if !is_busy(&found) {
            return found;
        }
        if let Some(held) = hold_server(rt, alloc, path)? {
            return problems_beside::<S>(rt, alloc, path, held);
        }
        pause(rt);
    }
    Err(busy())
}

// What is wrong in a file that no other process has.
fn problems_alone<S: Begins>(
    rt: &HostRuntime,
    alloc: Global,
    path: &str,
) -> Result<Vec<Problem>, Ending> {
    match Registry::open_from(rt, path, S::begin()) {
        Ok(registry) => {
            let _checking = Progress::begin(rt, Work::Checking, path);
            problems_in(alloc, registry)
        }
        Err((Fault::Memory, _)) => Err(Ending::from(Fault::Memory)),
        Err((Fault::Database, Some(left))) => problems_left(alloc, left),
        Err((Fault::Database, None)) => Err(unopened::<S>(rt, path)),
    }
}

/// What is wrong in files that didn't open as a registry, and are let go of.
pub fn problems_left<D: Disk + Drop>(
    alloc: Global,
    left: Unopened<D>,
) -> Result<Vec<Problem>, Ending>
    requires again { CanBeAdoptedAgain left }
{
    let mut left = left;
    match problems_inside(alloc, &mut left) {
        Ok(problems) if !problems.is_empty() => Ok(problems),
        Err(Fault::Memory) => Err(Ending::from(Fault::Memory)),
        _ => Err(Ending::Fault(Failure::Opening(obstacle_left(alloc, left)))),
    }
}

// What is wrong in the database that they hold, if one was opened.
fn problems_inside<D: Disk + Drop>(
    alloc: Global,
    left: &mut Unopened<D>,
) -> Result<Vec<Problem>, Fault>
    requires again { CanBeAdoptedAgain left.old }
{
    match left {
        Unopened::Database(conn) => problems_of_tables(alloc, conn),
        Unopened::Files(_) => Ok(Vec::new(alloc)),
    }
}

// The same where its tables are a registry's. Of other tables nothing is said.
fn problems_of_tables<S: Alter>(
    alloc: Global,
    conn: &mut Connection<S>,
) -> Result<Vec<Problem>, Fault>
    requires rises { CanBeAdopted (state S.Store conn.old) }
    ensures told { HasCleanDisk (state S.Store conn.new) → conn.old.in_transaction ≡ false
        → (state S.Store conn.old).now.schema ≡ tables.schema
        → IfOk result (λ found. AreProblems found.items (state S.Store conn.old).now.trees) }
    ensures foreign { ¬ ((state S.Store conn.old).now.schema ≡ tables.schema)
        → IfOk result (λ found. found.items ≡ []) }
{
    if !conn.is_autocommit() {
        return Ok(Vec::new(alloc));
    }
    if has_tables(alloc, conn)? {
        problems_of(alloc, conn)
    } else {
        Ok(Vec::new(alloc))
    }
}

/// What is wrong in a registry, whose files are let go of.
pub fn problems_in<D: Disk + Drop>(
    alloc: Global,
    registry: Registry<FileStore<D>>,
) -> Result<Vec<Problem>, Ending> {
    match problems_within(alloc, registry) {
        Ok(problems) => Ok(problems),
        Err(fault) => Err(Ending::from(fault)),
    }
}

fn problems_within<S: Alter + Drop>(
    alloc: Global,
    registry: Registry<S>,
) -> Result<Vec<Problem>, Fault> {
    let mut conn = registry.release();
    problems_of(alloc, &mut conn)
}

/// All that is wrong in the tables of a connection that is between requests, in its order. Nothing is
/// wrong exactly where everything holds that the promises suppose. What is committed stays.
pub fn problems_of<S: Alter>(alloc: Global, conn: &mut Connection<S>) -> Result<Vec<Problem>, Fault>
    requires idle { conn.old.in_transaction ≡ false }
    requires ready { Ready tables.schema (state S.Store conn.old) }
    ensures told { HasCleanDisk (state S.Store conn.new)
        → IfOk result (λ found. AreProblems found.items (state S.Store conn.old).now.trees) }
    ensures right { HasCleanDisk (state S.Store conn.new)
        → IfOk result (λ found. TellsRight found.items (state S.Store conn.old).now.trees) }
    ensures still { StaysCommitted (state S.Store conn.old) (state S.Store conn.new) }
{
    let mut tx = conn.transaction();
    let problems = check(alloc, &mut tx);
    tx.rollback();
    problems
}
