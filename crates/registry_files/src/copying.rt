//! Copying the file that keeps a registry.

ghost use Rattle.std.specs.Prelude.{◌≡◌, ℕ, false, true, IfOk, IsTrue, List, OnOk, map, string_bytes};
ghost use Rattle.std.specs.Io.KnownBytes.{Appends};
ghost use Rattle.sqlite.specs.Closing.{IsCopied};
ghost use Rattle.sqlite.specs.Files.{file_state};
ghost use Rattle.sqlite.specs.Held.{state};
ghost use Rattle.sqlite.specs.State.{HasCleanDisk};
ghost use Rattle.sqlite_wal.specs.Reads.{AreClean};
ghost use Rattle.registry_rows.specs.Ready.{Ready};
ghost use Rattle.registry_tables.specs.Schema as tables;
ghost use Rattle.registry_files.specs.Copies.{IsCopy, IsHeld, IsRead, StaysCommitted};
ghost use Rattle.registry_files.specs.Lines.{lines_of};

use crate::begins::Begins;
use crate::beside::{TRIES, busy, hold_server, is_busy, pause, require_held, require_no_other};
use crate::checking::problems_of;
use crate::ending::{Ending, Failure, Obstacle, Snag};
use crate::held::{copy_files, new_file, snag, snagged, written};
use crate::lines::problem_lines;
use crate::opening::{close_files, open, open_once, require_file, unclosed};
use crate::parts::Names;
use crate::progress::{Progress, Shown, Work};
use registry_desk::Registry;
use registry_guests::Hold;
use sqlite::{Alter, Connection, FileStore, Files};
use sqlite_disk::Disk;
use std::alloc::Global;
use std::fs::File;
use std::io;
use std::io::Write;

/// How many bytes are copied at once.
const PIECE: usize = 16_384;

/// Copies the registry in the file at the path to another file, without a log.
///
/// The copy is made in a file whose name is the copy's with `-part`, opened to see that it is
/// whole, and then gets its own name. Where no other process has the file, its log is copied into
/// it first. Where a server has it, the server is held while the file and its log are copied, and
/// the log is copied into the copy. A line is returned for each thing that is wrong in the copy, which
/// is made all the same; none if it isn't to be checked.
///
/// A fault is returned where the file isn't there or can't be opened; where a file already has the
/// name of the copy, or that name and `-wal`, `-part` or `-part-wal` (that file isn't changed);
/// where the copy can't be written or doesn't open; and where the server went on meanwhile. Then
/// there is no copy, or a whole one where its folder can't be synced.
pub fn back_up<S: Begins>(
    rt: &HostRuntime,
    alloc: Global,
    path: &str,
    copy: &str,
    checks: bool,
) -> Result<Vec<String>, Ending> {
    let names = Names::of(alloc, copy)?;
    require_file(rt, path)?;
    require_no_other(rt, alloc, path)?;
    names.require_free(rt)?;
    let part = new_file(rt, names.part.as_str())?;
    let made = make_copy::<S>(rt, alloc, path, part, &names, checks);
    names.forget_part(rt);
    made
}

// Writes the part, checks that it is whole, and gives it the name of the copy.
fn make_copy<S: Begins>(
    rt: &HostRuntime,
    alloc: Global,
    path: &str,
    part: File,
    names: &Names<'_>,
    checks: bool,
) -> Result<Vec<String>, Ending> {
    let mut part = part;
    fill::<S>(rt, alloc, path, &mut part, names.part_log.as_str())?;
    written(part.sync_all())?;
    let lines = see_whole::<S>(rt, alloc, names.part.as_str(), checks)?;
    written(part.sync_all())?;
    names.give_name(rt)?;
    Ok(lines)
}

// Writes the registry in a file to the part. Only if a server has the file does the part have a
// log.
fn fill<S: Begins>(
    rt: &HostRuntime,
    alloc: Global,
    path: &str,
    part: &mut File,
    part_log: &str,
) -> Result<(), Ending> {
    let _opening = Progress::begin(rt, Work::Opening, path);
    for _ in 0..TRIES {
        let done = copy_alone::<S>(rt, path, part);
        if !is_busy(&done) {
            return done;
        }
        if let Some(held) = hold_server(rt, alloc, path)? {
            return copy_beside(rt, alloc, path, held, part, part_log);
        }
        pause(rt);
    }
    Err(busy())
}

// Copies the files of a server, which is held until then.
fn copy_beside(
    rt: &HostRuntime,
    alloc: Global,
    path: &str,
    held: Hold,
    part: &mut File,
    part_log: &str,
) -> Result<(), Ending> {
    let mut held = held;
    let mut log = new_file(rt, part_log)?;
    copy_files(rt, alloc, path, part, &mut log)?;
    require_held(&mut held)?;
    drop(held);
    written(log.sync_all())
}

// Copies the registry in a file that no other process has.
fn copy_alone<S: Begins>(rt: &HostRuntime, path: &str, target: &mut File) -> Result<(), Ending> {
    match open_once::<S>(rt, path) {
        Ok(registry) => {
            let progress = Progress::begin(rt, Work::Copying, path);
            copy_registry(registry, &mut Shown::new(target, progress))
        }
        Err(ending) => Err(ending),
    }
}

// The files of the registry stay locked until they are copied.
fn copy_registry<D: Disk + Drop, W: Write>(
    registry: Registry<FileStore<D>>,
    target: &mut W,
) -> Result<(), Ending> {
    match write_copy(registry, target) {
        Ok(files) => {
            drop(files);
            Ok(())
        }
        Err(ending) => Err(ending),
    }
}

/// Copies a registry's log into its file, and the file into the output. The files are returned, and
/// stay locked until they are dropped.
///
/// What is written is one file that holds the registry, as long as the disk returns what was
/// written to it. So do the files that are returned, now and after a crash. A fault is returned where a
/// file can't be read or written.
pub fn write_copy<D: Disk + Drop, W: Write>(
    registry: Registry<FileStore<D>>,
    output: &mut W,
) -> Result<Files<D>, Ending>
    ensures copied { IfOk result (λ files. AreClean D.Disk files.log files.db
        → IsCopy (file_state registry) (W.contents output.old) (W.contents output.new)) }
    ensures kept { IfOk result (λ files. AreClean D.Disk files.log files.db
        → IsCopied registry files) }
{
    match close_files(registry) {
        Ok(files) => write_files(files, output),
        Err((ending, files)) => {
            drop(files);
            Err(ending)
        }
    }
}

// Writes the database file. The files hold what they held.
fn write_files<D: Disk + Drop, W: Write>(
    files: Files<D>,
    output: &mut W,
) -> Result<Files<D>, Ending>
    requires usable { IsTrue (D.Disk.is_usable files.db) }
    ensures wrote { IfOk result (λ left. AreClean D.Disk left.log left.db
        → AreClean D.Disk files.log files.db
        × Appends (W.contents output.old) (W.contents output.new) (D.Disk.seen files.db)
        × (left.log ≡ files.log) × IsRead D.Disk files.db left.db) }
{
    let mut files = files;
    match write_disk(&mut files.db, output) {
        Ok(()) => Ok(files),
        Err(error) => Err(snagged(&error)),
    }
}

// Writes everything that a disk holds, piece by piece. The disk holds what it held.
fn write_disk<D: Disk, W: Write>(disk: &mut D, output: &mut W) -> io::Result<()>
    requires usable { IsTrue (D.Disk.is_usable disk.old) }
    ensures seen { D.Disk.seen disk.new ≡ D.Disk.seen disk.old }
    ensures crash { (bytes : List ℕ) → D.Disk.may_leave disk.new bytes
        → D.Disk.may_leave disk.old bytes }
    ensures clean { IsTrue (D.Disk.is_clean disk.new) → IsTrue (D.Disk.is_clean disk.old) }
    ensures wrote { OnOk result (IsTrue (D.Disk.is_clean disk.new)
        → Appends (W.contents output.old) (W.contents output.new) (D.Disk.seen disk.old)) }
{
    let size = disk.len()?;
    let mut piece = [0u8; PIECE];
    let mut at = 0usize;
    'pieces: while at < size {
        let count = piece.len().min(size - at);
        disk.read_at(at, &mut piece[..count])?;
        output.write_all(&piece[..count])?;
        at += count;
    }
    Ok(())
}

// Opens the copy as a registry, and closes it again, which copies its log into it. Returns a line for
// each thing that is wrong in it, if that is asked for.
fn see_whole<S: Begins>(
    rt: &HostRuntime,
    alloc: Global,
    copy: &str,
    checks: bool,
) -> Result<Vec<String>, Ending> {
    match open::<S>(rt, copy) {
        Ok(registry) => {
            let (_files, lines) = see_inside(rt, alloc, copy, registry, checks)?;
            Ok(lines)
        }
        Err(Ending::Fault(Failure::Opening(Obstacle::Full))) => Err(snag(Snag::Full)),
        Err(Ending::Fault(Failure::Opening(_))) => Err(snag(Snag::Unreadable)),
        Err(ending) => Err(ending),
    }
}

/// Closes a copy at the path that was opened, which copies its log into its database file. Returns the
/// files, and a line for each thing that is wrong in the copy, if that is asked for.
///
/// The database file then holds the registry alone, and the lines are those of what it holds.
pub fn see_inside<D: Disk + Drop>(
    rt: &HostRuntime,
    alloc: Global,
    path: &str,
    registry: Registry<FileStore<D>>,
    checks: bool,
) -> Result<(Files<D>, Vec<String>), Ending>
    ensures whole { IfOk result (λ seen. AreClean D.Disk seen.0.log seen.0.db
        → IsHeld (file_state registry) (D.Disk.seen seen.0.db) checks
        (map string_bytes seen.1.items)) }
{
    let mut conn = registry.release();
    let lines = lines_in(rt, alloc, path, &mut conn, checks);
    match close_copy(conn) {
        Ok(files) => Ok((files, lines?)),
        Err(ending) => Err(ending),
    }
}

/// Closes a database that was made from a copy. This copies its log into its file.
pub fn close_copy<D: Disk + Drop>(conn: Connection<FileStore<D>>) -> Result<Files<D>, Ending>
    ensures copied { IfOk result (λ files. AreClean D.Disk files.log files.db
        → IsCopied conn files) }
{
    match conn.close_files() {
        Ok(files) => Ok(files),
        Err((error, store)) => {
            drop(store);
            Err(snag(why_unclosed(&unclosed(error))))
        }
    }
}

// A line for each thing that is wrong in a registry, if that is asked for. What is committed stays.
fn lines_in<S: Alter>(
    rt: &HostRuntime,
    alloc: Global,
    path: &str,
    conn: &mut Connection<S>,
    checks: bool,
) -> Result<Vec<String>, Ending>
    requires idle { conn.old.in_transaction ≡ false }
    requires ready { Ready tables.schema (state S.Store conn.old) }
    ensures still { StaysCommitted (state S.Store conn.old) (state S.Store conn.new) }
    ensures told { HasCleanDisk (state S.Store conn.new) → IfOk result (λ lines.
        map string_bytes lines.items ≡ lines_of checks (state S.Store conn.old).now.trees) }
{
    if checks {
        let _checking = Progress::begin(rt, Work::Checking, path);
        wrong_in(alloc, conn)
    } else {
        Ok(Vec::new(alloc))
    }
}

// A line for each thing that is wrong.
fn wrong_in<S: Alter>(alloc: Global, conn: &mut Connection<S>) -> Result<Vec<String>, Ending>
    requires idle { conn.old.in_transaction ≡ false }
    requires ready { Ready tables.schema (state S.Store conn.old) }
    ensures still { StaysCommitted (state S.Store conn.old) (state S.Store conn.new) }
    ensures told { HasCleanDisk (state S.Store conn.new) → IfOk result (λ lines.
        map string_bytes lines.items ≡ lines_of true (state S.Store conn.old).now.trees) }
{
    let problems = problems_of(alloc, conn)?;
    Ok(problem_lines(alloc, &problems)?)
}

fn why_unclosed(ending: &Ending) -> Snag {
    match ending {
        Ending::Fault(Failure::Opening(Obstacle::Full)) => Snag::Full,
        _ => Snag::Unwritable,
    }
}
