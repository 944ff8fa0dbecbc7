//! Going back to a copy of a registry.

ghost use Rattle.std.specs.Prelude.{◌≡◌, [], IfOk, IsTrue, map, string_bytes};
ghost use Rattle.sqlite.specs.Files.{IsOpened, file_state, image_of};
ghost use Rattle.sqlite.specs.State.{HasCleanDisk};
ghost use Rattle.sqlite_wal.specs.Reads.{AreClean};
ghost use Rattle.registry_desk.specs.Adopted.{CanBeAdopted};
ghost use Rattle.registry_tables.specs.Schema as tables;
ghost use Rattle.registry_files.specs.Copies.{HoldsSeen, IsRestored};

use crate::begins::Begins;
use crate::beside::require_no_server;
use crate::copying::{close_copy, see_inside};
use crate::ending::{Ending, Failure, Obstacle, Snag};
use crate::held::{copy_bytes, copy_files, log_of, new_file, snag, snagged, written};
use crate::opening::{is_older, obstacle_in, obstacle_left, open_obstacle};
use crate::parts::Names;
use crate::progress::{Progress, Work};
use registry_desk::{Registry, Unopened, has_tables};
use registry_names::Fault;
use sqlite::{Alter, Connection, FileStore, Files, Options};
use sqlite_disk::Disk;
use sqlite_std_file::OpenError;
use std::alloc::Global;
use std::fs;
use std::fs::File;
use std::io::ErrorKind;

/// The seed for the salts of the log, which is emptied before the file gets its name. No other process
/// has that log, so the seed needn't be random.
const SEED: u64 = 1;

/// Makes the registry's file at the path, where no file is yet, from a copy and its log, if it has one.
///
/// The file is made under the path with `-part`, opened to see that a registry is in it, and then gets
/// its own name. Nothing is migrated. A line is returned for each thing that is wrong in it, if it is
/// to be checked: then no file is made.
///
/// A fault is returned where a file already has the name at the path, or that name and `-wal`, `-part`
/// or `-part-wal`; where a server listens there, or another process has the copy; where the copy isn't
/// there, or holds no registry; where it is to be checked and has an older schema, or its schema is
/// newer; and where the file can't be written. Then there is no file, or a whole one where its folder
/// can't be synced.
pub fn restore<S: Begins>(
    rt: &HostRuntime,
    alloc: Global,
    path: &str,
    copy: &str,
    checks: bool,
) -> Result<Vec<String>, Ending> {
    match restore_to::<S>(rt, alloc, path, copy, checks) {
        Err(Ending::Fault(Failure::Backup(snag))) => Err(Ending::Fault(Failure::Restore(snag))),
        done => done,
    }
}

fn restore_to<S: Begins>(
    rt: &HostRuntime,
    alloc: Global,
    path: &str,
    copy: &str,
    checks: bool,
) -> Result<Vec<String>, Ending> {
    let names = Names::of(alloc, path)?;
    require_copy(rt, copy)?;
    names.require_free(rt)?;
    require_no_server(rt, alloc, path)?;
    let part = new_file(rt, names.part.as_str())?;
    let made = make_file::<S>(rt, alloc, copy, part, &names, checks);
    names.forget_part(rt);
    made
}

// A file that isn't empty has to be at the path of the copy.
fn require_copy(rt: &HostRuntime, copy: &str) -> Result<(), Ending> {
    match fs::metadata(rt, copy) {
        Ok(found) if found.is_file() && found.len() > 0 => Ok(()),
        Err(error) if error.kind() == ErrorKind::OutOfMemory => Err(Ending::from(Fault::Memory)),
        _ => Err(snag(Snag::Missing)),
    }
}

// Writes the part and looks into it. Where nothing is wrong it gets the name of the file.
fn make_file<S: Begins>(
    rt: &HostRuntime,
    alloc: Global,
    copy: &str,
    part: File,
    names: &Names<'_>,
    checks: bool,
) -> Result<Vec<String>, Ending> {
    let mut part = part;
    fill::<S>(rt, alloc, copy, &mut part, names.part_log.as_str())?;
    written(part.sync_all())?;
    let lines = see_whole::<S>(rt, alloc, names.part.as_str(), checks)?;
    if lines.is_empty() {
        put_in_place(rt, &part, names, lines)
    } else {
        Ok(lines)
    }
}

// Gives the part, in which nothing is wrong, the name of the file. Returns the lines on it, which are
// none.
fn put_in_place(
    rt: &HostRuntime,
    part: &File,
    names: &Names<'_>,
    lines: Vec<String>,
) -> Result<Vec<String>, Ending>
    requires right { lines.items ≡ [] }
{
    written(part.sync_all())?;
    names.give_name(rt)?;
    Ok(lines)
}

// Writes the copy to the part. A process that opens the copy makes a log beside it, if none is there:
// so without a log nobody has the copy.
fn fill<S: Begins>(
    rt: &HostRuntime,
    alloc: Global,
    copy: &str,
    part: &mut File,
    part_log: &str,
) -> Result<(), Ending> {
    let log = of_copy(log_of(rt, alloc, copy))?;
    if has_file(rt, log.as_str())? {
        return fill_locked::<S>(rt, alloc, copy, part, part_log);
    }
    of_copy(copy_bytes(rt, copy, part))?;
    if has_file(rt, log.as_str())? {
        return Err(snag(Snag::Busy));
    }
    Ok(())
}

fn has_file(rt: &HostRuntime, path: &str) -> Result<bool, Ending> {
    match fs::symlink_metadata(rt, path) {
        Ok(_) => Ok(true),
        Err(error) => match error.kind() {
            ErrorKind::NotFound => Ok(false),
            ErrorKind::OutOfMemory => Err(Ending::from(Fault::Memory)),
            _ => Err(snag(Snag::Missing)),
        },
    }
}

// Writes the copy and its log to the part and its log. No other process can open the copy meanwhile.
fn fill_locked<S: Begins>(
    rt: &HostRuntime,
    alloc: Global,
    copy: &str,
    part: &mut File,
    part_log: &str,
) -> Result<(), Ending> {
    let files = match sqlite_std_file::open(rt, copy, S::begin()) {
        Ok(files) => files,
        Err(error) => {
            return Err(match open_obstacle(error) {
                Some(obstacle) => snag(snag_of(obstacle)),
                None => Ending::from(Fault::Memory),
            });
        }
    };
    let mut log = new_file(rt, part_log)?;
    let copied = of_copy(copy_files(rt, alloc, copy, part, &mut log));
    drop(files);
    copied?;
    written(log.sync_all())
}

// A fault of the copy, and not of the registry's file.
fn of_copy<T>(done: Result<T, Ending>) -> Result<T, Ending> {
    match done {
        Err(Ending::Fault(Failure::Opening(obstacle))) => Err(snag(snag_of(obstacle))),
        done => done,
    }
}

// Why there is no file, where this keeps the copy from being opened.
fn snag_of(obstacle: Obstacle) -> Snag {
    match obstacle {
        Obstacle::Missing | Obstacle::Unreachable | Obstacle::Barred => Snag::Missing,
        Obstacle::Busy | Obstacle::Other => Snag::Busy,
        Obstacle::Full => Snag::Full,
        Obstacle::Foreign => Snag::Unreadable,
        Obstacle::Newer => Snag::Newer,
        Obstacle::Older => Snag::Older,
    }
}

// Opens the part as a registry, and closes it again, which copies its log into it. Returns a line for
// each thing that is wrong in it, if that is asked for.
fn see_whole<S: Begins>(
    rt: &HostRuntime,
    alloc: Global,
    part: &str,
    checks: bool,
) -> Result<Vec<String>, Ending> {
    match sqlite_std_file::open(rt, part, S::begin()) {
        Ok(files) => {
            let (_files, lines) = settle_copy(rt, alloc, part, files, checks)?;
            Ok(lines)
        }
        Err(OpenError::Io(error)) => Err(snagged(&error)),
        Err(OpenError::OutOfMemory) => Err(Ending::from(Fault::Memory)),
        Err(_) => Err(snag(Snag::Unwritable)),
    }
}

/// Opens the registry in the files of a copy, and closes it again, which copies its log into its
/// database file. Returns the files, and a line for each thing that is wrong in the registry, if that is
/// asked for. The path is that of the database file, whose length is shown meanwhile.
///
/// The database file alone then holds what the registry in these files held, and the lines are those of
/// what it holds. One of an older schema is returned only where nothing is to be checked, and then the
/// file holds the database as it was: nothing is migrated. A fault is returned where they hold no
/// registry, and where they can't be read or written.
pub fn settle_copy<D: Disk + Drop>(
    rt: &HostRuntime,
    alloc: Global,
    path: &str,
    files: Files<D>,
    checks: bool,
) -> Result<(Files<D>, Vec<String>), Ending>
    requires log { IsTrue (D.Disk.is_usable files.log) }
    requires db { IsTrue (D.Disk.is_usable files.db) }
    ensures restored { IfOk result (λ seen. AreClean D.Disk seen.0.log seen.0.db
        → IsRestored (image_of D.Disk files) (D.Disk.seen seen.0.db) checks
        (map string_bytes seen.1.items)) }
{
    let opening = Progress::begin(rt, Work::Opening, path);
    match Registry::connect(alloc, files, Options::new(SEED)) {
        Ok(conn) => {
            drop(opening);
            see_tables(rt, alloc, path, conn, checks)
        }
        Err((Fault::Memory, _)) => Err(Ending::from(Fault::Memory)),
        Err((Fault::Database, left)) => {
            Err(snag(snag_of(obstacle_left(alloc, Unopened::Files(left)))))
        }
    }
}

// The same of a database that was opened. Tables of today's schema are those of a registry. Others
// aren't touched.
fn see_tables<D: Disk + Drop>(
    rt: &HostRuntime,
    alloc: Global,
    path: &str,
    conn: Connection<FileStore<D>>,
    checks: bool,
) -> Result<(Files<D>, Vec<String>), Ending>
    requires rises { CanBeAdopted (file_state conn) }
    ensures seen { IfOk result (λ seen. AreClean D.Disk seen.0.log seen.0.db
        → HoldsSeen (file_state conn) (D.Disk.seen seen.0.db) checks
        (map string_bytes seen.1.items)) }
{
    match has_tables(alloc, &conn) {
        Ok(true) => see_registry(rt, alloc, path, conn, checks),
        Ok(false) => see_older(alloc, conn, checks),
        Err(fault) => Err(Ending::from(fault)),
    }
}

fn see_registry<D: Disk + Drop>(
    rt: &HostRuntime,
    alloc: Global,
    path: &str,
    conn: Connection<FileStore<D>>,
    checks: bool,
) -> Result<(Files<D>, Vec<String>), Ending>
    requires rises { CanBeAdopted (file_state conn) }
    requires ours { (file_state conn).now.schema ≡ tables.schema }
    ensures seen { IfOk result (λ seen. AreClean D.Disk seen.0.log seen.0.db
        → HoldsSeen (file_state conn) (D.Disk.seen seen.0.db) checks
        (map string_bytes seen.1.items)) }
{
    match Registry::adopt(alloc, conn) {
        Ok(registry) => see_inside(rt, alloc, path, registry, checks),
        Err((Fault::Memory, _)) => Err(Ending::from(Fault::Memory)),
        Err((Fault::Database, conn)) => Err(unseen(alloc, conn)),
    }
}

// A database of an older schema is closed as it is, if nothing is to be checked.
fn see_older<D: Disk + Drop>(
    alloc: Global,
    conn: Connection<FileStore<D>>,
    checks: bool,
) -> Result<(Files<D>, Vec<String>), Ending>
    ensures seen { IfOk result (λ seen. AreClean D.Disk seen.0.log seen.0.db
        → HoldsSeen (file_state conn) (D.Disk.seen seen.0.db) checks
        (map string_bytes seen.1.items)) }
{
    if checks || !is_older(alloc, &conn) {
        return Err(unseen(alloc, conn));
    }
    match close_copy(conn) {
        Ok(files) => Ok((files, Vec::new(alloc))),
        Err(ending) => Err(ending),
    }
}

// Why there is no file, where the copy holds this database, which is let go of. One that holds nothing
// is no registry.
fn unseen<S: Alter + Drop>(alloc: Global, conn: Connection<S>) -> Ending {
    let mut conn = conn;
    snag(match obstacle_in(alloc, &mut conn) {
        Obstacle::Newer => Snag::Newer,
        Obstacle::Older => Snag::Older,
        _ => Snag::Unreadable,
    })
}
