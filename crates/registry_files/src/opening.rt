//! Opening the file that keeps the registry, and letting go of it.

ghost use Rattle.std.specs.Prelude.{◌≡◌, ◌↔◌, IfErr, IfOk, IsTrue};
ghost use Rattle.sqlite.specs.Closing.{IsCopied};
ghost use Rattle.sqlite.specs.Files.{file_state};
ghost use Rattle.sqlite.specs.Held.{state};
ghost use Rattle.sqlite_wal.specs.Files.{image_at};
ghost use Rattle.sqlite_wal.specs.Reads.{AreClean};
ghost use Rattle.registry_desk.specs.Opened.{HoldsEach, HoldsFound, IsFreshIfEmpty};
ghost use Rattle.registry_desk.specs.Resting.{Rests};
ghost use Rattle.registry_files.specs.Asked.{IsUnopened};
ghost use Rattle.registry_files.specs.Copies.{IsOlder};
ghost use Rattle.registry_files.specs.Heads.{magic};

use crate::begins::Begins;
use crate::beside::{TRIES, busy, is_busy, pause};
use crate::ending::{Ending, Failure, Obstacle};
use crate::held::unread;
use crate::progress::{Progress, Work};
use registry_desk::{Registry, SCHEMA, Unopened};
use registry_migration::older_schema;
use registry_names::{Fault, FromRead, ReadStop, read_whole};
use sqlite::types::ValueRef;
use sqlite::{Alter, Connection, Error, ErrorCode, FileFrom, FileStore, Files};
use sqlite_disk::{Disk, Tally};
use sqlite_std_file::OpenError;
use std::alloc::Global;
use std::fs;
use std::io::ErrorKind;

/// What the file of each database begins with.
const MAGIC: &[u8] = b"SQLite format 3\0";

/// Opens the registry in the file at the path, and shows a line on a terminal meanwhile.
pub fn open<S: Begins>(
    rt: &HostRuntime,
    path: &str,
) -> Result<Registry<FileStore<FileFrom<S>>>, Ending>
    ensures found { IfOk result (λ r. HoldsFound (image_at S.Start) (file_state r)) }
    ensures each { IfOk result (λ r. HoldsEach (image_at S.Start) (file_state r)) }
    ensures empty { IfOk result (λ r. IsFreshIfEmpty (image_at S.Start) (file_state r)) }
{
    let _opening = Progress::begin(rt, Work::Opening, path);
    open_once::<S>(rt, path)
}

/// Opens the registry in the file at the path, and shows nothing.
pub fn open_once<S: Begins>(
    rt: &HostRuntime,
    path: &str,
) -> Result<Registry<FileStore<FileFrom<S>>>, Ending>
    ensures found { IfOk result (λ r. HoldsFound (image_at S.Start) (file_state r)) }
    ensures each { IfOk result (λ r. HoldsEach (image_at S.Start) (file_state r)) }
    ensures empty { IfOk result (λ r. IsFreshIfEmpty (image_at S.Start) (file_state r)) }
    ensures unopened { IfErr result IsUnopened }
{
    match Registry::open(rt, path, S::begin()) {
        Ok(registry) => Ok(registry),
        Err(Fault::Memory) => Err(Ending::from(Fault::Memory)),
        Err(Fault::Database) => Err(unopened::<S>(rt, path)),
    }
}

/// Why the file at the path wasn't opened. Where it opens now, another process had it.
pub fn unopened<S: Begins>(rt: &HostRuntime, path: &str) -> Ending
    ensures { IsUnopened result }
{
    let seen = seen_obstacle(rt, path);
    let obstacle = match Registry::open(rt, path, S::begin()) {
        Ok(_registry) => Obstacle::Busy,
        Err(_) => seen,
    };
    Ending::Fault(Failure::Opening(obstacle))
}

/// The registry in the file at the path. Where another process has the file, it is tried again, for
/// five seconds. A file that has to be there isn't made: it is looked at before each try.
pub fn open_soon<S: Begins>(
    rt: &HostRuntime,
    path: &str,
    existing: bool,
) -> Result<Registry<FileStore<FileFrom<S>>>, Ending>
    ensures found { IfOk result (λ r. HoldsFound (image_at S.Start) (file_state r)) }
    ensures each { IfOk result (λ r. HoldsEach (image_at S.Start) (file_state r)) }
    ensures empty { IfOk result (λ r. IsFreshIfEmpty (image_at S.Start) (file_state r)) }
{
    let _opening = Progress::begin(rt, Work::Opening, path);
    for _ in 0..TRIES {
        require_existing(rt, rt.alloc(), path, existing)?;
        let opened = open_once::<S>(rt, path);
        if !is_busy(&opened) {
            return opened;
        }
        pause(rt);
    }
    Err(busy())
}

/// Checks that the file at the path is there and isn't empty. Otherwise an open would make a
/// registry there.
pub fn require_file(rt: &HostRuntime, path: &str) -> Result<(), Ending> {
    match fs::metadata(rt, path) {
        Ok(found) if found.len() == 0 => Err(missing()),
        Err(error) if error.kind() == ErrorKind::NotFound => Err(missing()),
        _ => Ok(()),
    }
}

/// Checks, where the file at the path has to be there, that it is and begins as each database does. So
/// no open makes a registry of a file that isn't there, that is empty, or that was no database.
pub fn require_existing(
    rt: &HostRuntime,
    alloc: Global,
    path: &str,
    existing: bool,
) -> Result<(), Ending> {
    if !existing {
        return Ok(());
    }
    require_file(rt, path)?;
    if is_magic(&first_bytes(rt, alloc, path)?) {
        Ok(())
    } else {
        Err(Ending::Fault(Failure::Opening(Obstacle::Foreign)))
    }
}

// The first bytes of the file at the path, at most as many as each database begins with.
fn first_bytes(rt: &HostRuntime, alloc: Global, path: &str) -> Result<Vec<u8>, Ending> {
    let file = match fs::open(rt, path) {
        Ok(file) => file,
        Err(error) => return Err(unread(&error)),
    };
    match read_whole(alloc, &mut FromRead::new(file), MAGIC.len()) {
        Ok(first) => Ok(first),
        Err(ReadStop::Read) => Err(Ending::Fault(Failure::Opening(Obstacle::Unreachable))),
        Err(ReadStop::Memory) => Err(Ending::from(Fault::Memory)),
    }
}

// Whether these are the bytes that each database begins with. No empty file has them.
fn is_magic(first: &[u8]) -> bool
    ensures { IsTrue result ↔ (first.now ≡ magic) }
{
    first == MAGIC
}

/// Whether another process has the registry's file at the path. Nothing of the file is read. It is
/// a fault if no file is there, or an empty one.
pub fn is_taken<S: Begins>(rt: &HostRuntime, path: &str) -> Result<bool, Ending> {
    require_file(rt, path)?;
    match sqlite_std_file::open(rt, path, S::begin()) {
        Ok(_files) => Ok(false),
        Err(error) => match open_obstacle(error) {
            Some(Obstacle::Busy) => Ok(true),
            Some(obstacle) => Err(Ending::Fault(Failure::Opening(obstacle))),
            None => Err(Ending::from(Fault::Memory)),
        },
    }
}

/// The fault where this keeps the files from being opened.
pub fn not_opened(error: OpenError) -> Ending {
    match open_obstacle(error) {
        Some(obstacle) => Ending::Fault(Failure::Opening(obstacle)),
        None => Ending::from(Fault::Memory),
    }
}

/// What keeps the files from being opened. `None` where it is a lack of memory.
pub fn open_obstacle(error: OpenError) -> Option<Obstacle> {
    match error {
        OpenError::OutOfMemory => None,
        OpenError::Io(error) if error.kind() == ErrorKind::OutOfMemory => None,
        OpenError::Io(_) => Some(Obstacle::Unreachable),
        OpenError::Busy => Some(Obstacle::Busy),
        OpenError::HotJournal => Some(Obstacle::Foreign),
    }
}

fn missing() -> Ending {
    Ending::Fault(Failure::Opening(Obstacle::Missing))
}

/// Closes a registry: copies its log into its file, and returns the files, which stay locked until
/// they are dropped. If the log can't be copied, they come with a fault, and the next open copies
/// it.
pub fn close_files<D: Disk + Drop>(
    registry: Registry<FileStore<D>>,
) -> Result<Files<D>, (Ending, Files<D>)>
    ensures rests { Rests (file_state registry) }
    ensures usable { IfOk result (λ files. IsTrue (D.Disk.is_usable files.db)) }
    ensures copied { IfOk result (λ files. AreClean D.Disk files.log files.db
        → IsCopied registry files) }
{
    match registry.release().close_files() {
        Ok(files) => Ok(files),
        Err((error, store)) => Err((unclosed(error), store.close())),
    }
}

/// The fault where a registry's log can't be copied into its file.
pub fn unclosed(error: Error) -> Ending {
    match error {
        Error::SqliteFailure(ErrorCode::OutOfMemory) => Ending::from(Fault::Memory),
        error => Ending::Fault(Failure::Opening(obstacle_of(error))),
    }
}

// Why the file doesn't open, as far as an attempt to open it as any database shows.
fn seen_obstacle(rt: &HostRuntime, path: &str) -> Obstacle {
    match Connection::open_with_sums(rt, path) {
        Ok(conn) => obstacle_left(rt.alloc(), Unopened::Database(conn)),
        Err(error) => obstacle_of(error),
    }
}

/// Why files didn't open, by what is left of them. They are let go of, and nothing is copied.
pub fn obstacle_left<D: Disk + Drop>(alloc: Global, left: Unopened<D>) -> Obstacle {
    let mut left = left;
    match obstacle_inside(alloc, &mut left) {
        Some(obstacle) => obstacle,
        None => obstacle_met(left.into_files().tally()),
    }
}

// What keeps a database from being a registry, if one was opened.
fn obstacle_inside<D: Disk>(alloc: Global, left: &mut Unopened<D>) -> Option<Obstacle> {
    match left {
        Unopened::Database(conn) => Some(obstacle_in(alloc, conn)),
        Unopened::Files(_) => None,
    }
}

// What keeps files without a database from being opened, by what the calls of their disk met.
fn obstacle_met(met: Tally) -> Obstacle {
    if met.refused > 0 {
        Obstacle::Full
    } else {
        Obstacle::Foreign
    }
}

/// What keeps an open database from being a registry. A database that has nothing yet is that of a
/// registry that couldn't be written.
pub fn obstacle_in<S: Alter>(alloc: Global, conn: &mut Connection<S>) -> Obstacle {
    if has_nothing(conn) {
        Obstacle::Unreachable
    } else if is_newer(conn) {
        Obstacle::Newer
    } else if is_older(alloc, conn) {
        Obstacle::Older
    } else {
        Obstacle::Foreign
    }
}

// Whether the database has no table, no index and no view. A table that can't be read, such as one
// with a trigger, counts as a view.
fn has_nothing<S: Alter>(conn: &Connection<S>) -> bool {
    let schema = conn.schema();
    schema.tables.is_empty() && schema.indexes.is_empty() && schema.views.is_empty()
}

// Whether the tables have a schema number that only a newer program writes.
fn is_newer<S: Alter>(conn: &mut Connection<S>) -> bool {
    let Ok(row) = conn.query_row("SELECT value FROM meta WHERE name = 'schema'", &[]) else {
        return false;
    };
    match row.get_ref(0) {
        Ok(ValueRef::Int(number)) => number > i64::from(SCHEMA),
        _ => false,
    }
}

/// Whether the tables are those of an older schema. Without memory to see it, they count as none.
pub fn is_older<S: Alter>(alloc: Global, conn: &Connection<S>) -> bool
    ensures { IsTrue result → IsOlder (state S.Store conn.now).now.schema }
{
    matches!(older_schema(alloc, conn.schema()), Ok(Some(_)))
}

// What keeps a database that returns this error from being opened.
fn obstacle_of(error: Error) -> Obstacle {
    match error {
        Error::SqliteFailure(ErrorCode::DatabaseBusy) => Obstacle::Busy,
        Error::SqliteFailure(ErrorCode::DiskFull) => Obstacle::Full,
        Error::SqliteFailure(ErrorCode::CannotOpen | ErrorCode::SystemIoFailure) =>
            Obstacle::Unreachable,
        _ => Obstacle::Foreign,
    }
}
