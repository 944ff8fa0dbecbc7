//! Making the file of a new registry.

ghost use Rattle.std.specs.Prelude.{◌≡◌, [], IfOk, IsTrue};
ghost use Rattle.sqlite.specs.Files.{file_state};
ghost use Rattle.sqlite.specs.State.{HasCleanDisk};
ghost use Rattle.sqlite_wal.specs.Reads.{AreClean};
ghost use Rattle.registry_files.specs.Copies.{HoldsRegistry};
ghost use Rattle.registry_tables.specs.Effects.{stored};
ghost use Rattle.registry_tables.specs.Fresh.{fresh};

use crate::begins::Begins;
use crate::beside::require_no_server;
use crate::ending::{Ending, Failure};
use crate::held::{new_file, written};
use crate::opening::{close_files, not_opened, obstacle_left};
use crate::parts::Names;
use registry_desk::Registry;
use registry_names::Fault;
use sqlite::{FileStore, Files, Options};
use sqlite_disk::Disk;
use std::alloc::Global;
use std::fs::File;

/// The seed for the salts of the log, which is emptied before the file gets its name. No other process
/// has that log, so the seed needn't be random.
const SEED: u64 = 1;

/// Makes the file of a new, empty registry at the path, where no file is yet.
///
/// The file is made under the path with `-part`, and gets its own name once it is whole. A fault is
/// returned where a file already has the name at the path, or that name and `-wal`, `-part` or
/// `-part-wal`; where a server listens there; and where the file can't be written. Then there is no
/// file, or a whole one where its folder can't be synced.
pub fn make_new<S: Begins>(rt: &HostRuntime, alloc: Global, path: &str) -> Result<(), Ending> {
    match make_at::<S>(rt, alloc, path) {
        Err(Ending::Fault(Failure::Backup(snag))) => Err(Ending::Fault(Failure::Restore(snag))),
        done => done,
    }
}

fn make_at<S: Begins>(rt: &HostRuntime, alloc: Global, path: &str) -> Result<(), Ending> {
    let names = Names::of(alloc, path)?;
    names.require_free(rt)?;
    require_no_server(rt, alloc, path)?;
    let part = new_file(rt, names.part.as_str())?;
    let made = make_file::<S>(rt, alloc, &part, &names);
    names.forget_part(rt);
    made
}

// Makes a registry in the part, and gives it the name of the file.
fn make_file<S: Begins>(
    rt: &HostRuntime,
    alloc: Global,
    part: &File,
    names: &Names<'_>,
) -> Result<(), Ending> {
    match sqlite_std_file::open(rt, names.part.as_str(), S::begin()) {
        Ok(files) => drop(settle_new(alloc, files)?),
        Err(error) => return Err(not_opened(error)),
    }
    written(part.sync_all())?;
    names.give_name(rt)
}

/// Makes a fresh registry in files that are empty, and closes it, which copies its log into its
/// database file. Returns the files. The database file alone then holds that registry, and nothing else.
pub fn settle_new<D: Disk + Drop>(alloc: Global, files: Files<D>) -> Result<Files<D>, Ending>
    requires log { IsTrue (D.Disk.is_usable files.log) }
    requires db { IsTrue (D.Disk.is_usable files.db) }
    ensures holds { IfOk result (λ made. AreClean D.Disk made.log made.db
        → D.Disk.seen files.db ≡ [] → HoldsRegistry (D.Disk.seen made.db) fresh) }
{
    match Registry::open_files(alloc, files, Options::new(SEED)) {
        Ok(registry) => close_new(registry),
        Err((Fault::Memory, _)) => Err(Ending::from(Fault::Memory)),
        Err((Fault::Database, left)) => {
            Err(Ending::Fault(Failure::Opening(obstacle_left(alloc, left))))
        }
    }
}

// Closes a registry. Its file then holds it alone.
fn close_new<D: Disk + Drop>(registry: Registry<FileStore<D>>) -> Result<Files<D>, Ending>
    ensures holds { IfOk result (λ made. AreClean D.Disk made.log made.db
        → HasCleanDisk (file_state registry)
        × HoldsRegistry (D.Disk.seen made.db) (stored (file_state registry))) }
{
    match close_files(registry) {
        Ok(files) => Ok(files),
        Err((ending, files)) => {
            drop(files);
            Err(ending)
        }
    }
}
