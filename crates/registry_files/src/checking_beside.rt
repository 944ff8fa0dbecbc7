//! Checking the registry of a server, by a copy of its files.

use crate::begins::Begins;
use crate::beside::require_held;
use crate::checking::{problems_in, problems_left};
use crate::ending::{Ending, Snag};
use crate::held::{copy_files, new_file, snag};
use crate::opening::open_obstacle;
use crate::progress::{Progress, Work};
use registry_check::Problem;
use registry_desk::Registry;
use registry_guests::{Hold, folder_of};
use registry_names::Fault;
use sqlite::{FileFrom, Files, Options};
use sqlite_disk::Disk;
use std::alloc::Global;
use std::fs;

/// What the salts of a copy's log are made of. No other process has that log, so it needs no
/// randomness.
const SEED: u64 = 1;

/// What is wrong in the registry of a server, which is held until its files are copied.
///
/// The copy lies in the server's folder, which only its owner can enter, and has no name there once
/// it is open. Only the process that holds the server uses that name, so a file that has it already
/// was left by a check that was killed.
pub fn problems_beside<S: Begins>(
    rt: &HostRuntime,
    alloc: Global,
    path: &str,
    held: Hold,
) -> Result<Vec<Problem>, Ending> {
    let mut held = held;
    let folder = folder_of(rt, alloc, path)?;
    let file = format!(in alloc; "{}/check", folder.as_str())?;
    let log = format!(in alloc; "{}/check-wal", folder.as_str())?;
    forget(rt, file.as_str(), log.as_str());
    let files = files_of_copy::<S>(rt, alloc, path, file.as_str(), log.as_str());
    forget(rt, file.as_str(), log.as_str());
    let kept = require_held(&mut held);
    drop(held);
    match (files, kept) {
        (Ok(files), Ok(())) => {
            let _progress = Progress::begin(rt, Work::Checking, path);
            problems_in_files(alloc, files)
        }
        (Err(ending), Ok(())) => Err(ending),
        (_, Err(ending)) => Err(ending),
    }
}

// Removes a copy's names.
fn forget(rt: &HostRuntime, file: &str, log: &str) {
    for path in [file, log] {
        let _ = fs::remove_file(rt, path);
    }
}

// Copies the files of a server that is held, and opens the copy.
fn files_of_copy<S: Begins>(
    rt: &HostRuntime,
    alloc: Global,
    path: &str,
    file: &str,
    log: &str,
) -> Result<Files<FileFrom<S>>, Ending> {
    copy_to(rt, alloc, path, file, log)?;
    match sqlite_std_file::open(rt, file, S::begin()) {
        Ok(files) => Ok(files),
        Err(error) => match open_obstacle(error) {
            Some(_) => Err(snag(Snag::Unreadable)),
            None => Err(Ending::from(Fault::Memory)),
        },
    }
}

fn copy_to(
    rt: &HostRuntime,
    alloc: Global,
    path: &str,
    file: &str,
    log: &str,
) -> Result<(), Ending> {
    let mut file = new_file(rt, file)?;
    let mut log = new_file(rt, log)?;
    copy_files(rt, alloc, path, &mut file, &mut log)
}

// What is wrong in these files, which are let go of afterwards.
fn problems_in_files<D: Disk + Drop>(
    alloc: Global,
    files: Files<D>,
) -> Result<Vec<Problem>, Ending> {
    if !files.may_be_used() {
        return Err(snag(Snag::Unreadable));
    }
    match Registry::open_files(alloc, files, Options::new(SEED)) {
        Ok(registry) => problems_in(alloc, registry),
        Err((Fault::Memory, _)) => Err(Ending::from(Fault::Memory)),
        Err((Fault::Database, left)) => problems_left(alloc, left),
    }
}
