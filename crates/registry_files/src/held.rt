//! Copies of the files of a server that is held.

use crate::ending::{Ending, Failure, Obstacle, Snag};
use crate::progress::{Progress, Shown, Work};
use registry_names::Fault;
use std::alloc::Global;
use std::fs::{File, OpenOptions};
use std::io::ErrorKind;
use std::os::unix::fs::OpenOptionsExt;
use std::{fs, io};

/// The mode of a copy: its owner reads and writes it, and nobody else.
const MODE: u32 = 0o600;

/// A new file, which only its owner can read. A fault is returned where the path already names
/// something.
pub fn new_file(rt: &HostRuntime, path: &str) -> Result<File, Ending> {
    let made = OpenOptions::new()
        .write(true)
        .create_new(true)
        .mode(MODE)
        .open(rt, path);
    match made {
        Ok(file) => Ok(file),
        Err(error) => Err(snagged(&error)),
    }
}

/// Copies the registry's file at the path and its log to two new files, byte by byte, while the
/// server that has them is held. The caller has to check afterwards that the server was held all
/// the time.
pub fn copy_files(
    rt: &HostRuntime,
    alloc: Global,
    path: &str,
    file: &mut File,
    log: &mut File,
) -> Result<(), Ending> {
    copy_bytes(rt, path, file)?;
    copy_bytes(rt, log_of(rt, alloc, path)?.as_str(), log)
}

/// The path of the log, which is beside the file that a link leads to.
pub fn log_of(rt: &HostRuntime, alloc: Global, path: &str) -> Result<String, Ending> {
    match fs::canonicalize(rt, path) {
        Ok(file) => Ok(format!(in alloc; "{}-wal", file.as_str())?),
        Err(error) => Err(unread(&error)),
    }
}

/// Copies the file at the path to a new file, byte by byte.
pub fn copy_bytes(rt: &HostRuntime, path: &str, target: &mut File) -> Result<(), Ending> {
    let mut source = match fs::open(rt, path) {
        Ok(file) => file,
        Err(error) => return Err(unread(&error)),
    };
    let mut target = Shown::new(target, Progress::begin(rt, Work::Copying, path));
    match io::copy(&mut source, &mut target) {
        Ok(_) => Ok(()),
        Err(error) => Err(snagged(&error)),
    }
}

/// The fault where a file of the registry can't be read.
pub fn unread(error: &io::Error) -> Ending {
    if error.kind() == ErrorKind::OutOfMemory {
        Ending::from(Fault::Memory)
    } else {
        Ending::Fault(Failure::Opening(Obstacle::Unreachable))
    }
}

/// The fault for an error of the copy.
pub fn snagged(error: &io::Error) -> Ending {
    match error.kind() {
        ErrorKind::OutOfMemory => Ending::from(Fault::Memory),
        ErrorKind::AlreadyExists => snag(Snag::Taken),
        ErrorKind::StorageFull => snag(Snag::Full),
        _ => snag(Snag::Unwritable),
    }
}

/// There is no copy.
pub fn snag(snag: Snag) -> Ending {
    Ending::Fault(Failure::Backup(snag))
}

/// Turns an error of the copy into a fault.
pub fn written(done: io::Result<()>) -> Result<(), Ending> {
    match done {
        Ok(()) => Ok(()),
        Err(error) => Err(snagged(&error)),
    }
}
