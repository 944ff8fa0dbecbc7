//! Which file a server has open.
//!
//! The server writes it in the folder of its sockets. So a command sees whether the file that it names
//! is that one, or another that has come to its path since.

use crate::asking::connect_at;
use crate::folder::{COMMAND_SOCKET, IDENTITY, folder_of, is_trusted, path_in};
use std::alloc::{AllocError, Global};
use std::fs::{Files, Metadata};
use std::io::ErrorKind;
use std::net::Net;
use std::os::unix::fs::MetadataExt;
use std::{fs, io};

/// What the server writes of the file at a path: its device, and its number there. Links are followed.
pub(crate) fn identity_of<R: Files>(rt: &R, alloc: Global, file: &str) -> io::Result<String> {
    Ok(identity_text(alloc, &fs::metadata(rt, file)?)?)
}

fn identity_text(alloc: Global, found: &Metadata) -> Result<String, AllocError> {
    format!(in alloc; "{} {}\n", found.dev(), found.ino())
}

/// Whether the file at a path is the one that a server has open whose sockets are in the folder. False
/// where nothing says which that has.
pub(crate) fn is_open_there<R: Files + Alloc>(
    rt: &R,
    alloc: Global,
    folder: &str,
    file: &str,
) -> io::Result<bool> {
    let open = match fs::read(rt, path_in(alloc, folder, IDENTITY)?.as_str()) {
        Ok(open) => open,
        Err(error) if error.kind() == ErrorKind::NotFound => return Ok(false),
        Err(error) => return Err(error),
    };
    match identity_of(rt, alloc, file) {
        Ok(own) => Ok(open.as_slice() == own.as_bytes()),
        Err(error) if error.kind() == ErrorKind::NotFound => Ok(false),
        Err(error) => Err(error),
    }
}

/// Whether a server listens at the file's path that has another file open, which was there before. So
/// it is, too, where no file is there any more.
///
/// An error is the system's.
pub fn has_other_file<R: Files + Net + Alloc>(
    rt: &R,
    alloc: Global,
    file: &str,
) -> io::Result<bool> {
    let folder = folder_of(rt, alloc, file)?;
    // What comes of a folder that isn't trusted, an attempt to reach the server tells. Without a file
    // nobody is trusted, and nothing is sent.
    match is_trusted(rt, folder.as_str(), file) {
        Ok(true) => {}
        Err(error) if error.kind() == ErrorKind::NotFound => {}
        _ => return Ok(false),
    }
    if is_open_there(rt, alloc, folder.as_str(), file)? {
        return Ok(false);
    }
    is_served(rt, alloc, file)
}

/// Whether a server listens at the file's path, whatever file it has open, and whether or not a file is
/// there.
///
/// An error is the system's.
pub fn is_served<R: Files + Net + Alloc>(rt: &R, alloc: Global, file: &str) -> io::Result<bool> {
    let folder = folder_of(rt, alloc, file)?;
    let socket = path_in(alloc, folder.as_str(), COMMAND_SOCKET)?;
    Ok(connect_at(rt, socket.as_str())?.is_some())
}
