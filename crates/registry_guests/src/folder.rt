//! The folder of a server's sockets, which the owner of the registry's file alone may enter.

ghost use Rattle.std.specs.Prelude.{◌≡◌, true};
ghost use Rattle.registry_guests.specs.Folders as spec;

use std::alloc::Global;
use std::fs::{DirBuilder, Files};
use std::io::ErrorKind;
use std::os::unix::fs::{DirBuilderExt, MetadataExt};
use std::{fs, io};

/// The bits of a mode that are the owner's, and those of the file's kind, are multiples of this.
const OWNER: u32 = 0o100;

/// The socket at which commands are answered.
pub(crate) const COMMAND_SOCKET: &str = "command";

/// The socket at which the server is held or stopped.
pub(crate) const CONTROL_SOCKET: &str = "control";

/// What says which file the server has open.
pub(crate) const IDENTITY: &str = "file";

/// The folder with the sockets of a file's server. It lies beside the file itself, even if the path is
/// a link to the file.
///
/// An error is the system's.
pub fn folder_of<R: Files + Alloc>(rt: &R, alloc: Global, file: &str) -> io::Result<String> {
    match fs::symlink_metadata(rt, file) {
        Ok(found) if found.is_symlink() => {
            let target = fs::canonicalize(rt, file)?;
            Ok(format!(in alloc; "{}-server", target.as_str())?)
        }
        _ => Ok(format!(in alloc; "{file}-server")?),
    }
}

/// The path of something in a folder.
pub(crate) fn path_in(alloc: Global, folder: &str, name: &str) -> io::Result<String> {
    Ok(format!(in alloc; "{folder}/{name}")?)
}

/// Whether what lies at the folder's path is trusted: it is a folder and no link, it belongs to the
/// user, and its mode lets nobody else enter.
pub(crate) fn is_private(is_folder: bool, owner: u32, user: u32, mode: u32) -> bool
    ensures { result ≡ spec.is_private is_folder owner user mode }
{
    is_folder && owner == user && mode % OWNER == 0
}

/// The mode of a new folder: its owner enters it, and nobody else.
fn folder_mode() -> u32
    ensures mode { result ≡ spec.folder_mode }
    ensures private { spec.is_owners_alone result ≡ true }
{
    0o700
}

/// Whether the folder of a file is one that the file's owner alone may enter. An error is the system's.
pub(crate) fn is_trusted<R: Files>(rt: &R, folder: &str, file: &str) -> io::Result<bool> {
    let found = fs::symlink_metadata(rt, folder)?;
    let user = fs::metadata(rt, file)?.uid();
    Ok(is_private(found.is_dir(), found.uid(), user, found.mode()))
}

/// Makes the folder of a server of a file where it isn't there.
///
/// `PermissionDenied` comes where it is another's, or others may enter it, and else what the system
/// says.
pub(crate) fn make_folder<R: Files>(rt: &R, folder: &str, file: &str) -> io::Result<()> {
    match DirBuilder::new().mode(folder_mode()).create(rt, folder) {
        Err(error) if error.kind() != ErrorKind::AlreadyExists => return Err(error),
        _ => {}
    }
    if is_trusted(rt, folder, file)? {
        Ok(())
    } else {
        Err(io::Error::from(ErrorKind::PermissionDenied))
    }
}

/// Removes a file, if it is there.
pub(crate) fn remove<R: Files>(rt: &R, path: &str) -> io::Result<()> {
    match fs::remove_file(rt, path) {
        Err(error) if error.kind() != ErrorKind::NotFound => Err(error),
        _ => Ok(()),
    }
}
