//! Unix sockets at paths, where connections come in.

use mio::net::{UnixListener, UnixStream};
use std::alloc::Global;
use std::fs::{DirBuilder, Files, Permissions};
use std::io::ErrorKind;
use std::net::Net;
use std::os::unix::fs::{DirBuilderExt, FileTypeExt, MetadataExt, PermissionsExt};
use std::{fs, io};

/// The mode of a socket: only its owner and its group can connect.
const MODE: u32 = 0o660;

/// The mode of the folder in which it is made: only its owner can enter.
const FOLDER_MODE: u32 = 0o700;

/// A Unix socket that listens.
#[derive(Drop)]
pub struct LocalSocket {
    pub(crate) listener: UnixListener,
}

/// The file of a socket: its path, and which file it is.
#[derive(Drop)]
pub struct SocketFile {
    path: String,
    device: u64,
    number: u64,
}

impl LocalSocket {
    /// Listens at a path at which nothing listens yet. A socket that an earlier server left there
    /// is replaced. Its owner and its group may connect from its first moment on, and nobody else
    /// ever, whatever the process's umask: it is made in a folder that only its owner can enter,
    /// whose path is this one and `-new`, and then renamed.
    ///
    /// `AddrInUse` is returned where something listens at the path or may do so, `AlreadyExists`
    /// where the path names something that isn't a socket, `InvalidInput` where the path is too
    /// long for a socket (101 bytes is the longest); any other error is the system's. Then what is
    /// at the path isn't changed.
    pub fn bind<R: Files + Net>(
        rt: &R,
        alloc: Global,
        path: &str,
    ) -> io::Result<(LocalSocket, SocketFile)> {
        require_free(rt, path)?;
        let folder = format!(in alloc; "{path}-new")?;
        let made = format!(in alloc; "{path}-new/s")?;
        remove_new(rt, folder.as_str(), made.as_str());
        DirBuilder::new()
            .mode(FOLDER_MODE)
            .create(rt, folder.as_str())?;
        let bound = bind_in(rt, alloc, made.as_str(), path);
        remove_new(rt, folder.as_str(), made.as_str());
        bound
    }
}

impl SocketFile {
    // The file that is at a path.
    fn at<R: Files>(rt: &R, alloc: Global, path: &str) -> io::Result<SocketFile> {
        let it = fs::symlink_metadata(rt, path)?;
        Ok(SocketFile {
            path: String::from_str(alloc, path)?,
            device: it.dev(),
            number: it.ino(),
        })
    }

    /// Removes it, unless another file is at its path by now. The errors are those of the system.
    pub fn remove<R: Files>(&self, rt: &R) -> io::Result<()> {
        let path = self.path.as_str();
        let it = fs::symlink_metadata(rt, path)?;
        if it.dev() == self.device && it.ino() == self.number {
            fs::remove_file(rt, path)
        } else {
            Ok(())
        }
    }
}

// Listens in a folder of its own, and moves the socket to the path.
fn bind_in<R: Files + Net>(
    rt: &R,
    alloc: Global,
    made: &str,
    path: &str,
) -> io::Result<(LocalSocket, SocketFile)> {
    let listener = UnixListener::bind(rt, made)?;
    fs::set_permissions(rt, made, Permissions::from_mode(MODE))?;
    let mut file = SocketFile::at(rt, alloc, made)?;
    file.path = String::from_str(alloc, path)?;
    fs::rename(rt, made, path)?;
    Ok((LocalSocket { listener }, file))
}

// Removes the folder in which a socket is made, with what is left there.
fn remove_new<R: Files>(rt: &R, folder: &str, made: &str) {
    let _ = fs::remove_file(rt, made);
    let _ = fs::remove_dir(rt, folder);
}

// An error where something listens at the path, or where the path names something that isn't a
// socket.
fn require_free<R: Files + Net>(rt: &R, path: &str) -> io::Result<()> {
    match fs::symlink_metadata(rt, path) {
        Ok(it) if it.file_type().is_socket() => require_dead(rt, path),
        Ok(_) => Err(io::Error::from(ErrorKind::AlreadyExists)),
        Err(error) if error.kind() == ErrorKind::NotFound => Ok(()),
        Err(error) => Err(error),
    }
}

// An error unless the system refuses to connect to the socket: then nothing listens there.
fn require_dead<R: Net>(rt: &R, path: &str) -> io::Result<()> {
    match UnixStream::connect(rt, path) {
        Err(error) if error.kind() == ErrorKind::ConnectionRefused => Ok(()),
        _ => Err(io::Error::from(ErrorKind::AddrInUse)),
    }
}
