//! A guest's side: asking a server of the registry's file.
//!
//! The server says first that it is ready. A command that gives up before has sent nothing. From
//! then on its connection stays open until it is answered. If the command gives up or is ended, the
//! connection closes, and what it asked isn't begun.

use crate::folder::{COMMAND_SOCKET, folder_of, is_trusted, path_in};
use crate::guest_socket::READY;
use crate::held::{is_end, next_byte};
use crate::identity::is_open_there;
use std::alloc::Global;
use std::fs::Files;
use std::io;
use std::io::{ErrorKind, Read, Write};
use std::net::{Net, Shutdown};
use std::os::unix::net::UnixStream;
use std::time::Duration;

/// A command waits at most this many seconds for a server to be ready, or to be held.
pub(crate) const PATIENCE: u64 = 10;

/// A command waits at most this many seconds for a server that was ready to take or give something.
/// That is longer than a hold may last.
const ANSWER_PATIENCE: u64 = 75;

/// The most bytes of one read.
const PIECE_LEN: usize = 16_384;

/// Connects to the command socket of a server of the file. None where no server listens there: there is
/// no socket, or an earlier server left it, or its path is too long for a socket; and where the server
/// ends before it is ready.
///
/// `TimedOut` comes where the server isn't ready in ten seconds, as while it is held or halted;
/// `InvalidData` where it has another file open than the one at the path; `PermissionDenied` where the
/// folder is another's or others may enter it; and else what the system says.
pub fn connect_to_server<R: Files + Net + Alloc>(
    rt: &R,
    alloc: Global,
    file: &str,
) -> io::Result<Option<UnixStream>> {
    let Some(stream) = connect(rt, alloc, file, COMMAND_SOCKET)? else {
        return Ok(None);
    };
    if is_ready(&stream)? {
        Ok(Some(stream))
    } else {
        Ok(None)
    }
}

// Whether the server says that it is ready. False where it ends before.
fn is_ready(stream: &UnixStream) -> io::Result<bool> {
    set_patience(stream, PATIENCE)?;
    match next_byte(stream) {
        Ok(byte) => Ok(byte == Some(READY)),
        Err(error) if is_end(&error) => Ok(false),
        Err(error) => Err(error),
    }
}

/// Lets each read and write of the stream wait for at most this many seconds.
pub(crate) fn set_patience(stream: &UnixStream, seconds: u64) -> io::Result<()> {
    let patience = Some(Duration::from_secs(seconds));
    stream.set_read_timeout(patience)?;
    stream.set_write_timeout(patience)
}

/// Connects to one of the sockets of a server of the file, as [`connect_to_server`] does.
pub(crate) fn connect<R: Files + Net + Alloc>(
    rt: &R,
    alloc: Global,
    file: &str,
    socket: &str,
) -> io::Result<Option<UnixStream>> {
    match connect_any(rt, alloc, file, socket)? {
        Some(stream) => {
            let folder = folder_of(rt, alloc, file)?;
            if is_open_there(rt, alloc, folder.as_str(), file)? {
                Ok(Some(stream))
            } else {
                Err(io::Error::from(ErrorKind::InvalidData))
            }
        }
        None => Ok(None),
    }
}

/// The same, whatever file the server has open.
pub(crate) fn connect_any<R: Files + Net + Alloc>(
    rt: &R,
    alloc: Global,
    file: &str,
    socket: &str,
) -> io::Result<Option<UnixStream>> {
    let folder = folder_of(rt, alloc, file)?;
    let is_trusted = match is_trusted(rt, folder.as_str(), file) {
        Ok(is_trusted) => is_trusted,
        Err(error) if error.kind() == ErrorKind::NotFound => return Ok(None),
        Err(error) => return Err(error),
    };
    if !is_trusted {
        return Err(io::Error::from(ErrorKind::PermissionDenied));
    }
    connect_at(rt, path_in(alloc, folder.as_str(), socket)?.as_str())
}

/// Connects to a socket. None where nobody listens there.
pub(crate) fn connect_at<R: Net>(rt: &R, place: &str) -> io::Result<Option<UnixStream>> {
    match UnixStream::connect(rt, place) {
        Ok(stream) => Ok(Some(stream)),
        Err(error) => match error.kind() {
            ErrorKind::NotFound | ErrorKind::ConnectionRefused | ErrorKind::InvalidInput => {
                Ok(None)
            }
            _ => Err(error),
        },
    }
}

/// Sends a message, and gives all that is answered: of a server that ended before, less than an
/// answer. An error comes where nothing more can be read, as where the server gives nothing for 75
/// seconds, which is longer than it may be held. Once the stream is dropped the server doesn't begin
/// what was asked.
///
/// A server may answer and end before it took the whole message, so it isn't an error that no more can
/// be sent. Then it is told that no more comes.
pub fn ask(alloc: Global, stream: &UnixStream, message: &[u8]) -> io::Result<Vec<u8>> {
    set_patience(stream, ANSWER_PATIENCE)?;
    let mut writer = stream;
    if writer.write_all(message).is_err() {
        let _ = stream.shutdown(Shutdown::Write);
    }
    read_all(alloc, stream)
}

// Everything that comes until the other side ends.
fn read_all(alloc: Global, mut stream: &UnixStream) -> io::Result<Vec<u8>> {
    let mut all = Vec::new(alloc);
    let mut piece = [0; PIECE_LEN];
    for _ in 0..u64::MAX {
        match stream.read(&mut piece) {
            Ok(0) => return Ok(all),
            Ok(count) => all.extend_from_slice(&piece[..count])?,
            Err(error) if error.kind() == ErrorKind::Interrupted => {}
            Err(error) => return Err(error),
        }
    }
    Err(io::Error::from(ErrorKind::InvalidData))
}
