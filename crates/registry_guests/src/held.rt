//! A server that is held, and the bytes that go to one and come back.

use crate::asking::{PATIENCE, set_patience};
use crate::control_session::KEPT;
use std::io;
use std::io::{ErrorKind, Read, Write};
use std::os::unix::net::UnixStream;

/// A server that is held: it answers queries over HTTP, and all else waits, until this is dropped, or
/// for [`HOLD_LIMIT`](crate::HOLD_LIMIT) at most. So its files stay as they are.
#[derive(Drop)]
pub struct Hold {
    stream: UnixStream,
}

impl Hold {
    /// The hold of a connection to which the server has answered that it is held. An error is the
    /// system's.
    pub fn of(stream: UnixStream) -> io::Result<Hold> {
        set_patience(&stream, PATIENCE)?;
        Ok(Hold { stream })
    }

    /// Asks the server whether it was held all the time, and still is. False if it isn't, as after
    /// [`HOLD_LIMIT`](crate::HOLD_LIMIT), or if the server has ended.
    ///
    /// `TimedOut` is returned where the server gives no answer for ten seconds; any other error is
    /// the system's.
    pub fn confirm(&mut self) -> io::Result<bool> {
        is_echoed(&self.stream, KEPT)
    }
}

/// Sends a byte to the server, and returns whether it comes back. It doesn't where the server has
/// ended.
pub(crate) fn is_echoed(stream: &UnixStream, byte: u8) -> io::Result<bool> {
    if !send_byte(stream, byte)? {
        return Ok(false);
    }
    match next_byte(stream) {
        Ok(answer) => Ok(answer == Some(byte)),
        Err(error) if is_end(&error) => Ok(false),
        Err(error) => Err(error),
    }
}

/// Sends a byte to the server. False where the server has ended.
pub(crate) fn send_byte(mut stream: &UnixStream, byte: u8) -> io::Result<bool> {
    match stream.write_all(&[byte]) {
        Ok(()) => Ok(true),
        Err(error) if is_end(&error) => Ok(false),
        Err(error) => Err(error),
    }
}

/// The next byte that the server sends. `None` where the server has ended, and received everything
/// that was sent to it.
pub(crate) fn next_byte(mut stream: &UnixStream) -> io::Result<Option<u8>> {
    let mut byte = [0; 1];
    for _ in 0..u64::MAX {
        match stream.read(&mut byte) {
            Ok(0) => return Ok(None),
            Ok(_) => return Ok(Some(byte[0])),
            Err(error) => match error.kind() {
                ErrorKind::Interrupted => {}
                ErrorKind::WouldBlock => break,
                _ => return Err(error),
            },
        }
    }
    Err(io::Error::from(ErrorKind::TimedOut))
}

/// Whether an error says that the other side has ended.
pub(crate) fn is_end(error: &io::Error) -> bool {
    match error.kind() {
        ErrorKind::BrokenPipe | ErrorKind::ConnectionReset => true,
        _ => false,
    }
}
