//! Holding a server of the registry's file, and stopping it.

use crate::asking::{PATIENCE, connect, connect_any, set_patience};
use crate::control_session::{HOLD, STOP};
use crate::folder::CONTROL_SOCKET;
use crate::held::{Hold, is_echoed, is_end, next_byte, send_byte};
use std::alloc::Global;
use std::fs::Files;
use std::io;
use std::io::ErrorKind;
use std::net::Net;
use std::os::unix::net::UnixStream;

/// Holds a server of the file. `None` where no server listens, as
/// [`connect_to_server`](crate::connect_to_server) finds it.
///
/// `PermissionDenied` comes where the folder is another's or others may enter it; `InvalidData` where
/// the server has another file open than the one at the path; `TimedOut` where the server doesn't do it
/// in ten seconds, as while another holds it or has asked it to end; `ResourceBusy` where it ends before
/// it is held; and else what the system says.
pub fn hold<R: Files + Net + Alloc>(rt: &R, alloc: Global, file: &str) -> io::Result<Option<Hold>> {
    let Some(stream) = connect(rt, alloc, file, CONTROL_SOCKET)? else {
        return Ok(None);
    };
    set_patience(&stream, PATIENCE)?;
    if is_echoed(&stream, HOLD)? {
        Ok(Some(Hold::of(stream)?))
    } else {
        Err(io::Error::from(ErrorKind::ResourceBusy))
    }
}

/// Stops the server that listens at the path of the file, whatever file it has open, and returns when
/// it has ended, with all that was under way answered. False where no server listens, as
/// [`connect_to_server`](crate::connect_to_server) finds it.
///
/// It waits as long as the server takes. That is up to a minute while another command holds it;
/// then, for each connection, 10 s until a request that was begun has come (up to 370 s for the
/// body of one of a crowd), 60 s until its responses were taken, and 2 s for what comes after the
/// last; and 8 s in all for a command. A connection whose next request is there when one was
/// answered goes on with it.
///
/// `PermissionDenied` comes where the folder is another's or others may enter it; `ResourceBusy` where
/// the server didn't receive it and is still there, as it may be where this process was halted; and
/// else what the system says.
pub fn stop<R: Files + Net + Alloc>(rt: &R, alloc: Global, file: &str) -> io::Result<bool> {
    let Some(stream) = connect_any(rt, alloc, file, CONTROL_SOCKET)? else {
        return Ok(false);
    };
    if send_byte(&stream, STOP)? && waits_for_end(&stream)? {
        return Ok(true);
    }
    match connect_any(rt, alloc, file, CONTROL_SOCKET)? {
        Some(_) => Err(io::Error::from(ErrorKind::ResourceBusy)),
        None => Ok(true),
    }
}

// Waits for the end of the server. Returns whether it had received the byte before.
fn waits_for_end(stream: &UnixStream) -> io::Result<bool> {
    match next_byte(stream) {
        Ok(_) => Ok(true),
        Err(error) if is_end(&error) => Ok(false),
        Err(error) => Err(error),
    }
}
