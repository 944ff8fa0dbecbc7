//! A client of the sockets.

use crate::guests::files::folder;
use crate::outcome::same;
use registry_guests::{fits, parse_reply, write};
use registry_names::Text;
use std::alloc::Global;
use std::io;
use std::io::{ErrorKind, Read, Write};
use std::os::unix::net::UnixStream;
use std::process::Abort;
use std::time::Duration;

/// How many milliseconds a client waits for something to come.
const PATIENCE: u64 = 20;

/// The arguments of a command that is done.
pub const ADDS_ANN: &str = "--operator user-add ann";

/// Connects to a socket of a server of a file.
pub fn connect(rt: &HostRuntime, file: &str, socket: &str) -> io::Result<UnixStream> {
    let folder = folder(rt.alloc(), file)?;
    let path = format!(in rt.alloc(); "{}/{socket}", folder.as_str())?;
    let stream = UnixStream::connect(rt, path.as_str())?;
    stream.set_read_timeout(Some(Duration::from_millis(PATIENCE)))?;
    Ok(stream)
}

/// Whether a server listens for commands of a file.
pub fn is_listening(rt: &HostRuntime, file: &str) -> bool {
    connect(rt, file, "command").is_ok()
}

/// The message of a command with these arguments, with a space between them.
pub fn message(rt: &impl Abort, alloc: Global, arguments: &str) -> Vec<u8> {
    let mut texts = Vec::new(alloc);
    for argument in arguments.split(' ') {
        let text = Text::from_str(alloc, argument).expect(rt, "memory");
        texts.push(text).expect(rt, "memory");
    }
    if !fits(&texts) {
        panic!(rt; "the arguments fit into no message");
    }
    write(alloc, &texts, b"").expect(rt, "memory")
}

/// Sends bytes.
pub fn send(rt: &impl Abort, mut stream: &UnixStream, bytes: &[u8]) {
    stream.write_all(bytes).expect(rt, "the bytes are sent");
}

// Adds what comes at a client before it loses patience, and says whether the other side has ended.
fn receive(rt: &impl Abort, mut stream: &UnixStream, bytes: &mut Vec<u8>) -> bool {
    match stream.read_to_end(bytes) {
        Ok(_) => true,
        Err(error) => match error.kind() {
            ErrorKind::WouldBlock => false,
            ErrorKind::ConnectionReset => true,
            _ => panic!(rt; "{error:?}"),
        },
    }
}

/// The server has said that it is ready where it is to say so, has answered that a command is done,
/// and has ended the connection.
pub fn is_done(rt: &impl Abort, alloc: Global, case: &str, stream: &UnixStream, ready: &[u8]) {
    let mut bytes = Vec::new(alloc);
    same(rt, (case, "ended"), receive(rt, stream, &mut bytes), true);
    same(rt, (case, "ready"), bytes.starts_with(ready), true);
    match parse_reply(alloc, bytes.get(ready.len()..).unwrap_or(&[])) {
        Ok(reply) => {
            same(rt, (case, "status"), reply.status, 0);
            let is_done = reply.text == b"{\"ok\":true}".as_slice();
            same(rt, (case, "text"), is_done, true);
        }
        Err(_) => panic!(rt; "{case}: there is no reply"),
    }
}

/// These bytes have come, and nothing more. The other side has ended, or it is still there.
pub fn hears(
    rt: &impl Abort,
    alloc: Global,
    case: &str,
    stream: &UnixStream,
    wanted: &str,
    is_end: bool,
) {
    let mut bytes = Vec::new(alloc);
    same(rt, (case, "ended"), receive(rt, stream, &mut bytes), is_end);
    let is_wanted = bytes.as_slice() == wanted.as_bytes();
    same(rt, (case, wanted), is_wanted, true);
}
