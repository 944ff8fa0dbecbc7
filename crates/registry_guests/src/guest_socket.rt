//! The sockets of guests.

ghost use Rattle.std.specs.Prelude.{◌≡◌, ◌≢◌, ℕ};
ghost use Rattle.registry_server.specs.Sockets.{MovesAtMost};
ghost use Rattle.registry_server.specs.declared.socket.Flow.TheVariants.{Ended};

use mio::net::UnixStream;
use mio::{Interest, Registry, Token};
use registry_server::{Flow, Socket};
use std::io;
use std::io::{ErrorKind, IoSlice, Read};
use std::net::Shutdown;

/// The byte by which a server says that it is ready for a command.
pub(crate) const READY: u8 = b'r';

/// A Unix socket whose calls never wait.
#[derive(Drop)]
pub struct GuestSocket {
    stream: UnixStream,
}

impl GuestSocket {
    /// The socket of a stream that was accepted.
    pub fn of(stream: UnixStream) -> GuestSocket {
        GuestSocket { stream }
    }

    /// Says to the other side that the server is ready for its command. False where that fails.
    pub(crate) fn greet(&mut self) -> bool {
        match self.send(&[READY], &[], &[]) {
            Flow::Moved(count) => count == 1,
            _ => false,
        }
    }

    /// The system is to report on it under a token.
    pub fn register(&mut self, registry: &Registry, token: Token) -> io::Result<()> {
        registry.register(
            &mut self.stream,
            token,
            Interest::READABLE | Interest::WRITABLE,
        )
    }
}

impl Socket for GuestSocket {
    ghost use Rattle.std.specs.Prelude.{None, true};

    ghost received = { λ _. None };

    ghost sent = { λ _. None };

    ghost has_none = { λ _. true };

    ghost is_full = { λ _. true };

    ghost has_more = { λ _. true };

    ghost is_ended = { λ _. true };

    ghost is_broken = { λ _. true };

    fn receive(&mut self, buffer: &mut [u8]) -> Flow {
        match self.stream.read(buffer) {
            Ok(0) => Flow::Ended,
            Ok(count) => Flow::Moved(count),
            Err(error) => failed(&error),
        }
    }

    // The system tells only by a read whether something has come here. So more may always have
    // come.
    fn look(&mut self) -> Flow {
        Flow::Moved(0)
    }

    // The three pieces go out in one call of the system.
    fn send(&mut self, head: &[u8], body: &[u8], rest: &[u8]) -> Flow {
        let pieces = [IoSlice::new(head), IoSlice::new(body), IoSlice::new(rest)];
        match self.stream.write_vectored(&pieces) {
            Ok(count) => Flow::Moved(count),
            Err(error) => failed(&error),
        }
    }

    fn shut(&mut self) -> bool {
        self.stream.shutdown(Shutdown::Write).is_ok()
    }
}

fn failed(error: &io::Error) -> Flow
    ensures none { MovesAtMost 0 result }
    ensures goes_on { result ≢ Ended }
{
    match error.kind() {
        ErrorKind::WouldBlock => Flow::Waits,
        ErrorKind::Interrupted => Flow::Moved(0),
        _ => Flow::Broken,
    }
}
