//! Sockets whose calls never wait.

ghost use Rattle.std.specs.Prelude.{◌≡◌, ◌≢◌, ◌++◌, ℕ, List, Option, Bool, true, false, length};
ghost use Rattle.std.specs.Io.KnownBytes.{append_known};
ghost use Rattle.registry_server.specs.Sockets.{MovesAtMost, moved};
ghost use Rattle.registry_server.specs.declared.socket.Flow.TheVariants.{Waits, Ended, Broken};

use mio::net::TcpStream;
use std::io;
use std::io::{ErrorKind, IoSlice, Read};
use std::net::Shutdown;

/// What a call of a socket gave.
#[derive(Clone, Copy, Debug, PartialEq, Eq)]
pub enum Flow {
    /// This many bytes went through, and none where it was interrupted.
    Moved(usize),
    /// It would have to wait.
    Waits,
    /// The other side sends no more.
    Ended,
    /// The connection is broken.
    Broken,
}

/// A socket whose calls never wait.
///
/// Contracts see the bytes that were received from it so far, and those that it took to send, where
/// they are known. A `TcpStream` of the system names neither: what is proved for every socket holds
/// of it, too, since no code can ask a socket for them.
pub trait Socket: Drop {
    // The bytes that were received so far, where they are known.
    ghost received: { Self → Option (List ℕ) };

    // The bytes that it took to send so far, where they are known.
    ghost sent: { Self → Option (List ℕ) };

    // Whether it may have nothing to give now.
    ghost has_none: { Self → Bool };

    // Whether it may take nothing to send now.
    ghost is_full: { Self → Bool };

    // Whether it may have something to give now.
    ghost has_more: { Self → Bool };

    // Whether the other side may have said that it sends no more.
    ghost is_ended: { Self → Bool };

    // Whether the connection may be broken.
    ghost is_broken: { Self → Bool };

    /// Receives once what has come, into the beginning of the buffer, which has room.
    fn receive(&mut self, buffer: &mut [u8]) -> Flow
        ensures bound { MovesAtMost (length buffer.new) result }
        ensures received { received self.new
            ≡ append_known (received self.old) (moved result buffer.new) }
        ensures sent { sent self.new ≡ sent self.old }
        ensures waits { result ≡ Waits → has_none self.new ≡ true }
        ensures ended { result ≡ Ended → is_ended self.new ≡ true }
        ensures still_ended { is_ended self.old ≡ true → is_ended self.new ≡ true }
        ensures broken { result ≡ Broken → is_broken self.new ≡ true };

    /// Looks once whether something has come, and receives none of it.
    fn look(&mut self) -> Flow
        ensures received { received self.new ≡ received self.old }
        ensures sent { sent self.new ≡ sent self.old }
        ensures waits { result ≡ Waits → has_none self.new ≡ true }
        ensures more { result ≢ Waits → has_more self.new ≡ true }
        ensures still_ended { is_ended self.old ≡ true → is_ended self.new ≡ true }
        ensures broken { result ≡ Broken → is_broken self.new ≡ true };

    /// Takes some of the first bytes of these three to send, once.
    fn send(&mut self, head: &[u8], body: &[u8], rest: &[u8]) -> Flow
        ensures bound { MovesAtMost (length (head.now ++ body.now ++ rest.now)) result }
        ensures sent { sent self.new
            ≡ append_known (sent self.old) (moved result (head.now ++ body.now ++ rest.now)) }
        ensures received { received self.new ≡ received self.old }
        ensures waits { result ≡ Waits → is_full self.new ≡ true }
        ensures goes_on { result ≢ Ended }
        ensures still_ended { is_ended self.old ≡ true → is_ended self.new ≡ true }
        ensures broken { result ≡ Broken → is_broken self.new ≡ true };

    /// Tells the other side that no more is sent. False where that fails.
    fn shut(&mut self) -> bool
        ensures sent { sent self.new ≡ sent self.old }
        ensures received { received self.new ≡ received self.old }
        ensures still_ended { is_ended self.old ≡ true → is_ended self.new ≡ true }
        ensures broken { result ≡ false → is_broken self.new ≡ true };
}

impl Socket for TcpStream {
    ghost use Rattle.std.specs.Prelude.{None, true};

    ghost received = { λ _. None };

    ghost sent = { λ _. None };

    ghost has_none = { λ _. true };

    ghost is_full = { λ _. true };

    ghost has_more = { λ _. true };

    ghost is_ended = { λ _. true };

    ghost is_broken = { λ _. true };

    fn receive(&mut self, buffer: &mut [u8]) -> Flow {
        match self.read(buffer) {
            Ok(0) => Flow::Ended,
            Ok(count) => Flow::Moved(count),
            Err(error) => failed(&error),
        }
    }

    fn look(&mut self) -> Flow {
        let mut first = [0; 1];
        match self.peek(&mut first) {
            Ok(0) => Flow::Ended,
            Ok(count) => Flow::Moved(count),
            Err(error) => failed(&error),
        }
    }

    // The three pieces go out in one call of the system.
    fn send(&mut self, head: &[u8], body: &[u8], rest: &[u8]) -> Flow {
        let stream: &TcpStream = self;
        let pieces = [IoSlice::new(head), IoSlice::new(body), IoSlice::new(rest)];
        match stream.write_vectored(&pieces) {
            Ok(count) => Flow::Moved(count),
            Err(error) => failed(&error),
        }
    }

    fn shut(&mut self) -> bool {
        self.shutdown(Shutdown::Write).is_ok()
    }
}

fn failed(error: &io::Error) -> Flow
    ensures none { MovesAtMost 0 result }
    ensures goes_on { result ≢ Ended }
{
    match error.kind() {
        ErrorKind::WouldBlock => Flow::Waits,
        ErrorKind::Interrupted => Flow::Moved(0),
        _ => Flow::Broken,
    }
}
