//! Requests read from a byte stream.

ghost use Rattle.std.specs.Prelude.{◌≡◌, ◌≢◌, ◌≤◌, ◌<◌, [], true, false, length, drop, Ok, IfOk, IfErr};
ghost use Rattle.std.specs.Io.KnownBytes.{IsAtEnd};
ghost use Rattle.registry_names.specs.ByteStreams.{RisesBetween};
ghost use Rattle.registry_names.specs.declared.stop.Fault.TheVariants.{Memory};
ghost use Rattle.registry_wire.specs.Inboxes.{failures_admitted, held_limit, unread};
ghost use Rattle.registry_wire.specs.Pieces.{Gives, Moves};
ghost use Rattle.registry_wire.specs.Reading.{CountsInterrupted, IsEndOf, Takes};
ghost use Rattle.registry_wire.specs.Spelling.{IsUnfinished, Says, request_limit};
ghost use Rattle.registry_wire.specs.declared.first.First.TheVariants.{Unfinished};
ghost use Rattle.registry_wire.specs.declared.inbox.Taken.TheVariants.{ReadFault};

use crate::first::{Ending, First, ending_of, first_in};
use crate::wanted::Wanted;
use registry_names::{ByteIn, Fault, ReadFailed, Refusal};
use std::alloc::Global;
use std::marker::Model;

/// The number of interrupted reads at which an inbox gives up.
pub const INTERRUPTION_LIMIT: u32 = 1000;

/// The most bytes of one read.
const PIECE_LEN: usize = 4096;

/// A reader, the bytes that it gave and that are not used yet, and how many of its reads were
/// interrupted, at most `INTERRUPTION_LIMIT`.
#[derive(Drop)]
pub struct Inbox<R: ByteIn> {
    reader: R,
    held: Vec<u8>,
    interruptions: u32,
}

impl<R: ByteIn> Model for Inbox<R> {
    ghost use Rattle.registry_wire.specs.Inboxes.{IsWithin, Unread, unread, unread_code};

    ghost Value = { Unread R };

    ghost coded = { unread_code R.code };

    ghost view = { λ inbox. unread inbox.reader inbox.held.items inbox.interruptions };

    ghost invariant = { λ inbox. IsWithin inbox.held.items inbox.interruptions };
}

/// How a read of a request ended.
#[derive(Debug, Drop)]
pub enum Taken {
    /// The first request, which is held no more.
    Whole(Wanted),
    /// No byte was held, and none is left.
    Closed,
    /// What is held, and what may follow, isn't a request that is served.
    Bad(Refusal),
    /// A read failed before the request was whole.
    ReadFault,
    /// No memory was left.
    Faulted(Fault),
}

// What one more read gave.
#[derive(Clone, Copy, Debug, PartialEq, Eq)]
enum Piece {
    // More bytes, or none, as it was interrupted.
    More,
    // Nothing is left.
    End,
    // It failed.
    Broken,
    // There was no memory for it.
    Memory,
}

impl<R: ByteIn> Inbox<R> {
    /// An inbox that holds no bytes. It takes no memory.
    pub fn new(alloc: Global, reader: R) -> Inbox<R>
        ensures { result ≡ unread reader [] 0 }
    {
        Inbox {
            reader,
            held: Vec::new(alloc),
            interruptions: 0,
        }
    }

    /// Reads until the bytes that are held begin with a whole request, and takes it; or says why
    /// there is none. Where none was taken all that was read is held, so that after a fault the
    /// call can be made again.
    ///
    /// It doesn't read where what is held decides the answer: a request that is held whole is
    /// taken at once, and the body of one that is refused by its head isn't read. So fewer bytes
    /// are ever held than a request and one read of 4,096 bytes may have.
    ///
    /// An interrupted read is tried again. The one that makes their number `INTERRUPTION_LIMIT` is
    /// a failure.
    pub fn read_request(&mut self, alloc: Global) -> Taken
        ensures takes { Takes self.old.held (R.bytes self.old.reader)
            self.new.held (R.bytes self.new.reader) (R.is_unknown self.new.reader) result }

        // Only interrupted reads are tried again, and only a failed one is a fault: then no more
        // failed than bring the number of the interrupted ones to its limit, or the first one did.
        ensures retried { result ≢ ReadFault
            → CountsInterrupted self.old.interruptions self.new.interruptions
            (R.failures self.old.reader) (R.failures self.new.reader) }
        ensures stopped { result ≡ ReadFault
            → RisesBetween 1 (failures_admitted self.old.interruptions)
            (R.failures self.old.reader) (R.failures self.new.reader) }

        ensures unknown { R.is_unknown self.old.reader ≡ true → R.is_unknown self.new.reader ≡ true }
    {
        'pieces: loop {
            match self.first(alloc) {
                Ok(First::Whole(wanted, used)) => {
                    self.drop_first(used);
                    return Taken::Whole(wanted);
                }
                Ok(First::Bad(refusal)) => return Taken::Bad(refusal),
                Ok(First::Unfinished) => {}
                Err(fault) => return Taken::Faulted(fault),
            }
            match self.read_more() {
                Piece::More => {}
                Piece::End => return self.ended(),
                Piece::Broken => return Taken::ReadFault,
                Piece::Memory => return Taken::Faulted(Fault::Memory),
            }
        }
    }

    // What the bytes that are held say of the first request.
    fn first(&self, alloc: Global) -> Result<First, Fault>
        ensures says { IfOk result (Says self.now.held) }
        ensures fault { IfErr result (λ fault. fault ≡ Memory) }
        ensures short { result ≡ Ok Unfinished → length self.now.held < request_limit }
        ensures bounded { length self.now.held < held_limit }
    {
        first_in(alloc, self.held.as_slice())
    }

    // Reads once, and holds what came. The memory for it is taken first, so that nothing is lost.
    #[tactic(auto, using(crate::proofs::InboxFacts::moving))]
    fn read_more(&mut self) -> Piece
        requires { IsUnfinished self.old.held }
        ensures moves { Moves self.old.held (R.bytes self.old.reader)
            self.new.held (R.bytes self.new.reader) (R.is_unknown self.new.reader) }
        ensures gives { Gives result self.old self.new
            (R.failures self.old.reader) (R.failures self.new.reader)
            (R.is_unknown self.new.reader ≡ false → IsAtEnd (R.bytes self.new.reader)) }
        ensures unknown { R.is_unknown self.old.reader ≡ true → R.is_unknown self.new.reader ≡ true }
        ensures bounded { length self.new.held < held_limit }
    {
        if self.held.reserve(PIECE_LEN).is_err() {
            return Piece::Memory;
        }
        let mut piece = [0; PIECE_LEN];
        match self.reader.read(&mut piece) {
            Ok(0) => Piece::End,
            Ok(n) => {
                if self.held.extend_from_slice(&piece[..n]).is_ok() {
                    Piece::More
                } else {
                    Piece::Memory
                }
            }
            Err(ReadFailed::Interrupted) => {
                self.interruptions = (self.interruptions + 1).min(INTERRUPTION_LIMIT);
                if self.interruptions < INTERRUPTION_LIMIT {
                    Piece::More
                } else {
                    Piece::Broken
                }
            }
            Err(ReadFailed::Broken) => Piece::Broken,
        }
    }

    // How the connection ends where nothing is left and no whole request is held.
    fn ended(&self) -> Taken
        ensures { IsUnfinished self.now.held → IsEndOf self.now.held result }
    {
        match ending_of(&self.held) {
            Ending::Closed => Taken::Closed,
            Ending::BadInput(refusal) => Taken::Bad(refusal),
        }
    }

    fn drop_first(&mut self, used: usize)
        requires { used ≤ length self.old.held }
        ensures { self.new
            ≡ unread self.old.reader (drop used self.old.held) self.old.interruptions }
    {
        self.held.drain(..used);
    }
}
