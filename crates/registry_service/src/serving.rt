//! One connection, request after request.

ghost use Rattle.std.specs.Prelude.{◌≡◌, ◌≤◌, ◌∷◌, [], ℕ, List, Option, true, IfOk, MatchResult, OnErr};
ghost use Rattle.registry_wire.specs.Reading.{CountsInterrupted};
ghost use Rattle.registry_service.specs.Courses.{Gave, GoesTo, IsServed, ReadsFail, Rests, side};
ghost use Rattle.registry_service.specs.Servings.{response_failures, written_failures};
ghost use Rattle.registry_service.specs.Turns.{profile, spoken};

use crate::responding::{Responded, respond, take_turn};
use crate::sending::PackumentService;
use crate::turning::{End, REQUESTS_PER_CONNECTION, turn_away, turn_starved};
use registry_names::{ByteIn, ByteOut, Moment};
use registry_wire::{Inbox, Taken};
use std::alloc::Global;

/// The clock that gives the moment of a request.
pub trait Clock {
    // The next readings, where they are known.
    ghost readings: { Self → Option (List ℕ) };

    /// The moment that it is.
    fn now(&mut self) -> Moment
        ensures { Gave (readings self.old) (readings self.new) (result ∷ []) };
}

/// How a connection was served.
#[derive(Clone, Copy, Debug, PartialEq, Eq)]
pub struct Served {
    /// The whole requests whose responses were written whole.
    pub requests: u32,
    pub end: End,
}

/// Serves a connection until it ends: takes its requests one after the other, each of them as a
/// [`turn`](crate::turn), and writes their responses. Input that isn't a request is answered, too,
/// and so is a lack of memory while a request is read.
///
/// A packument is sent as it is made. Where a fault comes after its first byte, the response stays
/// cut short: the fault ends the connection, and nothing is written of it.
///
/// The clock is asked once for each whole request. Nothing more is read after a turn that ends the
/// connection, and after a failed write the service is asked nothing more, either.
pub fn serve<D: PackumentService, R: ByteIn, W: ByteOut, C: Clock>(
    alloc: Global,
    service: &mut D,
    inbox: &mut Inbox<R>,
    writer: &mut W,
    clock: &mut C,
) -> Served
    ensures served { IsServed (spoken profile D.answers)
        (side service.old inbox.old.held (R.bytes inbox.old.reader) (R.is_unknown inbox.old.reader)
        (C.readings clock.old))
        (side service.new inbox.new.held (R.bytes inbox.new.reader) (R.is_unknown inbox.new.reader)
        (C.readings clock.new))
        (W.bytes writer.old) (W.bytes writer.new) (W.is_unknown writer.new) result }
    ensures few { result.requests ≤ 1000 }

    // A read fault is returned where a read failed, and at most a thousand reads did; a write fault
    // where a write failed.
    ensures counted { ReadsFail result.end
        inbox.old.interruptions inbox.new.interruptions
        (R.failures inbox.old.reader) (R.failures inbox.new.reader) }
    ensures written { W.failures writer.new ≡ written_failures result.end (W.failures writer.old) }
{
    let mut requests = 0;
    'turns: loop {
        let is_last = requests + 1 == REQUESTS_PER_CONNECTION;
        match next_turn(alloc, service, inbox, writer, clock, is_last) {
            Ok(Responded::Whole { end, is_request }) => {
                requests += u32::from(is_request);
                match end {
                    Some(end) => return Served { requests, end },
                    None => {}
                }
            }
            Ok(Responded::BrokenOff) => {
                return Served {
                    requests,
                    end: End::WriteFault,
                };
            }
            Ok(Responded::CutShort(fault)) => {
                return Served {
                    requests,
                    end: End::Faulted(fault),
                };
            }
            Err(end) => return Served { requests, end },
        }
    }
}

// The next turn of a connection, with what happened to its response; or how the connection ends
// without one.
fn next_turn<D: PackumentService, R: ByteIn, W: ByteOut, C: Clock>(
    alloc: Global,
    service: &mut D,
    inbox: &mut Inbox<R>,
    writer: &mut W,
    clock: &mut C,
    is_last: bool,
) -> Result<Responded, End>
    ensures turns { MatchResult result
        (GoesTo (spoken profile D.answers)
        (side service.old inbox.old.held (R.bytes inbox.old.reader)
        (R.is_unknown inbox.old.reader) (C.readings clock.old))
        (side service.new inbox.new.held (R.bytes inbox.new.reader)
        (R.is_unknown inbox.new.reader) (C.readings clock.new))
        is_last (W.bytes writer.old) (W.bytes writer.new) (W.is_unknown writer.new))
        (Rests (spoken profile D.answers)
        (side service.old inbox.old.held (R.bytes inbox.old.reader)
        (R.is_unknown inbox.old.reader) (C.readings clock.old))
        (side service.new inbox.new.held (R.bytes inbox.new.reader)
        (R.is_unknown inbox.new.reader) (C.readings clock.new))) }
    ensures unasked { OnErr result (writer.new ≡ writer.old) }

    ensures counted { MatchResult result
        (λ _. CountsInterrupted inbox.old.interruptions inbox.new.interruptions
        (R.failures inbox.old.reader) (R.failures inbox.new.reader))
        (λ end. ReadsFail end
        inbox.old.interruptions inbox.new.interruptions
        (R.failures inbox.old.reader) (R.failures inbox.new.reader)) }
    ensures written { IfOk result (λ responded. W.failures writer.new
        ≡ response_failures responded (W.failures writer.old)) }

    ensures unread { R.is_unknown inbox.old.reader ≡ true → R.is_unknown inbox.new.reader ≡ true }
    ensures unknown { W.is_unknown writer.old ≡ true → W.is_unknown writer.new ≡ true }
{
    match inbox.read_request(alloc) {
        Taken::Whole(wanted) => {
            let at = clock.now();
            Ok(take_turn(alloc, service, &wanted, at, is_last, writer))
        }
        Taken::Bad(refusal) => Ok(respond(&turn_away(refusal), writer)),
        Taken::Faulted(_) => Ok(respond(&turn_starved(), writer)),
        Taken::Closed => Err(End::Closed),
        Taken::ReadFault => Err(End::ReadFault),
    }
}
