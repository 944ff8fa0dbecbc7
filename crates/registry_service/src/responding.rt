//! The response to a request: its turn is taken, and the response is written.

ghost use Rattle.std.specs.Prelude.{◌≡◌, true};
ghost use Rattle.registry_service.specs.Responses.{Responds, RespondsTo};
ghost use Rattle.registry_service.specs.Sendings.{IsPackument};
ghost use Rattle.registry_service.specs.Servings.{RespondsWith, response_failures};
ghost use Rattle.registry_service.specs.Turns.{profile, request as cause, spoken};

use crate::heading::Heading;
use crate::request::request_of;
use crate::sending::PackumentService;
use crate::turning::{End, Turned, end_after_reply, stopped, turn_with};
use registry_names::{ByteOut, Fault, Moment};
use registry_packument::Sent;
use registry_rules::{Action, Reply, Request};
use registry_wire::{Wanted, write_response};
use std::alloc::Global;

/// What happened to the response to a turn.
#[derive(Clone, Copy)]
pub(crate) enum Responded {
    /// It was written whole.
    Whole {
        /// How the connection ends after it, if it does.
        end: Option<End>,
        /// Whether it answers a whole request.
        is_request: bool,
    },
    /// A write failed. A prefix of it was written.
    BrokenOff,
    /// A fault came in the middle of a packument. A prefix of that response was written.
    CutShort(Fault),
}

/// Takes the turn of a whole request, asked at this moment, and writes its response. `is_last` says
/// that this is the last request that its connection may have.
///
/// It is the turn that [`turn`](crate::turn) takes, except that a packument is sent as it is made.
pub(crate) fn take_turn<D: PackumentService, W: ByteOut>(
    alloc: Global,
    service: &mut D,
    wanted: &Wanted,
    at: Moment,
    is_last: bool,
    writer: &mut W,
) -> Responded
    ensures responds { Responds (spoken profile D.answers) service.old (cause wanted.now at) is_last
        service.new (W.bytes writer.old) (W.bytes writer.new) (W.is_unknown writer.new) result }
    ensures counted { W.failures writer.new ≡ response_failures result (W.failures writer.old) }
    ensures unknown { W.is_unknown writer.old ≡ true → W.is_unknown writer.new ≡ true }
{
    match request_of(alloc, wanted, at) {
        Ok(request) => answer(alloc, service, &request, is_last, wanted.closes, writer),
        Err(stop) => respond(&turn_with(stopped(stop), is_last, wanted.closes), writer),
    }
}

// Answers a request that is in form, and writes the response.
fn answer<D: PackumentService, W: ByteOut>(
    alloc: Global,
    service: &mut D,
    request: &Request,
    is_last: bool,
    closes: bool,
    writer: &mut W,
) -> Responded
    ensures responds { RespondsTo (spoken profile D.answers) service.old request.now is_last closes
        service.new (W.bytes writer.old) (W.bytes writer.new) (W.is_unknown writer.new) result }
    ensures counted { W.failures writer.new ≡ response_failures result (W.failures writer.old) }
    ensures unknown { W.is_unknown writer.old ≡ true → W.is_unknown writer.new ≡ true }
{
    match &request.what {
        Action::Packument { package: _ } => send(alloc, service, request, is_last, closes, writer),
        _ => {
            let outcome = service.answer(alloc, request);
            respond(&turn_with(outcome, is_last, closes), writer)
        }
    }
}

// Sends a packument, after the head of the response.
fn send<D: PackumentService, W: ByteOut>(
    alloc: Global,
    service: &mut D,
    request: &Request,
    is_last: bool,
    closes: bool,
    writer: &mut W,
) -> Responded
    requires { IsPackument request.now.what }
    ensures responds { RespondsTo (spoken profile D.answers) service.old request.now is_last closes
        service.new (W.bytes writer.old) (W.bytes writer.new) (W.is_unknown writer.new) result }
    ensures counted { W.failures writer.new ≡ response_failures result (W.failures writer.old) }
    ensures unknown { W.is_unknown writer.old ≡ true → W.is_unknown writer.new ≡ true }
{
    let end = end_after_reply(is_last, closes);
    let heading = Heading {
        closes: end.is_some(),
    };
    match service.send_packument(alloc, request, writer, &heading) {
        Sent::Whole => Responded::Whole {
            end,
            is_request: true,
        },
        Sent::WriteFault => Responded::BrokenOff,
        Sent::Broken {
            fault,
            has_started: true,
        } => Responded::CutShort(fault),
        Sent::Broken {
            fault,
            has_started: false,
        } => respond(&turn_with(Err(fault), is_last, closes), writer),
        Sent::Refused(refusal) => {
            let outcome = Ok(Reply::Refused(refusal));
            respond(&turn_with(outcome, is_last, closes), writer)
        }
    }
}

/// Writes the response of a turn.
pub(crate) fn respond<W: ByteOut>(turned: &Turned, writer: &mut W) -> Responded
    ensures responds { RespondsWith turned.now (W.bytes writer.old) (W.bytes writer.new)
        (W.is_unknown writer.new) result }
    ensures counted { W.failures writer.new ≡ response_failures result (W.failures writer.old) }
    ensures unknown { W.is_unknown writer.old ≡ true → W.is_unknown writer.new ≡ true }
{
    let response = turned.answer.response(turned.end.is_some());
    match write_response(&response, writer) {
        Ok(()) => Responded::Whole {
            end: turned.end,
            is_request: turned.is_request,
        },
        Err(_) => Responded::BrokenOff,
    }
}
