//! One guest: its message is received to its end, answered, and the answer sent.

ghost use Rattle.std.specs.Prelude.{◌≡◌, ◌≢◌, ◌<◌, ◌++◌, [], ℕ, List, true, Some, IfOk, IfSome, IfNone, OnOk, OnErr, length};
ghost use Rattle.registry_guests.specs.Guests as spec;
ghost use Rattle.registry_guests.specs.Guests.{AnswersMessage, HasNoMessage, Receives, IsNoMessage, IsOver, IsOverIn, IsWithin, SendsDue, Visits, first_guest, must_wait};
ghost use Rattle.registry_guests.specs.Outputs.{sent_as};
ghost use Rattle.registry_server.specs.declared.connection.Visit.TheVariants as visits;
ghost use Rattle.registry_server.specs.declared.socket.Flow.TheVariants as flows;

use crate::command_output::CommandOutput;
use crate::fault::ReadError;
use crate::reading::read;
use crate::turning::turn;
use crate::unsent::Unsent;
use registry_names::{BODY_LIMIT, Fault};
use registry_server::{Flow, Socket, Visit};
use registry_service::{Clock, Service};
use std::alloc::{AllocError, Global};
use std::marker::Model;

/// The most bytes of a message: those of a body, one more to see that it is too large, and 8 MiB
/// for the words, which is more than the system passes to a program.
pub const MESSAGE_LIMIT: usize = BODY_LIMIT + 1 + 8_388_608;

/// How many milliseconds a guest has in all.
pub const GUEST_TIME_LIMIT: u64 = 8_000;

/// A guest: its socket, the part of its message that came, the part of its answer that isn't sent
/// (once it has one), and until when it has time.
#[derive(Drop)]
pub struct Guest<S: Socket> {
    socket: S,
    held: Vec<u8>,
    unsent: Option<Unsent>,
    until: u64,
}

impl<S: Socket> Model for Guest<S> {
    ghost use Rattle.registry_guests.specs.Guests.{OpenGuest, guest_at};

    ghost Value = { OpenGuest S };

    ghost view = { λ g. guest_at g.socket g.held.items g.unsent g.until };
}

impl<S: Socket> Guest<S> {
    /// A guest that has just come, at this time in milliseconds. It takes no memory.
    pub fn new(alloc: Global, socket: S, now: u64) -> Guest<S>
        ensures { result ≡ first_guest socket now }
    {
        Guest {
            socket,
            held: Vec::new(alloc),
            unsent: None,
            until: now.saturating_add(GUEST_TIME_LIMIT),
        }
    }

    /// Whether its time is up.
    pub fn is_late(&self, now: u64) -> bool
        ensures { result ≡ spec.is_late self.now now }
    {
        self.until <= now
    }

    /// Its socket.
    pub fn into_socket(self) -> S
        ensures { result ≡ self.socket }
    {
        let Guest {
            socket,
            held: _,
            unsent: _,
            until: _,
        } = self;
        socket
    }

    /// Goes on with the guest. Before its answer begins it receives once. Where nothing comes it answers
    /// what came before, if that is a message: so the other side is still there. Where that sends no
    /// more it has gone, and isn't answered. It sends once where an answer has begun.
    pub fn visit<D: Service, C: Clock>(
        &mut self,
        alloc: Global,
        service: &mut D,
        clock: &mut C,
        buffer: &mut [u8],
    ) -> Visit
        ensures visits { Visits S.received S.sent S.has_none D.answers (length buffer.old) self.old self.new
            service.old service.new (C.readings clock.old) (C.readings clock.new) }
        ensures within { result ≢ visits.Over → IsWithin self.old → IsWithin self.new }
        ensures waits { result ≡ visits.Rests → must_wait S.has_none S.is_full self.new ≡ true }
        ensures no_message { result ≡ visits.Rests → HasNoMessage self.new }
        ensures over { result ≡ visits.Over → IsOver S.is_ended S.is_broken self.new }
    {
        match &mut self.unsent {
            Some(unsent) => send(&mut self.socket, unsent),
            None => match receive(&mut self.socket, &mut self.held, buffer) {
                Ok(Flow::Moved(_)) if self.held.len() > MESSAGE_LIMIT => Visit::Over,
                Ok(Flow::Moved(_)) => Visit::Again,
                Ok(Flow::Waits) => match answer(alloc, service, clock, &self.held) {
                    Some(output) => self.begin(output),
                    None => Visit::Rests,
                },
                Ok(Flow::Ended) => Visit::Over,
                Ok(Flow::Broken) => Visit::Over,
                Err(_) => self.begin(CommandOutput::of(Err(Fault::Memory))),
            },
        }
    }

    // Begins to send the output.
    fn begin(&mut self, output: CommandOutput) -> Visit
        ensures sends { (left : List ℕ) × SendsDue S.received S.sent self.old.socket self.new.socket (sent_as output) left
            × (self.new.left ≡ Some left) }
        ensures no_message { HasNoMessage self.new }
        ensures held { self.new.held ≡ self.old.held }
        ensures until { self.new.until ≡ self.old.until }
        ensures waits { result ≡ visits.Rests → must_wait S.has_none S.is_full self.new ≡ true }
        ensures over { result ≡ visits.Over → IsOver S.is_ended S.is_broken self.new }
    {
        let mut unsent = Unsent::of(output);
        let visit = send(&mut self.socket, &mut unsent);
        self.unsent = Some(unsent);
        visit
    }
}

// Receives what has come, and holds it. After an error, what came isn't held, and what was held
// before still is.
fn receive<S: Socket>(
    socket: &mut S,
    held: &mut Vec<u8>,
    buffer: &mut [u8],
) -> Result<Flow, AllocError>
    ensures kept { OnOk result (Receives S.received S.sent (length buffer.old) socket.old socket.new
        held.old.items held.new.items) }
    ensures lost { OnErr result ((got : List ℕ) × (0 < length got) × Receives S.received S.sent (length buffer.old)
        socket.old socket.new held.old.items (held.old.items ++ got)) }
    ensures stays { OnErr result (held.new.items ≡ held.old.items) }
    ensures none_yet { IfOk result (λ flow. flow ≡ flows.Waits → held.new.items ≡ held.old.items) }
    ensures waits { IfOk result (λ flow. flow ≡ flows.Waits → S.has_none socket.new ≡ true) }
    ensures ended { IfOk result (λ flow. flow ≡ flows.Ended → S.is_ended socket.new ≡ true) }
    ensures broken { IfOk result (λ flow. flow ≡ flows.Broken → S.is_broken socket.new ≡ true) }
{
    let flow = socket.receive(buffer);
    if let Flow::Moved(count) = flow {
        held.extend_from_slice(&buffer[..count])?;
    }
    Ok(flow)
}

// Answers a message. `None` where the bytes aren't a message.
fn answer<D: Service, C: Clock>(
    alloc: Global,
    service: &mut D,
    clock: &mut C,
    bytes: &[u8],
) -> Option<CommandOutput>
    ensures some { IfSome result (λ output. AnswersMessage D.answers bytes.now output
        service.old service.new (C.readings clock.old) (C.readings clock.new)) }
    ensures none { IfNone result (IsNoMessage bytes.now) }
    ensures service { IfNone result (service.new ≡ service.old) }
    ensures clock { IfNone result (C.readings clock.new ≡ C.readings clock.old) }
{
    match read(alloc, bytes) {
        Ok(message) => Some(turn(alloc, service, &message, clock.now())),
        Err(ReadError::Memory) => Some(CommandOutput::of(Err(Fault::Memory))),
        Err(ReadError::Malformed(_)) => None,
    }
}

// Sends once.
fn send<S: Socket>(socket: &mut S, unsent: &mut Unsent) -> Visit
    ensures sends { SendsDue S.received S.sent socket.old socket.new unsent.old unsent.new }
    ensures waits { result ≡ visits.Rests → S.is_full socket.new ≡ true }
    ensures over { result ≡ visits.Over → IsOverIn [] (Some unsent.new) (S.is_ended socket.new) (S.is_broken socket.new) }
{
    let (front, text, rest) = unsent.parts();
    match socket.send(front, text, rest) {
        Flow::Moved(count) => {
            unsent.advance(count);
            if unsent.is_empty() {
                Visit::Over
            } else {
                Visit::Again
            }
        }
        Flow::Waits => Visit::Rests,
        Flow::Ended => Visit::Over,
        Flow::Broken => Visit::Over,
    }
}
