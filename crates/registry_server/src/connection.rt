//! One open connection.

ghost use Rattle.std.specs.Prelude.{◌≡◌, ◌≤◌, ◌≢◌, [], ℕ, List, Option, None, Some, true, false, IfOk, IsSome, OnOk, OnErr, length};
ghost use Rattle.registry_wire.specs.Spelling.{IsUnfinished};
ghost use Rattle.registry_server.specs.ConnectionStates.{Does, MayTakeTurn, fresh};
ghost use Rattle.registry_server.specs.Connections.{AnswersOnce, Drops, IsDone, IsLost, LeavesLittle, LeavesRest, Receives, SendsDue, StarvesOnce, Visits, body_since, connected, finishing, has_body, is_answered, may_command, must_wait, stage_after, waiting};
ghost use Rattle.registry_server.specs.Groups.{Adds, AnswersAside, IsFirst, IsReady, IsSpelled, IsStill, SetsAside, command_limit};
ghost use Rattle.registry_server.specs.Phases as phases;
ghost use Rattle.registry_service.specs.Turns.{spoken};
ghost use Rattle.registry_server.specs.Queries.{queries};
ghost use Rattle.registry_rules.specs.declared.request.Request.{Request};
ghost use Rattle.registry_server.specs.declared.connection.Arrival.TheVariants as arrivals;
ghost use Rattle.registry_server.specs.declared.connection.Visit.{Visit};
ghost use Rattle.registry_server.specs.declared.connection.Visit.TheVariants as visits;
ghost use Rattle.registry_server.specs.declared.group.Command.{Command};
ghost use Rattle.registry_server.specs.declared.phase.Stage.TheVariants as stages;
ghost use Rattle.registry_server.specs.declared.socket.Flow.TheVariants as flows;
ghost use Rattle.registry_server.specs.declared.state.Progress.TheVariants as progress;

use crate::group::{Command, Group};
use crate::phase::{Phase, Stage};
use crate::socket::{Flow, Socket};
use crate::state::{ConnectionState, Progress};
use registry_names::Fault;
use registry_rules::Reply;
use registry_service::{Clock, HttpService, Service, turn_with};
use registry_wire::HEAD_LIMIT;
use std::alloc::{AllocError, Global};
use std::marker::Model;

/// A body is under way where more bytes are held of a request that isn't whole than a head may
/// have.
pub const BODY_LEAST: usize = HEAD_LIMIT;

/// How a visit ended.
#[derive(Clone, Copy, Debug, PartialEq, Eq)]
pub enum Visit {
    /// The connection can go on at once.
    Again,
    /// The other side has to give or take something first.
    Rests,
    /// The connection has ended.
    Over,
}

// How a visit goes on once what has come was received.
#[derive(Clone, Copy)]
enum Arrival {
    // A turn may be taken of what is held.
    Ready,
    // No turn is to be taken, and the visit has ended so.
    Done(Visit),
}

/// An open connection: its socket, what is left to do on it, its stage and until when that may
/// last, and whether the other side sends no more.
#[derive(Drop)]
pub struct Connection<S: Socket> {
    socket: S,
    state: ConnectionState,
    phase: Phase,
    is_over: bool,
}

impl<S: Socket> Model for Connection<S> {
    ghost use Rattle.std.specs.Prelude.{◌≡◌, true};
    ghost use Rattle.registry_server.specs.Connections.{IsInOrder, OpenConnection, connected};

    ghost Value = { OpenConnection S };

    ghost view = { λ c. connected c.socket c.state c.phase c.is_over };

    ghost invariant = { λ c. IsInOrder c.phase.stage c.state
        × (c.is_over ≡ true → S.is_ended c.socket ≡ true) };
}

impl<S: Socket> Connection<S> {
    /// A new connection, at this time in milliseconds.
    pub fn new(alloc: Global, socket: S, now: u64) -> Connection<S>
        ensures { result ≡ connected socket fresh (phases.first_phase now) false }
    {
        Connection {
            socket,
            state: ConnectionState::new(alloc),
            phase: Phase::new(now),
            is_over: false,
        }
    }

    /// Whether its time is up.
    pub fn is_late(&self, now: u64) -> bool
        ensures { result ≡ phases.is_late self.now.phase now }
    {
        self.phase.is_late(now)
    }

    /// Since when nothing is begun on it. `None` where something is.
    pub fn idle_since(&self) -> Option<u64>
        ensures { result ≡ phases.idle_since self.now.phase }
    {
        self.phase.idle_since()
    }

    /// How many bytes are held.
    pub fn held_len(&self) -> usize
        ensures { result ≡ length self.now.state.held }
    {
        self.state.held_len()
    }

    /// Whether a body is under way.
    pub fn has_body(&self) -> bool
        ensures { result ≡ has_body self.now }
    {
        match self.phase.stage {
            Stage::Begun => self.held_len() > BODY_LEAST,
            _ => false,
        }
    }

    /// Whether a request is under way that may be a command: its first byte isn't the `G` of `GET`.
    pub fn may_command(&self) -> bool
        ensures { result ≡ may_command self.now }
    {
        match self.phase.stage {
            Stage::Begun | Stage::Next => !self.state.begins_query(),
            _ => false,
        }
    }

    /// Whether its request was answered and it goes on, and what follows wasn't looked at yet.
    pub fn is_answered(&self) -> bool
        ensures { result ≡ is_answered self.now }
    {
        match self.phase.stage {
            Stage::Next | Stage::Sends => self.state.ends().is_none(),
            _ => false,
        }
    }

    /// Since when a body is under way: since its request began. `None` where no body is.
    pub fn body_since(&self) -> Option<u64>
        ensures { result ≡ body_since self.now }
    {
        if self.has_body() {
            Some(self.phase.since)
        } else {
            None
        }
    }

    /// Its body waits until others are done. The time of its request begins anew, unless the
    /// request is older than [`WAIT_LIMIT`](crate::WAIT_LIMIT).
    pub fn wait(&mut self, now: u64)
        requires { has_body self.old ≡ true }
        ensures { self.new ≡ waiting now self.old }
    {
        self.phase.wait(now);
    }

    /// The server is to end: at most one more request may be answered, and that one is the last.
    pub fn finish(&mut self)
        ensures { self.new ≡ finishing self.old }
    {
        self.state.finish();
    }

    /// Goes on with the connection: receives once, answers at most one request, and sends once.
    /// Where a request isn't whole, it looks whether more has come.
    pub fn visit<D: HttpService, C: Clock>(
        &mut self,
        alloc: Global,
        service: &mut D,
        clock: &mut C,
        buffer: &mut [u8],
        now: u64,
    ) -> Visit
        ensures visits { Visits S.received S.sent (spoken D.speaks D.answers) now (length buffer.old) self.old self.new
            service.old service.new (C.readings clock.old) (C.readings clock.new) }
        ensures rests { result ≡ visits.Rests → self.new.phase.stage ≢ stages.Next }
        ensures waits { result ≡ visits.Rests → must_wait S.has_none S.is_full self.new ≡ true }
        ensures more { result ≡ visits.Again → self.new.phase.stage ≡ stages.Begun → S.has_more self.new.socket ≡ true }
        ensures over { result ≡ visits.Over → IsLost S.is_ended S.is_broken self.new }
        ensures ends { IsDone self.old.state → self.new.is_over ≡ true → result ≡ visits.Over }
        ensures leaves { result ≢ visits.Over → LeavesLittle (length buffer.old) self.old
            → LeavesLittle (length buffer.old) self.new }
    {
        match self.arrive(service, buffer, now) {
            Arrival::Ready => self.answer(alloc, service, clock, now),
            Arrival::Done(visit) => visit,
        }
    }

    /// Goes on with the connection as [`visit`](Connection::visit) does. But where the request that is
    /// to be answered is a command that may be answered together with others, and the group has room
    /// for it, it is added there, and nothing is answered yet. Then `None` is returned, and
    /// [`answer_command`](Connection::answer_command) goes on. `number` is the place of the connection.
    pub(crate) fn visit_or_set_aside<D: HttpService, C: Clock>(
        &mut self,
        alloc: Global,
        service: &mut D,
        clock: &mut C,
        buffer: &mut [u8],
        now: u64,
        number: usize,
        group: &mut Group,
    ) -> Option<Visit>
        ensures visits { (visit : Visit) → result ≡ Some visit → Visits S.received S.sent (spoken D.speaks D.answers) now (length buffer.old) self.old self.new
            service.old service.new (C.readings clock.old) (C.readings clock.new) }
        ensures rests { result ≡ Some visits.Rests → self.new.phase.stage ≢ stages.Next }
        ensures waits { result ≡ Some visits.Rests → must_wait S.has_none S.is_full self.new ≡ true }
        ensures more { result ≡ Some visits.Again → self.new.phase.stage ≡ stages.Begun → S.has_more self.new.socket ≡ true }
        ensures over { result ≡ Some visits.Over → IsLost S.is_ended S.is_broken self.new }
        ensures ends { IsSome result → IsDone self.old.state → self.new.is_over ≡ true → result ≡ Some visits.Over }
        ensures leaves { IsSome result → result ≢ Some visits.Over → LeavesLittle (length buffer.old) self.old
            → LeavesLittle (length buffer.old) self.new }
        ensures still { IsSome result → IsStill group.old group.new }
        ensures aside { result ≡ None → (c : Command) × (r : Request) × Adds group.old group.new c r
            × SetsAside S.received S.sent (spoken D.speaks D.answers) now (length buffer.old) self.old self.new number c r }
        ensures service { result ≡ None → service.new ≡ service.old }
        ensures clock { result ≡ None → C.readings clock.new ≡ C.readings clock.old }
    {
        match self.arrive(service, buffer, now) {
            Arrival::Done(visit) => Some(visit),
            Arrival::Ready if self.set_aside(alloc, service, number, group) => None,
            Arrival::Ready => Some(self.answer(alloc, service, clock, now)),
        }
    }

    // Adds its command to the group, where it has one that may be answered together with others, and
    // the group has room for it.
    fn set_aside<D: HttpService>(
        &mut self,
        alloc: Global,
        service: &D,
        number: usize,
        group: &mut Group,
    ) -> bool
        ensures stays { self.new ≡ self.old }
        ensures aside { result ≡ true → (c : Command) × (r : Request) × Adds group.old group.new c r
            × IsFirst D.speaks self.old.state.held c × IsSpelled c r × (c.number ≡ number) × (c.used ≤ command_limit) }
        ensures still { result ≡ false → IsStill group.old group.new }
    {
        if !group.has_room(self.held_len()) {
            return false;
        }
        let Some((command, request)) = self.state.command(alloc, service, number) else {
            return false;
        };
        group.add(command, request)
    }

    /// Answers the command that was set aside by this outcome, and begins to send the response.
    pub(crate) fn answer_command<D: HttpService>(
        &mut self,
        alloc: Global,
        service: &mut D,
        command: &Command,
        outcome: Result<Reply, Fault>,
        now: u64,
    ) -> Visit
        ensures answers { phases.takes_turns self.old.phase.stage ≡ true → IsFirst D.speaks self.old.state.held command.now
            → AnswersAside S.received S.sent S.has_none S.is_full S.has_more S.is_ended S.is_broken D.speaks D.answers now self.old self.new result command.now outcome }
        ensures service { service.new ≡ service.old }
    {
        let is_last = self.state.is_last();
        let turned = turn_with(outcome, is_last, command.wanted.closes);
        service.note(Some(&command.wanted), &turned);
        self.phase.enter(Stage::Sends, now);
        self.state.answer_first(alloc, command.used, turned);
        self.send(now)
    }

    // Receives what has come, or sends what is due, and says whether a turn may be taken then.
    fn arrive<D: HttpService>(&mut self, service: &mut D, buffer: &mut [u8], now: u64) -> Arrival
        ensures ready { result ≡ arrivals.Ready → IsReady S.received S.sent (spoken D.speaks D.answers) now (length buffer.old) self.old self.new }
        ensures visits { result ≢ arrivals.Ready → (readings : Option (List ℕ)) → Visits S.received S.sent (spoken D.speaks D.answers) now (length buffer.old) self.old self.new
            service.old service.new readings readings }
        ensures rests { result ≡ arrivals.Done visits.Rests → self.new.phase.stage ≢ stages.Next }
        ensures waits { result ≡ arrivals.Done visits.Rests → must_wait S.has_none S.is_full self.new ≡ true }
        ensures more { result ≡ arrivals.Done visits.Again → self.new.phase.stage ≢ stages.Begun }
        ensures over { result ≡ arrivals.Done visits.Over → IsLost S.is_ended S.is_broken self.new }
        ensures ends { result ≢ arrivals.Ready → IsDone self.old.state → self.new.is_over ≡ true → result ≡ arrivals.Done visits.Over }
        ensures leaves { result ≢ arrivals.Ready → result ≢ arrivals.Done visits.Over → LeavesLittle (length buffer.old) self.old
            → LeavesLittle (length buffer.old) self.new }
        ensures service { service.new ≡ service.old }
    {
        match self.phase.stage {
            Stage::Idle | Stage::Begun => match self.receive(buffer, now) {
                Ok(Flow::Moved(_) | Flow::Ended) => Arrival::Ready,
                Ok(Flow::Waits) => Arrival::Done(Visit::Rests),
                Ok(Flow::Broken) => Arrival::Done(Visit::Over),
                Err(_) => Arrival::Done(self.starve(service, now)),
            },
            Stage::Next => Arrival::Ready,
            Stage::Sends => Arrival::Done(self.send(now)),
            Stage::Drains => Arrival::Done(self.drain(buffer)),
        }
    }

    /// Goes on with the connection while commands wait, as [`visit`](Connection::visit) does. But if no
    /// request is begun, it only receives, since the next one may be a command. No request that may be
    /// a command is under way.
    pub fn visit_query<D: HttpService, C: Clock>(
        &mut self,
        alloc: Global,
        service: &mut D,
        clock: &mut C,
        buffer: &mut [u8],
        now: u64,
    ) -> Visit
        ensures visits { may_command self.old ≡ false → Visits S.received S.sent (spoken D.speaks (queries D.answers)) now (length buffer.old) self.old self.new
            service.old service.new (C.readings clock.old) (C.readings clock.new) }
        ensures rests { result ≡ visits.Rests → self.new.phase.stage ≢ stages.Next }
        ensures waits { result ≡ visits.Rests → must_wait S.has_none S.is_full self.new ≡ true }
        ensures more { result ≡ visits.Again → self.new.phase.stage ≡ stages.Begun → S.has_more self.new.socket ≡ true }
        ensures over { result ≡ visits.Over → IsLost S.is_ended S.is_broken self.new }
        ensures ends { IsDone self.old.state → self.new.is_over ≡ true → result ≡ visits.Over }
        ensures leaves { result ≢ visits.Over → LeavesLittle (length buffer.old) self.old
            → LeavesLittle (length buffer.old) self.new }
    {
        match self.phase.stage {
            Stage::Idle => self.receive_first(service, buffer, now),
            _ => self.visit(alloc, service, clock, buffer, now),
        }
    }

    // Receives the first bytes of a request, and takes no turn yet.
    fn receive_first<D: HttpService>(
        &mut self,
        service: &mut D,
        buffer: &mut [u8],
        now: u64,
    ) -> Visit
        requires { self.old.phase.stage ≡ stages.Idle }
        ensures visits { (readings : Option (List ℕ)) → Visits S.received S.sent (spoken D.speaks (queries D.answers)) now (length buffer.old) self.old self.new
            service.old service.new readings readings }
        ensures rests { result ≡ visits.Rests → self.new.phase.stage ≢ stages.Next }
        ensures waits { result ≡ visits.Rests → must_wait S.has_none S.is_full self.new ≡ true }
        ensures more { self.new.phase.stage ≢ stages.Begun }
        ensures over { result ≡ visits.Over → IsLost S.is_ended S.is_broken self.new }
        ensures ends { self.new.is_over ≡ true → result ≡ visits.Over }
        ensures leaves { result ≢ visits.Over → LeavesLittle (length buffer.old) self.new }
    {
        match self.receive(buffer, now) {
            Ok(Flow::Moved(_)) => Visit::Again,
            Ok(Flow::Waits) => Visit::Rests,
            Ok(Flow::Ended) => Visit::Over,
            Ok(Flow::Broken) => Visit::Over,
            Err(_) => self.starve(service, now),
        }
    }

    // Receives what has come, and holds it. After an error what came isn't held.
    fn receive(&mut self, buffer: &mut [u8], now: u64) -> Result<Flow, AllocError>
        requires turns { phases.takes_turns self.old.phase.stage ≡ true }
        requires receives { phases.receives self.old.phase.stage ≡ true }
        ensures turning { phases.takes_turns self.old.phase.stage ≡ true }
        ensures receiving { phases.receives self.old.phase.stage ≡ true }
        ensures may { MayTakeTurn self.old.state }
        ensures waits { IsUnfinished self.old.state.held }
        ensures idle { self.old.phase.stage ≡ stages.Idle → self.old.state.held ≡ [] }
        ensures kept { OnOk result (Receives S.received S.sent now (length buffer.old) self.old self.new true) }
        ensures lost { OnErr result (Receives S.received S.sent now (length buffer.old) self.old self.new false) }
        ensures stage { phases.takes_turns self.new.phase.stage ≡ true }
        ensures quiet { IfOk result (λ flow. flow ≡ flows.Waits → phases.receives self.new.phase.stage ≡ true) }
        ensures none { IfOk result (λ flow. flow ≡ flows.Waits → S.has_none self.new.socket ≡ true) }
        ensures goes_on { IfOk result (λ flow. flow ≡ flows.Waits → self.new.is_over ≡ false) }
        ensures over { IfOk result (λ flow. flow ≡ flows.Ended → self.new.is_over ≡ true) }
        ensures ends { IfOk result (λ flow. flow ≡ flows.Ended → S.is_ended self.new.socket ≡ true) }
        ensures last { IfOk result (λ flow. self.new.is_over ≡ true → flow ≡ flows.Ended) }
        ensures ended { OnOk result (self.new.is_over ≡ true → self.new.state ≡ self.old.state) }
        ensures not_ended { OnErr result (self.new.is_over ≡ false) }
        ensures broken { IfOk result (λ flow. flow ≡ flows.Broken → S.is_broken self.new.socket ≡ true) }
    {
        if self.is_over {
            return Ok(Flow::Ended);
        }
        let flow = self.socket.receive(buffer);
        match flow {
            Flow::Moved(0) | Flow::Waits | Flow::Broken => {}
            Flow::Moved(count) => {
                self.state.came(&buffer[..count])?;
                self.phase.enter(Stage::Next, now);
            }
            Flow::Ended => self.is_over = true,
        }
        Ok(flow)
    }

    // Answers the first request that is held, if it is whole, and begins to send the response.
    fn answer<D: HttpService, C: Clock>(
        &mut self,
        alloc: Global,
        service: &mut D,
        clock: &mut C,
        now: u64,
    ) -> Visit
        requires { phases.takes_turns self.old.phase.stage ≡ true }
        ensures may { MayTakeTurn self.old.state }
        ensures answers { AnswersOnce S.received S.sent (spoken D.speaks D.answers) now self.old self.new
            service.old service.new (C.readings clock.old) (C.readings clock.new) }
        ensures rests { result ≡ visits.Rests → self.new.phase.stage ≢ stages.Next }
        ensures waits { result ≡ visits.Rests → must_wait S.has_none S.is_full self.new ≡ true }
        ensures more { result ≡ visits.Again → self.new.phase.stage ≡ stages.Begun → S.has_more self.new.socket ≡ true }
        ensures over { result ≡ visits.Over → IsLost S.is_ended S.is_broken self.new }
        ensures ends { self.old.is_over ≡ true → self.old.state.held ≡ [] → result ≡ visits.Over }
        ensures rest { result ≢ visits.Over → LeavesRest self.old.state.held self.new }
    {
        match self.take_turn(alloc, service, clock, now) {
            Progress::Answered => self.send(now),
            Progress::Waits => self.look(),
            Progress::Closed => Visit::Over,
        }
    }

    // Rests where nothing more has come.
    fn look(&mut self) -> Visit
        ensures state { self.new.state ≡ self.old.state }
        ensures sent { S.sent self.new.socket ≡ S.sent self.old.socket }
        ensures received { S.received self.new.socket ≡ S.received self.old.socket }
        ensures over { self.new.is_over ≡ self.old.is_over }
        ensures phase { self.new.phase ≡ self.old.phase }
        ensures waits { result ≡ visits.Rests → S.has_none self.new.socket ≡ true }
        ensures more { result ≡ visits.Again → S.has_more self.new.socket ≡ true }
        ensures lost { result ≡ visits.Over → S.is_broken self.new.socket ≡ true }
    {
        match self.socket.look() {
            Flow::Waits => Visit::Rests,
            Flow::Moved(_) | Flow::Ended => Visit::Again,
            Flow::Broken => Visit::Over,
        }
    }

    // Takes the next turn.
    fn take_turn<D: HttpService, C: Clock>(
        &mut self,
        alloc: Global,
        service: &mut D,
        clock: &mut C,
        now: u64,
    ) -> Progress
        requires { phases.takes_turns self.old.phase.stage ≡ true }
        ensures may { MayTakeTurn self.old.state }
        ensures does { Does (spoken D.speaks D.answers) self.old.state self.new.state service.old service.new
            (C.readings clock.old) (C.readings clock.new) self.old.is_over result }
        ensures sends { result ≡ progress.Answered → self.new.phase ≡ phases.entered self.old.phase stages.Sends now }
        ensures looked { result ≢ progress.Answered → phases.LookedAt now self.old.phase self.new.phase }
        ensures waits { result ≡ progress.Waits → is_answered self.new ≡ false }
        ensures rests { result ≡ progress.Waits → self.new.phase.stage ≢ stages.Next }
        ensures turning { result ≡ progress.Waits → phases.takes_turns self.new.phase.stage ≡ true }
        ensures closes { self.old.is_over ≡ true → self.old.state.held ≡ [] → result ≡ progress.Closed }
        ensures lost { result ≡ progress.Closed → S.is_ended self.new.socket ≡ true }
        ensures socket { self.new.socket ≡ self.old.socket }
        ensures over { self.new.is_over ≡ self.old.is_over }
    {
        let progress = self.state.take_turn(alloc, service, clock, self.is_over);
        match progress {
            Progress::Answered => self.phase.enter(Stage::Sends, now),
            Progress::Waits if !self.state.is_empty() => self.phase.enter(Stage::Begun, now),
            Progress::Waits | Progress::Closed => {}
        }
        progress
    }

    // Answers that there was no memory for what came.
    fn starve<D: Service>(&mut self, service: &mut D, now: u64) -> Visit
        ensures service { service.new ≡ service.old }
        ensures starves { StarvesOnce S.received S.sent now self.old self.new }
        ensures rests { result ≡ visits.Rests → self.new.phase.stage ≢ stages.Next }
        ensures waits { result ≡ visits.Rests → must_wait S.has_none S.is_full self.new ≡ true }
        ensures more { self.new.phase.stage ≢ stages.Begun }
        ensures over { result ≡ visits.Over → IsLost S.is_ended S.is_broken self.new }
    {
        self.phase.enter(Stage::Sends, now);
        self.state.starve(service);
        self.send(now)
    }

    // Sends once.
    fn send(&mut self, now: u64) -> Visit
        requires { self.old.phase.stage ≡ stages.Sends }
        ensures due { self.old.state.outgoing ≢ [] }
        ensures more { self.new.phase.stage ≢ stages.Begun }
        ensures sends { SendsDue S.received S.sent now self.old self.new }
        ensures rests { result ≡ visits.Rests → self.new.phase.stage ≢ stages.Next }
        ensures waits { result ≡ visits.Rests → must_wait S.has_none S.is_full self.new ≡ true }
        ensures over { result ≡ visits.Over → IsLost S.is_ended S.is_broken self.new }
    {
        let (head, body, rest) = self.state.outgoing().parts();
        match self.socket.send(head, body, rest) {
            Flow::Moved(count) => {
                self.state.sent(count);
                self.phase.pay(count, now);
                if self.state.outgoing().is_empty() {
                    self.phase.enter(next_stage(&self.state), now);
                    self.go_on()
                } else {
                    Visit::Again
                }
            }
            Flow::Waits => Visit::Rests,
            Flow::Ended => Visit::Over,
            Flow::Broken => Visit::Over,
        }
    }

    // The whole response was sent. After the last response, the other side is told so.
    fn go_on(&mut self) -> Visit
        ensures state { self.new.state ≡ self.old.state }
        ensures sent { S.sent self.new.socket ≡ S.sent self.old.socket }
        ensures received { S.received self.new.socket ≡ S.received self.old.socket }
        ensures over { self.new.is_over ≡ self.old.is_over }
        ensures phase { self.new.phase ≡ self.old.phase }
        ensures rests { result ≢ visits.Rests }
        ensures lost { result ≡ visits.Over → S.is_broken self.new.socket ≡ true }
    {
        if self.phase.stage == Stage::Drains && !self.socket.shut() {
            return Visit::Over;
        }
        Visit::Again
    }

    // Receives what comes after the last response, and drops it.
    fn drain(&mut self, buffer: &mut [u8]) -> Visit
        requires { self.old.phase.stage ≡ stages.Drains }
        ensures drops { Drops S.received S.sent (length buffer.old) self.old self.new }
        ensures all_sent { self.old.state.outgoing ≡ [] }
        ensures ended { IsSome self.old.state.ends }
        ensures stage { self.new.phase.stage ≡ stages.Drains }
        ensures waits { result ≡ visits.Rests → must_wait S.has_none S.is_full self.new ≡ true }
        ensures over { result ≡ visits.Over → IsLost S.is_ended S.is_broken self.new }
        ensures over_ends { self.new.is_over ≡ true → result ≡ visits.Over }
    {
        if self.is_over {
            return Visit::Over;
        }
        match self.socket.receive(buffer) {
            Flow::Moved(_) => Visit::Again,
            Flow::Waits => Visit::Rests,
            Flow::Ended => {
                self.is_over = true;
                Visit::Over
            }
            Flow::Broken => Visit::Over,
        }
    }
}

// The stage of a connection once a response is sent whole.
fn next_stage(state: &ConnectionState) -> Stage
    ensures after { result ≡ stage_after state.now }
    ensures not_begun { result ≢ stages.Begun }
{
    if state.ends().is_some() {
        Stage::Drains
    } else if state.is_empty() {
        Stage::Idle
    } else {
        Stage::Next
    }
}
