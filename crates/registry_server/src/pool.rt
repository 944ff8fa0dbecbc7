//! The open connections, and which of them can go on.

ghost use Rattle.std.specs.Prelude.{◌≡◌, ◌≢◌, ◌&&◌, ℕ, List, Option, None, Some, true, false, IfOk, IsSome, is_none, length, map, not, position, replicate};
ghost use Rattle.std.specs.List.{list_all, list_any};
ghost use Rattle.registry_server.specs.Connections.{IsDone, IsLost, LeavesLittle, Visits, may_command, must_wait};
ghost use Rattle.registry_server.specs.Groups.{Adds, AnswersNext, AnswersPlace, AnswersPlaces, AreSpelled, AskedEach, IsEmpty, IsStill, IsWithin, SetsAside, VisitsFirst, VisitsOrSetsAside, in_order};
ghost use Rattle.registry_server.specs.Pools as spec;
ghost use Rattle.registry_server.specs.Pools.{ChoosesIf, ChoosesNext, EndsIdle, IsFirstOfEarliest, IsPlaceFor, LooksAtBodies, VisitsRound, at_place, idle_times, new_at, place_count, waiting_times};
ghost use Rattle.registry_service.specs.HttpAnswers.{Outcome};
ghost use Rattle.registry_service.specs.Turns.{spoken};
ghost use Rattle.registry_rules.specs.declared.request.Request as spec_request;
ghost use Rattle.registry_server.specs.declared.group.Command as spec_command;
ghost use Rattle.registry_server.specs.Queries.{answering, queries};
ghost use Rattle.registry_server.specs.declared.connection.Visit.TheVariants as visits;
ghost use Rattle.registry_server.specs.declared.phase.Stage.TheVariants as stages;

use crate::connection::{BODY_LEAST, Connection, Visit};
use crate::group::{Command, Group};
use crate::socket::Socket;
use registry_names::Fault;
use registry_rules::Reply;
use registry_service::{Clock, HttpService};
use std::alloc::{AllocError, Global};

/// The most connections that are open at once.
pub const CONNECTION_COUNT: usize = 512;

/// Where all connections together hold this many bytes of requests, they are a crowd.
pub const HELD_LIMIT: usize = 67_108_864;

/// At most this many bodies of a crowd are read side by side.
pub const READ_TOGETHER: usize = 16;

/// A place for a connection, whether the connection is to be visited, and whether its body was
/// chosen, which makes it one of those of a crowd that are read.
#[derive(Drop)]
struct Place<S: Socket> {
    connection: Option<Connection<S>>,
    is_ready: bool,
    is_chosen: bool,
}

impl<S: Socket> Place<S> {
    fn is_free(&self) -> bool
        ensures { result ≡ spec.is_free self.now }
    {
        self.connection.is_none()
    }

    // Since when nothing is begun, where a connection is there and isn't to be visited.
    fn idle_since(&self) -> Option<u64>
        ensures { result ≡ spec.idle_in self.now }
    {
        match &self.connection {
            Some(connection) if !self.is_ready => connection.idle_since(),
            _ => None,
        }
    }

    // How many bytes are held there.
    fn held_len(&self) -> usize
        ensures { result ≡ spec.held_at self.now }
    {
        match &self.connection {
            Some(connection) => connection.held_len(),
            None => 0,
        }
    }

    // Whether a body is under way there.
    fn has_body(&self) -> bool
        ensures { result ≡ spec.has_body_at self.now }
    {
        match &self.connection {
            Some(connection) => connection.has_body(),
            None => false,
        }
    }

    // Whether the request there was answered, and the connection goes on.
    fn is_answered(&self) -> bool
        ensures { result ≡ spec.is_answered_at self.now }
    {
        match &self.connection {
            Some(connection) => connection.is_answered(),
            None => false,
        }
    }

    // Whether the body there was chosen and is held, and its request isn't answered yet, or the
    // connection ends.
    fn is_read(&self) -> bool
        ensures { result ≡ spec.is_read self.now }
    {
        self.is_chosen && self.held_len() > BODY_LEAST && !self.is_answered()
    }

    // 1 where that is so, and 0 otherwise.
    fn read_count(&self) -> usize
        ensures { result ≡ spec.read_count self.now }
    {
        if self.is_read() { 1 } else { 0 }
    }

    // Since when the request there is under way, where its body waits to be chosen.
    fn waits_since(&self) -> Option<u64>
        ensures { result ≡ spec.waits_since self.now }
    {
        if !self.is_ready || self.is_chosen {
            return None;
        }
        match &self.connection {
            Some(connection) => connection.body_since(),
            None => None,
        }
    }

    // Whether the body there waits until others are done.
    fn is_held_back(&self, is_crowd: bool) -> bool
        ensures { result ≡ spec.is_held_back is_crowd self.now }
    {
        is_crowd && !self.is_chosen && self.has_body()
    }

    // Whether a request is under way there that may be a command.
    fn may_command(&self) -> bool
        ensures { result ≡ spec.may_command_at self.now }
    {
        match &self.connection {
            Some(connection) => connection.may_command(),
            None => false,
        }
    }

    // Whether the connection there is to be visited. While commands wait, one that may have a command
    // isn't.
    fn is_to_visit(&self, commands_wait: bool) -> bool
        ensures { result ≡ spec.is_to_visit commands_wait self.now }
    {
        self.is_ready && !(commands_wait && self.may_command())
    }

    // Whether the connection there is to be visited, and isn't held back, or one more body may be
    // chosen.
    fn is_due(&self, commands_wait: bool, is_crowd: bool, may_choose: bool) -> bool
        ensures { result ≡ spec.is_due commands_wait is_crowd may_choose self.now }
    {
        self.is_to_visit(commands_wait) && (may_choose || !self.is_held_back(is_crowd))
    }

    // Its body stays chosen until its request is answered, or as long as it is held where the
    // connection ends. That holds while there is no crowd, too.
    fn settle(&mut self)
        ensures { self.new ≡ spec.settled self.old }
    {
        self.is_chosen = self.is_read();
    }

    // The body there waits until others are done.
    fn wait(&mut self, now: u64)
        requires { spec.has_body_at self.old ≡ true }
        ensures { self.new ≡ spec.waiting_at now self.old }
    {
        if let Some(connection) = &mut self.connection {
            connection.wait(now);
        }
    }

    // Visits the connection, if one is there and is to be visited, unless the service is over.
    // Where it is held back, it waits instead. Its command may be set aside. Its place has this number.
    fn visit<D: HttpService, C: Clock>(
        &mut self,
        alloc: Global,
        service: &mut D,
        clock: &mut C,
        buffer: &mut [u8],
        now: u64,
        commands_wait: bool,
        is_crowd: bool,
        number: usize,
        group: &mut Group,
    )
        ensures { VisitsOrSetsAside S.received S.sent S.has_none S.is_full S.has_more S.is_ended S.is_broken
            D.speaks (answering commands_wait D.answers) D.over commands_wait is_crowd now (length buffer.old) number self.old self.new
            group.old group.new service.old service.new (C.readings clock.old) (C.readings clock.new) }
    {
        // Most places have nothing to do: the test spares them the room for a visit.
        if !self.is_to_visit(commands_wait) || service.is_over() {
            return;
        }
        self.visit_ready(
            alloc,
            service,
            clock,
            buffer,
            now,
            commands_wait,
            is_crowd,
            number,
            group,
        );
    }

    // The same where it is to be visited, and the service isn't over.
    fn visit_ready<D: HttpService, C: Clock>(
        &mut self,
        alloc: Global,
        service: &mut D,
        clock: &mut C,
        buffer: &mut [u8],
        now: u64,
        commands_wait: bool,
        is_crowd: bool,
        number: usize,
        group: &mut Group,
    )
        requires { (spec.is_to_visit commands_wait self.old && not (D.over service.old)) ≡ true }
        ensures { VisitsOrSetsAside S.received S.sent S.has_none S.is_full S.has_more S.is_ended S.is_broken
            D.speaks (answering commands_wait D.answers) D.over commands_wait is_crowd now (length buffer.old) number self.old self.new
            group.old group.new service.old service.new (C.readings clock.old) (C.readings clock.new) }
    {
        if self.is_held_back(is_crowd) {
            self.wait(now);
            return;
        }
        self.is_ready = false;
        let Some(connection) = &mut self.connection else {
            return;
        };
        match visited(
            connection,
            alloc,
            service,
            clock,
            buffer,
            now,
            commands_wait,
            number,
            group,
        ) {
            Some(Visit::Again) => self.is_ready = true,
            Some(Visit::Rests) => {}
            None => {}
            Some(Visit::Over) => self.connection = None,
        }
    }

    // Answers the command that was set aside.
    fn answer<D: HttpService>(
        &mut self,
        alloc: Global,
        service: &mut D,
        command: &Command,
        outcome: Result<Reply, Fault>,
        now: u64,
    )
        ensures answers { AnswersPlace S.received S.sent S.has_none S.is_full S.has_more S.is_ended S.is_broken
            D.speaks D.answers now self.old self.new command.now outcome }
        ensures service { service.new ≡ service.old }
    {
        let Some(connection) = &mut self.connection else {
            return;
        };
        match connection.answer_command(alloc, service, command, outcome, now) {
            Visit::Again => self.is_ready = true,
            Visit::Rests => {}
            Visit::Over => self.connection = None,
        }
    }

    // Answers the command that was set aside here, if it is the next one of the group.
    fn answer_next<D: HttpService>(
        &mut self,
        alloc: Global,
        service: &mut D,
        group: &mut Group,
        number: usize,
        now: u64,
    )
        requires { length group.old.outcomes.items ≡ length group.old.commands.items }
        ensures answers { AnswersNext S.received S.sent S.has_none S.is_full S.has_more S.is_ended S.is_broken
            D.speaks D.answers now number self.old self.new group.old group.new }
        ensures many { length group.new.outcomes.items ≡ length group.new.commands.items }
        ensures service { service.new ≡ service.old }
    {
        // Most places have no command: the test spares them the room for one.
        if !group.is_next(number) {
            return;
        }
        if let Some((command, outcome)) = group.take(number) {
            self.answer(alloc, service, &command, outcome, now);
        }
    }

    // Ends the connection if nothing is begun on it and it isn't to be visited.
    fn end_idle(&mut self)
        ensures { self.new ≡ spec.unless_idle self.old }
    {
        if self.idle_since().is_some() {
            self.connection = None;
        }
    }

    // The next request of the connection is its last.
    fn finish(&mut self)
        ensures { self.new ≡ spec.finishing_at self.old }
    {
        if let Some(connection) = &mut self.connection {
            connection.finish();
        }
    }

    // Ends the connection if its time is up.
    fn end_late(&mut self, now: u64)
        ensures { self.new ≡ spec.kept_at now self.old }
    {
        let is_late = match &self.connection {
            Some(connection) => connection.is_late(now),
            None => false,
        };
        if is_late {
            self.connection = None;
        }
    }
}

// Visits a connection. If commands wait, no request that may be a command is under way on it.
// Otherwise its command may be set aside, and then `None` is returned.
fn visited<S: Socket, D: HttpService, C: Clock>(
    connection: &mut Connection<S>,
    alloc: Global,
    service: &mut D,
    clock: &mut C,
    buffer: &mut [u8],
    now: u64,
    commands_wait: bool,
    number: usize,
    group: &mut Group,
) -> Option<Visit>
    requires query { commands_wait ≡ true → may_command connection.old ≡ false }
    ensures visits { (visit : Visit) → result ≡ Some visit → Visits S.received S.sent (spoken D.speaks (answering commands_wait D.answers)) now (length buffer.old)
        connection.old connection.new service.old service.new (C.readings clock.old) (C.readings clock.new) }
    ensures rests { result ≡ Some visits.Rests → connection.new.phase.stage ≢ stages.Next }
    ensures waits { result ≡ Some visits.Rests → must_wait S.has_none S.is_full connection.new ≡ true }
    ensures more { result ≡ Some visits.Again → connection.new.phase.stage ≡ stages.Begun
        → S.has_more connection.new.socket ≡ true }
    ensures over { result ≡ Some visits.Over → IsLost S.is_ended S.is_broken connection.new }
    ensures ends { IsSome result → IsDone connection.old.state → connection.new.is_over ≡ true → result ≡ Some visits.Over }
    ensures leaves { IsSome result → result ≢ Some visits.Over → LeavesLittle (length buffer.old) connection.old
        → LeavesLittle (length buffer.old) connection.new }
    ensures still { IsSome result → IsStill group.old group.new }
    ensures unpaused { result ≡ None → commands_wait ≡ false }
    ensures aside { result ≡ None → (c : spec_command.Command) × (r : spec_request.Request) × Adds group.old group.new c r
        × SetsAside S.received S.sent (spoken D.speaks (answering commands_wait D.answers)) now (length buffer.old) connection.old connection.new number c r }
    ensures service { result ≡ None → service.new ≡ service.old }
    ensures clock { result ≡ None → C.readings clock.new ≡ C.readings clock.old }
{
    if commands_wait {
        Some(connection.visit_query(alloc, service, clock, buffer, now))
    } else {
        connection.visit_or_set_aside(alloc, service, clock, buffer, now, number, group)
    }
}

/// Places for connections, which are numbers below [`CONNECTION_COUNT`].
///
/// Where all connections together hold [`HELD_LIMIT`] bytes or more, they are a crowd, of which at
/// most [`READ_TOGETHER`] bodies are read side by side: those that were chosen, until their
/// requests are answered, or as long as they are held where the connection ends. The others wait. A
/// choice lasts while there is no crowd, too: so clients that end a crowd and bring it back don't
/// get a body chosen twice for one request.
#[derive(Drop)]
pub struct ConnectionPool<S: Socket> {
    places: Vec<Place<S>>,
    group: Group,
}

impl<S: Socket> ConnectionPool<S> {
    /// A pool with every place free.
    pub fn new(alloc: Global) -> Result<ConnectionPool<S>, AllocError>
        ensures { IfOk result (λ pool. pool.places.items ≡ replicate place_count spec.free) }
    {
        let mut places = Vec::with_capacity(alloc, CONNECTION_COUNT)?;
        for _ in 0..CONNECTION_COUNT {
            places.push(Place {
                connection: None,
                is_ready: false,
                is_chosen: false,
            })?;
        }
        Ok(ConnectionPool {
            places,
            group: Group::new(alloc)?,
        })
    }

    /// Whether every place is free.
    pub fn is_empty(&self) -> bool
        ensures { result ≡ list_all spec.is_free self.now.places.items }
    {
        self.places.iter().all(|place| place.is_free())
    }

    /// Whether every place is taken.
    pub fn is_full(&self) -> bool
        ensures { result ≡ is_none (position spec.is_free self.now.places.items) }
    {
        self.free_place().is_none()
    }

    /// Whether a connection is to be visited in the next round, where the service isn't over: it
    /// isn't held back, or its body would be chosen. The place of a connection that was to be
    /// visited and has ended counts, too, until that round.
    pub fn is_busy(&self) -> bool
        ensures { result ≡ spec.is_busy false self.now.places.items }
    {
        self.is_busy_in(false)
    }

    /// Whether a connection is to be visited in the next round, in which commands wait.
    pub fn is_busy_with_queries(&self) -> bool
        ensures { result ≡ spec.is_busy true self.now.places.items }
    {
        self.is_busy_in(true)
    }

    // Whether a connection is to be visited in a round. The flag says whether commands wait in it.
    fn is_busy_in(&self, commands_wait: bool) -> bool
        ensures { result ≡ spec.is_busy commands_wait self.now.places.items }
    {
        let is_crowd = is_crowd(&self.places);
        let may_choose = may_choose(&self.places, is_crowd);
        any_due(&self.places, commands_wait, is_crowd, may_choose)
    }

    /// Where a new connection can be put: a free place, or else that of the connection on which
    /// nothing has been begun for longest, of those that aren't to be visited. `None` where there
    /// is no such place.
    pub fn place(&self) -> Option<usize>
        ensures { IsPlaceFor self.now.places.items result }
    {
        match self.free_place() {
            Some(number) => Some(number),
            None => longest_idle(&self.places),
        }
    }

    /// Ends the connection on which nothing has been begun for longest, of those that aren't to be
    /// visited, and no other. False where there is no such connection, and then none ends.
    pub fn end_idle(&mut self) -> bool
        ensures { EndsIdle self.old.places.items self.new.places.items result }
    {
        match longest_idle(&self.places) {
            Some(number) => {
                self.places[number].connection = None;
                true
            }
            None => false,
        }
    }

    /// Ends each connection on which nothing is begun, of those that aren't to be visited, and no
    /// other.
    pub fn end_idle_all(&mut self)
        ensures { self.new.places.items ≡ map spec.unless_idle self.old.places.items }
    {
        for place in self.places.iter_mut() {
            place.end_idle();
        }
    }

    /// The next request of each connection is its last, because the server is to end.
    pub fn finish_all(&mut self)
        ensures { self.new.places.items ≡ map spec.finishing_at self.old.places.items }
    {
        for place in self.places.iter_mut() {
            place.finish();
        }
    }

    // The first free place.
    fn free_place(&self) -> Option<usize>
        ensures { result ≡ position spec.is_free self.now.places.items }
    {
        self.places.iter().position(|place| place.is_free())
    }

    /// A new connection takes a place, at this time, and is to be visited. The one that was there
    /// ends, and no other.
    pub fn add(&mut self, alloc: Global, number: usize, socket: S, now: u64)
        ensures { self.new.places.items
            ≡ at_place (λ _. new_at now socket) self.old.places.items number }
    {
        if number < self.places.len() {
            self.places[number] = Place {
                connection: Some(Connection::new(alloc, socket, now)),
                is_ready: true,
                is_chosen: false,
            };
        }
    }

    /// The connection at a place is to be visited.
    pub fn wake(&mut self, number: usize)
        ensures { self.new.places.items ≡ at_place spec.woken self.old.places.items number }
    {
        if number < self.places.len() {
            self.places[number].is_ready = true;
        }
    }

    /// Visits each connection that is to be visited, once, in the order of their places, up to the
    /// visit in which the service is over. A connection of a crowd whose body isn't chosen isn't
    /// visited now, and is still to be visited: it waits, and its time begins anew, unless its
    /// request is older than [`WAIT_LIMIT`](crate::WAIT_LIMIT).
    ///
    /// A body that was chosen stays chosen until its request is answered, whether or not there is a
    /// crowd; where the connection ends with the answer, as long as the body is held. Of a crowd,
    /// one more body is chosen where fewer are chosen than may be: of the connections to be
    /// visited, the one whose request began first, and of equal ones that at the lowest place.
    ///
    /// Small commands are answered together, after all other visits of the round. Where the request
    /// that a visit would answer is a command and asks nothing else, its connection holds at most
    /// [`COMMAND_LIMIT`](crate::COMMAND_LIMIT) bytes, and with the commands of earlier places these are
    /// at most [`GROUP_LIMIT`](crate::GROUP_LIMIT), its visit stops there. After the other visits these
    /// commands are asked in the order of their places, each at a moment of its own and as if it was
    /// asked alone, by one call of
    /// [`answer_together`](registry_service::Service::answer_together); and then each of these visits
    /// goes on, and sends as much of the response as the socket takes at once. A command whose visit
    /// stopped is answered even where the service is over by then.
    pub fn visit_all<D: HttpService, C: Clock>(
        &mut self,
        alloc: Global,
        service: &mut D,
        clock: &mut C,
        buffer: &mut [u8],
        now: u64,
    )
        ensures { VisitsRound S.received S.sent S.has_none S.is_full S.has_more S.is_ended S.is_broken (spoken D.speaks D.answers) D.over
            false now (length buffer.old) self.old.places.items self.new.places.items service.old service.new
            (C.readings clock.old) (C.readings clock.new) }
    {
        let is_crowd = self.look_at_bodies();
        self.visit_each(alloc, service, clock, buffer, now, false, is_crowd);
        self.answer_group(alloc, service, clock, now);
    }

    /// Visits connections as [`visit_all`](ConnectionPool::visit_all) does, while commands wait: a
    /// connection on which a request that may be a command is under way isn't visited, and is still to
    /// be visited. So the service is asked only queries.
    pub fn visit_queries<D: HttpService, C: Clock>(
        &mut self,
        alloc: Global,
        service: &mut D,
        clock: &mut C,
        buffer: &mut [u8],
        now: u64,
    )
        ensures { VisitsRound S.received S.sent S.has_none S.is_full S.has_more S.is_ended S.is_broken (spoken D.speaks (queries D.answers)) D.over
            true now (length buffer.old) self.old.places.items self.new.places.items service.old service.new
            (C.readings clock.old) (C.readings clock.new) }
    {
        let is_crowd = self.look_at_bodies();
        self.visit_each(alloc, service, clock, buffer, now, true, is_crowd);
    }

    // Visits each connection that is to be visited and isn't held back. Commands may be set aside.
    fn visit_each<D: HttpService, C: Clock>(
        &mut self,
        alloc: Global,
        service: &mut D,
        clock: &mut C,
        buffer: &mut [u8],
        now: u64,
        commands_wait: bool,
        is_crowd: bool,
    )
        ensures visits { VisitsFirst S.received S.sent S.has_none S.is_full S.has_more S.is_ended S.is_broken
            D.speaks (answering commands_wait D.answers) D.over commands_wait is_crowd now (length buffer.old) 0 self.old.places.items self.new.places.items
            self.new.group.commands.items self.new.group.requests.items service.old service.new (C.readings clock.old) (C.readings clock.new) }
        ensures many { length self.new.group.outcomes.items ≡ length self.new.group.commands.items }
        ensures within { IsWithin self.new.group }
    {
        self.group.clear();
        visit_places(
            &mut self.places,
            &mut self.group,
            alloc,
            service,
            clock,
            buffer,
            now,
            commands_wait,
            is_crowd,
        );
    }

    // Answers the commands that were set aside, and begins to send their responses.
    fn answer_group<D: HttpService, C: Clock>(
        &mut self,
        alloc: Global,
        service: &mut D,
        clock: &mut C,
        now: u64,
    )
        requires spelled { AreSpelled self.old.group.commands.items self.old.group.requests.items }
        requires many { length self.old.group.outcomes.items ≡ length self.old.group.commands.items }
        ensures { (os : List Outcome) × AskedEach D.answers self.old.group.commands.items os service.old service.new (C.readings clock.old) (C.readings clock.new)
            × AnswersPlaces S.received S.sent S.has_none S.is_full S.has_more S.is_ended S.is_broken D.speaks D.answers now 0
            self.old.places.items self.new.places.items self.old.group.commands.items os }
    {
        if self.group.is_empty() {
            return;
        }
        self.group.answer(alloc, service, clock);
        send_answers(&mut self.places, &mut self.group, alloc, service, now);
    }

    // Looks whether the connections are a crowd, and then which bodies are read. Returns whether
    // they are.
    fn look_at_bodies(&mut self) -> bool
        ensures crowd { result ≡ spec.is_crowd self.old.places.items }
        ensures looks { LooksAtBodies self.old.places.items self.new.places.items }
    {
        let is_crowd = is_crowd(&self.places);
        let may_choose = may_choose(&self.places, is_crowd);
        self.settle();
        self.choose_if(may_choose);
        is_crowd
    }

    // The bodies that were chosen stay chosen until their requests are answered, or as long as they
    // are held.
    fn settle(&mut self)
        ensures { self.new.places.items ≡ map spec.settled self.old.places.items }
    {
        for place in self.places.iter_mut() {
            place.settle();
        }
    }

    // One more body is chosen, where one may be.
    fn choose_if(&mut self, may_choose: bool)
        ensures { ChoosesIf may_choose self.old.places.items self.new.places.items }
    {
        if may_choose {
            self.choose();
        }
    }

    // One more body is chosen, if one waits.
    fn choose(&mut self)
        ensures { ChoosesNext self.old.places.items self.new.places.items }
    {
        if let Some(number) = first_waiting(&self.places) {
            self.places[number].is_chosen = true;
        }
    }

    /// Ends each connection whose time is up, and no other.
    pub fn end_late(&mut self, now: u64)
        ensures { self.new.places.items ≡ map (spec.kept_at now) self.old.places.items }
    {
        for place in self.places.iter_mut() {
            place.end_late(now);
        }
    }
}

// Visits each connection that is to be visited and isn't held back. Commands may be set aside.
fn visit_places<S: Socket, D: HttpService, C: Clock>(
    places: &mut [Place<S>],
    group: &mut Group,
    alloc: Global,
    service: &mut D,
    clock: &mut C,
    buffer: &mut [u8],
    now: u64,
    commands_wait: bool,
    is_crowd: bool,
)
    requires { IsEmpty group.old }
    ensures visits { VisitsFirst S.received S.sent S.has_none S.is_full S.has_more S.is_ended S.is_broken
        D.speaks (answering commands_wait D.answers) D.over commands_wait is_crowd now (length buffer.old) 0 places.old places.new
        group.new.commands.items group.new.requests.items service.old service.new (C.readings clock.old) (C.readings clock.new) }
    ensures many { length group.new.outcomes.items ≡ length group.new.commands.items }
    ensures within { IsWithin group.new }
{
    for (number, place) in places.iter_mut().enumerate() {
        place.visit(
            alloc,
            service,
            clock,
            buffer,
            now,
            commands_wait,
            is_crowd,
            number,
            group,
        );
    }
}

// Puts the responses of the commands that were answered, and begins to send them.
fn send_answers<S: Socket, D: HttpService>(
    places: &mut [Place<S>],
    group: &mut Group,
    alloc: Global,
    service: &mut D,
    now: u64,
)
    requires { length group.old.outcomes.items ≡ length group.old.commands.items }
    ensures answers { AnswersPlaces S.received S.sent S.has_none S.is_full S.has_more S.is_ended S.is_broken D.speaks D.answers now 0
        places.old places.new group.old.commands.items (in_order group.old) }
    ensures service { service.new ≡ service.old }
{
    for (number, place) in places.iter_mut().enumerate() {
        place.answer_next(alloc, service, group, number, now);
    }
}

// Whether all connections together hold the limit or more.
fn is_crowd<S: Socket>(places: &[Place<S>]) -> bool
    ensures { result ≡ spec.is_crowd places.now }
{
    let room = places.iter().fold(
        HELD_LIMIT,
        |room, place| room.saturating_sub(place.held_len()),
    );
    room == 0
}

// Whether fewer bodies are read than may be.
fn has_room<S: Socket>(places: &[Place<S>]) -> bool
    ensures { result ≡ spec.has_room places.now }
{
    let room = places.iter().fold(
        READ_TOGETHER,
        |room, place| room.saturating_sub(place.read_count()),
    );
    room > 0
}

// Whether one more body may be chosen: of a crowd, where there is room.
fn may_choose<S: Socket>(places: &[Place<S>], is_crowd: bool) -> bool
    ensures { result ≡ (is_crowd && spec.has_room places.now) }
{
    is_crowd && has_room(places)
}

// Whether the connection at one of the places is due.
fn any_due<S: Socket>(
    places: &[Place<S>],
    commands_wait: bool,
    is_crowd: bool,
    may_choose: bool,
) -> bool
    ensures { result ≡ list_any (spec.is_due commands_wait is_crowd may_choose) places.now }
{
    places
        .iter()
        .any(|place| place.is_due(commands_wait, is_crowd, may_choose))
}

// The first place of those whose bodies wait and whose requests began first.
fn first_waiting<S: Socket>(places: &[Place<S>]) -> Option<usize>
    ensures { IsFirstOfEarliest (waiting_times places.now) (length places.now) result }
{
    let mut first = None;
    for (number, place) in places.iter().enumerate() {
        first = earlier(first, number, place.waits_since());
    }
    match first {
        Some((number, _)) => Some(number),
        None => None,
    }
}

// The first of the places on which nothing has been begun for longest.
fn longest_idle<S: Socket>(places: &[Place<S>]) -> Option<usize>
    ensures { IsFirstOfEarliest (idle_times places.now) (length places.now) result }
{
    let mut longest = None;
    for (number, place) in places.iter().enumerate() {
        longest = earlier(longest, number, place.idle_since());
    }
    match longest {
        Some((number, _)) => Some(number),
        None => None,
    }
}

// The best place so far, unless the time of the other is earlier.
fn earlier(best: Option<(usize, u64)>, number: usize, since: Option<u64>) -> Option<(usize, u64)>
    ensures { result ≡ spec.earlier best number since }
{
    match (best, since) {
        (_, None) => best,
        (Some((_, least)), Some(since)) if least <= since => best,
        (_, Some(since)) => Some((number, since)),
    }
}
