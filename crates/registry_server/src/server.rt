//! The loop over all connections.

ghost use Rattle.std.specs.Prelude.{◌≡◌, ◌≤◌, ◌||◌, ◌⊎◌, ℕ, All, true, false, not, length, IfOk, OnOk, if◌then◌else◌};
ghost use Rattle.mio.specs.declared.net.stream.TcpStream.{TcpStream};
ghost use Rattle.registry_service.specs.Turns.{AnswersAsBefore};
ghost use Rattle.registry_server.specs.Listening.{lets_in};
ghost use Rattle.registry_server.specs.Pools as spec;
ghost use Rattle.registry_server.specs.Pools.{AreWoken, IsPlaceFor, IsUnderWay, LetsIn, MayHaveOne, ServesQueries, at_place, new_at};
ghost use Rattle.registry_server.specs.Rounds.{AsksInRounds};

use crate::clocks::{Timer, WallClock};
use crate::guests::{FIRST_GUEST, GUEST_TOKENS, Guests, NoGuests};
use crate::listener::{ListenAt, Listener, NoDescriptor};
use crate::pool::{CONNECTION_COUNT, ConnectionPool};
use crate::socket::Socket;
use mio::net::TcpStream;
use mio::{Events, Interest, Poll, Registry, Token};
use registry_names::Moment;
use registry_service::{Clock, HttpService, Service};
use std::alloc::Global;
use std::net::Net;
use std::time::{Duration, Instant};
use std::{io, time};

/// The token of the listener. Those of connections are their places.
const LISTENER: Token = Token(CONNECTION_COUNT);

/// The most events of one wait: one of each connection, one of the listener, and those of guests.
const EVENT_COUNT: usize = FIRST_GUEST + GUEST_TOKENS;

/// The most bytes of one read.
const BUFFER_LEN: usize = 16_384;

/// At most this many milliseconds pass between two looks at which connections are late.
const LOOK_TIME: u64 = 250;

/// At most this many milliseconds of a round count, besides those in which it waited.
const ROUND_TIME: u64 = 25;

/// At most this many milliseconds of a round count for guests while the server is held, since it
/// answers many queries in a round. A machine that was asleep doesn't end a hold by that alone.
const HELD_TIME: u64 = 10_000;

/// Why a server ended.
#[derive(Clone, Copy, Debug, PartialEq, Eq)]
pub enum Ended {
    /// As many connections as were to come in have come, and all have ended.
    Enough,
    /// The service is over.
    ServiceOver,
    /// It was to end, and all that was under way has ended.
    Stopped,
}

/// Where a server listens, and the connections that came in there.
#[derive(Drop)]
pub struct Server {
    poll: Poll,
    // What was ready at the last wait.
    events: Events,
    listener: Listener,
    pool: ConnectionPool<TcpStream>,
    // When to look for connections that are late.
    next_look: u64,
}

impl Server {
    /// Listens at the port, or at any free port where it is 0, for `count` connections, at least
    /// one; from [`UNCOUNTED`](crate::UNCOUNTED) on, for all that come. The errors are those of the
    /// system.
    pub fn bind<R: Net>(rt: &R, alloc: Global, port: u16, count: u64) -> io::Result<Server> {
        Server::bind_at(rt, alloc, ListenAt::Port(port), count)
    }

    /// Listens as [`bind`](Server::bind) does, at a place. Connections at a Unix socket are served
    /// like those at a port: they have the same pool, times and limits. Where it listens at both,
    /// the connections of both are served by turns.
    pub fn bind_at<R: Net>(rt: &R, alloc: Global, at: ListenAt, count: u64) -> io::Result<Server> {
        let poll = Poll::new(rt)?;
        let listener = Listener::open(rt, poll.registry(), LISTENER, at, count)?;
        Server::over(alloc, poll, listener)
    }

    // A server over a listener that is registered, with every place free.
    fn over(alloc: Global, poll: Poll, listener: Listener) -> io::Result<Server> {
        Ok(Server {
            poll,
            events: Events::with_capacity(alloc, EVENT_COUNT)?,
            listener,
            pool: ConnectionPool::new(alloc)?,
            next_look: 0,
        })
    }

    /// Where guests register.
    pub fn registry(&self) -> &Registry {
        self.poll.registry()
    }

    /// The port at which it listens. `NotConnected` is returned where it listens at no port.
    pub fn port(&self) -> io::Result<u16> {
        self.listener.port()
    }

    /// Serves with a service until the last connection has come in and all have ended, if they are
    /// counted, or until the service is over. After the visit in which it is over, no visit is begun;
    /// commands that were set aside in that round are answered, and all connections end. The clock was
    /// read before, and `at` is its reading: this is the moment of requests where the clock can't be
    /// read, or is before 1970, until it is read again. An error is returned where the time of the
    /// server can't be read at first, or the system can't be asked what is ready.
    pub fn run<R: time::Clock, D: HttpService>(
        self,
        rt: &R,
        alloc: Global,
        at: Moment,
        service: &mut D,
    ) -> io::Result<Ended>
        ensures why { IfOk result (λ ended. ended ≡ spec.why_ended (D.over service.new) false) }
        ensures asks { AsksInRounds ⟦<TcpStream as Socket>⟧.received ⟦<TcpStream as Socket>⟧.sent ⟦<TcpStream as Socket>⟧.has_none ⟦<TcpStream as Socket>⟧.is_full
            ⟦<TcpStream as Socket>⟧.has_more ⟦<TcpStream as Socket>⟧.is_ended ⟦<TcpStream as Socket>⟧.is_broken D.speaks D.answers D.over
            (⟦<NoGuests as Guests>⟧.visits D.answers D.over) service.old service.new }
    {
        self.run_beside(rt, alloc, at, service, &mut NoGuests)
    }

    /// Serves as [`run`](Server::run) does, and looks after guests once in each round, after the
    /// connections. Where connections are counted it goes on until no guest is there, either.
    ///
    /// While guests hold the server, the service is asked only queries of connections: commands and
    /// guests wait, and no time of connections passes. If guests stop the server, it accepts nobody
    /// any more, ends the connections on which nothing is begun, answers what is under way, and ends
    /// once nobody is there. Each connection gets at most one more answer, which says that the
    /// connection ends.
    pub fn run_beside<R: time::Clock, D: HttpService, G: Guests>(
        mut self,
        rt: &R,
        alloc: Global,
        at: Moment,
        service: &mut D,
        guests: &mut G,
    ) -> io::Result<Ended>
        ensures why { IfOk result (λ ended. ended ≡ spec.why_ended (D.over service.new) (G.stops guests.new)) }
        ensures asks { AsksInRounds ⟦<TcpStream as Socket>⟧.received ⟦<TcpStream as Socket>⟧.sent ⟦<TcpStream as Socket>⟧.has_none ⟦<TcpStream as Socket>⟧.is_full
            ⟦<TcpStream as Socket>⟧.has_more ⟦<TcpStream as Socket>⟧.is_ended ⟦<TcpStream as Socket>⟧.is_broken D.speaks D.answers D.over
            (G.visits D.answers D.over) service.old service.new }
    {
        self.run_rounds(rt, alloc, at, service, guests)
    }

    // Goes on round by round until the last one, and says why that was it.
    fn run_rounds<R: time::Clock, D: HttpService, G: Guests>(
        &mut self,
        rt: &R,
        alloc: Global,
        at: Moment,
        service: &mut D,
        guests: &mut G,
    ) -> io::Result<Ended>
        ensures why { IfOk result (λ ended. ended ≡ spec.why_ended (D.over service.new) (G.stops guests.new)) }
        ensures asks { AsksInRounds ⟦<TcpStream as Socket>⟧.received ⟦<TcpStream as Socket>⟧.sent ⟦<TcpStream as Socket>⟧.has_none ⟦<TcpStream as Socket>⟧.is_full
            ⟦<TcpStream as Socket>⟧.has_more ⟦<TcpStream as Socket>⟧.is_ended ⟦<TcpStream as Socket>⟧.is_broken D.speaks D.answers D.over
            (G.visits D.answers D.over) service.old service.new }
    {
        let start = Instant::now(rt)?;
        // One goes on while the server is held, and one doesn't.
        let mut attending = Timer::new(rt, start);
        let mut serving = Timer::new(rt, start);
        let mut clock = WallClock::new(rt, at);
        let mut buffer = [0; BUFFER_LEN];
        for _ in 0..u64::MAX {
            let most = self.attend(&mut attending, guests)?;
            let now = serving.pass(most);
            if !self.serve(alloc, service, &mut clock, &mut buffer, guests, now)? {
                break;
            }
        }
        Ok(why_ended(service.is_over(), guests.stops()))
    }

    // Waits until something is ready, and goes on with those who hold or stop the server. The
    // number is how many milliseconds of the round count for the others: none where it was held, or
    // is. Of connections nothing changes, except that some are to be visited.
    fn attend<R: time::Clock, G: Guests>(
        &mut self,
        timer: &mut Timer<'_, R>,
        guests: &mut G,
    ) -> io::Result<u64>
        ensures counts { IfOk result (λ most. most
            ≡ spec.counted_time (G.holds guests.old) (G.holds guests.new)
            (G.busy guests.old || spec.is_busy false self.old.pool.places.items)) }
        ensures keeps { AreWoken self.old.pool.places.items self.new.pool.places.items }
        ensures left { self.new.listener.left ≡ self.old.listener.left }
    {
        let was_held = guests.holds();
        let patience = if guests.is_busy() {
            0
        } else {
            self.patience(was_held)
        };
        self.look(patience, guests)?;
        // Whoever reads from a held server doesn't make the hold longer.
        let most = if was_held {
            HELD_TIME
        } else {
            LOOK_TIME + ROUND_TIME
        };
        guests.attend(self.poll.registry(), timer.pass(most));
        if was_held || guests.holds() {
            Ok(0)
        } else {
            Ok(patience + ROUND_TIME)
        }
    }

    // Visits those who are to be visited, ends those who are late, and lets in those who are there.
    // Where the server is held, commands wait. Returns whether the server goes on.
    fn serve<D: HttpService, C: Clock, G: Guests>(
        &mut self,
        alloc: Global,
        service: &mut D,
        clock: &mut C,
        buffer: &mut [u8],
        guests: &mut G,
        now: u64,
    ) -> io::Result<bool>
        ensures held { G.holds guests.old ≡ true → ServesQueries ⟦<TcpStream as Socket>⟧.received ⟦<TcpStream as Socket>⟧.sent ⟦<TcpStream as Socket>⟧.has_none ⟦<TcpStream as Socket>⟧.is_full
            ⟦<TcpStream as Socket>⟧.has_more ⟦<TcpStream as Socket>⟧.is_ended ⟦<TcpStream as Socket>⟧.is_broken D.speaks D.answers D.over now (length buffer.old)
            self.old.pool.places.items self.new.pool.places.items service.old service.new (C.readings clock.old) (C.readings clock.new) }
        ensures goes_on { IfOk result (λ goes. goes ≡ spec.goes_on (D.over service.new) (G.holds guests.old)
            (lets_in self.new.listener.left) self.new.pool.places.items (G.empty guests.new)) }
        ensures shut { OnOk result (G.holds guests.old ≡ false → G.stops guests.old ≡ true
            → lets_in self.new.listener.left ≡ false) }
        ensures asks { AsksInRounds ⟦<TcpStream as Socket>⟧.received ⟦<TcpStream as Socket>⟧.sent ⟦<TcpStream as Socket>⟧.has_none ⟦<TcpStream as Socket>⟧.is_full
            ⟦<TcpStream as Socket>⟧.has_more ⟦<TcpStream as Socket>⟧.is_ended ⟦<TcpStream as Socket>⟧.is_broken D.speaks D.answers D.over
            (G.visits D.answers D.over) service.old service.new }
    {
        if guests.holds() {
            return self.serve_queries(alloc, service, clock, buffer, guests, now);
        }
        self.serve_all(alloc, service, clock, buffer, guests, now)
    }

    // Does so while commands wait. No guest is visited, and nobody is late, as no time passes.
    fn serve_queries<D: HttpService, C: Clock, G: Guests>(
        &mut self,
        alloc: Global,
        service: &mut D,
        clock: &mut C,
        buffer: &mut [u8],
        guests: &mut G,
        now: u64,
    ) -> io::Result<bool>
        ensures serves { ServesQueries ⟦<TcpStream as Socket>⟧.received ⟦<TcpStream as Socket>⟧.sent ⟦<TcpStream as Socket>⟧.has_none ⟦<TcpStream as Socket>⟧.is_full
            ⟦<TcpStream as Socket>⟧.has_more ⟦<TcpStream as Socket>⟧.is_ended ⟦<TcpStream as Socket>⟧.is_broken D.speaks D.answers D.over now (length buffer.old)
            self.old.pool.places.items self.new.pool.places.items service.old service.new (C.readings clock.old) (C.readings clock.new) }
        ensures goes_on { IfOk result (λ goes. goes ≡ not (D.over service.new)) }
    {
        self.pool.visit_queries(alloc, service, clock, buffer, now);
        if !end_round(alloc, service) {
            return Ok(false);
        }
        self.let_in(alloc, now, guests)?;
        Ok(true)
    }

    // Does so where the server isn't held.
    fn serve_all<D: HttpService, C: Clock, G: Guests>(
        &mut self,
        alloc: Global,
        service: &mut D,
        clock: &mut C,
        buffer: &mut [u8],
        guests: &mut G,
        now: u64,
    ) -> io::Result<bool>
        ensures goes_on { IfOk result (λ goes. goes ≡ spec.goes_on (D.over service.new) false
            (lets_in self.new.listener.left) self.new.pool.places.items (G.empty guests.new)) }
        ensures shut { OnOk result (G.stops guests.old ≡ true → lets_in self.new.listener.left ≡ false) }
        ensures asks { AsksInRounds ⟦<TcpStream as Socket>⟧.received ⟦<TcpStream as Socket>⟧.sent ⟦<TcpStream as Socket>⟧.has_none ⟦<TcpStream as Socket>⟧.is_full
            ⟦<TcpStream as Socket>⟧.has_more ⟦<TcpStream as Socket>⟧.is_ended ⟦<TcpStream as Socket>⟧.is_broken D.speaks D.answers D.over
            (G.visits D.answers D.over) service.old service.new }
    {
        if guests.stops() {
            self.stop(guests)?;
        }
        self.pool.visit_all(alloc, service, clock, buffer, now);
        guests.visit(alloc, service, clock, buffer, self.poll.registry(), now);
        if !end_round(alloc, service) {
            return Ok(false);
        }
        self.end_late(now);
        self.let_in(alloc, now, guests)?;
        Ok(!self.listener.is_shut() || !self.pool.is_empty() || !guests.is_empty())
    }

    // Lets nobody in any more, and ends the connections on which nothing is begun. First it looks
    // on which of them something has come, so that none of these ends. The next request of the
    // others is their last.
    fn stop<G: Guests>(&mut self, guests: &mut G) -> io::Result<()>
        ensures shut { OnOk result (lets_in self.new.listener.left ≡ false) }
        ensures under_way { OnOk result (All IsUnderWay self.new.pool.places.items) }
        ensures one { OnOk result (All MayHaveOne self.new.pool.places.items) }
    {
        self.look(0, guests)?;
        self.listener.shut();
        self.pool.end_idle_all();
        self.pool.finish_all();
        Ok(())
    }

    // How many milliseconds to wait for what is ready: none while a connection may go on.
    fn patience(&self, is_held: bool) -> u64
        ensures few { result ≤ 250 }
        ensures busy { result ≡ (if spec.is_busy is_held self.now.pool.places.items then 0 else 250) }
    {
        if self.is_busy(is_held) { 0 } else { LOOK_TIME }
    }

    // Whether a connection may go on.
    fn is_busy(&self, is_held: bool) -> bool
        ensures { result ≡ spec.is_busy is_held self.now.pool.places.items }
    {
        if is_held {
            self.pool.is_busy_with_queries()
        } else {
            self.pool.is_busy()
        }
    }

    // Waits at most this many milliseconds until something is ready. What is ready is to be
    // visited, and nothing else of connections changes.
    fn look<G: Guests>(&mut self, patience: u64, guests: &mut G) -> io::Result<()>
        ensures keeps { AreWoken self.old.pool.places.items self.new.pool.places.items }
        ensures left { self.new.listener.left ≡ self.old.listener.left }
    {
        self.poll
            .poll(&mut self.events, Some(Duration::from_millis(patience)))?;
        wake_all(&self.events, &mut self.listener, &mut self.pool, guests);
        Ok(())
    }

    // Lets in those who are there, and leaves the system a descriptor.
    fn let_in<G: Guests>(&mut self, alloc: Global, now: u64, guests: &mut G) -> io::Result<()>
        ensures comes { LetsIn now self.old.pool.places.items self.new.pool.places.items }
        ensures shut { lets_in self.old.listener.left ≡ false → self.new.listener ≡ self.old.listener }
    {
        if self.listener.is_asked() {
            self.admit(alloc, now, guests)?;
            self.leave_descriptor(guests)?;
        }
        Ok(())
    }

    // Checks that the new connections left the system a descriptor, by which a guest may come in.
    // Otherwise the connection ends on which nothing has been begun for longest, if there is one.
    fn leave_descriptor<G: Guests>(&mut self, guests: &mut G) -> io::Result<()>
        ensures comes { (now : ℕ) → LetsIn now self.old.pool.places.items self.new.pool.places.items }
    {
        if self.poll.registry().try_clone().is_err() {
            let _ = self.end_idle(guests)?;
        }
        Ok(())
    }

    // Lets in those who are there, as long as there are places. Where the system has no descriptor
    // left for one, the connection ends on which nothing has been begun for longest. If that gives
    // none, it is tried again in the next round.
    fn admit<G: Guests>(&mut self, alloc: Global, now: u64, guests: &mut G) -> io::Result<()>
        ensures comes { LetsIn now self.old.pool.places.items self.new.pool.places.items }
    {
        let mut may_end = true;
        for _ in 0..2 * CONNECTION_COUNT {
            if !self.listener.is_asked() {
                return Ok(());
            }
            let Some(place) = self.place(guests)? else {
                return Ok(());
            };
            match self.listener.admit() {
                Ok(Some(stream)) => {
                    self.add_connection(alloc, place, stream, now);
                    may_end = true;
                }
                Ok(None) => return Ok(()),
                Err(NoDescriptor) => {
                    if !may_end || !self.end_idle(guests)? {
                        return Ok(());
                    }
                    may_end = false;
                }
            }
        }
        Ok(())
    }

    // The place for a new connection, if there is one. Where every place is taken, it first looks on
    // which connections something has come, so that none of these ends for the new one.
    fn place<G: Guests>(&mut self, guests: &mut G) -> io::Result<Option<usize>>
        ensures place { IfOk result (λ place. IsPlaceFor self.new.pool.places.items place) }
        ensures keeps { AreWoken self.old.pool.places.items self.new.pool.places.items }
        ensures left { self.new.listener.left ≡ self.old.listener.left }
    {
        if !self.pool.is_full() {
            return Ok(self.pool.place());
        }
        self.look(0, guests)?;
        Ok(self.pool.place())
    }

    // Ends the connection on which nothing has been begun for longest, and says whether there is
    // one. First it looks on which connections something has come, so that none of these ends.
    fn end_idle<G: Guests>(&mut self, guests: &mut G) -> io::Result<bool>
        ensures comes { (now : ℕ) → LetsIn now self.old.pool.places.items self.new.pool.places.items }
    {
        self.look(0, guests)?;
        Ok(self.pool.end_idle())
    }

    // A connection takes a place. One that the system can't report on ends.
    fn add_connection(&mut self, alloc: Global, place: usize, mut stream: TcpStream, now: u64)
        ensures { (self.new.pool.places.items ≡ self.old.pool.places.items)
            ⊎ ((socket : TcpStream) × (self.new.pool.places.items
            ≡ at_place (λ _. new_at now socket) self.old.pool.places.items place)) }
    {
        let interest = Interest::READABLE | Interest::WRITABLE;
        let registered = self
            .poll
            .registry()
            .register(&mut stream, Token(place), interest);
        if registered.is_ok() {
            self.pool.add(alloc, place, stream, now);
        }
    }

    // Ends each connection whose time is up, where it is time to look for them.
    fn end_late(&mut self, now: u64)
        ensures ends { self.new.pool.places.items
            ≡ spec.after_look self.old.next_look now self.old.pool.places.items }
        ensures next { self.new.next_look ≡ spec.next_look self.old.next_look now }
        ensures listener { self.new.listener ≡ self.old.listener }
    {
        if self.next_look <= now {
            self.pool.end_late(now);
            self.next_look = now.saturating_add(LOOK_TIME);
        }
    }
}

// What is ready is to be visited.
fn wake_all<G: Guests>(
    events: &Events,
    listener: &mut Listener,
    pool: &mut ConnectionPool<TcpStream>,
    guests: &mut G,
)
    ensures keeps { AreWoken pool.old.places.items pool.new.places.items }
    ensures left { listener.new.left ≡ listener.old.left }
{
    for event in events.iter() {
        let token = event.token();
        if token == LISTENER {
            listener.ask();
        } else if token.0 < FIRST_GUEST {
            pool.wake(token.0);
        } else {
            guests.wake(token.0 - FIRST_GUEST);
        }
    }
}

// Tells the service that a round of turns is over. Returns whether the service goes on.
fn end_round<D: Service>(alloc: Global, service: &mut D) -> bool
    ensures looks { AnswersAsBefore D.answers service.old service.new }
    ensures goes_on { result ≡ not (D.over service.new) }
{
    service.look_up(alloc);
    service.rest();
    !service.is_over()
}

// Why a server ended, by whether its service is over and whether guests stopped it.
fn why_ended(is_over: bool, is_stopped: bool) -> Ended
    ensures { result ≡ spec.why_ended is_over is_stopped }
{
    if is_over {
        Ended::ServiceOver
    } else if is_stopped {
        Ended::Stopped
    } else {
        Ended::Enough
    }
}
