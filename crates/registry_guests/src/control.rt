//! Control of a server: what holds or stops it.

ghost use Rattle.std.specs.Prelude.{◌≡◌, ◌≢◌, ◌⊎◌, ◌||◌, true};
ghost use Rattle.std.specs.Io.KnownBytes.{append_known};
ghost use Rattle.registry_guests.specs.Controls as spec;
ghost use Rattle.registry_guests.specs.Controls.{Answers, Obeys, Visits, VisitsControl, after, bytes_in, came, kept_at, nobody, woken};
ghost use Rattle.registry_guests.specs.declared.control.ControlInput.TheVariants as inputs;
ghost use Rattle.registry_server.specs.declared.connection.Visit.TheVariants as visits;

use crate::control_session::ControlSession;
use registry_server::{Flow, Socket, Visit};

/// What a control connection sent.
#[derive(Clone, Copy, Debug, PartialEq, Eq)]
enum ControlInput {
    /// A byte.
    Byte(u8),
    /// Nothing, because the call was interrupted.
    Nothing,
    /// Nothing has come yet.
    Waits,
    /// It sends no more, or its socket is broken.
    Over,
}

/// A connection of the control socket.
#[derive(Drop)]
struct ControlConnection<S: Socket> {
    socket: S,
    session: ControlSession,
}

impl<S: Socket> ControlConnection<S> {
    // Goes on with it: receives one byte at most, and does what that asks for.
    fn visit(&mut self, is_stopping: bool, now: u64) -> Visit
        ensures visits { Visits S.received S.sent S.is_ended S.is_broken is_stopping now self.old self.new result }
        ensures waits { result ≡ visits.Rests → S.has_none self.new.socket ≡ true }
    {
        match receive_byte(&mut self.socket) {
            ControlInput::Byte(byte) => self.obey(byte, is_stopping, now),
            ControlInput::Nothing => Visit::Again,
            ControlInput::Waits => Visit::Rests,
            ControlInput::Over => Visit::Over,
        }
    }

    // Does what a byte asks for.
    fn obey(&mut self, byte: u8, is_stopping: bool, now: u64) -> Visit
        ensures obeys { Obeys (after self.old.session byte is_stopping now) byte
            self.old.session self.new.session (S.sent self.old.socket) (S.sent self.new.socket) result }
        ensures received { S.received self.new.socket ≡ S.received self.old.socket }
        ensures goes_on { result ≢ visits.Rests }
    {
        match self.session.after(byte, is_stopping, now) {
            Some(session) => {
                self.session = session;
                answer(&mut self.socket, session.holds(), byte)
            }
            None => Visit::Over,
        }
    }
}

// Receives one byte at most.
fn receive_byte<S: Socket>(socket: &mut S) -> ControlInput
    ensures received { S.received socket.new ≡ append_known (S.received socket.old) (bytes_in result) }
    ensures sent { S.sent socket.new ≡ S.sent socket.old }
    ensures waits { result ≡ inputs.Waits → S.has_none socket.new ≡ true }
    ensures over { result ≡ inputs.Over → (S.is_ended socket.new ≡ true) ⊎ (S.is_broken socket.new ≡ true) }
{
    let mut byte = [0; 1];
    match socket.receive(&mut byte) {
        Flow::Moved(0) => ControlInput::Nothing,
        Flow::Moved(_) => ControlInput::Byte(byte[0]),
        Flow::Waits => ControlInput::Waits,
        Flow::Ended | Flow::Broken => ControlInput::Over,
    }
}

// Sends a byte back to a connection that holds the server.
fn answer<S: Socket>(socket: &mut S, holds: bool, byte: u8) -> Visit
    ensures answers { Answers holds byte (S.sent socket.old) (S.sent socket.new) result }
    ensures received { S.received socket.new ≡ S.received socket.old }
    ensures goes_on { result ≢ visits.Rests }
{
    if !holds {
        return Visit::Again;
    }
    match socket.send(&[byte], &[], &[]) {
        Flow::Moved(count) if count > 0 => Visit::Again,
        _ => Visit::Over,
    }
}

// Whether the server is to end after a visit: once one has asked for it.
fn is_stopping_after(was: bool, session: ControlSession) -> bool
    ensures { result ≡ (was || spec.stops_at session) }
{
    was || session.stops()
}

/// What holds or stops a server: one connection at a time, and whether the server is to end. It asks a
/// service nothing.
#[derive(Drop)]
pub struct Control<S: Socket> {
    connection: Option<ControlConnection<S>>,
    is_ready: bool,
    is_stopping: bool,
}

impl<S: Socket> Control<S> {
    /// Nobody is there, and the server isn't to end.
    pub fn new() -> Control<S>
        ensures { result ≡ nobody }
    {
        Control {
            connection: None,
            is_ready: false,
            is_stopping: false,
        }
    }

    /// Whether nobody is there.
    pub fn is_free(&self) -> bool
        ensures { result ≡ spec.is_free self.now }
    {
        self.connection.is_none()
    }

    /// Whether somebody is there who is to be visited.
    pub fn is_busy(&self) -> bool
        ensures { result ≡ spec.is_due self.now }
    {
        self.is_ready && self.connection.is_some()
    }

    /// Whether somebody holds the server.
    pub fn holds(&self) -> bool
        ensures { result ≡ spec.holds self.now }
    {
        match &self.connection {
            Some(connection) => connection.session.holds(),
            None => false,
        }
    }

    /// Whether the server is to end.
    pub fn stops(&self) -> bool
        ensures { result ≡ spec.stops self.now }
    {
        self.is_stopping
    }

    /// A new connection, from this time in milliseconds on, is to be visited. One that was there ends.
    pub fn add(&mut self, socket: S, now: u64)
        ensures { self.new ≡ came now socket self.old }
    {
        self.connection = Some(ControlConnection {
            socket,
            session: ControlSession::new(now),
        });
        self.is_ready = true;
    }

    /// The connection is to be visited.
    pub fn wake(&mut self)
        ensures { self.new ≡ woken self.old }
    {
        self.is_ready = true;
    }

    /// Goes on with the connection where it is to be visited: receives one byte at most, and does what
    /// that asks for.
    pub fn visit(&mut self, now: u64)
        ensures { VisitsControl S.received S.sent S.has_none S.is_ended S.is_broken now self.old self.new }
    {
        if !self.is_ready {
            return;
        }
        self.is_ready = false;
        let Some(connection) = &mut self.connection else {
            return;
        };
        let visit = connection.visit(self.is_stopping, now);
        self.is_stopping = is_stopping_after(self.is_stopping, connection.session);
        match visit {
            Visit::Again => self.is_ready = true,
            Visit::Rests => {}
            Visit::Over => self.connection = None,
        }
    }

    /// The connection ends if its time is up.
    pub fn end_late(&mut self, now: u64)
        ensures { self.new ≡ kept_at now self.old }
    {
        let is_late = match &self.connection {
            Some(connection) => connection.session.is_late(now),
            None => false,
        };
        if is_late {
            self.connection = None;
        }
    }

    /// The socket of the connection, if one is there.
    pub fn into_socket(self) -> Option<S>
        ensures { result ≡ spec.socket_in self }
    {
        let Control {
            connection,
            is_ready: _,
            is_stopping: _,
        } = self;
        match connection {
            Some(ControlConnection { socket, session: _ }) => Some(socket),
            None => None,
        }
    }
}
