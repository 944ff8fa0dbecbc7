//! What a control connection is there for.

ghost use Rattle.std.specs.Prelude.{◌≡◌};
ghost use Rattle.registry_guests.specs.Controls as spec;

/// A server is held for at most this many milliseconds.
pub const HOLD_LIMIT: u64 = 60_000;

/// A control connection may be silent for this many milliseconds.
pub const SILENCE_LIMIT: u64 = 5_000;

/// The byte by which a connection asks to hold the server. It comes back once that holds.
pub(crate) const HOLD: u8 = b'h';

/// The byte by which a connection asks whether it still holds the server. It comes back if it does.
pub(crate) const KEPT: u8 = b'k';

/// The byte by which a connection asks the server to end. Its connection ends when the program does.
pub(crate) const STOP: u8 = b's';

/// What a control connection is there for, and until when, in milliseconds.
#[derive(Clone, Copy, Debug, PartialEq, Eq)]
pub enum ControlSession {
    /// It has sent nothing, and ends then.
    Silent(u64),
    /// It holds the server, until then at the latest.
    Holds(u64),
    /// It waits until the server has ended.
    Stops,
}

impl ControlSession {
    /// That of a new connection.
    pub fn new(now: u64) -> ControlSession
        ensures { result ≡ spec.first_session now }
    {
        ControlSession::Silent(now.saturating_add(SILENCE_LIMIT))
    }

    /// What a byte makes of it, by whether the server is to end. `None` where the byte can't be
    /// sent in this session: then the connection ends.
    pub fn after(self, byte: u8, is_stopping: bool, now: u64) -> Option<ControlSession>
        ensures { result ≡ spec.after self byte is_stopping now }
    {
        match self {
            ControlSession::Silent(_) => after_silence(byte, is_stopping, now),
            ControlSession::Holds(until) => {
                if byte == KEPT {
                    Some(ControlSession::Holds(until))
                } else {
                    None
                }
            }
            ControlSession::Stops => None,
        }
    }

    /// Whether its time is up. A connection that waits for the end of the server has no limit.
    pub fn is_late(self, now: u64) -> bool
        ensures { result ≡ spec.is_late self now }
    {
        match self {
            ControlSession::Silent(until) | ControlSession::Holds(until) => until <= now,
            ControlSession::Stops => false,
        }
    }

    /// Whether it holds the server.
    pub fn holds(self) -> bool
        ensures { result ≡ spec.holds_at self }
    {
        match self {
            ControlSession::Holds(_) => true,
            ControlSession::Silent(_) | ControlSession::Stops => false,
        }
    }

    /// Whether it waits until the server has ended.
    pub fn stops(self) -> bool
        ensures { result ≡ spec.stops_at self }
    {
        match self {
            ControlSession::Stops => true,
            ControlSession::Silent(_) | ControlSession::Holds(_) => false,
        }
    }
}

// What the first byte makes of a connection.
fn after_silence(byte: u8, is_stopping: bool, now: u64) -> Option<ControlSession>
    ensures { result ≡ spec.after_silence byte is_stopping now }
{
    if byte == HOLD && !is_stopping {
        Some(ControlSession::Holds(now.saturating_add(HOLD_LIMIT)))
    } else if byte == STOP {
        Some(ControlSession::Stops)
    } else {
        None
    }
}
