//! Guests: they aren't connections, but ask the service of a server, or hold or stop the server
//! itself.

ghost use Rattle.std.specs.Prelude.{◌≡◌, ℕ, Bool, true, List, Option, length};
ghost use Rattle.registry_service.specs.Turns.{Answering};

use mio::Registry;
use registry_service::{Clock, Service};
use std::alloc::Global;

/// The first token of guests. Lower tokens are those of connections and of their listener.
pub const FIRST_GUEST: usize = crate::pool::CONNECTION_COUNT + 1;

/// This many tokens are the guests'.
pub const GUEST_TOKENS: usize = 16;

/// Those who ask the service beside the connections of a server. The server looks after them once
/// in each round. They register with the server's poll under the tokens from [`FIRST_GUEST`] on, of
/// which there are [`GUEST_TOKENS`].
///
/// One of them may hold the server: then the service is asked only queries of connections, and all
/// else waits. They may also stop it: then it accepts nobody any more, answers what is under way, and
/// ends.
pub trait Guests {
    // Whether one of them holds the server.
    ghost holds: { Self → Bool };

    // Whether the server is to end.
    ghost stops: { Self → Bool };

    // Whether one of them can go on at once.
    ghost busy: { Self → Bool };

    // Whether nobody is there who asks the service.
    ghost empty: { Self → Bool };

    // What becomes, at a time in milliseconds, of who holds or stops the server or is there to do so.
    ghost attends: { ℕ → Self → Self → Type 0 };

    // What a visit of them makes of a service, by how it answers and whether it is over, and of the
    // readings of a clock, where at most this many bytes are received at once.
    ghost visits: { {D : Type 0} → Answering D → (D → Bool) → ℕ → Self → D → D → Option (List ℕ) → Option (List ℕ) → Type 0 };

    /// Whether one of them holds the server.
    fn holds(&self) -> bool
        ensures { result ≡ holds self.now };

    /// Whether the server is to end.
    fn stops(&self) -> bool
        ensures { result ≡ stops self.now };

    /// Goes on with those who hold or stop the server, or came to do so. The time, in milliseconds,
    /// goes on while the server is held. A server that is to end stays so. No call may wait.
    fn attend(&mut self, registry: &Registry, now: u64)
        ensures attends { attends now self.old self.new }
        ensures still_stops { stops self.old ≡ true → stops self.new ≡ true };

    /// Something is ready under a token, whose number is counted from that of the first guest.
    fn wake(&mut self, number: usize)
        ensures holds { holds self.new ≡ holds self.old }
        ensures stops { stops self.new ≡ stops self.old };

    /// Whether one of them can go on at once. While the server is held, only the one who holds it
    /// counts.
    fn is_busy(&self) -> bool
        ensures { result ≡ busy self.now };

    /// Whether nobody is there who asks the service.
    fn is_empty(&self) -> bool
        ensures { result ≡ empty self.now };

    /// Goes on once with each guest who asks the service and is ready, and lets in those who are
    /// there. A service that is over is asked nothing. No call may wait.
    fn visit<D: Service, C: Clock>(
        &mut self,
        alloc: Global,
        service: &mut D,
        clock: &mut C,
        buffer: &mut [u8],
        registry: &Registry,
        now: u64,
    )
        ensures visits { visits D.answers D.over (length buffer.old) self.old service.old service.new
            (C.readings clock.old) (C.readings clock.new) }
        ensures holds { holds self.new ≡ holds self.old }
        ensures stops { stops self.new ≡ stops self.old };
}

/// No guests.
#[derive(Drop)]
pub struct NoGuests;

impl Guests for NoGuests {
    ghost use Rattle.std.specs.Prelude.{◌≡◌, false, true};

    ghost holds = { λ _. false };

    ghost stops = { λ _. false };

    ghost busy = { λ _. false };

    ghost empty = { λ _. true };

    ghost attends = { λ _ old new. new ≡ old };

    ghost visits = { λ answers over most guests M N readings readings2. (N ≡ M) × (readings2 ≡ readings) };

    fn holds(&self) -> bool {
        false
    }

    fn stops(&self) -> bool {
        false
    }

    fn attend(&mut self, _registry: &Registry, _now: u64) {}

    fn wake(&mut self, _number: usize) {}

    fn is_busy(&self) -> bool {
        false
    }

    fn is_empty(&self) -> bool {
        true
    }

    fn visit<D: Service, C: Clock>(
        &mut self,
        _alloc: Global,
        _service: &mut D,
        _clock: &mut C,
        _buffer: &mut [u8],
        _registry: &Registry,
        _now: u64,
    ) {}
}
