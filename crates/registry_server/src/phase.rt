//! The stage of a connection, and until when it may last.

ghost use Rattle.std.specs.Prelude.{◌≡◌};
ghost use Rattle.registry_server.specs.Phases as spec;
ghost use Rattle.registry_server.specs.Phases.{entered, first_phase, left_at, limit_of, paid, waited};
ghost use Rattle.registry_server.specs.declared.phase.Stage.TheVariants.{Begun};

/// A connection with nothing begun ends after this many milliseconds.
pub const IDLE_LIMIT: u64 = 60_000;

/// A request that was begun has to be whole after this many milliseconds, or its connection ends.
pub const REQUEST_TIME_LIMIT: u64 = 10_000;

/// The time of a request whose body waits for others begins anew until the request is this many
/// milliseconds old. At most 511 other bodies began before it. Each of them is chosen at most once,
/// 16 are read side by side, and each has at most 10 s once it was chosen: that makes 320 s,
/// whether or not the crowd lasts. It doesn't include the time for which a body that was answered
/// unfinished is held.
pub const WAIT_LIMIT: u64 = 360_000;

/// All responses of a connection together have to be taken after this many milliseconds, or it
/// ends. More is given for what is taken of them, and this is also the most that is left.
pub const RESPONSE_LIMIT: u64 = 60_000;

/// For this many bytes that are taken of a response, one more millisecond is given.
pub const LEAST_RATE: usize = 16;

/// What comes after the last response is read and dropped, for at most this many milliseconds.
pub const DRAIN_LIMIT: u64 = 2_000;

/// The stage of a connection.
#[derive(Clone, Copy, Debug, PartialEq, Eq)]
pub enum Stage {
    /// Nothing is begun.
    Idle,
    /// A request was begun and isn't whole.
    Begun,
    /// A request was begun, and what is held of it wasn't looked at.
    Next,
    /// A response is being sent.
    Sends,
    /// The last response was sent, and what still comes is dropped.
    Drains,
}

impl Stage {
    // How many milliseconds it may last, where responses have `spare` milliseconds left.
    fn limit(self, spare: u64) -> u64
        ensures { result ≡ limit_of self spare }
    {
        match self {
            Stage::Idle => IDLE_LIMIT,
            Stage::Begun | Stage::Next => REQUEST_TIME_LIMIT,
            Stage::Sends => spare,
            Stage::Drains => DRAIN_LIMIT,
        }
    }

    // Whether two stages share one time. A request that was begun has one time, whether or not what
    // is held of it was looked at.
    fn shares_time(self, other: Stage) -> bool
        ensures { result ≡ spec.share_time self other }
    {
        match (self, other) {
            (Stage::Begun | Stage::Next, Stage::Begun | Stage::Next) => true,
            _ => self == other,
        }
    }
}

/// The stage of a connection, since when and until when, in milliseconds, and how many of them its
/// responses have left where none is being sent. Where a request is under way, it has been so since
/// its first byte was there, or since the response before it was sent.
#[derive(Drop)]
pub struct Phase {
    pub stage: Stage,
    pub since: u64,
    pub until: u64,
    pub spare: u64,
}

impl Phase {
    /// Nothing is begun, from this time on.
    pub fn new(now: u64) -> Phase
        ensures { result ≡ first_phase now }
    {
        Phase {
            stage: Stage::Idle,
            since: now,
            until: now.saturating_add(IDLE_LIMIT),
            spare: RESPONSE_LIMIT,
        }
    }

    // How many milliseconds the responses have left.
    fn left(&self, now: u64) -> u64
        ensures { result ≡ left_at self.now now }
    {
        match self.stage {
            Stage::Sends => self.until.saturating_sub(now),
            _ => self.spare,
        }
    }

    /// The time of a stage begins when the stage is entered, and not again while it lasts. The
    /// responses of a connection have one time together.
    pub fn enter(&mut self, stage: Stage, now: u64)
        ensures entered { self.new ≡ entered self.old stage now }
        ensures stage { self.new.stage ≡ stage }
    {
        if !self.stage.shares_time(stage) {
            self.spare = self.left(now);
            self.since = now;
            self.until = now.saturating_add(stage.limit(self.spare));
        }
        self.stage = stage;
    }

    /// This many bytes of a response were taken, for which there is more time.
    pub fn pay(&mut self, count: usize, now: u64)
        ensures { self.new ≡ paid self.old count now }
    {
        let more = self.until.saturating_add((count / LEAST_RATE) as u64);
        let most = now.saturating_add(RESPONSE_LIMIT);
        self.until = self.until.max(more.min(most));
    }

    /// The request waits until others are done. Its time begins anew, unless the request is older
    /// than [`WAIT_LIMIT`].
    pub fn wait(&mut self, now: u64)
        requires { self.old.stage ≡ Begun }
        ensures { self.new ≡ waited self.old now }
    {
        if now.saturating_sub(self.since) <= WAIT_LIMIT {
            self.until = now.saturating_add(REQUEST_TIME_LIMIT);
        }
    }

    /// Whether its time is up.
    pub fn is_late(&self, now: u64) -> bool
        ensures { result ≡ spec.is_late self.now now }
    {
        self.until <= now
    }

    /// Since when nothing is begun. `None` where something is.
    pub fn idle_since(&self) -> Option<u64>
        ensures { result ≡ spec.idle_since self.now }
    {
        match self.stage {
            Stage::Idle => Some(self.since),
            _ => None,
        }
    }
}
