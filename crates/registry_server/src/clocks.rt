//! The clocks of a server. Where one can't be read, its last reading counts again.

ghost use Rattle.std.specs.Prelude.{◌≡◌, ◌≤◌, ◌+◌, ◌-◌, ◌/◌, ◌^◌, min};
ghost use Rattle.std.specs.Time.{instant_nanos};

use registry_names::Moment;
use registry_service::Clock;
use std::time;
use std::time::{Instant, SystemTime};

/// The present moment, by the system's clock. Where the clock can't be read, or is before 1970, its
/// last reading counts again.
#[derive(Drop)]
pub struct WallClock<'a, R: time::Clock> {
    source: &'a R,
    last: Moment,
}

impl<'a, R: time::Clock> WallClock<'a, R> {
    /// A clock that was read once, with this reading.
    pub fn new(source: &'a R, last: Moment) -> WallClock<'a, R>
        ensures { result.last ≡ last }
    {
        WallClock { source, last }
    }
}

impl<R: time::Clock> Clock for WallClock<'_, R> {
    ghost use Rattle.std.specs.Prelude.{None};

    ghost readings = { λ _. None };

    fn now(&mut self) -> Moment {
        if let Some(at) = read_moment(self.source) {
            self.last = at;
        }
        self.last
    }
}

// The moment that a clock has, or the last moment there is where the clock is later. `None` where
// the clock can't be read, or is before 1970.
fn read_moment<R: time::Clock>(source: &R) -> Option<Moment> {
    let now = SystemTime::now(source).ok()?;
    let since = now.duration_since(SystemTime::UNIX_EPOCH).ok()?;
    let seconds = i64::try_from(since.as_secs()).unwrap_or(i64::MAX);
    Some(Moment::clamped(seconds))
}

/// The time of a server, in milliseconds. A round counts for as long as it took, and for no more
/// than it should have taken: so neither a slow round nor a halt of the process ends a connection.
#[derive(Drop)]
pub struct Timer<'a, R: time::Clock> {
    source: &'a R,
    start: Instant,
    read: u64,
    last: u64,
}

impl<'a, R: time::Clock> Timer<'a, R> {
    /// A timer that began then.
    pub fn new(source: &'a R, start: Instant) -> Timer<'a, R> {
        Timer {
            source,
            start,
            read: 0,
            last: 0,
        }
    }

    /// A round is over, which counts for at most `most`. Returns the time after it. Where the clock
    /// can't be read, no time passes, and the next reading makes up for it.
    pub fn pass(&mut self, most: u64) -> u64
        ensures last { self.new.last ≡ result }
        ensures forward { self.old.last ≤ result }
        ensures few { result ≤ self.old.last + most }
    {
        if let Ok(now) = Instant::now(self.source) {
            self.count(millis_between(self.start, now), most);
        }
        self.last
    }

    // This many milliseconds have passed since the start. Those that weren't counted yet count, but
    // at most `most` of them.
    fn count(&mut self, read: u64, most: u64)
        ensures read { self.new.read ≡ read }
        ensures last { self.new.last ≡ min (self.old.last + min (read - self.old.read) most) (2 ^ 64 - 1) }
        ensures forward { self.old.last ≤ self.new.last }
    {
        let took = read.saturating_sub(self.read);
        self.read = read;
        self.last = self.last.saturating_add(took.min(most));
    }
}

// How many whole milliseconds lie between two readings, or the greatest number where there are
// more.
fn millis_between(earlier: Instant, later: Instant) -> u64
    ensures { result ≡ min ((instant_nanos later - instant_nanos earlier) / 1_000_000) (2 ^ 64 - 1) }
{
    u64::try_from(later.duration_since(earlier).as_millis()).unwrap_or(u64::MAX)
}
