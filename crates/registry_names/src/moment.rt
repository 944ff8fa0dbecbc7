//! Moments.

ghost use Rattle.std.specs.Prelude.{◌≡◌, ◌≤◌, ℕ, pos};
ghost use Rattle.registry_names.specs.Moments.{last_second, moment_of, nearest_moment};

use std::marker::Model;

/// The last second of the year 9999.
const LAST_SECOND: i64 = 253_402_300_799;

/// A moment in whole seconds since 1970-01-01T00:00:00Z: from 0 to 253402300799, which is
/// 9999-12-31T23:59:59Z. Contracts see the number of seconds.
#[derive(Clone, Copy, Debug, PartialEq, Eq, PartialOrd, Ord)]
pub struct Moment {
    seconds: i64,
}

impl Model for Moment {
    ghost use Rattle.std.specs.Prelude.{◌≤ℤ◌, ℕ, pos, unsigned_abs};
    ghost use Rattle.registry_names.specs.Moments.{last_second, seconds_again};

    ghost Value = { ℕ };

    ghost view = { λ m. unsigned_abs m.seconds };

    ghost invariant = { λ m. (pos 0 ≤ℤ m.seconds) × (m.seconds ≤ℤ pos last_second) };

    ghost inverse = { λ n. record { seconds = pos n } };

    ghost inverse_ok = { λ m h. λ i. record { seconds = seconds_again m.seconds h.0 i } };
}

impl Moment {
    /// The moment of this many seconds. `None` is returned before the first moment and after the
    /// last.
    pub fn new(seconds: i64) -> Option<Moment>
        ensures { result ≡ moment_of seconds }
    {
        if 0 <= seconds && seconds <= LAST_SECOND {
            Some(Moment { seconds })
        } else {
            None
        }
    }

    /// The moment nearest to this many seconds.
    pub fn clamped(seconds: i64) -> Moment
        ensures { result ≡ nearest_moment seconds }
    {
        Moment {
            seconds: seconds.clamp(0, LAST_SECOND),
        }
    }

    /// The seconds since 1970-01-01T00:00:00Z.
    pub fn seconds(self) -> i64
        ensures seconds { result ≡ pos self }
        ensures within { self ≤ last_second }
    {
        self.seconds
    }
}
