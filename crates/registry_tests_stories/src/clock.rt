//! A clock that always gives the same moment.

ghost use Rattle.std.specs.Prelude.{None};

use registry_names::Moment;
use registry_service::Clock;

/// The moment that a story states.
#[derive(Drop)]
pub struct StatedClock {
    pub at: Moment,
}

impl Clock for StatedClock {
    ghost readings = { λ _. None };

    fn now(&mut self) -> Moment {
        self.at
    }
}
