//! The clocks of a log.

use registry_names::Moment;

/// What time it is.
pub trait LogClock {
    /// The present moment.
    fn moment(&mut self) -> Moment;

    /// The microseconds since a fixed moment. They never decrease.
    fn micros(&mut self) -> u64;
}
