//! Lists of intervals, which are put in order so that a version is found by a binary search.

ghost use Rattle.std.specs.Prelude.{◌≡◌, OnOk, IfErr};
ghost use Rattle.registry_ranges.specs.Intervals.{Ascend, CoverTheSame, CoversMore, some_covers};

use crate::interval::Interval;
use registry_names::{Fault, Ver};

/// Puts intervals in order of their starts, without those that end where one before them does, or
/// before.
pub fn put_in_order(intervals: &mut Vec<Interval>)
    ensures same { CoverTheSame intervals.old.items intervals.new.items }
    ensures ascend { Ascend intervals.new.items }
{
    intervals.sort_unstable_by(|one, other| one.compare_low(other));
    intervals.dedup_by(|next, kept| next.ends_by(kept));
}

/// The fewest intervals that are put in order while they are added.
pub const FEWEST: usize = 64;

/// Adds an interval. At the limit all are put in order, and the next limit is twice as many as are
/// left. So there are never many more than twice the different ones, and all the sorting together
/// takes no longer than a few sorts of all that are added.
#[tactic(auto, using(crate::proofs::IntervalFacts::add_facts))]
pub fn add(intervals: &mut Vec<Interval>, limit: usize, interval: Interval) -> Result<usize, Fault>
    ensures ok { OnOk result (CoversMore intervals.old.items intervals.new.items interval) }
    ensures err { IfErr result (λ e. e ≡ Fault.Memory) }
{
    intervals.push(interval)?;
    if intervals.len() < limit {
        return Ok(limit);
    }
    put_in_order(intervals);
    Ok(FEWEST.max(intervals.len().saturating_mul(2)))
}

/// Whether one of them covers a version. Takes no memory.
pub fn cover(intervals: &[Interval], version: &Ver) -> bool
    requires { Ascend intervals.now }
    ensures { result ≡ some_covers version.now intervals.now }
{
    let place = intervals.partition_point(|interval| !interval.ends_after(version));
    match intervals.get(place) {
        Some(interval) => !interval.starts_after(version),
        None => false,
    }
}
