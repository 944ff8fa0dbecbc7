//! Intervals of versions, and what each condition of a selector means as one.

ghost use Rattle.std.specs.Prelude.{◌≡◌, true, IfOk, IfErr};
ghost use Rattle.registry_ranges.specs.Bounds.{bound_view, has_pre};
ghost use Rattle.registry_ranges.specs.Intervals as spec;
ghost use Rattle.registry_ranges.specs.SelectorViews.{IsAsked, question_view};

use crate::bound::Bound;
use crate::condition::Question;
use crate::end::{End, Place};
use crate::relation::Relation;
use registry_names::{Fault, GREATEST_NUMBER, Ver};
use std::alloc::Global;
use std::cmp::Ordering;
use std::marker::Model;

/// The versions between two places, of which there may be none.
#[derive(Debug, Drop)]
pub struct Interval {
    low: End,
    high: End,
}

impl Model for Interval {
    ghost use Rattle.registry_ranges.specs.Intervals as spec;

    ghost Value = { spec.Interval };

    ghost view = { λ i. record { low = i.low; high = i.high } };
}

// The place before all versions.
fn first() -> End
    ensures { result ≡ spec.first }
{
    End::start(0, 0, 0)
}

// The place after all versions.
fn last() -> End
    ensures { result ≡ spec.last }
{
    End::start(GREATEST_NUMBER + 1, 0, 0)
}

fn later(one: End, other: End) -> End
    ensures { result ≡ spec.later one other }
{
    if one.is_below(&other) { other } else { one }
}

fn earlier(one: End, other: End) -> End
    ensures { result ≡ spec.earlier one other }
{
    if other.is_below(&one) { other } else { one }
}

// The versions in a relation to a bound.
fn interval_of_bound(alloc: Global, bound: Bound<'_>) -> Result<Interval, Fault>
    requires { has_pre (bound_view bound) ≡ true }
    ensures ok { IfOk result (λ i. i
        ≡ spec.interval_of_relation bound.entry.relation (bound_view bound.entry).bound) }
    ensures err { IfErr result (λ e. e ≡ Fault.Memory) }
{
    let low = match bound.relation {
        Relation::Less | Relation::LessEq => first(),
        Relation::Greater => End::beside(alloc, Place::After, bound)?,
        Relation::GreaterEq | Relation::Equal => End::beside(alloc, Place::Before, bound)?,
    };
    let high = match bound.relation {
        Relation::Less => End::beside(alloc, Place::Before, bound)?,
        Relation::LessEq | Relation::Equal => End::beside(alloc, Place::After, bound)?,
        Relation::Greater | Relation::GreaterEq => last(),
    };
    Ok(Interval { low, high })
}

impl Interval {
    /// All versions.
    pub fn whole() -> Interval
        ensures { result ≡ spec.whole }
    {
        Interval {
            low: first(),
            high: last(),
        }
    }

    /// The versions that meet what is asked. Takes memory for a prerelease alone.
    pub fn of(alloc: Global, question: Question<'_>) -> Result<Interval, Fault>
        requires { IsAsked (question_view question) }
        ensures ok { IfOk result (λ i. i ≡ spec.interval_of (question_view question.entry)) }
        ensures err { IfErr result (λ e. e ≡ Fault.Memory) }
    {
        match question {
            Question::All => Ok(Interval::whole()),
            Question::Major(major) => {
                Ok(Interval {
                    low: End::start(major, 0, 0),
                    high: End::start(major + 1, 0, 0),
                })
            }
            Question::Minor(major, minor) => {
                Ok(Interval {
                    low: End::start(major, minor, 0),
                    high: End::start(major, minor + 1, 0),
                })
            }
            Question::Compared(bound) => interval_of_bound(alloc, bound),
        }
    }

    /// The versions in both.
    pub fn meet(self, other: Interval) -> Interval
        ensures { result ≡ spec.meet self other }
    {
        Interval {
            low: later(self.low, other.low),
            high: earlier(self.high, other.high),
        }
    }

    /// How the places before them compare.
    pub fn compare_low(&self, other: &Interval) -> Ordering
        ensures { result ≡ spec.end_cmp self.now.low other.now.low }
    {
        self.low.compare(&other.low)
    }

    /// Whether it ends where another does, or before.
    pub fn ends_by(&self, other: &Interval) -> bool
        ensures { result ≡ spec.ends_by self.now other.now }
    {
        !other.high.is_below(&self.high)
    }

    /// Whether a version comes before its start.
    pub fn starts_after(&self, version: &Ver) -> bool
        ensures { result ≡ spec.comes_before version.now self.now.low }
    {
        self.low.is_after(version)
    }

    /// Whether a version comes before its end.
    pub fn ends_after(&self, version: &Ver) -> bool
        ensures { result ≡ spec.comes_before version.now self.now.high }
    {
        self.high.is_after(version)
    }
}
