//! Places in the order of versions, where an interval begins or ends.

ghost use Rattle.std.specs.Prelude.{◌≡◌, true, IfOk, IfErr};
ghost use Rattle.registry_ranges.specs.Bounds.{bound_view, has_pre};
ghost use Rattle.registry_ranges.specs.Intervals as spec;
ghost use Rattle.registry_ranges.specs.IntervalViews.{at_view};

use crate::bound::Bound;
use crate::comparator::prerelease;
use registry_names::{Fault, Ver};
use semver::Prerelease;
use std::alloc::Global;
use std::cmp::Ordering;
use std::marker::Model;

/// Where a place is among the versions with its three numbers.
#[derive(Clone, Copy, Debug, PartialEq, Eq)]
pub enum Place {
    /// Before all of them, prereleases included.
    Start,
    /// Before the one with the place's prerelease.
    Before,
    /// After that one.
    After,
}

impl Place {
    fn level(self) -> u8
        ensures { result ≡ spec.level self }
    {
        match self {
            Place::Start => 0,
            Place::Before | Place::After => 1,
        }
    }

    fn side(self) -> u8
        ensures { result ≡ spec.side self }
    {
        match self {
            Place::Start | Place::Before => 0,
            Place::After => 1,
        }
    }
}

// A place whose prerelease is borrowed.
#[derive(Clone, Copy)]
struct At<'a> {
    major: u64,
    minor: u64,
    patch: u64,
    place: Place,
    pre: &'a Prerelease,
}

// The order of places.
fn compare(one: At<'_>, other: At<'_>) -> Ordering
    ensures { result ≡ spec.end_cmp (at_view one.entry) (at_view other.entry) }
{
    let numbers = one
        .major
        .cmp(&other.major)
        .then(one.minor.cmp(&other.minor))
        .then(one.patch.cmp(&other.patch))
        .then(one.place.level().cmp(&other.place.level()));
    if numbers.is_ne() {
        return numbers;
    }
    one.pre
        .cmp(other.pre)
        .then(one.place.side().cmp(&other.place.side()))
}

// The place before a version.
fn before(version: &Ver) -> At<'_>
    ensures { at_view result ≡ spec.beside Place.Before version.now }
{
    let version = version.as_semver();
    At {
        major: version.major,
        minor: version.minor,
        patch: version.patch,
        place: Place::Before,
        pre: &version.pre,
    }
}

/// A place in the order of versions.
#[derive(Debug, Drop)]
pub struct End {
    major: u64,
    minor: u64,
    patch: u64,
    place: Place,
    pre: Prerelease,
}

impl Model for End {
    ghost use Rattle.semver.specs.Identifiers.{pre_text};
    ghost use Rattle.registry_ranges.specs.Intervals as spec;

    ghost Value = { spec.End };

    ghost view = { λ e. record {
      major = e.major;
      minor = e.minor;
      patch = e.patch;
      place = e.place;
      pre = pre_text e.pre;
    } };
}

impl End {
    /// Before all versions with these numbers.
    pub fn start(major: u64, minor: u64, patch: u64) -> End
        ensures { result ≡ spec.start major minor patch }
    {
        End {
            major,
            minor,
            patch,
            place: Place::Start,
            pre: Prerelease::empty(),
        }
    }

    /// A place beside the version of a bound.
    pub fn beside(alloc: Global, place: Place, bound: Bound<'_>) -> Result<End, Fault>
        requires { has_pre (bound_view bound) ≡ true }
        ensures ok { IfOk result (λ e. e ≡ spec.beside place (bound_view bound.entry).bound) }
        ensures err { IfErr result (λ e. e ≡ Fault.Memory) }
    {
        let pre = if bound.pre.is_empty() {
            Prerelease::empty()
        } else {
            prerelease(alloc, bound.pre)?
        };
        Ok(End {
            major: bound.major,
            minor: bound.minor,
            patch: bound.patch,
            place,
            pre,
        })
    }

    fn at(&self) -> At<'_>
        ensures { at_view result ≡ self.now }
    {
        At {
            major: self.major,
            minor: self.minor,
            patch: self.patch,
            place: self.place,
            pre: &self.pre,
        }
    }

    /// Whether it comes before another place.
    pub fn is_below(&self, other: &End) -> bool
        ensures { result ≡ spec.is_below self.now other.now }
    {
        compare(self.at(), other.at()).is_lt()
    }

    /// How it compares with another place.
    pub fn compare(&self, other: &End) -> Ordering
        ensures { result ≡ spec.end_cmp self.now other.now }
    {
        compare(self.at(), other.at())
    }

    /// Whether a version comes before it.
    pub fn is_after(&self, version: &Ver) -> bool
        ensures { result ≡ spec.comes_before version.now self.now }
    {
        compare(before(version), self.at()).is_lt()
    }
}
