//! Range sets, read a part at a time from the front.

ghost use Rattle.std.specs.Prelude.{◌≡◌, Bool};
ghost use Rattle.registry_ranges.specs.Prefixes.{prefix_view};
ghost use Rattle.registry_ranges.specs.Steps as spec;
ghost use Rattle.registry_ranges.specs.Steps.{hyphen_view, step_view};

use crate::partial::partial_at;
use crate::prefix::Prefix;
use crate::simple::{Operator, Simple, simple_at, skip_spaces, skip_v};

/// Where a reader is in a range.
#[derive(Clone, Copy, PartialEq, Eq)]
pub enum Place {
    /// Before it.
    Before,
    /// After a simple, where more may follow.
    Open,
    /// Where nothing more may follow.
    Closed,
}

/// A part of a range.
#[derive(Clone, Copy)]
pub enum Part<'a> {
    /// One simple of a range.
    Simple(Simple<'a>),
    /// The two ends of a hyphen range, which is the whole of it.
    Hyphen(Prefix<'a>, Prefix<'a>),
    /// The empty range, which is the whole of it.
    Empty,
}

/// What is read next.
#[derive(Clone, Copy)]
pub enum Step<'a> {
    /// A part of the range, and where the reader is after it.
    Part(Part<'a>, Reader<'a>),
    /// `||`, and the text of the next range and all that follows it.
    Or(&'a [u8]),
    /// The end of the text after a whole range.
    End,
    /// What no range set goes on with.
    Wrong,
}

/// A place in a text, and what follows it.
#[derive(Clone, Copy)]
pub struct Reader<'a> {
    pub place: Place,
    pub rest: &'a [u8],
}

// Whether a range ends here: at the end of the text, or before `||`.
fn is_range_end(bytes: &[u8]) -> bool
    ensures { result ≡ spec.is_range_end bytes.now }
{
    matches!(bytes, [] | [b'|', b'|', ..])
}

// What follows a range.
#[tactic(auto, unfolding(crate::specs::Steps::end_at))]
fn end_at(bytes: &[u8]) -> Step<'_>
    ensures { step_view result ≡ spec.end_at bytes.now }
{
    match bytes {
        [] => Step::End,
        [b'|', b'|', rest @ ..] => Step::Or(rest),
        _ => Step::Wrong,
    }
}

// What follows a hyphen with spaces on either side, if there is one at the front.
#[tactic(auto, unfolding(crate::specs::Steps::hyphen_at))]
fn hyphen_at(bytes: &[u8]) -> Option<&[u8]>
    ensures { hyphen_view result ≡ spec.hyphen_at bytes.now }
{
    let after = skip_spaces(bytes);
    if after.len() == bytes.len() {
        return None;
    }
    match after {
        [b'-', b' ', high @ ..] => Some(skip_spaces(high)),
        _ => None,
    }
}

// The high end of a hyphen range, after its hyphen.
fn hyphen_to<'a>(low: Prefix<'a>, bytes: &'a [u8]) -> Step<'a>
    ensures { step_view result ≡ spec.step_of (spec.hyphen_to (prefix_view low.entry) bytes.now) }
{
    let Some((high, rest)) = partial_at(skip_v(bytes)) else {
        return Step::Wrong;
    };
    Step::Part(
        Part::Hyphen(low, Prefix::of(high)),
        Reader {
            place: Place::Closed,
            rest,
        },
    )
}

// The part that a range begins with.
#[tactic(auto, unfolding(crate::specs::Steps::first_at))]
fn first_at(bytes: &[u8]) -> Step<'_>
    ensures { step_view result ≡ spec.step_of (spec.first_at bytes.now) }
{
    let Some((simple, rest)) = simple_at(bytes) else {
        return Step::Wrong;
    };
    if let (Operator::Bare, Some(high)) = (simple.operator, hyphen_at(rest)) {
        return hyphen_to(simple.prefix, high);
    }
    Step::Part(
        Part::Simple(simple),
        Reader {
            place: Place::Open,
            rest,
        },
    )
}

// One more simple of a range.
#[tactic(auto, unfolding(crate::specs::Steps::more_at))]
fn more_at(bytes: &[u8]) -> Step<'_>
    ensures { step_view result ≡ spec.step_of (spec.more_at bytes.now) }
{
    let Some((simple, rest)) = simple_at(bytes) else {
        return Step::Wrong;
    };
    Step::Part(
        Part::Simple(simple),
        Reader {
            place: Place::Open,
            rest,
        },
    )
}

// What follows the spaces before a range.
#[tactic(auto, unfolding(crate::specs::Steps::before_at))]
fn before_at(bytes: &[u8]) -> Step<'_>
    ensures { step_view result ≡ spec.before_at bytes.now }
{
    if is_range_end(bytes) {
        return Step::Part(
            Part::Empty,
            Reader {
                place: Place::Closed,
                rest: bytes,
            },
        );
    }
    first_at(bytes)
}

// What follows the spaces after a simple, of which there may be none.
#[tactic(auto, unfolding(crate::specs::Steps::open_at))]
fn open_at(no_space: bool, bytes: &[u8]) -> Step<'_>
    ensures { step_view result ≡ spec.open_at no_space bytes.now }
{
    if no_space || is_range_end(bytes) {
        return end_at(bytes);
    }
    more_at(bytes)
}

impl<'a> Reader<'a> {
    /// Before the text.
    pub fn new(text: &'a [u8]) -> Reader<'a>
        ensures place { result.place ≡ Place.Before }
        ensures rest { result.rest.now ≡ text.now }
    {
        Reader {
            place: Place::Before,
            rest: text,
        }
    }

    /// What is read next.
    #[tactic(auto, unfolding(crate::specs::Steps::step))]
    pub fn step(self) -> Step<'a>
        ensures { step_view result ≡ spec.step self.entry.place self.entry.rest.now }
    {
        let rest = skip_spaces(self.rest);
        match self.place {
            Place::Before => before_at(rest),
            Place::Open => open_at(rest.len() == self.rest.len(), rest),
            Place::Closed => end_at(rest),
        }
    }
}
