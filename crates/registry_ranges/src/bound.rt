//! The comparators that each form of a range means, with no memory taken.

ghost use Rattle.std.specs.Prelude.{◌≡◌, ◌<◌, ◌-◌, ◌^◌, []};
ghost use Rattle.registry_ranges.specs.Bounds.{bound_view, bounds_view, second_view, IsPart};
ghost use Rattle.registry_ranges.specs.Comparators as spec;
ghost use Rattle.registry_ranges.specs.Prefixes.{IsPrefix, prefix_view};
ghost use Rattle.registry_ranges.specs.Steps.{part_view};

use crate::prefix::Prefix;
use crate::reader::Part;
use crate::relation::Relation;
use crate::simple::Operator;

/// A relation to a version without build metadata, whose prerelease is in the text.
#[derive(Clone, Copy)]
pub struct Bound<'a> {
    pub relation: Relation,
    pub major: u64,
    pub minor: u64,
    pub patch: u64,
    pub pre: &'a [u8],
}

/// One comparator or two.
pub type Bounds<'a> = (Bound<'a>, Option<Bound<'a>>);

impl<'a> Bound<'a> {
    /// A relation to a release.
    fn release(relation: Relation, major: u64, minor: u64, patch: u64) -> Bound<'a>
        ensures { bound_view result ≡ spec.comparator relation major minor patch [] }
    {
        Bound {
            relation,
            major,
            minor,
            patch,
            pre: &[],
        }
    }

    /// Below each version with these numbers, prereleases included.
    fn below(major: u64, minor: u64, patch: u64) -> Bound<'a>
        ensures { bound_view result ≡ spec.below major minor patch }
    {
        Bound {
            relation: Relation::Less,
            major,
            minor,
            patch,
            pre: b"0",
        }
    }
}

// At least the prefix, with zeros for what is missing.
fn lower(prefix: Prefix<'_>) -> Bound<'_>
    ensures { bound_view result ≡ spec.lower (prefix_view prefix.entry) }
{
    let relation = Relation::GreaterEq;
    match prefix {
        Prefix::Any => Bound::release(relation, 0, 0, 0),
        Prefix::Major(major) => Bound::release(relation, major, 0, 0),
        Prefix::Minor(major, minor) => Bound::release(relation, major, minor, 0),
        Prefix::Full(major, minor, patch, pre) => Bound {
            relation,
            major,
            minor,
            patch,
            pre,
        },
    }
}

// A prefix alone or after `=`.
fn same(prefix: Prefix<'_>) -> Bounds<'_>
    requires { IsPrefix (prefix_view prefix) }
    ensures { bounds_view result ≡ spec.same (prefix_view prefix.entry) }
{
    match prefix {
        Prefix::Any => (lower(prefix), None),
        Prefix::Major(major) => (lower(prefix), Some(Bound::below(major + 1, 0, 0))),
        Prefix::Minor(major, minor) => (lower(prefix), Some(Bound::below(major, minor + 1, 0))),
        Prefix::Full(major, minor, patch, pre) => {
            (
                Bound {
                    relation: Relation::Equal,
                    major,
                    minor,
                    patch,
                    pre,
                },
                None,
            )
        }
    }
}

// A prefix after `~` or `~>`.
fn tilde(prefix: Prefix<'_>) -> Bounds<'_>
    requires { IsPrefix (prefix_view prefix) }
    ensures { bounds_view result ≡ spec.tilde (prefix_view prefix.entry) }
{
    let end = match prefix {
        Prefix::Any => None,
        Prefix::Major(major) => Some(Bound::below(major + 1, 0, 0)),
        Prefix::Minor(major, minor) => Some(Bound::below(major, minor + 1, 0)),
        Prefix::Full(major, minor, _, _) => Some(Bound::below(major, minor + 1, 0)),
    };
    (lower(prefix), end)
}

// Above the first number that isn't zero; `last` where both are zero.
fn caret_end<'a>(major: u64, minor: u64, last: Bound<'a>) -> Bound<'a>
    requires major { major < 2 ^ 64 - 1 }
    requires minor { minor < 2 ^ 64 - 1 }
    ensures { bound_view result ≡ spec.caret_end major minor (bound_view last.entry) }
{
    if major > 0 {
        Bound::below(major + 1, 0, 0)
    } else if minor > 0 {
        Bound::below(0, minor + 1, 0)
    } else {
        last
    }
}

// A prefix after `^`.
fn caret(prefix: Prefix<'_>) -> Bounds<'_>
    requires { IsPrefix (prefix_view prefix) }
    ensures { bounds_view result ≡ spec.caret (prefix_view prefix.entry) }
{
    let end = match prefix {
        Prefix::Any => None,
        Prefix::Major(major) => Some(Bound::below(major + 1, 0, 0)),
        Prefix::Minor(major, minor) => Some(caret_end(major, minor, Bound::below(0, 1, 0))),
        Prefix::Full(major, minor, patch, _) => {
            Some(caret_end(major, minor, Bound::below(0, 0, patch + 1)))
        }
    };
    (lower(prefix), end)
}

// A prefix after `>`.
fn greater(prefix: Prefix<'_>) -> Bound<'_>
    requires { IsPrefix (prefix_view prefix) }
    ensures { bound_view result ≡ spec.greater (prefix_view prefix.entry) }
{
    match prefix {
        Prefix::Any => Bound::below(0, 0, 0),
        Prefix::Major(major) => Bound::release(Relation::GreaterEq, major + 1, 0, 0),
        Prefix::Minor(major, minor) => Bound::release(Relation::GreaterEq, major, minor + 1, 0),
        Prefix::Full(major, minor, patch, pre) => {
            Bound {
                relation: Relation::Greater,
                major,
                minor,
                patch,
                pre,
            }
        }
    }
}

// A prefix after `<`.
fn less(prefix: Prefix<'_>) -> Bound<'_>
    ensures { bound_view result ≡ spec.less (prefix_view prefix.entry) }
{
    match prefix {
        Prefix::Any => Bound::below(0, 0, 0),
        Prefix::Major(major) => Bound::below(major, 0, 0),
        Prefix::Minor(major, minor) => Bound::below(major, minor, 0),
        Prefix::Full(major, minor, patch, pre) => {
            Bound {
                relation: Relation::Less,
                major,
                minor,
                patch,
                pre,
            }
        }
    }
}

// A prefix after `<=`.
fn at_most(prefix: Prefix<'_>) -> Bound<'_>
    requires { IsPrefix (prefix_view prefix) }
    ensures { bound_view result ≡ spec.at_most (prefix_view prefix.entry) }
{
    match prefix {
        Prefix::Any => lower(prefix),
        Prefix::Major(major) => Bound::below(major + 1, 0, 0),
        Prefix::Minor(major, minor) => Bound::below(major, minor + 1, 0),
        Prefix::Full(major, minor, patch, pre) => {
            Bound {
                relation: Relation::LessEq,
                major,
                minor,
                patch,
                pre,
            }
        }
    }
}

// The high end of a hyphen range, which a wildcard leaves open.
fn high_end(prefix: Prefix<'_>) -> Option<Bound<'_>>
    requires { IsPrefix (prefix_view prefix) }
    ensures { second_view result ≡ spec.high_end (prefix_view prefix.entry) }
{
    match prefix {
        Prefix::Any => None,
        Prefix::Major(_) | Prefix::Minor(_, _) | Prefix::Full(_, _, _, _) => Some(at_most(prefix)),
    }
}

// A prefix after an operator.
fn simple_bounds(operator: Operator, prefix: Prefix<'_>) -> Bounds<'_>
    requires { IsPrefix (prefix_view prefix) }
    ensures { bounds_view result ≡ spec.comparators_of_simple operator (prefix_view prefix.entry) }
{
    match operator {
        Operator::Bare | Operator::Equal => same(prefix),
        Operator::Tilde | Operator::TildeGreater => tilde(prefix),
        Operator::Caret => caret(prefix),
        Operator::Less => (less(prefix), None),
        Operator::Greater => (greater(prefix), None),
        Operator::LessEq => (at_most(prefix), None),
        Operator::GreaterEq => (lower(prefix), None),
    }
}

/// The comparators of a part.
pub fn bounds_of(part: Part<'_>) -> Bounds<'_>
    requires { IsPart (part_view part) }
    ensures { bounds_view result ≡ spec.comparators_of_part (part_view part.entry) }
{
    match part {
        Part::Empty => (lower(Prefix::Any), None),
        Part::Hyphen(low, high) => (lower(low), high_end(high)),
        Part::Simple(simple) => simple_bounds(simple.operator, simple.prefix),
    }
}
