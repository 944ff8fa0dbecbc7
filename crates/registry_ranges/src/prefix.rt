//! What a partial version says up to its first wildcard.

ghost use Rattle.std.specs.Prelude.{◌≡◌};
ghost use Rattle.registry_ranges.specs.Prefixes as spec;
ghost use Rattle.registry_ranges.specs.Prefixes.{prefix_view};
ghost use Rattle.registry_ranges.specs.Reading.{partial_view};

use crate::component::Component;
use crate::partial::Partial;

/// What a partial version says up to its first wildcard.
#[derive(Clone, Copy)]
pub enum Prefix<'a> {
    /// Nothing.
    Any,
    /// A major number.
    Major(u64),
    /// A major and a minor number.
    Minor(u64, u64),
    /// Three numbers and a prerelease, or the empty text.
    Full(u64, u64, u64, &'a [u8]),
}

fn prefix_two<'a>(major: u64, minor: Component) -> Prefix<'a>
    ensures { prefix_view result ≡ spec.prefix_two major minor }
{
    match minor {
        Component::Number(minor) => Prefix::Minor(major, minor),
        Component::Wildcard(_) => Prefix::Major(major),
    }
}

fn prefix_three(major: u64, minor: Component, patch: Component, pre: &[u8]) -> Prefix<'_>
    ensures { prefix_view result ≡ spec.prefix_three major minor patch pre.now }
{
    match (minor, patch) {
        (Component::Number(minor), Component::Number(patch)) => {
            Prefix::Full(major, minor, patch, pre)
        }
        (Component::Number(minor), Component::Wildcard(_)) => Prefix::Minor(major, minor),
        (Component::Wildcard(_), _) => Prefix::Major(major),
    }
}

impl<'a> Prefix<'a> {
    /// What a partial version says up to its first wildcard.
    pub fn of(partial: Partial<'a>) -> Prefix<'a>
        ensures { prefix_view result ≡ spec.prefix_of (partial_view partial.entry) }
    {
        match partial {
            Partial::One(Component::Number(a)) => Prefix::Major(a),
            Partial::Two(Component::Number(a), b) => prefix_two(a, b),
            Partial::Three(Component::Number(a), b, c, pre, _) => prefix_three(a, b, c, pre),
            Partial::One(Component::Wildcard(_)) => Prefix::Any,
            Partial::Two(Component::Wildcard(_), _) => Prefix::Any,
            Partial::Three(Component::Wildcard(_), _, _, _, _) => Prefix::Any,
        }
    }
}
