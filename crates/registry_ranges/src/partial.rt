//! Partial versions.

ghost use Rattle.std.specs.Prelude.{◌≡◌};
ghost use Rattle.registry_ranges.specs.Reading as spec;
ghost use Rattle.registry_ranges.specs.Reading.{partial_read};

use crate::component::{Component, component_at};
use crate::qualifier::{build_at, pre_at};

/// A partial version: one to three components, and after three of them a prerelease and build
/// metadata, each the empty text where it is left out.
#[derive(Clone, Copy)]
pub enum Partial<'a> {
    /// `1`
    One(Component),
    /// `1.2`
    Two(Component, Component),
    /// `1.2.3`, `1.2.3-beta.1`, `1.2.3+build`
    Three(Component, Component, Component, &'a [u8], &'a [u8]),
}

#[tactic(auto, unfolding(crate::specs::Reading::third_at))]
fn third_at(a: Component, b: Component, bytes: &[u8]) -> Option<(Partial<'_>, &[u8])>
    ensures { partial_read result ≡ spec.third_at a b bytes.now }
{
    let (c, rest) = component_at(bytes)?;
    let (pre, rest) = pre_at(rest)?;
    let (build, rest) = build_at(rest)?;
    Some((Partial::Three(a, b, c, pre, build), rest))
}

#[tactic(auto, unfolding(crate::specs::Reading::after_second))]
fn after_second(a: Component, b: Component, bytes: &[u8]) -> Option<(Partial<'_>, &[u8])>
    ensures { partial_read result ≡ spec.after_second a b bytes.now }
{
    match bytes {
        [b'.', rest @ ..] => third_at(a, b, rest),
        _ => Some((Partial::Two(a, b), bytes)),
    }
}

#[tactic(auto, unfolding(crate::specs::Reading::after_first))]
fn after_first(a: Component, bytes: &[u8]) -> Option<(Partial<'_>, &[u8])>
    ensures { partial_read result ≡ spec.after_first a bytes.now }
{
    match bytes {
        [b'.', rest @ ..] => {
            let (b, rest) = component_at(rest)?;
            after_second(a, b, rest)
        }
        _ => Some((Partial::One(a), bytes)),
    }
}

/// The partial version at the front and what follows it.
#[tactic(auto, unfolding(crate::specs::Reading::partial_at))]
pub fn partial_at(bytes: &[u8]) -> Option<(Partial<'_>, &[u8])>
    ensures { partial_read result ≡ spec.partial_at bytes.now }
{
    let (a, rest) = component_at(bytes)?;
    after_first(a, rest)
}
