//! Components of partial versions.

ghost use Rattle.std.specs.Prelude.{◌≡◌};
ghost use Rattle.registry_ranges.specs.Grammar as grammar;
ghost use Rattle.registry_ranges.specs.Reading as spec;
ghost use Rattle.registry_ranges.specs.Reading.{read_view};

use crate::number::number_at;

/// A component of a partial version.
#[derive(Clone, Copy, PartialEq, Eq)]
pub enum Component {
    /// `x`, `X` or `*`, by its byte.
    Wildcard(u8),
    /// A number of at most [`GREATEST_NUMBER`](registry_names::GREATEST_NUMBER).
    Number(u64),
}

fn is_wildcard(byte: u8) -> bool
    ensures { result ≡ grammar.is_wildcard byte }
{
    byte == b'x' || byte == b'X' || byte == b'*'
}

/// The component at the front and what follows it.
#[tactic(auto, unfolding(crate::specs::Reading::component_at))]
pub fn component_at(bytes: &[u8]) -> Option<(Component, &[u8])>
    ensures { read_view result ≡ spec.component_at bytes.now }
{
    let [first, rest @ ..] = bytes else {
        return None;
    };
    if is_wildcard(*first) {
        return Some((Component::Wildcard(*first), rest));
    }
    let (number, rest) = number_at(bytes)?;
    Some((Component::Number(number), rest))
}
