//! Simples: a partial version after an operator, or alone.

ghost use Rattle.std.specs.Prelude.{◌≡◌, length, take_while};
ghost use Rattle.registry_ranges.specs.Reading as spec;
ghost use Rattle.registry_ranges.specs.Reading.{operator_view, simple_read};

use crate::partial::partial_at;
use crate::prefix::Prefix;

/// What comes before a partial version.
#[derive(Clone, Copy, PartialEq, Eq)]
pub enum Operator {
    /// Nothing.
    Bare,
    /// `<`
    Less,
    /// `>`
    Greater,
    /// `<=`
    LessEq,
    /// `>=`
    GreaterEq,
    /// `=`
    Equal,
    /// `~`
    Tilde,
    /// `~>`, which means what `~` does.
    TildeGreater,
    /// `^`
    Caret,
}

/// What a partial version says, and what comes before it.
#[derive(Clone, Copy)]
pub struct Simple<'a> {
    pub operator: Operator,
    pub prefix: Prefix<'a>,
}

#[tactic(auto, unfolding(crate::specs::Reading::operator_at))]
fn operator_at(bytes: &[u8]) -> (Operator, &[u8])
    ensures { operator_view result ≡ spec.operator_at bytes.now }
{
    match bytes {
        [b'<', b'=', rest @ ..] => (Operator::LessEq, rest),
        [b'<', rest @ ..] => (Operator::Less, rest),
        [b'>', b'=', rest @ ..] => (Operator::GreaterEq, rest),
        [b'>', rest @ ..] => (Operator::Greater, rest),
        [b'=', rest @ ..] => (Operator::Equal, rest),
        [b'~', b'>', rest @ ..] => (Operator::TildeGreater, rest),
        [b'~', rest @ ..] => (Operator::Tilde, rest),
        [b'^', rest @ ..] => (Operator::Caret, rest),
        _ => (Operator::Bare, bytes),
    }
}

fn space_count(bytes: &[u8]) -> usize
    ensures { result ≡ length (take_while spec.is_space bytes.now) }
{
    bytes.iter().take_while(|b| **b == b' ').count()
}

/// What follows the spaces at the front.
pub fn skip_spaces(bytes: &[u8]) -> &[u8]
    ensures { result.now ≡ spec.strip_spaces bytes.now }
{
    let count = space_count(bytes);
    let (_, rest) = bytes.split_at(count);
    rest
}

/// What follows a `v` at the front, where there is one.
#[tactic(auto, unfolding(crate::specs::Reading::strip_v))]
pub fn skip_v(bytes: &[u8]) -> &[u8]
    ensures { result.now ≡ spec.strip_v bytes.now }
{
    match bytes {
        [b'v', rest @ ..] => rest,
        _ => bytes,
    }
}

/// The simple at the front and what follows it.
#[tactic(auto, unfolding(crate::specs::Reading::simple_at))]
pub fn simple_at(bytes: &[u8]) -> Option<(Simple<'_>, &[u8])>
    ensures { simple_read result ≡ spec.simple_at bytes.now }
{
    let (operator, rest) = operator_at(bytes);
    let rest = match operator {
        Operator::Bare => rest,
        _ => skip_spaces(rest),
    };
    let (partial, rest) = partial_at(skip_v(rest))?;
    Some((
        Simple {
            operator,
            prefix: Prefix::of(partial),
        },
        rest,
    ))
}
