//! The media ranges that a request accepts.

ghost use Rattle.std.specs.Prelude.{◌≡◌, ◌==◌, ◌≤◌, not, length};
ghost use Rattle.std.specs.List.{list_any, take_while};
ghost use Rattle.registry_wire.specs.EntityTags.{quote};
ghost use Rattle.registry_wire.specs.MediaRanges as media;

use crate::field::{is_same, trimmed};
use crate::wanted::FieldValue;

/// Whether the fields `accept` of a request name the type of an abbreviated document,
/// `application/vnd.npm.install-v1+json` in any case of its letters, in a list of media ranges (RFC
/// 9110, 12.5.1). An element that gives it the weight 0 refuses it; any other weight, or none, accepts
/// it. A value with a quotation mark names nothing, and neither do several fields of this name: the
/// full document is always right.
pub fn accepts_abbreviated(accept: &FieldValue) -> bool
    ensures { result ≡ media.accepts_abbreviated accept.now }
{
    match accept {
        FieldValue::Absent => false,
        FieldValue::Once(value) => accepts(value.as_slice()),
        FieldValue::Repeated => false,
    }
}

/// The type of an abbreviated document.
pub(crate) fn abbreviated_type() -> &'static [u8]
    ensures text { result.now ≡ media.abbreviated_type }
    ensures len { length result.now ≤ 35 }
{
    b"application/vnd.npm.install-v1+json"
}

fn accepts(value: &[u8]) -> bool
    ensures { result ≡ media.accepts value.now }
{
    !has_quote(value) && lists_accepted(value)
}

fn has_quote(value: &[u8]) -> bool
    ensures { result ≡ list_any (λ b. b == quote) value.now }
{
    value.iter().any(|byte| *byte == b'"')
}

fn lists_accepted(value: &[u8]) -> bool
    ensures { result ≡ list_any media.is_accepted (media.elements value.now) }
{
    value
        .split(|b| *b == b',')
        .any(|element| is_accepted(element))
}

// Whether this element of a list is the type, and its weight isn't 0.
fn is_accepted(element: &[u8]) -> bool
    ensures { result ≡ media.is_accepted element.now }
{
    let (range, rest) = element.split_at(range_len(element));
    match rest {
        [] => is_abbreviated(range),
        [_, parameters @ ..] => is_abbreviated(range) && !has_refusal(parameters),
    }
}

// How many bytes of an element are before its parameters.
fn range_len(element: &[u8]) -> usize
    ensures { result ≡ length (take_while media.is_of_range element.now) }
{
    element
        .iter()
        .take_while(|byte| is_of_range(**byte))
        .count()
}

fn is_of_range(byte: u8) -> bool
    ensures { result ≡ media.is_of_range byte }
{
    byte != b';'
}

fn is_abbreviated(range: &[u8]) -> bool
    ensures { result ≡ media.is_abbreviated range.now }
{
    is_same(trimmed(range), abbreviated_type())
}

// Whether one of these parameters is the weight 0.
fn has_refusal(parameters: &[u8]) -> bool
    ensures { result ≡ list_any media.is_refusal (media.parts parameters.now) }
{
    parameters
        .split(|b| *b == b';')
        .any(|parameter| is_refusal(parameter))
}

fn is_refusal(parameter: &[u8]) -> bool
    ensures { result ≡ media.is_refusal parameter.now }
{
    is_zero(trimmed(parameter))
}

fn is_zero(weight: &[u8]) -> bool
    ensures { result ≡ media.is_zero weight.now }
{
    is_same(weight, b"q=0")
        || is_same(weight, b"q=0.")
        || is_same(weight, b"q=0.0")
        || is_same(weight, b"q=0.00")
        || is_same(weight, b"q=0.000")
}
