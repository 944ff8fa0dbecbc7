//! The fields of a head, as spans of the bytes that it is in.

ghost use Rattle.std.specs.Prelude.{◌≡◌, ◌≤◌, ◌+◌, ◌==◌, ◌||◌, length, map, All, reverse, min, bytes_eq, codes, true, IfOk};
ghost use Rattle.std.specs.List.{list_all, list_any};
ghost use Rattle.std.specs.Char.{digit_value, is_ascii_digit};
ghost use Rattle.std.specs.Str.Parse.{digits_value};
ghost use Rattle.httparse.specs.Grammar.{skip_ows, trim_ows};
ghost use Rattle.httparse.specs.Spans.{IsHeaderWithin, header_bytes};
ghost use Rattle.registry_names.specs.Bodies.{body_limit};
ghost use Rattle.registry_wire.specs.Fields as spec;
ghost use Rattle.registry_wire.specs.Parts.{said_of, said_before};

use httparse::spans::HeaderSpan;
use registry_names::{BODY_LIMIT, Refusal};

/// What the fields of one name say.
#[derive(Clone, Copy)]
pub enum Values<'a> {
    Absent,
    Once(&'a [u8]),
    Repeated,
}

/// What the fields of this name say.
#[tactic(auto, using(crate::proofs::FieldFacts::said_steps))]
pub fn said<'a>(bytes: &'a [u8], headers: &[HeaderSpan], name: &[u8]) -> Values<'a>
    requires { All (IsHeaderWithin (length bytes.now)) headers.now }
    ensures { said_of result
        ≡ spec.said name.now (map (header_bytes bytes.entry.now) headers.now) }
{
    match headers {
        [] => Values::Absent,
        [first, rest @ ..] => {
            let later = said(bytes, rest, name);
            if is_same(first.name.of(bytes), name) {
                with_earlier(first.value.of(bytes), later)
            } else {
                later
            }
        }
    }
}

fn with_earlier<'a>(value: &'a [u8], later: Values<'a>) -> Values<'a>
    ensures { said_of result ≡ said_before value.entry.now (said_of later.entry) }
{
    match later {
        Values::Absent => Values::Once(value),
        Values::Once(_) | Values::Repeated => Values::Repeated,
    }
}

/// The length of the body, or why the request is refused.
pub fn body_len(bytes: &[u8], headers: &[HeaderSpan]) -> Result<usize, Refusal>
    requires { All (IsHeaderWithin (length bytes.now)) headers.now }
    ensures value { result ≡ spec.body_len (map (header_bytes bytes.now) headers.now) }
    ensures bound { IfOk result (λ n. n ≤ body_limit) }
{
    if is_coded(bytes, headers) {
        return Err(Refusal::BadBody);
    }
    said_len(said(bytes, headers, b"content-length"))
}

// Whether a field says that the body isn't sent as it is.
fn is_coded(bytes: &[u8], headers: &[HeaderSpan]) -> bool
    requires { All (IsHeaderWithin (length bytes.now)) headers.now }
    ensures { result ≡ list_any spec.codes_body (map (header_bytes bytes.now) headers.now) }
{
    match headers {
        [] => false,
        [first, rest @ ..] => {
            codes_body(first.name.of(bytes), first.value.of(bytes)) || is_coded(bytes, rest)
        }
    }
}

fn codes_body(name: &[u8], value: &[u8]) -> bool
    ensures { result ≡ spec.codes_body (name.now, value.now) }
{
    is_same(name, b"transfer-encoding")
        || (is_same(name, b"content-encoding") && !is_identity(value))
}

fn is_identity(value: &[u8]) -> bool
    ensures { result ≡ bytes_eq value.now (codes "identity") }
{
    value == b"identity".as_slice()
}

fn said_len(values: Values<'_>) -> Result<usize, Refusal>
    ensures value { result ≡ spec.said_len (said_of values.entry) }
    ensures bound { IfOk result (λ n. n ≤ body_limit) }
{
    match values {
        Values::Absent => Ok(0),
        Values::Once(digits) => written_len(digits),
        Values::Repeated => Err(Refusal::BadBody),
    }
}

fn written_len(text: &[u8]) -> Result<usize, Refusal>
    ensures value { result ≡ spec.written_len text.now }
    ensures bound { IfOk result (λ n. n ≤ body_limit) }
{
    if !is_number(text) {
        return Err(Refusal::BadBody);
    }
    let len = number(text);
    if len <= BODY_LIMIT {
        Ok(len)
    } else {
        Err(Refusal::TooLarge)
    }
}

fn is_number(text: &[u8]) -> bool
    ensures { result ≡ spec.is_number text.now }
{
    !text.is_empty() && all_digits(text)
}

fn all_digits(text: &[u8]) -> bool
    ensures { result ≡ list_all is_ascii_digit text.now }
{
    text.iter().all(|byte| byte.is_ascii_digit())
}

// The number that the digits write, or one more than the limit where it is greater.
fn number(digits: &[u8]) -> usize
    requires { spec.is_number digits.now ≡ true }
    ensures { result ≡ min (digits_value 10 digits.now) (body_limit + 1) }
{
    let mut n = 0;
    for byte in digits {
        n = (n * 10 + digit(*byte)).min(BODY_LIMIT + 1);
    }
    n
}

fn digit(byte: u8) -> usize
    requires { is_ascii_digit byte ≡ true }
    ensures value { result ≡ digit_value byte }
    ensures small { result ≤ 9 }
{
    usize::from(byte - b'0')
}

/// Whether a field asks that the connection ends.
pub fn is_last(bytes: &[u8], headers: &[HeaderSpan]) -> bool
    requires { All (IsHeaderWithin (length bytes.now)) headers.now }
    ensures { result ≡ list_any spec.asks_to_close (map (header_bytes bytes.now) headers.now) }
{
    match headers {
        [] => false,
        [first, rest @ ..] => {
            asks_to_close(first.name.of(bytes), first.value.of(bytes)) || is_last(bytes, rest)
        }
    }
}

fn asks_to_close(name: &[u8], value: &[u8]) -> bool
    ensures { result ≡ spec.asks_to_close (name.now, value.now) }
{
    is_same(name, b"connection") && lists_close(value)
}

fn lists_close(value: &[u8]) -> bool
    ensures { result ≡ spec.lists_close value.now }
{
    value.split(|b| *b == b',').any(|item| is_close(item))
}

fn is_close(item: &[u8]) -> bool
    ensures { result ≡ spec.is_close item.now }
{
    is_same(trimmed(item), b"close")
}

// Whether two texts are the same except for the case of ASCII letters.
#[tactic(auto, unfolding(crate::specs::Fields::is_same))]
pub(crate) fn is_same(a: &[u8], b: &[u8]) -> bool
    ensures { result ≡ spec.is_same a.now b.now }
{
    a.eq_ignore_ascii_case(b)
}

#[tactic(auto, unfolding(httparse::specs::Grammar::trim_ows))]
pub(crate) fn trimmed(text: &[u8]) -> &[u8]
    ensures { result.now ≡ trim_ows text.now }
{
    skip_back(skip_front(text))
}

pub(crate) fn skip_front(mut text: &[u8]) -> &[u8]
    ensures { result.now ≡ skip_ows text.now }
{
    while let [first, rest @ ..] = text
        && is_blank(*first)
    {
        text = rest;
    }
    text
}

fn skip_back(mut text: &[u8]) -> &[u8]
    ensures { result.now ≡ reverse (skip_ows (reverse text.now)) }
{
    while let [rest @ .., last] = text
        && is_blank(*last)
    {
        text = rest;
    }
    text
}

pub(crate) fn is_blank(byte: u8) -> bool
    ensures { result ≡ ((byte == 32) || (byte == 9)) }
{
    byte == b' ' || byte == b'\t'
}
