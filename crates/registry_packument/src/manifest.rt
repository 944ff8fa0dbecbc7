//! What a manifest is: a text that `serde_json` reads into an object.

ghost use Rattle.std.specs.Prelude.{◌≡◌, ◌<◌, ◌∷◌, true, false, length, is_some, Some, None, IfOk, OnOk, MatchResult};
ghost use Rattle.std.specs.Bool.{MatchBool};
ghost use Rattle.json.specs.Token.{begin_object};
ghost use Rattle.serde_json.specs.Read.{number_of, number_from};
ghost use Rattle.registry_packument.specs.Documents.{manifest_members};
ghost use Rattle.registry_packument.specs.Passing.{IsNoObject, behind_value, behind_items, behind_members};

use fast_float::Numeral;
use json::{Invalid, Reader, Scratch, Token};
use std::alloc::{AllocError, Global};

/// How deep arrays and objects may nest inside a manifest.
const DEPTH: usize = 126;

/// Whether the text is a manifest. It is read to its end, and nothing of it is kept.
pub(crate) fn is_manifest(alloc: Global, text: &str) -> Result<bool, AllocError>
    ensures { IfOk result (λ is. is ≡ is_some (manifest_members text.now)) }
{
    let mut scratch = Scratch::new(alloc);
    let mut reader = Reader::new(text, &mut scratch)?;
    if !begins_object(&mut reader) || pass_members(&mut reader, DEPTH).is_err() {
        return Ok(false);
    }
    Ok(reader.next().is_none())
}

// Passes the brace that begins an object, if it is next.
fn begins_object(reader: &mut Reader<'_>) -> bool
    ensures { MatchBool result (reader.old ≡ begin_object ∷ reader.new) (IsNoObject reader.old) }
{
    match reader.next() {
        Some(Token::BeginObject) => true,
        _ => false,
    }
}

// Passes the next value, in which arrays and objects nest at most this deep.
#[cycle(pass)]
fn pass_value(reader: &mut Reader<'_>, depth: usize) -> Result<(), Invalid>
    ensures value { MatchResult result (λ _. behind_value depth reader.old ≡ Some reader.new)
        (λ _. behind_value depth reader.old ≡ None) }
    ensures shorter { OnOk result (length reader.new < length reader.old) }
{
    let token = reader.next().ok_or(Invalid)?;
    match token {
        Token::String(_) | Token::Bool(_) | Token::Null => Ok(()),
        Token::Number(text) => if is_held(text) { Ok(()) } else { Err(Invalid) },
        Token::EndObject | Token::EndArray | Token::Key(_) | Token::Bad => Err(Invalid),
        Token::BeginArray => if depth == 0 {
            Err(Invalid)
        } else {
            pass_items(reader, depth - 1)
        },
        Token::BeginObject => if depth == 0 {
            Err(Invalid)
        } else {
            pass_members(reader, depth - 1)
        },
    }
}

// Passes the items of an array, and its bracket.
#[cycle(pass)]
fn pass_items(reader: &mut Reader<'_>, depth: usize) -> Result<(), Invalid>
    ensures value { MatchResult result (λ _. behind_items depth reader.old ≡ Some reader.new)
        (λ _. behind_items depth reader.old ≡ None) }
    ensures shorter { OnOk result (length reader.new < length reader.old) }
{
    'items: while !reader.take_end_array() {
        pass_value(reader, depth)?;
    }
    Ok(())
}

// Passes the members of an object, and its brace.
#[cycle(pass)]
fn pass_members(reader: &mut Reader<'_>, depth: usize) -> Result<(), Invalid>
    ensures value { MatchResult result (λ _. behind_members depth reader.old ≡ Some reader.new)
        (λ _. behind_members depth reader.old ≡ None) }
    ensures shorter { OnOk result (length reader.new < length reader.old) }
{
    'members: while let Some(_) = reader.next_key()? {
        pass_value(reader, depth)?;
    }
    Ok(())
}

// Whether the number of a JSON text is one that `serde_json` holds: an integer of 64 bits, or one
// that isn't too large for a float.
fn is_held(text: &str) -> bool
    ensures { result ≡ is_some (number_of text.now) }
{
    match text.strip_prefix('-') {
        Some(digits) => is_held_below_zero(&Numeral::scan(digits.as_bytes())),
        None => is_held_from_zero(&Numeral::scan(text.as_bytes())),
    }
}

fn is_held_from_zero(numeral: &Numeral<'_>) -> bool
    ensures { result ≡ is_some (number_from false numeral.now) }
{
    numeral.to_u64().is_some() || numeral.to_float::<f64>(false).is_finite()
}

fn is_held_below_zero(numeral: &Numeral<'_>) -> bool
    ensures { result ≡ is_some (number_from true numeral.now) }
{
    numeral.to_i64(true).is_some_and(|n| n < 0) || numeral.to_float::<f64>(true).is_finite()
}
