//! Escapes in a text: `\r`, `\n`, `\t`, `\\`, and `\xNN` for any byte.

use crate::failure::{Stop, failed_with};
use std::alloc::Global;

/// The escape that the bytes before have begun.
#[derive(Clone, Copy, PartialEq, Eq)]
enum Begun {
    /// No escape.
    Nothing,
    /// `\`.
    Escape,
    /// `\x`.
    Byte,
    /// `\x` and its first digit.
    HalfByte(u8),
}

/// The bytes that a text with escapes spells.
pub fn unescaped(alloc: Global, text: &str) -> Result<Vec<u8>, Stop> {
    let mut bytes = Vec::new(alloc);
    let mut begun = Begun::Nothing;
    for byte in text.as_bytes() {
        let (spelled, next) = match step(begun, *byte) {
            Some(step) => step,
            None => return Err(unknown(alloc)),
        };
        if let Some(byte) = spelled {
            bytes.push(byte).map_err(|_| Stop::Memory)?;
        }
        begun = next;
    }
    if begun != Begun::Nothing {
        return Err(unknown(alloc));
    }
    Ok(bytes)
}

// The byte that is spelled, if one is, and the escape that is begun afterwards.
fn step(begun: Begun, byte: u8) -> Option<(Option<u8>, Begun)> {
    match begun {
        Begun::Nothing if byte == b'\\' => Some((None, Begun::Escape)),
        Begun::Nothing => Some((Some(byte), Begun::Nothing)),
        Begun::Escape if byte == b'x' => Some((None, Begun::Byte)),
        Begun::Escape => Some((Some(control(byte)?), Begun::Nothing)),
        Begun::Byte => Some((None, Begun::HalfByte(digit(byte)?))),
        Begun::HalfByte(high) => {
            let byte = high.saturating_mul(16).saturating_add(digit(byte)?);
            Some((Some(byte), Begun::Nothing))
        }
    }
}

fn control(letter: u8) -> Option<u8> {
    match letter {
        b'r' => Some(b'\r'),
        b'n' => Some(b'\n'),
        b't' => Some(b'\t'),
        b'\\' => Some(b'\\'),
        _ => None,
    }
}

fn digit(letter: u8) -> Option<u8> {
    let value = char::from(letter).to_digit(16)?;
    u8::try_from(value).ok()
}

fn unknown(alloc: Global) -> Stop {
    failed_with(alloc, r"an escape is none of \r \n \t \\ \xNN")
}
