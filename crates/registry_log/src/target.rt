//! The column of a target, in which no token is seen.

ghost use Rattle.std.specs.Prelude.{◌≡◌, ◌≤◌, ◌<◌, ◌+◌, ◌*◌, ◌++◌, ◌∷◌, [], true, drop, length, map, take, IfOk, IfSome, OnOk, MatchOption};
ghost use Rattle.std.specs.Char.{digit_value, is_digit};
ghost use Rattle.registry_log.specs.Lines.{cell, column, seen_byte};
ghost use Rattle.registry_log.specs.Targets as spec;
ghost use Rattle.registry_log.specs.Targets.{begins, letter, letters, masked, masked_after, masked_behind, masked_in, meaning, shown};

use crate::column::push_seen;
use std::alloc::AllocError;

/// What stands for what may be a token.
const MASK: &[u8] = b"***";

/// The most bytes of a target that are shown.
const SHOWN_LIMIT: usize = 512;

/// What follows a target that is cut.
const CUT_END: &[u8] = b"...";

/// How many characters the shortest token has.
const SHORTEST_TOKEN: usize = 16;

/// Adds a target to a line as a column, and a space after it. `***` stands for each part that begins
/// with a token of npm's, and for all that follows where npm revokes a token. At most 512 bytes are
/// put, and `...` after them where these aren't all.
pub(crate) fn push_target(line: &mut Vec<u8>, target: &[u8]) -> Result<(), AllocError>
    ensures { OnOk result (line.new.items ≡ line.old.items ++ cell (shown target.now)) }
{
    let start = line.len();
    push_shown(line, target)?;
    cut_from(line, start)?;
    Ok(line.push(b' ')?)
}

#[tactic(auto, using(crate::proofs::TargetFacts::nothing_shown, crate::proofs::TargetFacts::something_shown))]
fn push_shown(line: &mut Vec<u8>, target: &[u8]) -> Result<(), AllocError>
    ensures { OnOk result (line.new.items ≡ line.old.items ++ column (masked target.now)) }
{
    if target.is_empty() {
        Ok(line.push(b'-')?)
    } else {
        push_masked(line, target)
    }
}

// Cuts what a line has from this byte on.
fn cut_from(line: &mut Vec<u8>, start: usize) -> Result<(), AllocError>
    requires { start ≤ length line.old.items }
    ensures { OnOk result (line.new.items ≡ take start line.old.items ++ spec.cut (drop start line.old.items)) }
{
    if line.len() - start > SHOWN_LIMIT {
        line.truncate(start + SHOWN_LIMIT);
        line.extend_from_slice(CUT_END)?;
    }
    Ok(())
}

fn push_masked(line: &mut Vec<u8>, target: &[u8]) -> Result<(), AllocError>
    ensures { OnOk result
        (line.new.items ≡ line.old.items ++ map seen_byte (masked target.now)) }
{
    let mut rest = target;
    let mut is_hidden = false;
    while let Some(letter) = first_letter(rest) {
        match push_letter(line, letter, is_hidden)? {
            Some(hidden) => is_hidden = hidden,
            None => return Ok(()),
        }
        rest = letter.rest;
    }
    Ok(())
}

// Puts a letter of a part that is hidden or not. Returns whether the part of the next letter is
// hidden, and `None` where all that follows is.
#[tactic(auto, using(crate::proofs::TargetFacts::put_separator, crate::proofs::TargetFacts::put_hidden, crate::proofs::TargetFacts::put_seen))]
fn push_letter(
    line: &mut Vec<u8>,
    letter: FirstLetter<'_>,
    is_hidden: bool,
) -> Result<Option<bool>, AllocError>
    ensures { IfOk result (λ after.
        line.new.items ++ map seen_byte (masked_after after (letters letter.entry.rest.now))
        ≡ line.old.items ++ map seen_byte (masked_in is_hidden (spec.letter letter.entry.means letter.entry.written.now ∷ letters letter.entry.rest.now))) }
{
    if separates(letter.means) {
        push_seen(line, letter.written)?;
        push_mask(line, letter.rest)
    } else if is_hidden {
        Ok(Some(true))
    } else {
        push_seen(line, letter.written)?;
        Ok(Some(false))
    }
}

// Puts `***` for a part that is hidden, or for all that follows.
#[tactic(auto, using(crate::proofs::TargetFacts::mask_all, crate::proofs::TargetFacts::mask_part, crate::proofs::TargetFacts::mask_none))]
fn push_mask(line: &mut Vec<u8>, rest: &[u8]) -> Result<Option<bool>, AllocError>
    ensures { IfOk result (λ after.
        line.new.items ++ map seen_byte (masked_after after (letters rest.now))
        ≡ line.old.items ++ map seen_byte (masked_behind (letters rest.now))) }
{
    if hides_all(rest) {
        line.extend_from_slice(MASK)?;
        return Ok(None);
    }
    if !hides_part(rest) {
        return Ok(Some(false));
    }
    line.extend_from_slice(MASK)?;
    Ok(Some(true))
}

// The first letter of a text: what it means, how it is written, and what follows it.
#[derive(Clone, Copy)]
struct FirstLetter<'a> {
    means: u8,
    written: &'a [u8],
    rest: &'a [u8],
}

fn first_letter(text: &[u8]) -> Option<FirstLetter<'_>>
    ensures letters { MatchOption result (letters text.now ≡ []) (λ l.
        letters text.now ≡ letter l.means l.written.now ∷ letters l.rest.now) }
    ensures shorter { IfSome result (λ l. length l.rest.now < length text.now) }
{
    match text {
        [] => None,
        [b'%', high, low, rest @ ..] if is_hexadecimal(*high) && is_hexadecimal(*low) => {
            Some(FirstLetter {
                means: byte_of(*high, *low),
                written: &text[..3],
                rest,
            })
        }
        [byte, rest @ ..] => Some(FirstLetter {
            means: *byte,
            written: &text[..1],
            rest,
        }),
    }
}

fn is_hexadecimal(byte: u8) -> bool
    ensures { result ≡ is_digit byte 16 }
{
    char::from(byte).is_digit(16)
}

// The byte that two hexadecimal digits mean.
fn byte_of(high: u8, low: u8) -> u8
    requires high { is_digit high 16 ≡ true }
    requires low { is_digit low 16 ≡ true }
    ensures { result ≡ 16 * digit_value high + digit_value low }
{
    match (char::from(high).to_digit(16), char::from(low).to_digit(16)) {
        (Some(high), Some(low)) => (16 * high + low) as u8,
        _ => unreachable!(),
    }
}

// Whether a byte stands between the parts of a target.
fn separates(byte: u8) -> bool
    ensures { result ≡ spec.separates byte }
{
    b"/?&=#".contains(&byte)
}

// Whether a byte is a character of a token, and separates no parts.
fn is_token_letter(byte: u8) -> bool
    ensures { result ≡ spec.is_token_letter byte }
{
    byte.is_ascii_alphanumeric() || b"-_.~+".contains(&byte)
}

// Whether a part of a target begins with a token in form, as npm's tokens do.
fn hides_part(text: &[u8]) -> bool
    ensures { result ≡ spec.hides_part (meaning (letters text.now)) }
{
    reads_as(text, b"npm_") && SHORTEST_TOKEN <= run_len(text)
}

// Whether npm revokes a token by what follows.
fn hides_all(text: &[u8]) -> bool
    ensures { result ≡ spec.hides_all (meaning (letters text.now)) }
{
    reads_as(text, b"user/token/") || reads_as(text, b"tokens/token/")
}

// Whether a text begins with a word, however that is written.
#[tactic(auto, using(crate::proofs::TargetFacts::begins_none, crate::proofs::TargetFacts::begins_other, crate::proofs::TargetFacts::begins_more))]
fn reads_as(text: &[u8], word: &[u8]) -> bool
    ensures { result ≡ begins (meaning (letters text.now)) word.now }
{
    let mut rest = text;
    for byte in word {
        let Some(letter) = first_letter(rest) else {
            return false;
        };
        if letter.means != *byte {
            return false;
        }
        rest = letter.rest;
    }
    true
}

// How many characters of a token a text begins with.
#[tactic(auto, using(crate::proofs::TargetFacts::run_none, crate::proofs::TargetFacts::run_other, crate::proofs::TargetFacts::run_more))]
fn run_len(text: &[u8]) -> usize
    ensures { result ≡ spec.run (meaning (letters text.now)) }
{
    let mut count = 0;
    let mut rest = text;
    while let Some(letter) = first_letter(rest) {
        if !is_token_letter(letter.means) {
            return count;
        }
        count += 1;
        rest = letter.rest;
    }
    count
}
