//! Reading a message.

ghost use Rattle.std.specs.Prelude.{◌≡◌, ◌<◌, ◌^◌, List, ℕ, IfOk, Ok, length};
ghost use Rattle.std.specs.Int.{w32, w64};
ghost use Rattle.registry_guests.specs.Reading.{Gives, all_of, body_at, number_at, whole_of, word_at, words_at};
ghost use Rattle.registry_guests.specs.Spelling.{AreWords, spelling, words, view};

use crate::fault::{Malformed, ReadError};
use std::alloc::Global;

/// What is sent at once: words, and a body.
#[derive(Debug, Drop)]
pub struct CommandMessage<'m> {
    /// The words, which are any bytes. A guest's words are the arguments after the program's name.
    pub arguments: Vec<Vec<u8>>,
    /// The body. A guest's body is the file that the words name, or the input that they read; it is
    /// empty where they do neither.
    pub body: &'m [u8],
}

fn number(bytes: &[u8]) -> Result<(u32, &[u8]), ReadError>
    ensures { Gives (λ x. (x.0, x.1.now)) result (number_at w32 bytes.now) }
{
    if bytes.len() < 4 {
        return Err(ReadError::Malformed(Malformed));
    }
    let (front, rest) = bytes.split_at(4);
    let number = u32::from_be_bytes([front[0], front[1], front[2], front[3]]);
    Ok((number, rest))
}

fn long_number(bytes: &[u8]) -> Result<(u64, &[u8]), ReadError>
    ensures { Gives (λ x. (x.0, x.1.now)) result (number_at w64 bytes.now) }
{
    if bytes.len() < 8 {
        return Err(ReadError::Malformed(Malformed));
    }
    let (front, rest) = bytes.split_at(8);
    let number = u64::from_be_bytes([
        front[0], front[1], front[2], front[3], front[4], front[5], front[6], front[7],
    ]);
    Ok((number, rest))
}

#[tactic(auto, unfolding(crate::specs::Reading::word_at))]
fn word(alloc: Global, bytes: &[u8]) -> Result<(Vec<u8>, &[u8]), ReadError>
    ensures { Gives (λ x. (x.0.items, x.1.now)) result (word_at bytes.now) }
{
    let (len, rest) = number(bytes)?;
    let len = len as usize;
    if rest.len() < len {
        return Err(ReadError::Malformed(Malformed));
    }
    let (word, rest) = rest.split_at(len);
    Ok((Vec::from_slice(alloc, word)?, rest))
}

fn words_of(alloc: Global, count: u32, bytes: &[u8]) -> Result<(Vec<Vec<u8>>, &[u8]), ReadError>
    ensures { Gives (λ x. (words x.0.items, x.1.now)) result (words_at count bytes.now) }
{
    let mut words = Vec::new(alloc);
    let mut rest = bytes;
    for _ in 0..count {
        let (word, after) = word(alloc, rest)?;
        words.push(word)?;
        rest = after;
    }
    Ok((words, rest))
}

#[tactic(auto, unfolding(crate::specs::Reading::all_of))]
fn all(alloc: Global, bytes: &[u8]) -> Result<(Vec<Vec<u8>>, &[u8]), ReadError>
    ensures { Gives (λ x. (words x.0.items, x.1.now)) result (all_of bytes.now) }
{
    let (count, rest) = number(bytes)?;
    words_of(alloc, count, rest)
}

#[tactic(auto, unfolding(crate::specs::Reading::body_at))]
fn body(bytes: &[u8]) -> Result<&[u8], ReadError>
    ensures { Gives (λ x. x.now) result (body_at bytes.now) }
{
    let (len, body) = long_number(bytes)?;
    if body.len() as u64 != len {
        return Err(ReadError::Malformed(Malformed));
    }
    Ok(body)
}

#[tactic(auto, unfolding(crate::specs::Reading::whole_of))]
fn whole(alloc: Global, bytes: &[u8]) -> Result<CommandMessage<'_>, ReadError>
    ensures { Gives view result (whole_of bytes.now) }
{
    let (words, rest) = all(alloc, bytes)?;
    let body = body(rest)?;
    Ok(CommandMessage {
        arguments: words,
        body,
    })
}

/// The message that the bytes spell, all of them.
///
/// `Malformed` is returned where they spell no message, such as where their end is missing.
pub fn read(alloc: Global, bytes: &[u8]) -> Result<CommandMessage<'_>, ReadError>
    // What is read has this spelling.
    ensures found { IfOk result (λ m. AreWords (view m).0
        × (bytes.now ≡ spelling (view m).0 (view m).1)) }
    // Whatever has this spelling is read, unless memory runs out.
    ensures only { (ws : List (List ℕ)) (body : List ℕ) → AreWords ws → length body < 2 ^ 64
        → bytes.now ≡ spelling ws body → Gives view result (Ok (ws, body)) }
{
    whole(alloc, bytes)
}
