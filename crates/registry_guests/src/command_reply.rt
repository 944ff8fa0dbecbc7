//! The reply to a command.

ghost use Rattle.std.specs.Prelude.{◌≡◌, ◌<◌, ◌^◌, IfOk, length};
ghost use Rattle.registry_guests.specs.Replies.{ParsesAs, ParsesIn, output_in};
ghost use Rattle.registry_guests.specs.Outputs.{Output, sent_as};
ghost use Rattle.registry_guests.specs.Spelling.{view};

use crate::fault::{Malformed, ReadError};
use crate::reading::{CommandMessage, read};
use std::alloc::Global;

/// The reply to a command: the exit status of its program, a text, and what ends it.
///
/// The text goes to standard output where the status is 0, and otherwise to standard error.
#[derive(Debug, Drop)]
pub struct CommandReply<'h> {
    pub status: u8,
    pub text: &'h [u8],
    pub end: Vec<u8>,
}

/// Parses all the bytes that a server sent.
///
/// `Malformed` is returned where they aren't a reply, such as where their end is missing.
pub fn parse_reply(alloc: Global, bytes: &[u8]) -> Result<CommandReply<'_>, ReadError>
    // The reply that is parsed is sent as these bytes.
    ensures found { IfOk result (λ h. bytes.now ≡ sent_as (output_in h)) }
    // Any reply that is sent as these bytes is parsed, unless memory runs out.
    ensures only { (s : Output) → length s.text < 2 ^ 64 → length s.end < 2 ^ 32
        → bytes.now ≡ sent_as s → ParsesAs result s }
{
    match read(alloc, bytes) {
        Ok(message) => reply_in(alloc, &message),
        Err(error) => Err(error),
    }
}

// The reply in a message.
fn reply_in<'h>(alloc: Global, message: &CommandMessage<'h>) -> Result<CommandReply<'h>, ReadError>
    ensures { ParsesIn (view message.now).0 (view message.now).1 result }
{
    let words = message.arguments.as_slice();
    if words.len() != 2 || words[0].len() != 1 {
        return Err(ReadError::Malformed(Malformed));
    }
    Ok(CommandReply {
        status: words[0][0],
        text: message.body,
        end: Vec::from_slice(alloc, &words[1])?,
    })
}
