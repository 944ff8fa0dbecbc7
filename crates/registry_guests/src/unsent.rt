//! The part of an answer that isn't sent yet.

ghost use Rattle.std.specs.Prelude.{◌≡◌, ◌≤◌, ◌+◌, ◌++◌, ◌==◌, length, drop};
ghost use Rattle.registry_guests.specs.Spelling.{word};
ghost use Rattle.registry_guests.specs.Outputs.{sent_as};

use crate::command_output::CommandOutput;
use registry_server::left_of;
use registry_wire::ShortText;
use std::marker::Model;

/// The part of an answer that isn't sent: what is before its text lies in the value itself, and the
/// text is where the reply holds it. No memory is taken for it. Contracts see the bytes that are
/// left.
pub struct Unsent {
    front: ShortText,
    output: CommandOutput,
    // It may be more than a `usize` holds, as far as the lengths of three pieces show.
    sent: u128,
}

// Written out, so that dropping it is one call, not one for each part.
impl Drop for Unsent {
    fn drop(self) {
        let Unsent {
            front: _,
            output: _,
            sent: _,
        } = self;
    }
}

impl Model for Unsent {
    ghost use Rattle.std.specs.Prelude.{◌≤◌, ◌++◌, List, ℕ, drop, length};

    ghost Value = { List ℕ };

    ghost view = { λ u. drop u.sent (u.front ++ u.output.text) };

    ghost invariant = { λ u. u.sent ≤ length (u.front ++ u.output.text) };
}

impl Unsent {
    /// The whole answer.
    pub fn of(output: CommandOutput) -> Unsent
        ensures { result ≡ sent_as output }
    {
        let front = front_of(&output);
        Unsent {
            front,
            output,
            sent: 0,
        }
    }

    /// Whether no byte is left.
    pub fn is_empty(&self) -> bool
        ensures { result ≡ (length self.now == 0) }
    {
        let (front, text, rest) = self.parts();
        front.is_empty() && text.is_empty() && rest.is_empty()
    }

    /// What is left before the text, of the first piece of the text, and of the rest of it.
    pub fn parts(&self) -> (&[u8], &[u8], &[u8])
        ensures { result.0.now ++ result.1.now ++ result.2.now ≡ self.now }
    {
        let (text, rest) = self.output.texts();
        left_of(self.front.as_slice(), text, rest, self.sent)
    }

    /// This many more bytes were sent.
    pub fn advance(&mut self, count: usize)
        requires { count ≤ length self.old }
        ensures { self.new ≡ drop count self.old }
    {
        // The new sum is at most this, so it doesn't overflow.
        let _total = total(&self.front, &self.output);
        self.sent += count as u128;
    }
}

// What is before the text.
fn front_of(output: &CommandOutput) -> ShortText
    ensures { result ++ output.now.text ≡ sent_as output.now }
{
    let mut front = ShortText::new();
    front.push(&2u32.to_be_bytes());
    put_word(&mut front, &[output.status()]);
    put_word(&mut front, output.end());
    front.push(&(output.text_len() as u64).to_be_bytes());
    front
}

fn put_word(front: &mut ShortText, bytes: &[u8])
    requires small { length bytes.now ≤ 1 }
    requires room { length front.old ≤ 100 }
    ensures bytes { front.new ≡ front.old ++ word bytes.now }
    ensures len { length front.new ≤ length front.old + 5 }
{
    front.push(&(bytes.len() as u32).to_be_bytes());
    front.push(bytes);
}

// How many bytes the answer has.
fn total(front: &ShortText, output: &CommandOutput) -> u128
    ensures { result ≡ length (front.now ++ output.now.text) }
{
    front.as_slice().len() as u128 + output.text_len() as u128
}
