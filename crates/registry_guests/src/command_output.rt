//! What a command prints.

ghost use Rattle.std.specs.Prelude.{◌≡◌, ◌≤◌, ◌+◌, ◌++◌, Ok, Err, length};
ghost use Rattle.registry_service.specs.HttpAnswers.{body_bytes};
ghost use Rattle.registry_guests.specs.Outputs as spec;
ghost use Rattle.registry_cli.specs.Prints.{newline};
ghost use Rattle.registry_guests.specs.Outputs.{on_usage, printed_of, prints};

use registry_names::{Fault, Refusal, Text};
use registry_rules::Reply;
use registry_service::Body;
use registry_wire::ShortText;
use std::marker::Model;

/// What a command prints: the exit status of its program, a text, and what ends it.
///
/// The text goes to standard output where the status is 0, and otherwise to standard error.
/// Contracts see an `Output`.
pub struct CommandOutput {
    status: u8,
    body: Body,
    is_line: bool,
}

// Written out, so that dropping it is one call, not one for each part.
impl Drop for CommandOutput {
    fn drop(self) {
        let CommandOutput {
            status: _,
            body: _,
            is_line: _,
        } = self;
    }
}

impl Model for CommandOutput {
    ghost use Rattle.registry_service.specs.HttpAnswers.{body_bytes};
    ghost use Rattle.registry_guests.specs.Outputs.{Output, end_of, output_with};

    ghost Value = { Output };

    ghost view = { λ s. output_with s.status (body_bytes s.body) (end_of s.is_line) };
}

impl CommandOutput {
    /// What is printed for an outcome. It takes no memory: the bytes of a reply are used as they are.
    pub fn of(outcome: Result<Reply, Fault>) -> CommandOutput
        ensures { prints result ≡ printed_of outcome }
    {
        match outcome {
            Ok(Reply::Created | Reply::Done) => short(0, "", "{\"ok\":true}"),
            Ok(Reply::Count(count)) => counted(count),
            Ok(Reply::Doc(text)) => line(0, Body::Doc(text)),
            Ok(Reply::Bytes(bytes)) => CommandOutput {
                status: 0,
                body: Body::Bytes(bytes),
                is_line: false,
            },
            Ok(Reply::Refused(refusal)) => refused(refusal),
            Err(fault) => faulted(fault),
        }
    }

    /// What is printed for arguments that the program doesn't take. It takes no memory.
    pub fn usage(text: Text) -> CommandOutput
        ensures { prints result ≡ on_usage text }
    {
        let is_line = !ends_line(text.as_str().as_bytes());
        CommandOutput {
            status: 2,
            body: Body::Text(text),
            is_line,
        }
    }

    /// The status with which the program is to end.
    pub fn status(&self) -> u8
        ensures { result ≡ self.now.status }
    {
        self.status
    }

    /// The text, in two pieces. Mostly the second is empty.
    pub fn texts(&self) -> (&[u8], &[u8])
        ensures { result.0.now ++ result.1.now ≡ self.now.text }
    {
        self.body.as_slices()
    }

    /// How many bytes the text has.
    pub fn text_len(&self) -> usize
        ensures { result ≡ length self.now.text }
    {
        self.body.len()
    }

    /// What ends it: a newline, or nothing.
    pub fn end(&self) -> &'static [u8]
        ensures end { result.now ≡ self.now.end }
        ensures short { length result.now ≤ 1 }
    {
        if self.is_line { b"\n" } else { b"" }
    }
}

// A text and a newline.
fn line(status: u8, body: Body) -> CommandOutput
    ensures { result ≡ spec.output_with status (body_bytes body) newline }
{
    CommandOutput {
        status,
        body,
        is_line: true,
    }
}

// Two short texts, one after the other, and a newline.
fn short(status: u8, front: &str, text: &str) -> CommandOutput
    requires { length front.now + length text.now ≤ 256 }
    ensures { result ≡ spec.output_with status (front.now ++ text.now) newline }
{
    let mut output = ShortText::new();
    output.push(front.as_bytes());
    output.push(text.as_bytes());
    line(status, Body::Short(output))
}

fn counted(count: u64) -> CommandOutput
    ensures { prints result ≡ printed_of (Ok (Reply.Count count)) }
{
    let mut output = ShortText::new();
    output.push(b"{\"count\":");
    output.push_number(count);
    output.push(b",\"ok\":true}");
    line(0, Body::Short(output))
}

fn refused(refusal: Refusal) -> CommandOutput
    ensures { prints result ≡ printed_of (Ok (Reply.Refused refusal)) }
{
    short(1, "refused: ", refusal.text())
}

fn faulted(fault: Fault) -> CommandOutput
    ensures { prints result ≡ printed_of (Err fault) }
{
    short(3, "fault: ", fault.text())
}

// Whether a text ends in a newline.
fn ends_line(text: &[u8]) -> bool
    ensures { result ≡ spec.ends_line text.now }
{
    text.ends_with(b"\n")
}
