//! A guest's turn: what the service is asked, and what its program prints.

ghost use Rattle.std.specs.Prelude.{◌≡◌, All, IsUtf8, IfOk, IfErr, IfSome, IfNone, false, unwrap_or};
ghost use Rattle.registry_cli.specs.Lines.{IsWhole, asks_to_serve, line_of as line_spec};
ghost use Rattle.registry_guests.specs.GuestTurns as spec;
ghost use Rattle.registry_guests.specs.GuestTurns.{AsksOnce, IsCommand, IsGuestTurn, IsUnasked};
ghost use Rattle.registry_guests.specs.Outputs.{prints};
ghost use Rattle.registry_guests.specs.Spelling.{view, words as words_in};

use crate::command_output::CommandOutput;
use crate::noting::{caller_of, noted, seen_words};
use crate::reading::CommandMessage;
use registry_cli::{Line, Usage, action_of, line};
use registry_names::{Fault, Moment, Stop, Text};
use registry_rules::{Reply, Request};
use registry_service::Service;
use std::alloc::{AllocError, Global};

/// What is printed for words that aren't texts.
const NO_TEXTS: &str = "error: invalid UTF-8 was detected in one or more arguments";

/// What is printed where a server is asked to serve.
const SERVING: &str = "error: a server can't be asked to serve";

/// Takes the turn of a message at this moment, which is that of the request where its words name no
/// other: at most one request is asked of the service. The output is what the program prints for
/// the same words and the same file where it has the registry itself. The service is told of it.
pub fn turn<D: Service>(
    alloc: Global,
    service: &mut D,
    message: &CommandMessage<'_>,
    now: Moment,
) -> CommandOutput
    ensures { IsGuestTurn D.answers service.old (view message.now).0 (view message.now).1 now
        (prints result) service.new }
{
    match line_of(alloc, &message.arguments) {
        Ok(line) => ask(alloc, service, &line, message.body, now),
        Err(output) => noted(service, "", &[], output),
    }
}

// Asks what a line asks for, and tells the service what is answered.
fn ask<D: Service>(
    alloc: Global,
    service: &mut D,
    line: &Line,
    body: &[u8],
    now: Moment,
) -> CommandOutput
    requires whole { IsWhole line.now.what }
    requires asks { asks_to_serve line.now.what ≡ false }
    ensures { AsksOnce D.answers service.old line.now body.now now (prints result) service.new }
{
    let output = answered(alloc, service, line, body, now);
    noted(service, caller_of(line), seen_words(line), output)
}

// The output for what a line asks for.
fn answered<D: Service>(
    alloc: Global,
    service: &mut D,
    line: &Line,
    body: &[u8],
    now: Moment,
) -> CommandOutput
    requires whole { IsWhole line.now.what }
    requires asks { asks_to_serve line.now.what ≡ false }
    ensures { AsksOnce D.answers service.old line.now body.now now (prints result) service.new }
{
    match action_of(alloc, line, body) {
        Ok((who, what)) => {
            let at = moment_of(line, now);
            CommandOutput::of(service.answer(alloc, &Request { at, who, what }))
        }
        Err(Stop::Refused(refusal)) => CommandOutput::of(Ok(Reply::Refused(refusal))),
        Err(Stop::Fault(fault)) => CommandOutput::of(Err(fault)),
    }
}

// The moment that a line names, or now.
fn moment_of(line: &Line, now: Moment) -> Moment
    ensures { result ≡ unwrap_or line.now.at now }
{
    match line.at {
        Some(at) => at,
        None => now,
    }
}

// The line that words mean, which asks for an action, or what is printed for them.
fn line_of(alloc: Global, words: &[Vec<u8>]) -> Result<Line, CommandOutput>
    ensures ok { IfOk result (λ l. IsCommand (words_in words.now) × (l ≡ line_spec (words_in words.now))) }
    ensures err { IfErr result (λ output. IsUnasked (words_in words.now) (prints output)) }
{
    match texts(alloc, words) {
        Ok(Some(texts)) => line_in(alloc, &texts),
        Ok(None) => Err(usage(alloc, NO_TEXTS)),
        Err(_) => Err(starved()),
    }
}

// The same for words that are texts.
fn line_in(alloc: Global, words: &[Text]) -> Result<Line, CommandOutput>
    requires { All IsUtf8 words.now }
    ensures ok { IfOk result (λ l. IsCommand words.now × (l ≡ line_spec words.now)) }
    ensures err { IfErr result (λ output. IsUnasked words.now (prints output)) }
{
    match line(alloc, words) {
        Ok(line) if line.asks_to_serve() => Err(usage(alloc, SERVING)),
        Ok(line) => Ok(line),
        Err(Usage::Words(text)) => Err(CommandOutput::usage(text)),
        Err(Usage::Memory) => Err(starved()),
    }
}

// What is printed for a usage, or that no memory is left.
fn usage(alloc: Global, text: &str) -> CommandOutput
    ensures { spec.SaysOrStarves text.now (prints result) }
{
    match Text::from_str(alloc, text) {
        Ok(text) => CommandOutput::usage(text),
        Err(_) => starved(),
    }
}

// What is printed where no memory is left.
fn starved() -> CommandOutput
    ensures { prints result ≡ spec.on_memory }
{
    CommandOutput::of(Err(Fault::Memory))
}

// The texts that words are. `None` where one of them isn't a text.
fn texts(alloc: Global, words: &[Vec<u8>]) -> Result<Option<Vec<Text>>, AllocError>
    ensures some { IfOk result (λ found. IfSome found (λ texts. (texts.items ≡ words_in words.now)
        × All IsUtf8 (words_in words.now))) }
    ensures none { IfOk result (λ found. IfNone found (All IsUtf8 (words_in words.now) → ⊥)) }
{
    let mut texts = Vec::new(alloc);
    for word in words {
        let Ok(word) = std::str::from_utf8(word) else {
            return Ok(None);
        };
        texts.push(Text::from_str(alloc, word)?)?;
    }
    Ok(Some(texts))
}
