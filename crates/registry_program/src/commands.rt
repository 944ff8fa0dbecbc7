//! What the program does when it is given arguments.

ghost use Rattle.std.specs.Prelude.{◌≡◌, IfOk, false, unwrap_or};
ghost use Rattle.registry_cli.specs.Lines.{IsWhole, asks_to_serve};
ghost use Rattle.registry_program.specs.Commands.{AsksFor};

use crate::errands::run_errand;
use crate::moment::read_moment;
use crate::run::MOST_READ;
use crate::serving::serve;
use registry_cli::{Line, Usage, action_of, errand_of, line, print_reply};
use registry_files::{
    Answer, Begins, Ending, Failure, Question, Registries, answer_to, print_sent,
};
use registry_names::{ByteIn, ByteOut, Fault, FromRead, Moment, ReadStop, Text, read_whole};
use registry_rules::Request;
use std::alloc::Global;
use std::fs;
use std::io::ErrorKind;

/// One byte more than a token and its newline may have: enough to see that it is none.
const MOST_OF_TOKEN: usize = 130;

/// Answers what the arguments ask for, prints the answer, and gives the exit status: 0, or 1 if the
/// request is refused.
///
/// The clock is read first, unless the arguments give a moment; then the file of a publish, or the
/// token on the input; and then the texts in their order. The registry is asked last, or the server
/// that has its file. Arguments that ask to serve are answered once the last connection has ended.
/// Arguments that mean no line may name an errand.
pub fn answer_command<S: Begins, R: Registries, I: ByteIn, O: ByteOut, E: ByteOut>(
    rt: &HostRuntime,
    alloc: Global,
    registries: &mut R,
    arguments: &[Text],
    input: &mut I,
    output: &mut O,
    errors: &mut E,
) -> Result<u8, Ending> {
    match line(alloc, arguments) {
        Ok(line) => answer_line::<S, _, _, _, _>(
            rt, alloc, registries, &line, arguments, input, output, errors,
        ),
        Err(usage) => answer_errand::<S, _, _, _>(
            rt, alloc, registries, arguments, usage, output, errors,
        ),
    }
}

fn answer_line<S: Begins, R: Registries, I: ByteIn, O: ByteOut, E: ByteOut>(
    rt: &HostRuntime,
    alloc: Global,
    registries: &mut R,
    line: &Line,
    arguments: &[Text],
    input: &mut I,
    output: &mut O,
    errors: &mut E,
) -> Result<u8, Ending>
    requires whole { IsWhole line.now.what }
{
    if line.asks_to_serve() {
        return serve::<S, _, _>(rt, alloc, line, output, errors);
    }
    let given = given_to(rt, alloc, line, input)?;
    print_answer(
        rt, alloc, registries, line, arguments, &given, output, errors,
    )
}

// Arguments that mean no line, and the message for them where they name no errand.
fn answer_errand<S: Begins, R: Registries, O: ByteOut, E: ByteOut>(
    rt: &HostRuntime,
    alloc: Global,
    registries: &mut R,
    arguments: &[Text],
    usage: Usage,
    output: &mut O,
    errors: &mut E,
) -> Result<u8, Ending> {
    match errand_of(alloc, arguments) {
        Ok(Some(errand)) => run_errand::<S, _, _, _>(rt, alloc, registries, errand, output, errors),
        Ok(None) => Err(Ending::from(usage)),
        Err(usage) => Err(Ending::from(usage)),
    }
}

// Prints the answer to what a line asks for. Printing it takes no memory, so a fault of memory says
// that nothing was done.
fn print_answer<R: Registries, O: ByteOut, E: ByteOut>(
    rt: &HostRuntime,
    alloc: Global,
    registries: &mut R,
    line: &Line,
    arguments: &[Text],
    given: &Given,
    output: &mut O,
    errors: &mut E,
) -> Result<u8, Ending>
    requires whole { IsWhole line.now.what }
    requires asks { asks_to_serve line.now.what ≡ false }
{
    match ask_line(rt, alloc, registries, line, arguments, given) {
        Ok(answer) => print_given(alloc, answer, output, errors),
        Err(ending) => Err(ending),
    }
}

fn print_given<O: ByteOut, E: ByteOut>(
    alloc: Global,
    answer: Answer,
    output: &mut O,
    errors: &mut E,
) -> Result<u8, Ending> {
    match answer {
        Answer::Reply(reply) => Ok(print_reply(&reply, output, errors)?),
        Answer::Sent(bytes) => print_sent(alloc, &bytes, output, errors),
    }
}

/// What a line asks with, besides its words.
#[derive(Drop)]
pub struct Given {
    /// The moment that it gives, or else that of the clock.
    pub at: Moment,
    /// The bytes of the file that it names, or those of the input that it reads, or none.
    pub body: Vec<u8>,
}

/// What a line asks with. The clock is read first, and then the file or the input.
pub fn given_to<I: ByteIn>(
    rt: &HostRuntime,
    alloc: Global,
    line: &Line,
    input: &mut I,
) -> Result<Given, Ending>
    ensures { IfOk result (λ given. given.at ≡ unwrap_or line.now.at given.at) }
{
    let at = asked_at(rt, line)?;
    let body = body_of(rt, alloc, line, input)?;
    Ok(Given { at, body })
}

/// What a line asks with that reads neither a file nor the input.
pub fn given_alone(rt: &HostRuntime, alloc: Global, line: &Line) -> Result<Given, Ending>
    ensures { IfOk result (λ given. given.at ≡ unwrap_or line.now.at given.at) }
{
    let at = asked_at(rt, line)?;
    let body = Vec::new(alloc);
    Ok(Given { at, body })
}

/// Asks for what a line means, with what is given. A server is asked with the arguments.
pub fn ask_line<R: Registries>(
    rt: &HostRuntime,
    alloc: Global,
    registries: &mut R,
    line: &Line,
    arguments: &[Text],
    given: &Given,
) -> Result<Answer, Ending>
    requires whole { IsWhole line.now.what }
    requires asks { asks_to_serve line.now.what ≡ false }
{
    let request = request(alloc, line, given)?;
    let question = Question {
        path: line.db.as_str(),
        existing: line.existing,
        request: &request,
        arguments,
        body: &given.body,
    };
    answer_to(rt, alloc, registries, question)
}

// What a line asks for, with what is given, and when.
fn request(alloc: Global, line: &Line, given: &Given) -> Result<Request, Ending>
    requires whole { IsWhole line.now.what }
    requires asks { asks_to_serve line.now.what ≡ false }
    ensures { AsksFor line.now given.now.body.items given.now.at result }
{
    let (who, what) = action_of(alloc, line, &given.body)?;
    let at = given.at;
    Ok(Request { at, who, what })
}

// When a line asks: at the moment that it gives, or now.
fn asked_at(rt: &HostRuntime, line: &Line) -> Result<Moment, Ending>
    ensures { IfOk result (λ at. at ≡ unwrap_or line.now.at at) }
{
    match line.at {
        Some(at) => Ok(at),
        None => match read_moment(rt) {
            Some(now) => Ok(now),
            None => Err(Ending::Fault(Failure::Read)),
        },
    }
}

// The bytes of the file that a line names, or those of the input that it reads, or none.
fn body_of<I: ByteIn>(
    rt: &HostRuntime,
    alloc: Global,
    line: &Line,
    input: &mut I,
) -> Result<Vec<u8>, Ending> {
    match line.file() {
        Some(path) => file_bytes(rt, alloc, path),
        None if line.reads_input() => Ok(read_whole(alloc, input, MOST_OF_TOKEN)?),
        None => Ok(Vec::new(alloc)),
    }
}

// The bytes of a file, but at most one more than a body may have.
fn file_bytes(rt: &HostRuntime, alloc: Global, path: &str) -> Result<Vec<u8>, Ending> {
    let file = match fs::open(rt, path) {
        Ok(file) => file,
        Err(error) if error.kind() == ErrorKind::OutOfMemory => {
            return Err(Ending::from(Fault::Memory));
        }
        Err(_) => return Err(Ending::Fault(Failure::File)),
    };
    match read_whole(alloc, &mut FromRead::new(file), MOST_READ) {
        Ok(bytes) => Ok(bytes),
        Err(ReadStop::Read) => Err(Ending::Fault(Failure::File)),
        Err(ReadStop::Memory) => Err(Ending::from(Fault::Memory)),
    }
}
