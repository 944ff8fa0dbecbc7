//! What the program does, over any byte streams.

use crate::commands::answer_command;
use crate::in_files::InFiles;
use crate::publication::packument_of;
use registry_files::{Begins, Ending, Registries, report};
use registry_names::{BODY_LIMIT, ByteIn, ByteOut, Text, read_whole, write_whole};
use std::alloc::Global;
use std::io::IsTerminal;

/// One byte more than a body may have: enough to see that it is too large.
pub(crate) const MOST_READ: usize = BODY_LIMIT + 1;

/// What a person at a terminal is told who gives no arguments.
const WAITS: &str =
    "registry: a publish body is awaited on standard input. `registry --help` lists the commands.\n";

/// Runs the program on the arguments after its name, and returns its exit status. Files are opened from
/// such a start, which says for proofs alone what they held.
///
/// Without arguments it reads a publish body from the input. The user `first` publishes it at
/// moment 0 to an empty registry in memory, where they own the organisation of the package's scope,
/// if it has one. The packument as they see it goes to the output, with a newline. With arguments
/// the program answers what they ask for (`docs/CLI.md`); `token-rm -` reads the input, too.
///
/// The status is 0 where this is done. Otherwise nothing goes to the output, and the errors say
/// why:
///
/// - 1: `refused: ` and the refusal, or a line for each thing that a check finds to be wrong;
/// - 2: what is wrong with the arguments, or the help that they ask for;
/// - 3: `fault: ` and what failed, with a second line that gives the reason where the registry's
///   file can't be opened, its disk fails while it is served, its server gives no answer, nothing
///   listens at a socket, a copy of it can't be made, or it can't be made from one.
pub fn program<S: Begins, I: ByteIn, O: ByteOut, E: ByteOut>(
    rt: &HostRuntime,
    alloc: Global,
    arguments: &[Text],
    input: &mut I,
    output: &mut O,
    errors: &mut E,
) -> u8 {
    let mut registries = InFiles::<S>::new();
    program_over::<S, _, _, _, _>(rt, alloc, &mut registries, arguments, input, output, errors)
}

/// Runs the program, as [`program`] does, with these registries in place of those in files. What is
/// served over HTTP is still in a file.
pub fn program_over<S: Begins, R: Registries, I: ByteIn, O: ByteOut, E: ByteOut>(
    rt: &HostRuntime,
    alloc: Global,
    registries: &mut R,
    arguments: &[Text],
    input: &mut I,
    output: &mut O,
    errors: &mut E,
) -> u8 {
    let done = if arguments.is_empty() {
        tell_what_is_awaited(rt, errors);
        print_packument(alloc, input, output)
    } else {
        answer_command::<S, _, _, _, _>(rt, alloc, registries, arguments, input, output, errors)
    };
    match done {
        Ok(status) => status,
        Err(ending) => report(errors, &ending),
    }
}

// Tells a person at a terminal what the program waits for.
fn tell_what_is_awaited<E: ByteOut>(rt: &HostRuntime, errors: &mut E) {
    if rt.stdin().is_terminal() && rt.stderr().is_terminal() {
        let _ = write_whole(errors, WAITS.as_bytes());
    }
}

fn print_packument<I: ByteIn, O: ByteOut>(
    alloc: Global,
    input: &mut I,
    output: &mut O,
) -> Result<u8, Ending> {
    let body = read_whole(alloc, input, MOST_READ)?;
    let packument = packument_of(alloc, &body)?;
    let mut text = String::from_str(alloc, packument.as_str())?;
    text.push('\n')?;
    write_whole(output, text.as_bytes())?;
    Ok(0)
}
