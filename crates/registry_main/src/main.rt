//! The registry as a program, which answers what its arguments ask for of the registry in a file,
//! or serves that registry over HTTP. Without arguments it publishes the body on standard input to
//! an empty registry in memory, and prints the packument of the package on standard output.
#![tactic(auto)]

use registry_files::{Ending, report};
use registry_names::{Fault, FromRead, Text, ToWrite};
use registry_program::program;
use sqlite::Unknown;
use std::alloc::AllocError;
use std::env;
use std::io::ErrorKind;
use std::process::ExitCode;
use std::rt::Env;

/// The message for arguments that aren't texts, in the words of `clap`.
const NO_TEXTS: &str = "error: invalid UTF-8 was detected in one or more arguments";

fn main(rt: HostRuntime) -> ExitCode {
    let mut input = FromRead::new(rt.stdin());
    let mut output = ToWrite::new(rt.stdout());
    let mut errors = ToWrite::new(rt.stderr());
    let status = match given(&rt) {
        Ok(arguments) => program::<Unknown, _, _, _>(
            &rt,
            rt.alloc(),
            &arguments,
            &mut input,
            &mut output,
            &mut errors,
        ),
        Err(ending) => report(&mut errors, &ending),
    };
    ExitCode::from(status)
}

// The arguments after the program's name.
fn given<R: Env + AllocGlobal>(rt: &R) -> Result<Vec<Text>, Ending> {
    let given = match env::args(rt) {
        Ok(given) => given,
        Err(error) if error.kind() == ErrorKind::OutOfMemory => return Err(Ending::from(
            Fault::Memory,
        )),
        Err(_) => return Err(Ending::Wrong(NO_TEXTS)),
    };
    let mut arguments = Vec::new(rt.alloc());
    for argument in given.skip(1) {
        arguments
            .push(Text::from(argument))
            .map_err(AllocError::from)?;
    }
    Ok(arguments)
}
