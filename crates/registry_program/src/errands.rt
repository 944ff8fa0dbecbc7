//! What the program does for the people who run the registry, besides requests.

use crate::commands::{ask_line, given_alone};
use crate::serving::serve_beside;
use registry_cli::{Errand, NewToken, TOKEN_BYTES, print_token, token_of};
use registry_files::{
    Answer, Begins, DONE, Ending, Failure, Registries, back_up, make_new, print_check, print_done,
    print_sent_token, print_wrong, restore, stop,
};
use registry_names::{ByteOut, Text};
use std::alloc::Global;
use std::random::RandomSource;

/// What is printed for a copy or a file that was made, and in which nothing is wrong.
const CHECKED: &str = "{\"ok\":true,\"checked\":true}\n";

/// Runs an errand, prints its result, and gives the exit status. All but a token always concern the
/// file at the path, whatever `registries` are. Where a server has the
/// file, the server is asked to add a token, and held while its files are copied.
pub fn run_errand<S: Begins, R: Registries, O: ByteOut, E: ByteOut>(
    rt: &HostRuntime,
    alloc: Global,
    registries: &mut R,
    errand: Errand,
    output: &mut O,
    errors: &mut E,
) -> Result<u8, Ending> {
    match errand {
        Errand::Init { db } => {
            make_new::<S>(rt, alloc, db.as_str())?;
            print_done(DONE, output)
        }
        Errand::TokenNew(new) => make_token(rt, alloc, registries, new, output, errors),
        Errand::Check { db } => print_check::<S, _, _>(rt, alloc, db.as_str(), output, errors),
        Errand::Backup { db, copy, checks } => {
            let wrong = back_up::<S>(rt, alloc, db.as_str(), copy.as_str(), checks)?;
            print_wrong(&wrong, done_of(checks), output, errors)
        }
        Errand::Restore { db, copy, checks } => {
            let wrong = restore::<S>(rt, alloc, db.as_str(), copy.as_str(), checks)?;
            print_wrong(&wrong, done_of(checks), output, errors)
        }
        Errand::Stop { db } => {
            stop::<S>(rt, alloc, db.as_str())?;
            print_done(DONE, output)
        }
        Errand::Serve(serving) => serve_beside::<S, _, _>(rt, alloc, &serving, output, errors),
    }
}

// What is printed for a copy or a file that was made: whether it was checked, too.
fn done_of(checks: bool) -> &'static str {
    if checks { CHECKED } else { DONE }
}

// Makes a token, adds it, and prints it where it was added. The registry keeps only its digest, so
// nobody can print it again. Printing it takes no memory.
fn make_token<R: Registries, O: ByteOut, E: ByteOut>(
    rt: &HostRuntime,
    alloc: Global,
    registries: &mut R,
    new: NewToken,
    output: &mut O,
    errors: &mut E,
) -> Result<u8, Ending> {
    let token = random_token(rt, alloc)?;
    let token = token.as_str();
    match add_token(rt, alloc, registries, new, token)? {
        Answer::Reply(reply) => Ok(print_token(token, &reply, output, errors)?),
        Answer::Sent(bytes) => print_sent_token(alloc, &bytes, token, output, errors),
    }
}

// A token of the system's random bytes.
fn random_token(rt: &HostRuntime, alloc: Global) -> Result<Text, Ending> {
    let mut random = [0u8; TOKEN_BYTES];
    match rt.fill_bytes(&mut random) {
        Ok(()) => Ok(token_of(alloc, random)?),
        Err(_) => Err(Ending::Fault(Failure::Read)),
    }
}

// The answer to the line that adds a token.
fn add_token<R: Registries>(
    rt: &HostRuntime,
    alloc: Global,
    registries: &mut R,
    new: NewToken,
    token: &str,
) -> Result<Answer, Ending> {
    let arguments = new.arguments(alloc, token)?;
    let line = new.line(alloc, Text::from_str(alloc, token)?)?;
    let given = given_alone(rt, alloc, &line)?;
    ask_line(rt, alloc, registries, &line, &arguments, &given)
}
