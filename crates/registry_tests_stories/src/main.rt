//! Runs the stories in the files that its arguments name, and prints how many each file has.
//!
//! A story is what is asked of a registry and everything that it answers, by command lines and over
//! HTTP. `CONTRIBUTING.md` describes the format, and `data/example.txt` shows each part of it. A
//! story that comes out differently is reported on standard error, and the status is then 1; it is
//! 3 where memory runs out.
#![tactic(auto)]

mod arguments;
mod clock;
mod command;
mod database;
mod escapes;
mod exchange;
mod failure;
mod file;
mod piece;
mod registry;
mod scene;
mod story;

use failure::Stop;
use file::run_file;
use std::env;
use std::process::ExitCode;

fn main(rt: HostRuntime) -> ExitCode {
    match run_files(&rt) {
        Ok(true) => ExitCode::from(0),
        Ok(false) => ExitCode::from(1),
        Err(Stop::Failed(said)) => {
            let _ = eprintln!(rt; "{said}");
            ExitCode::from(1)
        }
        Err(Stop::Memory) => ExitCode::from(3),
    }
}

// Runs the files that the arguments name. Returns whether each story came out as it should.
fn run_files(rt: &HostRuntime) -> Result<bool, Stop> {
    let Ok(arguments) = env::args(rt) else {
        return Err(Stop::Memory);
    };
    let mut is_good = true;
    for path in arguments.skip(1) {
        is_good = run_file(rt, rt.alloc(), path.as_str())? && is_good;
    }
    Ok(is_good)
}
