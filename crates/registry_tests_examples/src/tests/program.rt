//! The program over streams that fail. Its modules have a check that finds something, copies and what
//! is made of them, a file that is made once, tokens that are made, clients over loopback, and the moments of requests.

mod checks;
mod copies;
mod inits;
mod moments;
mod restores;
mod serving;
mod tokens;

use crate::outcome::same;
use registry_files::{Ending, Failure, report};
use registry_names::{FromRead, Text, ToWrite};
use registry_program::program;
use sqlite::Unknown;
use std::alloc::Global;
use std::io::{ErrorKind, Read, Write};
use std::process::Abort;
use std::{fs, io, str};

const BODY: &str =
    r#"{"name":"kit","versions":{"1.0.0":{"name":"kit","version":"1.0.0"}},"_attachments":{"kit-1.0.0.tgz":{"data":"YWJj"}}}"#;

const FAILED: &str = "fault: Database\nthe disk failed while the registry was served\n";

/// What a call of the program leaves: its status, what it prints, and the errors.
pub(crate) type Left<'a> = (u8, &'a str, &'a str);

/// What a command leaves that is done.
pub(crate) const DONE: Left<'static> = (0, "{\"ok\":true}\n", "");

/// Which stream fails.
#[derive(Clone, Copy, Debug)]
enum Failing {
    None,
    /// The input, where its text ends.
    Input,
    /// The output, which takes nothing.
    Output,
}

/// The words with which the program is called, the stream that fails, and what is left: an input
/// that breaks is a fault, as is an output that takes nothing, also that of an answer of the
/// registry; and a refusal needs no output.
static FAILURES: [(&str, Failing, Left<'static>); 4] = [
    ("", Failing::Input, (3, "", "fault: Read\n")),
    ("", Failing::Output, (3, "", "fault: Write\n")),
    (
        "--db files_of_ends/registry.db --operator user-add cid",
        Failing::Output,
        (3, "", "fault: Write\n"),
    ),
    (
        "--db files_of_ends/registry.db tags kit",
        Failing::Output,
        (1, "", "refused: NotFound\n"),
    ),
];

#[test]
fn ends_that_fail_are_faults(rt: HostRuntime) {
    begin(&rt, &rt, "files_of_ends");
    for (line, failing, left) in &FAILURES {
        let called = call(&rt, &rt, line, *failing);
        same(&rt, (*line, *failing), called.left(), *left);
    }
    end(&rt, "files_of_ends");
}

#[test]
fn a_disk_that_failed_under_a_server_is_reported(rt: HostRuntime) {
    let mut errors = Vec::new(rt.alloc());
    let ending = Ending::Fault(Failure::Shut);
    let status = report(&mut ToWrite::new(&mut errors), &ending);
    same(&rt, "shut", (status, text_of(&errors)), (3, FAILED));
}

/// Makes a new folder for the files of a test.
pub(crate) fn begin(rt: &HostRuntime, ends: &impl Abort, folder: &str) {
    end(rt, folder);
    fs::create_dir(rt, folder).expect(ends, "a folder");
}

/// Removes that folder, if it is there.
pub(crate) fn end(rt: &HostRuntime, folder: &str) {
    let _ = fs::remove_dir_all(rt, folder);
}

/// Checks what the program leaves that is called with the words of a line.
pub(crate) fn leaves(rt: &HostRuntime, ends: &impl Abort, line: &str, left: Left<'_>) {
    let called = call(rt, ends, line, Failing::None);
    same(ends, line, called.left(), left);
}

/// A call of the program.
#[derive(Drop)]
struct Called {
    status: u8,
    output: Output,
    errors: Vec<u8>,
}

impl Called {
    fn left(&self) -> Left<'_> {
        (
            self.status,
            text_of(&self.output.taken),
            text_of(&self.errors),
        )
    }
}

// Calls the program with the words of a line. Its input is a body.
fn call(rt: &HostRuntime, ends: &impl Abort, line: &str, failing: Failing) -> Called {
    let input = Input {
        left: BODY.as_bytes(),
        is_read: false,
        breaks: matches!(failing, Failing::Input),
    };
    let mut output = Output {
        taken: Vec::new(rt.alloc()),
        is_full: matches!(failing, Failing::Output),
    };
    let mut errors = Vec::new(rt.alloc());
    let status = program::<Unknown, _, _, _>(
        rt,
        rt.alloc(),
        &words(ends, rt.alloc(), line),
        &mut FromRead::new(input),
        &mut ToWrite::new(&mut output),
        &mut ToWrite::new(&mut errors),
    );
    Called {
        status,
        output,
        errors,
    }
}

// The words of a line.
fn words(ends: &impl Abort, alloc: Global, line: &str) -> Vec<Text> {
    let mut words = Vec::new(alloc);
    for word in line.split(' ') {
        if !word.is_empty() {
            let word = Text::from_str(alloc, word).expect(ends, "memory");
            words.push(word).expect(ends, "memory");
        }
    }
    words
}

// The text of what is printed.
fn text_of(bytes: &[u8]) -> &str {
    str::from_utf8(bytes).unwrap_or("no UTF-8")
}

/// A reader of a text. Its first read is interrupted, and it may break where the text ends.
#[derive(Drop)]
struct Input {
    left: &'static [u8],
    is_read: bool,
    breaks: bool,
}

impl Read for Input {
    fn read(&mut self, buf: &mut [u8]) -> io::Result<usize> {
        if !self.is_read {
            self.is_read = true;
            return Err(io::Error::from(ErrorKind::Interrupted));
        }
        if self.breaks && self.left.is_empty() {
            return Err(io::Error::from(ErrorKind::TimedOut));
        }
        self.left.read(buf)
    }
}

/// A writer that takes all bytes, or none.
#[derive(Drop)]
struct Output {
    taken: Vec<u8>,
    is_full: bool,
}

impl Write for Output {
    fn write(&mut self, buf: &[u8]) -> io::Result<usize> {
        if self.is_full {
            Ok(0)
        } else {
            self.taken.write(buf)
        }
    }

    fn flush(&mut self) -> io::Result<()> {
        Ok(())
    }
}
