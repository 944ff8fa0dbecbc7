//! Packuments that are sent as they are made: to writers that fail somewhere, refused, and broken
//! off before their first byte.

ghost use Rattle.std.specs.Prelude.{◌==◌, codes, if◌then◌else◌};

use crate::outcome::same;
use crate::tests::asking::{does, request};
use crate::tests::at_path::number_in;
use crate::tests::in_files::{asked, opened, released};
use crate::tests::lists::TWO_KITS;
use registry_desk::Registry;
use registry_names::{Fault, Refusal, Text, ToWrite};
use registry_packument::{Opener, Sent};
use registry_rules::{Action, Reply};
use registry_tests_requests::{Outcome, outcome_of};
use sqlite::{Alter, Files};
use sqlite_disk::{Disk, Memory};
use std::alloc::Global;
use std::io;
use std::io::{ErrorKind, Write};
use std::process::Abort;

/// The query of `bob`, and of a user who may not read the package.
const BOBS: &str = "--at 200 --as bob packument @lab/kit";

const EVES: &str = "--at 200 --as eve packument @lab/kit";

/// The packument of `@lab/kit` with two versions, which [`TWO_KITS`] publishes.
pub(crate) const TWO_VERSIONS: &str =
    r#"{"_id":"@lab/kit","dist-tags":{"latest":"1.1.0"},"name":"@lab/kit","time":{"1.0.0":"1970-01-01T00:01:40.000Z","1.1.0":"1970-01-01T00:01:41.000Z","created":"1970-01-01T00:01:40.000Z","modified":"1970-01-01T00:01:41.000Z"},"versions":{"1.0.0":{"dependencies":{},"name":"@lab/kit","version":"1.0.0"},"1.1.0":{"dependencies":{},"name":"@lab/kit","version":"1.1.0"}}}"#;

/// Something else removes the manifest of the second version.
const SPOIL: &str = "UPDATE versions SET manifest = '[1]' WHERE version = '1.1.0'";

/// What is written before a packument that is as long as was expected.
const LONG_ENOUGH: &str = "as long as its answer\n";

/// What is written before any other packument.
const OF_ANOTHER_LENGTH: &str = "of another length\n";

/// Writes before a packument whether it is as long as was expected.
#[derive(Drop)]
struct Expected {
    len: u64,
}

impl Opener for Expected {
    ghost opens = { λ expected len. if len == expected.len
        then codes "as long as its answer\n" else codes "of another length\n" };

    fn opening(&self, alloc: Global, len: u64) -> Result<Text, Fault> {
        let text = if len == self.len {
            LONG_ENOUGH
        } else {
            OF_ANOTHER_LENGTH
        };
        Ok(Text::from_str(alloc, text)?)
    }
}

/// A writer that takes this many bytes, and then fails.
#[derive(Drop)]
pub(crate) struct Narrow {
    pub(crate) taken: Vec<u8>,
    pub(crate) room: usize,
}

impl Write for Narrow {
    fn write(&mut self, buf: &[u8]) -> io::Result<usize> {
        if self.room == 0 {
            return Err(io::Error::from(ErrorKind::TimedOut));
        }
        let taken = self.taken.write(buf.get(..self.room).unwrap_or(buf))?;
        self.room = self.room.saturating_sub(taken);
        Ok(taken)
    }

    fn flush(&mut self) -> io::Result<()> {
        Ok(())
    }
}

#[test]
fn packuments_are_sent_as_they_are_answered(rt: HostRuntime) {
    let registry = Registry::in_memory(rt.alloc()).expect(&rt, "a registry");
    are_sent(&rt, rt.alloc(), registry);
}

// A packument is sent as it is made, and again after it was answered, when its text is kept.
fn are_sent<S: Alter + Drop>(ends: &impl Abort, alloc: Global, registry: Registry<S>) {
    let mut registry = registry;
    does(ends, alloc, &mut registry, TWO_KITS);
    is_sent_to_any_writer(ends, alloc, "made", &mut registry);
    is_answered(ends, alloc, &mut registry);
    is_sent_to_any_writer(ends, alloc, "kept", &mut registry);
    is_not_sent_to_strangers(ends, alloc, &mut registry);
}

#[test]
fn who_may_not_read_a_package_is_sent_nothing(rt: HostRuntime) {
    let registry = Registry::in_memory(rt.alloc()).expect(&rt, "a registry");
    stays_hidden(&rt, rt.alloc(), registry);
}

fn stays_hidden<S: Alter + Drop>(ends: &impl Abort, alloc: Global, registry: Registry<S>) {
    let mut registry = registry;
    does(ends, alloc, &mut registry, TWO_KITS);
    is_not_sent_to_strangers(ends, alloc, &mut registry);
}

#[test]
fn a_packument_without_a_manifest_is_broken_off(rt: HostRuntime) {
    let log = Memory::new(rt.alloc());
    let db = Memory::new(rt.alloc());
    is_broken_off(&rt, rt.alloc(), Files { log, db });
}

// Where something else removed the manifest of a version, nothing is written.
fn is_broken_off<D: Disk + Drop>(ends: &impl Abort, alloc: Global, files: Files<D>) {
    let (registry, _tags) = asked(ends, alloc, files, TWO_KITS);
    let (_one, files) = number_in(ends, released(registry), SPOIL, "SELECT 1");
    sends_none(ends, alloc, opened(ends, alloc, files));
}

fn sends_none<S: Alter + Drop>(ends: &impl Abort, alloc: Global, registry: Registry<S>) {
    let mut registry = registry;
    let (sent, taken) = sent_to(ends, alloc, &mut registry, BOBS, usize::MAX);
    let broken = Sent::Broken {
        fault: Fault::Database,
        has_started: false,
    };
    same(ends, "without a manifest", sent, broken);
    same(ends, "without a manifest", taken.len(), 0);
}

// The packument is answered, and is kept from then on.
fn is_answered<S: Alter>(ends: &impl Abort, alloc: Global, registry: &mut Registry<S>) {
    let query = request(ends, alloc, BOBS);
    is_packument(ends, &outcome_of(alloc, registry, &query));
}

/// Checks that this is the packument of two versions.
pub(crate) fn is_packument(ends: &impl Abort, outcome: &Outcome) {
    match outcome {
        Ok(Reply::Doc(text)) => same(ends, "the answer", text.as_str(), TWO_VERSIONS),
        _ => panic!(ends; "the answer comes out as {outcome:?}"),
    }
}

// How a packument is sent, and what a writer that fails after this many bytes takes of it. The
// opening says whether the packument is as long as that of two versions.
fn sent_to<S: Alter>(
    ends: &impl Abort,
    alloc: Global,
    registry: &mut Registry<S>,
    query: &str,
    room: usize,
) -> (Sent, Vec<u8>) {
    let mut narrow = Narrow {
        taken: Vec::new(alloc),
        room,
    };
    let query = request(ends, alloc, query);
    let Action::Packument { package: _ } = &query.what else {
        panic!(ends; "another query");
    };
    let expected = Expected {
        len: TWO_VERSIONS.len() as u64,
    };
    let sent = registry.send_packument(alloc, &query, &mut ToWrite::new(&mut narrow), &expected);
    (sent, narrow.taken)
}

// A writer that fails after some bytes has taken these bytes, and nothing else; a writer that
// doesn't fail has taken all bytes.
fn is_sent_to_any_writer<S: Alter>(
    ends: &impl Abort,
    alloc: Global,
    shows: &str,
    registry: &mut Registry<S>,
) {
    let whole = format!(in alloc; "{LONG_ENOUGH}{TWO_VERSIONS}").expect(ends, "memory");
    for room in 0..whole.len() {
        let (sent, taken) = sent_to(ends, alloc, registry, BOBS, room);
        same(ends, (shows, room), sent, Sent::WriteFault);
        let front = whole.as_bytes().get(..room).unwrap_or(&[]);
        same(ends, (shows, room), taken.as_slice() == front, true);
    }
    let (sent, taken) = sent_to(ends, alloc, registry, BOBS, whole.len());
    same(ends, (shows, "whole"), sent, Sent::Whole);
    let is_whole = taken.as_slice() == whole.as_bytes();
    same(ends, (shows, "whole"), is_whole, true);
}

// Nothing is written for a user who may not read the package.
fn is_not_sent_to_strangers<S: Alter>(
    ends: &impl Abort,
    alloc: Global,
    registry: &mut Registry<S>,
) {
    let (sent, taken) = sent_to(ends, alloc, registry, EVES, usize::MAX);
    let refused = Sent::Refused(Refusal::NotFound);
    same(ends, "to a stranger", sent, refused);
    same(ends, "to a stranger", taken.len(), 0);
}
