//! Packuments from sources in memory, to writers that take everything, or fail somewhere.

ghost use Rattle.std.specs.Prelude.{Some, if◌then◌else◌};
ghost use Rattle.registry_names.specs.declared.stop.Fault.TheVariants.{Database};

use crate::outcome::{is_displayed, same};
use crate::packument::{TagCase, VersionCase, head, source};
use crate::parts::as_text;
use registry_names::{Fault, ToWrite};
use registry_packument::{
    PackFault, VersionRow, VersionRows, VersionSource, packument_len, write_packument,
};
use std::alloc::Global;
use std::io;
use std::io::{ErrorKind, Write};
use std::process::Abort;

/// A source that answers this many calls of another, and then with a fault.
#[derive(Drop)]
pub(super) struct Failing<S> {
    pub(super) source: S,
    pub(super) answers: u32,
    pub(super) failed: bool,
}

impl<S: VersionSource> VersionSource for Failing<S> {
    ghost rows = { λ failing. S.rows failing.source };

    ghost stopped = { λ failing.
        if failing.failed then Some Database else S.stopped failing.source };

    ghost is_known = { λ failing. S.is_known failing.source };

    ghost most = { λ failing. S.most failing.source };

    ghost ordered = { λ failing. S.ordered failing.source };

    ghost leaves_itself = { λ _. tt };

    ghost leaves_through = { λ _ _ _ _ _. tt };

    fn next(&mut self, alloc: Global) -> Result<Option<VersionRow>, Fault> {
        if self.failed {
            return Err(Fault::Database);
        }
        let row = self.source.next(alloc)?;
        if self.answers == 0 {
            self.failed = true;
            return Err(Fault::Database);
        }
        self.answers -= 1;
        Ok(row)
    }
}

/// A writer that takes this many bytes, and then fails.
#[derive(Drop)]
pub(super) struct Narrow {
    pub(super) taken: Vec<u8>,
    pub(super) room: usize,
}

impl Write for Narrow {
    fn write(&mut self, buf: &[u8]) -> io::Result<usize> {
        if self.room == 0 {
            return Err(io::Error::from(ErrorKind::TimedOut));
        }
        let taken = self.taken.write(buf.get(..self.room).unwrap_or(buf))?;
        self.room = self.room.saturating_sub(taken);
        Ok(taken)
    }

    fn flush(&mut self) -> io::Result<()> {
        Ok(())
    }
}

pub(super) const KIT_TAGS: &[TagCase] = &[("latest", "1.1.0")];

pub(super) const KIT_VERSIONS: &[VersionCase] = &[
    ("1.0.0", r#"{"a":1}"#, ""),
    ("1.1.0", r#"{"a":1,"z":2}"#, "old"),
    ("2.0.0-b", "{}", ""),
];

/// The packument of these tags and versions.
pub(super) const KIT: &str =
    r#"{"_id":"kit","dist-tags":{"latest":"1.1.0"},"name":"kit","time":{"1.0.0":"1970-01-01T00:01:40.000Z","1.1.0":"1970-01-01T00:01:40.000Z","2.0.0-b":"1970-01-01T00:01:40.000Z","created":"1970-01-01T00:01:40.000Z","modified":"1970-01-01T00:03:20.000Z"},"versions":{"1.0.0":{"a":1},"1.1.0":{"a":1,"deprecated":"old","z":2},"2.0.0-b":{}}}"#;

pub(super) const KIT_WITHOUT_VERSIONS: &str =
    r#"{"_id":"kit","dist-tags":{"latest":"1.1.0"},"name":"kit","time":{"created":"1970-01-01T00:01:40.000Z","modified":"1970-01-01T00:03:20.000Z"},"versions":{}}"#;

/// A source of these versions that answers this many calls.
pub(super) fn source_that_fails(
    rt: &impl Abort,
    alloc: Global,
    versions: &[VersionCase],
    answers: u32,
) -> Failing<VersionRows> {
    Failing {
        source: source(rt, alloc, versions),
        answers,
        failed: false,
    }
}

// Checks what is written of versions, from a source that answers this many calls, to a writer that takes
// this many bytes, and how that ends. A length is counted where the source has no fault, whatever the
// writer does. A source that failed fails again.
fn is_told(
    rt: &impl Abort,
    alloc: Global,
    versions: &[VersionCase],
    answers: u32,
    room: usize,
    text: &str,
    end: Result<(), PackFault>,
) {
    let head = head(rt, alloc, "kit", KIT_TAGS, versions);
    let counted = packument_len(
        alloc,
        &head,
        &mut source_that_fails(rt, alloc, versions, answers),
    );
    let wanted = match end {
        Err(PackFault::Source(fault)) => Err(fault),
        _ => Ok(text.len() as u64),
    };
    same(rt, (answers, room), counted, wanted);
    let mut source = source_that_fails(rt, alloc, versions, answers);
    let mut narrow = Narrow {
        taken: Vec::new(alloc),
        room,
    };
    let came_out = write_packument(alloc, &head, &mut source, &mut ToWrite::new(&mut narrow));
    same(rt, (answers, room), came_out, end);
    let front = text.get(..room).unwrap_or(text);
    same(rt, (answers, room), as_text(&narrow.taken), front);
    if source.answers == 0 {
        let again = source.next(alloc).err();
        same(rt, (answers, room), again, Some(Fault::Database));
    }
}

const SOURCE_FAILED: Result<(), PackFault> = Err(PackFault::Source(Fault::Database));

const NO_MANIFEST: &[VersionCase] = &[
    ("1.0.0", r#"{"a":1}"#, ""),
    ("1.1.0", "[1]", ""),
    ("2.0.0-b", "{}", ""),
];

// How many calls the source answers, and what isn't written then.
const REST: [(u32, &str); 4] = [
    (
        0,
        r#""1.0.0":{"a":1},"1.1.0":{"a":1,"deprecated":"old","z":2},"2.0.0-b":{}}}"#,
    ),
    (
        1,
        r#","1.1.0":{"a":1,"deprecated":"old","z":2},"2.0.0-b":{}}}"#,
    ),
    (2, r#","2.0.0-b":{}}}"#),
    (3, "}}"),
];

#[test]
fn written_and_counted_alike(rt: HostRuntime) {
    let (alloc, all) = (rt.alloc(), usize::MAX);
    is_told(&rt, alloc, KIT_VERSIONS, 9, all, KIT, Ok(()));
    is_told(&rt, alloc, &[], 9, all, KIT_WITHOUT_VERSIONS, Ok(()));
    for (answers, rest) in REST {
        let front = KIT.strip_suffix(rest).expect(&rt, rest);
        is_told(&rt, alloc, KIT_VERSIONS, answers, all, front, SOURCE_FAILED);
    }
    let (_, rest) = REST[1];
    let front = KIT.strip_suffix(rest).expect(&rt, rest);
    is_told(&rt, alloc, NO_MANIFEST, 9, all, front, SOURCE_FAILED);
    let cut = Err(PackFault::Write);
    for room in 0..KIT.len() {
        is_told(&rt, alloc, KIT_VERSIONS, 9, room, KIT, cut);
    }
}

#[test]
fn faults_of_packuments_are_printed(rt: HostRuntime) {
    let alloc = rt.alloc();
    is_displayed(&rt, alloc, &PackFault::Write, "Write");
    is_displayed(&rt, alloc, &PackFault::Source(Fault::Memory), "Memory");
    is_displayed(&rt, alloc, &PackFault::Source(Fault::Database), "Database");
}
