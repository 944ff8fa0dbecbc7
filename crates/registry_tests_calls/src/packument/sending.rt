//! Packuments that are sent: a text that is there, and versions from a source in memory.

ghost use Rattle.std.specs.Prelude.{◌==◌, codes, if◌then◌else◌};

use crate::outcome::same;
use crate::packument::head;
use crate::packument::stream::{KIT, KIT_TAGS, KIT_VERSIONS, Narrow, source_that_fails};
use crate::parts::{as_text, concat};
use registry_names::{Fault, Text, ToWrite};
use registry_packument::{Opener, Sent, send_counted, send_text};
use std::alloc::Global;
use std::process::Abort;

/// More calls than a source of three versions is asked.
const ALL: u32 = 9;

/// What is written before a packument of as many bytes as the case has.
const COUNTED: &str = "as long as it was counted\n";

/// What is written before any other packument.
const OTHER: &str = "of another length\n";

/// Writes before a packument whether it has as many bytes as the case.
#[derive(Drop)]
pub(super) struct Counted {
    pub(super) len: u64,
}

impl Opener for Counted {
    ghost opens = { λ counted len. if len == counted.len
        then codes "as long as it was counted\n" else codes "of another length\n" };

    fn opening(&self, alloc: Global, len: u64) -> Result<Text, Fault> {
        let text = if len == self.len { COUNTED } else { OTHER };
        Ok(Text::from_str(alloc, text)?)
    }
}

pub(super) fn narrow(alloc: Global, room: usize) -> Narrow {
    Narrow {
        taken: Vec::new(alloc),
        room,
    }
}

// How a packument is sent that was counted to have this many bytes: from a source that answers this
// many calls, to a writer that takes what it has room for.
fn sent_to(rt: &impl Abort, alloc: Global, answers: u32, len: u64, writer: &mut Narrow) -> Sent {
    let head = head(rt, alloc, "kit", KIT_TAGS, KIT_VERSIONS);
    let mut source = source_that_fails(rt, alloc, KIT_VERSIONS, answers);
    let opener = Counted { len };
    let mut writer = ToWrite::new(writer);
    send_counted(alloc, &head, &mut source, len, &mut writer, &opener)
}

// Checks how a packument is sent to a writer with this room, from a source and from its text.
fn both_sent(rt: &impl Abort, alloc: Global, room: usize, sent: Sent, written: &str) {
    let len = KIT.len() as u64;
    let mut counted = narrow(alloc, room);
    let from_source = sent_to(rt, alloc, ALL, len, &mut counted);
    same(rt, room, &from_source, &sent);
    same(rt, room, as_text(&counted.taken), written);
    let mut there = narrow(alloc, room);
    let from_text = send_text(alloc, KIT, &mut ToWrite::new(&mut there), &Counted { len });
    same(rt, room, &from_text, &sent);
    same(rt, room, as_text(&there.taken), written);
}

#[test]
fn packuments_are_sent_to_any_writer(rt: HostRuntime) {
    let alloc = rt.alloc();
    let whole = concat(&rt, alloc, &[COUNTED, KIT]);
    for room in 0..whole.len() {
        let front = whole.as_str().get(..room).unwrap_or("?");
        both_sent(&rt, alloc, room, Sent::WriteFault, front);
    }
    both_sent(&rt, alloc, whole.len(), Sent::Whole, whole.as_str());
}

// Checks that a proper prefix of the packument is sent, and then a fault is returned.
fn is_broken_off(rt: &impl Abort, alloc: Global, answers: u32, len: u64) {
    let mut narrow = narrow(alloc, usize::MAX);
    let sent = sent_to(rt, alloc, answers, len, &mut narrow);
    let broken = Sent::Broken {
        fault: Fault::Database,
        has_started: !narrow.taken.is_empty(),
    };
    same(rt, (answers, len), &sent, &broken);
    let whole = concat(rt, alloc, &[COUNTED, KIT]);
    let taken = as_text(&narrow.taken);
    same(rt, (answers, len), whole.as_str().starts_with(taken), true);
    same(rt, (answers, len), whole.as_str() == taken, false);
}

// A source that fails breaks a packument off, and so does one of another length than was counted.
#[test]
fn a_packument_of_another_length_is_broken_off(rt: HostRuntime) {
    let len = KIT.len() as u64;
    for answers in 0..4 {
        is_broken_off(&rt, rt.alloc(), answers, len);
    }
    for other in 0..len.saturating_add(100) {
        if other != len {
            is_broken_off(&rt, rt.alloc(), ALL, other);
        }
    }
}
