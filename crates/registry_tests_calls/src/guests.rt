//! Guests, over sockets in memory.

ghost use Rattle.std.specs.Prelude.{length};
ghost use Rattle.registry_server.specs.Sockets.{MovesAtMost};

use crate::outcome::same;
use crate::parts::{as_text, first_of, text, words};
use crate::talk::connections::{FixedTags, Steps};
use registry_cache::SharedBlob;
use registry_guests::{
    CommandOutput, Control, GUEST_COUNT, GUEST_TIME_LIMIT, Guest, GuestPool, HOLD_LIMIT,
    SILENCE_LIMIT, Unsent, fits, parse_reply, read, write,
};
use registry_names::{Fault, Refusal};
use registry_rules::Reply;
use registry_server::{Flow, Socket, Visit};
use std::alloc::Global;
use std::process::Abort;

/// The socket of a guest that sends a message, a few bytes at a time, and keeps what it gets. After
/// its message it stays, or says that it sends no more.
#[derive(Drop)]
struct Memory {
    message: Vec<u8>,
    taken: usize,
    piece_len: usize,
    stays: bool,
    got: Vec<u8>,
}

impl Socket for Memory {
    ghost use Rattle.std.specs.Prelude.{None, true};

    ghost received = { λ _. None };

    ghost sent = { λ _. None };

    ghost has_none = { λ _. true };

    ghost is_full = { λ _. true };

    ghost has_more = { λ _. true };

    ghost is_ended = { λ _. true };

    ghost is_broken = { λ _. true };

    fn receive(&mut self, buffer: &mut [u8]) -> Flow {
        let rest = self.message.get(self.taken..).unwrap_or(&[]);
        let count = rest.len().min(buffer.len()).min(self.piece_len);
        if count == 0 {
            return if self.stays { Flow::Waits } else { Flow::Ended };
        }
        buffer[..count].copy_from_slice(&rest[..count]);
        self.taken = self.taken.saturating_add(count);
        Flow::Moved(count)
    }

    fn look(&mut self) -> Flow {
        Flow::Moved(0)
    }

    fn send(&mut self, head: &[u8], body: &[u8], rest: &[u8]) -> Flow {
        let bytes = first_of(head, body, rest);
        let count = bytes.len().min(self.piece_len);
        match self.got.extend_from_slice(&bytes[..count]) {
            Ok(()) => Flow::Moved(count),
            Err(_) => Flow::Broken,
        }
    }

    fn shut(&mut self) -> bool {
        true
    }
}

// A message of these words, without a file.
fn message(rt: &impl Abort, alloc: Global, line: &str) -> Vec<u8> {
    let words = words(rt, alloc, line);
    if !fits(&words) {
        panic!(rt; "the words don't fit into a message");
    }
    write(alloc, &words, b"a body").expect(rt, "memory")
}

fn socket(alloc: Global, message: Vec<u8>, piece_len: usize, stays: bool) -> Memory {
    Memory {
        message,
        taken: 0,
        piece_len,
        stays,
        got: Vec::new(alloc),
    }
}

#[test]
fn a_message_is_read_as_it_was_written(rt: HostRuntime) {
    let alloc = rt.alloc();
    let bytes = message(&rt, alloc, "user-add  ann");
    let read = read(alloc, &bytes).expect(&rt, "a message");
    same(&rt, "words", read.arguments.len(), 3);
    let last = read.arguments.last().map(|word| as_text(word));
    same(&rt, "the last", last, Some("ann"));
    same(&rt, "the body", as_text(read.body), "a body");
    for len in 0..bytes.len() {
        same(
            &rt,
            len,
            registry_guests::read(alloc, &bytes[..len]).is_err(),
            true,
        );
    }
}

// Checks what is printed, as it is sent and parsed.
fn is_printed(rt: &impl Abort, alloc: Global, output: CommandOutput, wanted: (u8, &str)) {
    let mut bytes = Vec::new(alloc);
    let unsent = Unsent::of(output);
    let (front, text, rest) = unsent.parts();
    bytes.extend_from_slice(front).expect(rt, "memory");
    bytes.extend_from_slice(text).expect(rt, "memory");
    bytes.extend_from_slice(rest).expect(rt, "memory");
    is_reply(rt, alloc, &bytes, wanted);
}

// Checks the reply in bytes that were sent: the status, and what a program would print.
fn is_reply(rt: &impl Abort, alloc: Global, bytes: &[u8], wanted: (u8, &str)) {
    let reply = parse_reply(alloc, bytes).expect(rt, "an answer");
    let mut text = Vec::from_slice(alloc, reply.text).expect(rt, "memory");
    text.extend_from_slice(&reply.end).expect(rt, "memory");
    same(rt, wanted, (reply.status, as_text(&text)), wanted);
}

#[test]
fn outcomes_are_sent_as_they_are_printed(rt: HostRuntime) {
    let alloc = rt.alloc();
    let archive = SharedBlob::from_slice(alloc, b"bytes").expect(&rt, "memory");
    let done = CommandOutput::of(Ok(Reply::Done));
    is_printed(&rt, alloc, done, (0, "{\"ok\":true}\n"));
    let count = CommandOutput::of(Ok(Reply::Count(12)));
    is_printed(&rt, alloc, count, (0, "{\"count\":12,\"ok\":true}\n"));
    let bytes = CommandOutput::of(Ok(Reply::Bytes(archive)));
    is_printed(&rt, alloc, bytes, (0, "bytes"));
    let refused = CommandOutput::of(Ok(Reply::Refused(Refusal::NotFound)));
    is_printed(&rt, alloc, refused, (1, "refused: NotFound\n"));
    let fault = CommandOutput::of(Err(Fault::Database));
    is_printed(&rt, alloc, fault, (3, "fault: Database\n"));
    for line in ["wrong", "wrong\n"] {
        let usage = CommandOutput::usage(text(&rt, alloc, line));
        is_printed(&rt, alloc, usage, (2, "wrong\n"));
    }
}

// What guests ask of a service that has a fault for teams and refuses everything else that they ask,
// and the status and what a program would print.
const CASES: [(&str, (u8, &str)); 4] = [
    ("--operator user-add ann", (1, "refused: NotFound\n")),
    ("--as ann teams lab", (3, "fault: Database\n")),
    ("--as ann tags Kit", (1, "refused: BadName\n")),
    (
        "--as ann --operator teams lab",
        (2, "--as excludes --operator\n"),
    ),
];

// Visits a guest until it is over, or rests.
fn visit_all(rt: &impl Abort, alloc: Global, guest: &mut Guest<Memory>) -> Visit {
    let mut service = FixedTags {
        asked: Vec::new(alloc),
    };
    let mut clock = Steps { next: 0 };
    let mut buffer = [0; 64];
    let mut visit = Visit::Again;
    for _ in 0..10_000 {
        if visit == Visit::Again {
            visit = guest.visit(alloc, &mut service, &mut clock, &mut buffer);
        }
    }
    same(rt, "asked once at most", service.asked.len() <= 1, true);
    visit
}

#[test]
fn guests_are_answered(rt: HostRuntime) {
    let alloc = rt.alloc();
    for (line, wanted) in CASES {
        for piece_len in [1, 7, 1_000] {
            let bytes = message(&rt, alloc, line);
            let mut guest = Guest::new(alloc, socket(alloc, bytes, piece_len, true), 0);
            same(&rt, line, visit_all(&rt, alloc, &mut guest), Visit::Over);
            is_reply(&rt, alloc, &guest.into_socket().got, wanted);
        }
    }
}

// A message that is cut is answered by nothing, and so is a guest that has gone.
#[test]
fn a_guest_that_has_gone_is_not_answered(rt: HostRuntime) {
    let alloc = rt.alloc();
    for (line, cut) in [("tags kit", 1), ("--as ann teams lab", 0)] {
        let mut bytes = message(&rt, alloc, line);
        bytes.truncate(bytes.len().saturating_sub(cut));
        let mut guest = Guest::new(alloc, socket(alloc, bytes, 7, false), 0);
        same(&rt, line, visit_all(&rt, alloc, &mut guest), Visit::Over);
        same(&rt, line, guest.into_socket().got.len(), 0);
    }
}

#[test]
fn a_pool_has_eight_slots(rt: HostRuntime) {
    let alloc = rt.alloc();
    let mut pool = GuestPool::new(alloc).expect(&rt, "memory");
    same(&rt, "new", pool.is_empty(), true);
    for number in 0..GUEST_COUNT {
        same(&rt, number, pool.place(), Some(number));
        let bytes = message(&rt, alloc, "tags kit");
        pool.add(alloc, number, socket(alloc, bytes, 1_000, false), 0);
    }
    same(&rt, "full", pool.place(), None);
    same(&rt, "busy", pool.is_busy(), true);
    let mut service = FixedTags {
        asked: Vec::new(alloc),
    };
    let mut clock = Steps { next: 0 };
    let mut buffer = [0; 64];
    pool.visit_all(alloc, &mut service, &mut clock, &mut buffer);
    pool.wake(3);
    pool.end_late(GUEST_TIME_LIMIT - 1);
    same(&rt, "in time", pool.is_empty(), false);
    pool.end_late(GUEST_TIME_LIMIT);
    same(&rt, "late", pool.is_empty(), true);
}

// A connection from 0 on that controls a server, and sends these bytes, one in each visit.
fn come(rt: &impl Abort, alloc: Global, control: &mut Control<Memory>, bytes: &str) {
    let bytes = Vec::from_slice(alloc, bytes.as_bytes()).expect(rt, "memory");
    control.add(socket(alloc, bytes, 1, false), 0);
}

#[test]
fn a_connection_holds_a_server(rt: HostRuntime) {
    let alloc = rt.alloc();
    let mut control = Control::new();
    come(&rt, alloc, &mut control, "hk");
    same(&rt, "before it asks", control.holds(), false);
    control.visit(0);
    same(&rt, "once it has", control.holds(), true);
    control.visit(HOLD_LIMIT - 1);
    control.end_late(HOLD_LIMIT - 1);
    same(&rt, "until its time is up", control.holds(), true);
    same(&rt, "it stops nothing", control.stops(), false);
    let got = control.into_socket().expect(&rt, "a connection").got;
    same(&rt, "it was told", as_text(&got), "hk");
    let mut control = Control::new();
    come(&rt, alloc, &mut control, "hk");
    control.visit(1);
    control.end_late(HOLD_LIMIT);
    same(&rt, "in time", control.holds(), true);
    control.end_late(HOLD_LIMIT + 1);
    same(&rt, "late", control.is_free(), true);
}

// A hold ends with its connection and by each byte but `k`, and a connection that doesn't ask for one
// ends at once.
#[test]
fn a_hold_ends(rt: HostRuntime) {
    for bytes in ["h", "hh", "hs", "hx", "k", "x"] {
        let mut control = Control::new();
        come(&rt, rt.alloc(), &mut control, bytes);
        control.visit(0);
        same(&rt, bytes, control.holds(), bytes.starts_with('h'));
        same(&rt, bytes, control.is_free(), !bytes.starts_with('h'));
        control.visit(0);
        same(&rt, bytes, control.holds(), false);
        same(&rt, bytes, control.is_free(), true);
        same(&rt, bytes, control.stops(), false);
    }
}

#[test]
fn a_connection_stops_a_server(rt: HostRuntime) {
    let alloc = rt.alloc();
    let mut control = Control::new();
    come(&rt, alloc, &mut control, "");
    same(&rt, "it is visited", control.is_busy(), true);
    control.end_late(SILENCE_LIMIT - 1);
    same(&rt, "in time", control.is_free(), false);
    control.end_late(SILENCE_LIMIT);
    same(&rt, "late", control.is_free(), true);
    come(&rt, alloc, &mut control, "s");
    control.visit(0);
    control.end_late(u64::MAX);
    same(&rt, "it stays", control.is_free(), false);
    same(&rt, "it stops", control.stops(), true);
    control.visit(0);
    same(&rt, "it ends", control.is_free(), true);
    come(&rt, alloc, &mut control, "h");
    control.visit(0);
    same(&rt, "nobody holds it", control.holds(), false);
    same(&rt, "it still stops", control.stops(), true);
}
