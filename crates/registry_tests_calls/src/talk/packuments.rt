//! Packuments that are sent as they are made, by a service that may break off in one.

ghost use Rattle.std.specs.Prelude.{false};
ghost use Rattle.registry_service.proofs.DialectFacts.{profile_asks_queries};
ghost use Rattle.registry_service.specs.Turns.{profile};

use super::connections::Steps;
use crate::outcome::same;
use crate::parts::as_text;
use crate::wire::reader::Narrow;
use registry_names::{ByteOut, Fault, FromRead, Moment, Refusal, ToWrite, write_whole};
use registry_packument::{Opener, Sent};
use registry_rules::{Reply, Request};
use registry_service::{End, HttpService, PackumentService, Service, Turned, serve, turn};
use registry_wire::{Inbox, Wanted};
use std::alloc::Global;
use std::process::Abort;

const PACKUMENT: &str = "{\"name\":\"kit\"}";

/// Where a packument breaks off.
#[derive(Clone, Copy, Debug, PartialEq, Eq)]
enum Break {
    Nowhere,
    BeforeItsHead,
    BehindItsHead,
}

/// A service that sends one packument after a head, whichever packument is asked for, and answers
/// nothing else.
#[derive(Drop)]
struct OnePackument {
    breaks: Break,
    asked: u32,
}

impl Service for OnePackument {
    ghost answers = { λ M r o N. Unit {0} };

    ghost over = { λ _. false };

    fn answer(&mut self, _alloc: Global, _request: &Request) -> Result<Reply, Fault> {
        Ok(Reply::Refused(Refusal::NotFound))
    }

    fn is_over(&self) -> bool {
        false
    }
}

impl HttpService for OnePackument {
    ghost speaks = { profile };

    fn turn(&mut self, alloc: Global, wanted: &Wanted, at: Moment, is_last: bool) -> Turned {
        turn(alloc, self, wanted, at, is_last)
    }

    ghost asks_queries = { profile_asks_queries };
}

impl PackumentService for OnePackument {
    fn send_packument<W: ByteOut, O: Opener>(
        &mut self,
        alloc: Global,
        _request: &Request,
        writer: &mut W,
        opener: &O,
    ) -> Sent {
        self.asked = self.asked.saturating_add(1);
        if self.breaks == Break::BeforeItsHead {
            return Sent::Broken {
                fault: Fault::Database,
                has_started: false,
            };
        }
        let Ok(head) = opener.opening(alloc, PACKUMENT.len() as u64) else {
            return Sent::Broken {
                fault: Fault::Memory,
                has_started: false,
            };
        };
        let head = head.as_str().as_bytes();
        if head.is_empty() {
            return Sent::Refused(Refusal::NotFound);
        }
        match write_whole(writer, head) {
            Ok(()) => {}
            Err(_) => return Sent::WriteFault,
        }
        if self.breaks == Break::BehindItsHead {
            return Sent::Broken {
                fault: Fault::Database,
                has_started: true,
            };
        }
        match write_whole(writer, PACKUMENT.as_bytes()) {
            Ok(()) => Sent::Whole,
            Err(_) => Sent::WriteFault,
        }
    }
}

const KIT: &str = "GET /kit HTTP/1.1\r\n\r\n";

const TWO: &str = "GET /kit HTTP/1.1\r\n\r\nGET /kit HTTP/1.1\r\nconnection: close\r\n\r\n";

const KIT_OUT: &str =
    "HTTP/1.1 200 OK\r\ncontent-type: application/json\r\ncontent-length: 14\r\n\r\n{\"name\":\"kit\"}";

const TWO_OUT: &str =
    "HTTP/1.1 200 OK\r\ncontent-type: application/json\r\ncontent-length: 14\r\n\r\n{\"name\":\"kit\"}HTTP/1.1 200 OK\r\ncontent-type: application/json\r\ncontent-length: 14\r\nconnection: close\r\n\r\n{\"name\":\"kit\"}";

const FAULT_OUT: &str =
    "HTTP/1.1 500 Internal Server Error\r\ncontent-type: application/json\r\ncontent-length: 20\r\nconnection: close\r\n\r\n{\"error\":\"Database\"}";

const HEAD_OUT: &str =
    "HTTP/1.1 200 OK\r\ncontent-type: application/json\r\ncontent-length: 14\r\n\r\n";

// Checks what is written where this many bytes are taken, how many packuments are asked for, how many
// requests are answered, and how the connection ends.
fn comes_out(
    rt: &impl Abort,
    alloc: Global,
    breaks: Break,
    input: &str,
    limit: usize,
    output: &str,
    wanted: (u32, u32, End),
) {
    let mut service = OnePackument { breaks, asked: 0 };
    let mut inbox = Inbox::new(alloc, FromRead::new(input.as_bytes()));
    let mut narrow = Narrow {
        taken: Vec::new(alloc),
        limit,
    };
    let mut writer = ToWrite::new(&mut narrow);
    let mut clock = Steps { next: 0 };
    let served = serve(alloc, &mut service, &mut inbox, &mut writer, &mut clock);
    let came_out = (service.asked, served.requests, served.end);
    same(rt, (breaks, limit), came_out, wanted);
    same(rt, (breaks, limit), as_text(&narrow.taken), output);
}

#[test]
fn packuments_are_sent_behind_their_head(rt: HostRuntime) {
    let all = usize::MAX;
    let whole = (2, 2, End::Closed);
    comes_out(&rt, rt.alloc(), Break::Nowhere, TWO, all, TWO_OUT, whole);
    let none = (1, 1, End::Faulted(Fault::Database));
    comes_out(
        &rt,
        rt.alloc(),
        Break::BeforeItsHead,
        TWO,
        all,
        FAULT_OUT,
        none,
    );
    let cut = (1, 0, End::Faulted(Fault::Database));
    comes_out(
        &rt,
        rt.alloc(),
        Break::BehindItsHead,
        TWO,
        all,
        HEAD_OUT,
        cut,
    );
}

#[test]
fn a_failed_write_leaves_a_prefix_of_a_packument(rt: HostRuntime) {
    let wanted = (1, 0, End::WriteFault);
    for limit in 0..KIT_OUT.len() {
        let front = KIT_OUT.get(..limit).unwrap_or(KIT_OUT);
        comes_out(&rt, rt.alloc(), Break::Nowhere, KIT, limit, front, wanted);
    }
}
