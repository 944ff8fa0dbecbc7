//! Commands that come at one moment on several connections of a pool, over sockets in memory, where npm's
//! own requests are served: those that are small are answered together, after all other requests of
//! their round.

ghost use Rattle.std.specs.Prelude.{◌≡◌, false, length};
ghost use Rattle.registry_server.specs.Sockets.{MovesAtMost};

use crate::outcome::same;
use crate::parts::{around, as_text, first_of};
use crate::talk::connections::Steps;
use registry_names::Fault;
use registry_npm::NpmService;
use registry_rules::{Action, Reply, Request};
use registry_server::{ConnectionPool, Flow, Socket};
use registry_service::Service;
use std::alloc::Global;
use std::cell::Cell;
use std::io::Read;
use std::process::Abort;

/// A query, which is answered by this count.
const QUERY: (&str, u64) = ("GET /-/team/lab HTTP/1.1\r\n\r\n", 100);

/// The commands that create the teams `t0` to `t7`. Each is answered by the number in its name.
const COMMANDS: [(&str, u64); 8] = [
    ("PUT /-/team/lab/t0 HTTP/1.1\r\n\r\n", 0),
    ("PUT /-/team/lab/t1 HTTP/1.1\r\n\r\n", 1),
    ("PUT /-/team/lab/t2 HTTP/1.1\r\n\r\n", 2),
    ("PUT /-/team/lab/t3 HTTP/1.1\r\n\r\n", 3),
    ("PUT /-/team/lab/t4 HTTP/1.1\r\n\r\n", 4),
    ("PUT /-/team/lab/t5 HTTP/1.1\r\n\r\n", 5),
    ("PUT /-/team/lab/t6 HTTP/1.1\r\n\r\n", 6),
    ("PUT /-/team/lab/t7 HTTP/1.1\r\n\r\n", 7),
];

/// Enough rounds for each request.
const ROUNDS: usize = 10;

/// How a service was asked.
#[derive(Clone, Copy, Debug, PartialEq)]
struct Asked {
    /// How many requests it answered one by one.
    alone: usize,
    /// How many times it answered commands together.
    groups: usize,
    /// How many commands these were.
    together: usize,
    /// How many requests it had answered one by one when it last answered commands together.
    before: usize,
}

/// A service that answers the creation of a team by the number in the team's name, and any other
/// request by 100.
#[derive(Drop)]
struct Numbering<'a> {
    asked: &'a Cell<Asked>,
}

impl Service for Numbering<'_> {
    ghost answers = { λ M r o N. Unit {0} };

    ghost over = { λ _. false };

    fn answer(&mut self, _alloc: Global, request: &Request) -> Result<Reply, Fault> {
        let asked = self.asked.get();
        self.asked.set(Asked {
            alone: asked.alone.saturating_add(1),
            ..asked
        });
        Ok(reply(request))
    }

    fn answer_together(
        &mut self,
        _alloc: Global,
        requests: &[Request],
        outcomes: &mut [Result<Reply, Fault>],
    ) {
        let asked = self.asked.get();
        self.asked.set(Asked {
            alone: asked.alone,
            groups: asked.groups.saturating_add(1),
            together: asked.together.saturating_add(requests.len()),
            before: asked.alone,
        });
        for (place, request) in requests.iter().enumerate() {
            outcomes[place] = Ok(reply(request));
        }
    }

    fn is_over(&self) -> bool {
        false
    }
}

fn reply(request: &Request) -> Reply {
    match &request.what {
        Action::TeamCreate { team, .. } => Reply::Count(number_in(team.text())),
        _ => Reply::Count(100),
    }
}

// The number after the first letter.
fn number_in(name: &str) -> u64 {
    let digits = name.get(1..).unwrap_or("");
    digits.parse().unwrap_or(200)
}

/// The socket of a client that sends a text, and then nothing.
#[derive(Drop)]
struct Client<'a> {
    left: &'a [u8],
    /// The count that it is answered.
    heard: &'a Cell<Option<u64>>,
}

impl Socket for Client<'_> {
    ghost use Rattle.std.specs.Prelude.{None, true};

    ghost received = { λ _. None };

    ghost sent = { λ _. None };

    ghost has_none = { λ _. true };

    ghost is_full = { λ _. true };

    ghost has_more = { λ _. true };

    ghost is_ended = { λ _. true };

    ghost is_broken = { λ _. true };

    fn receive(&mut self, buffer: &mut [u8]) -> Flow {
        if self.left.is_empty() {
            Flow::Waits
        } else {
            next_of(&mut self.left, buffer)
        }
    }

    fn look(&mut self) -> Flow {
        if self.left.is_empty() {
            Flow::Waits
        } else {
            Flow::Moved(1)
        }
    }

    fn send(&mut self, head: &[u8], body: &[u8], rest: &[u8]) -> Flow {
        if let Some(count) = count_in(body) {
            self.heard.set(Some(count));
        }
        Flow::Moved(first_of(head, body, rest).len())
    }

    fn shut(&mut self) -> bool {
        true
    }
}

fn next_of(left: &mut &[u8], buffer: &mut [u8]) -> Flow
    ensures { MovesAtMost (length buffer.new) result }
{
    match left.read(buffer) {
        Ok(count) => Flow::Moved(count),
        Err(_) => Flow::Broken,
    }
}

// The count in the body of an answer.
fn count_in(body: &[u8]) -> Option<u64> {
    let text = as_text(body).strip_prefix("{\"count\":")?;
    let (digits, _) = text.split_once(',')?;
    digits.parse().ok()
}

/// Checks that clients that send all this at one moment hear their own answers, and how their service is
/// asked.
fn are_answered(rt: &impl Abort, alloc: Global, cases: &[(&str, u64)], wanted: Asked) {
    let asked = Cell::new(Asked {
        alone: 0,
        groups: 0,
        together: 0,
        before: 0,
    });
    let mut heard = Vec::new(alloc);
    for _ in cases {
        heard.push(Cell::new(None)).expect(rt, "memory");
    }
    serve(rt, alloc, cases, &heard, &asked);
    for ((sent, count), heard) in cases.iter().zip(&heard) {
        let shows = sent.get(..30).unwrap_or("a request");
        same(rt, shows, &heard.get(), &Some(*count));
    }
    same(rt, "how it is asked", &asked.get(), &wanted);
}

// Serves these clients for some rounds.
fn serve(
    rt: &impl Abort,
    alloc: Global,
    cases: &[(&str, u64)],
    heard: &[Cell<Option<u64>>],
    asked: &Cell<Asked>,
) {
    let mut pool = ConnectionPool::new(alloc).expect(rt, "memory");
    for (number, ((sent, _), heard)) in cases.iter().zip(heard).enumerate() {
        let left = sent.as_bytes();
        pool.add(alloc, number, Client { left, heard }, 0);
    }
    let mut service = NpmService {
        service: Numbering { asked },
    };
    let mut clock = Steps { next: 0 };
    let mut buffer = [0; 16_384];
    for _ in 0..ROUNDS {
        pool.visit_all(alloc, &mut service, &mut clock, &mut buffer, 0);
    }
}

// Commands, a command alone, and a query on the last connection.
#[test]
fn small_commands_are_answered_together(rt: HostRuntime) {
    let eight = Asked {
        alone: 0,
        groups: 1,
        together: 8,
        before: 0,
    };
    are_answered(&rt, rt.alloc(), &COMMANDS, eight);
    let one = Asked {
        together: 1,
        ..eight
    };
    are_answered(&rt, rt.alloc(), &[COMMANDS[6]], one);
    let two = Asked {
        alone: 1,
        groups: 1,
        together: 2,
        before: 1,
    };
    are_answered(&rt, rt.alloc(), &[COMMANDS[3], COMMANDS[5], QUERY], two);
}

/// So many clients send a command of so many bytes each at one moment, and one more client a last one.
/// Of these so many are answered alone, and then so many together: of commands that are held alone and
/// have at most 32,768 bytes those that have 1,048,576 together, as 33 times 30,840 and 30,856 have.
const LIMITS: [(usize, usize, usize, usize, usize); 5] = [
    (0, 32_768, 32_768, 0, 1),
    (0, 32_769, 32_769, 1, 0),
    (39, 30_076, 30_076, 6, 34),
    (33, 30_840, 30_856, 0, 34),
    (33, 30_840, 30_857, 1, 33),
];

// A large body comes in more rounds than small commands. Those of one row come in as many.
#[test]
fn a_group_is_limited(rt: HostRuntime) {
    let large = sized(&rt, rt.alloc(), 40_076);
    let wanted = Asked {
        alone: 1,
        groups: 1,
        together: 2,
        before: 0,
    };
    let cases = [(large.as_str(), 100), COMMANDS[3], COMMANDS[5]];
    are_answered(&rt, rt.alloc(), &cases, wanted);
    for limit in LIMITS {
        is_limited(&rt, rt.alloc(), limit);
    }
}

fn is_limited(rt: &impl Abort, alloc: Global, limit: (usize, usize, usize, usize, usize)) {
    let (many, each, last, alone, together) = limit;
    let each = sized(rt, alloc, each);
    let last = sized(rt, alloc, last);
    let mut cases = Vec::new(alloc);
    for _ in 0..many {
        cases.push((each.as_str(), 100)).expect(rt, "memory");
    }
    cases.push((last.as_str(), 100)).expect(rt, "memory");
    let is_group = together > 0;
    let wanted = Asked {
        alone,
        groups: if is_group { 1 } else { 0 },
        together,
        before: if is_group { alone } else { 0 },
    };
    are_answered(rt, alloc, &cases, wanted);
}

// A command of this many bytes, of which its head has 69.
fn sized(rt: &impl Abort, alloc: Global, count: usize) -> String {
    let length = count.saturating_sub(69);
    let head = format!(in alloc;
        "PUT /-/package/kit/dist-tags/next HTTP/1.1\r\ncontent-length: {length}\r\n\r\n"
    );
    let head = head.expect(rt, "memory");
    let spaces = length.saturating_sub(7);
    let command = around(rt, alloc, head.as_str(), " ", spaces, "\"1.0.0\"");
    same(rt, "its length", &command.len(), &count);
    command
}
