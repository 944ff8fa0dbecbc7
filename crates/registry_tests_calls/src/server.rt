//! Connections without their sockets, and a server over loopback.

ghost use Rattle.std.specs.Prelude.{nat_lt};
ghost use Rattle.registry_service.proofs.DialectFacts.{profile_asks_queries};
ghost use Rattle.registry_service.specs.Turns.{profile};

use crate::outcome::{is_shown, same};
use crate::parts::{as_text, first_of};
use crate::talk::connections::{CONNECTIONS, CUT_OUT, FixedTags, Steps, TAGS, TAGS_OUT, bytes};
use registry_names::{Fault, FromRead, Moment, ToWrite};
use registry_rules::{Reply, Request};
use registry_server::{ConnectionState, Ended, Progress, Server};
use registry_service::{End, HttpService, Served, Service, Turned, serve, turn};
use registry_wire::{Inbox, Wanted};
use std::alloc::Global;
use std::io::{Read, Write};
use std::net::{Ipv4Addr, Net, OpenListener, OpenStream, Shutdown, SocketAddr, TcpStream};
use std::process::Abort;

// Adds what a connection hasn't sent yet to `out`, a few bytes at a time.
fn take_all(rt: &impl Abort, state: &mut ConnectionState, out: &mut Vec<u8>) {
    for _ in 0..1_000 {
        let (head, body, rest) = state.outgoing().parts();
        let next = first_of(head, body, rest);
        let (front, _) = next.split_at(next.len().min(7));
        let count = front.len();
        if count == 0 {
            break;
        }
        out.extend_from_slice(front).expect(rt, "memory");
        state.sent(count);
    }
}

// Adds what a connection answers to the input to `out`, and returns how it ends. The input comes in
// pieces of this length.
fn answers(
    rt: &impl Abort,
    alloc: Global,
    input: &[u8],
    piece_len: usize,
    out: &mut Vec<u8>,
) -> Option<End> {
    let mut service = FixedTags {
        asked: Vec::new(alloc),
    };
    let mut clock = Steps { next: 0 };
    let mut state = ConnectionState::new(alloc);
    let mut rest = input;
    for _ in 0..10_000 {
        if !state.may_take_turn() {
            break;
        }
        match state.take_turn(alloc, &mut service, &mut clock, rest.is_empty()) {
            Progress::Answered => take_all(rt, &mut state, out),
            Progress::Waits => {
                let (piece, after) = rest.split_at(rest.len().min(piece_len));
                state.came(piece).expect(rt, "memory");
                rest = after;
            }
            Progress::Closed => return Some(End::Closed),
        }
    }
    state.ends()
}

fn is_answered(rt: &impl Abort, alloc: Global, line: &str, piece_len: usize) {
    let (input, rest) = line.split_once(" => ").expect(rt, line);
    let (output, told) = rest.split_once(" => ").expect(rt, line);
    let (input, wanted) = (bytes(rt, alloc, input), bytes(rt, alloc, output));
    let mut out = Vec::new(alloc);
    let ended = answers(rt, alloc, input.as_bytes(), piece_len, &mut out);
    same(rt, line, as_text(&out), wanted.as_str());
    let end = ended.expect(rt, "an end");
    let (_, wanted) = told.rsplit_once(' ').expect(rt, line);
    is_shown(rt, alloc, line, &end, wanted);
}

#[test]
fn lines_answer_as_connections_do(rt: HostRuntime) {
    for line in CONNECTIONS.lines() {
        is_answered(&rt, rt.alloc(), line, 1);
        is_answered(&rt, rt.alloc(), line, 10);
        is_answered(&rt, rt.alloc(), line, 10_000);
    }
}

// A client that has sent this, and sends no more.
fn client<R: Abort + Net>(rt: &R, port: u16, text: &str) -> R::Stream {
    let address = SocketAddr::from((Ipv4Addr::LOCALHOST, port));
    let mut stream = rt.connect(address).expect(rt, "a connection");
    stream.write_all(text.as_bytes()).expect(rt, "a write");
    stream.shutdown(Shutdown::Write).expect(rt, "an end");
    stream
}

fn hears(rt: &impl Abort, alloc: Global, shows: &str, stream: &mut impl Read, wanted: &str) {
    let mut answer = Vec::new(alloc);
    stream.read_to_end(&mut answer).expect(rt, "a read");
    same(rt, shows, as_text(&answer), wanted);
}

// Serves a connection until it ends.
fn serve_stream(alloc: Global, stream: &TcpStream) -> Served {
    let mut service = FixedTags {
        asked: Vec::new(alloc),
    };
    let mut clock = Steps { next: 0 };
    let mut inbox = Inbox::new(alloc, FromRead::new(stream));
    let mut writer = ToWrite::new(stream);
    serve(alloc, &mut service, &mut inbox, &mut writer, &mut clock)
}

#[test]
fn a_connection_is_served_over_loopback(rt: HostRuntime) {
    let address = SocketAddr::from((Ipv4Addr::LOCALHOST, 0));
    let listener = rt.bind(address).expect(&rt, "a listener");
    let port = listener.local_addr().expect(&rt, "an address").port();
    let mut caller = client(&rt, port, TAGS);
    let (stream, _) = listener.accept().expect(&rt, "a connection");
    let wanted = Served {
        requests: 1,
        end: End::Closed,
    };
    same(
        &rt,
        "one request",
        &serve_stream(rt.alloc(), &stream),
        &wanted,
    );
    stream.shutdown(Shutdown::Write).expect(&rt, "an end");
    hears(&rt, rt.alloc(), "served", &mut caller, TAGS_OUT);
}

// A server is there at 127.0.0.1, and at no other address.
#[test]
fn a_server_listens_at_one_address(rt: HostRuntime) {
    let server = Server::bind(&rt, rt.alloc(), 0, 1).expect(&rt, "a server");
    let port = server.port().expect(&rt, "a port");
    for (last, is_there) in [(1, true), (2, false)] {
        let address = SocketAddr::from((Ipv4Addr::new(127, 0, 0, last), port));
        same(&rt, "a connection", rt.connect(address).is_ok(), is_there);
    }
}

#[test]
fn a_server_answers_over_loopback(rt: HostRuntime) {
    let alloc = rt.alloc();
    let server = Server::bind(&rt, alloc, 0, 2).expect(&rt, "a server");
    let port = server.port().expect(&rt, "a port");
    let mut cut = client(&rt, port, "GET /kit HTTP/1.1\r\nhost: l");
    let mut whole = client(&rt, port, TAGS);
    let mut service = FixedTags {
        asked: Vec::new(alloc),
    };
    let ended = server
        .run(&rt, alloc, Moment::clamped(0), &mut service)
        .expect(&rt, "a run");
    same(&rt, "why it ended", &ended, &Ended::Enough);
    hears(&rt, alloc, "whole", &mut whole, TAGS_OUT);
    hears(&rt, alloc, "cut", &mut cut, CUT_OUT);
}

/// A service that has a fault for the first request, and is over after it.
#[derive(Drop)]
struct Failing {
    asked: u32,
}

impl Service for Failing {
    ghost answers = { λ M r o N. Unit {0} };

    ghost over = { λ s. nat_lt 0 s.asked };

    fn answer(&mut self, _alloc: Global, _request: &Request) -> Result<Reply, Fault> {
        self.asked = self.asked.saturating_add(1);
        Err(Fault::Database)
    }

    fn is_over(&self) -> bool {
        self.asked > 0
    }
}

impl HttpService for Failing {
    ghost speaks = { profile };

    fn turn(&mut self, alloc: Global, wanted: &Wanted, at: Moment, is_last: bool) -> Turned {
        turn(alloc, self, wanted, at, is_last)
    }

    ghost asks_queries = { profile_asks_queries };
}

// The answer to a request that meets the fault.
const FAULT_OUT: &str =
    "HTTP/1.1 500 Internal Server Error\r\ncontent-type: application/json\r\ncontent-length: 20\r\nconnection: close\r\n\r\n{\"error\":\"Database\"}";

#[test]
fn a_server_ends_once_its_service_is_over(rt: HostRuntime) {
    let alloc = rt.alloc();
    let server = Server::bind(&rt, alloc, 0, 10).expect(&rt, "a server");
    let port = server.port().expect(&rt, "a port");
    let mut first = client(&rt, port, TAGS);
    let _second = client(&rt, port, TAGS);
    let mut service = Failing { asked: 0 };
    let ended = server
        .run(&rt, alloc, Moment::clamped(0), &mut service)
        .expect(&rt, "a run");
    same(&rt, "why it ended", &ended, &Ended::ServiceOver);
    same(&rt, "what was asked", &service.asked, &1);
    hears(&rt, alloc, "first", &mut first, FAULT_OUT);
}
