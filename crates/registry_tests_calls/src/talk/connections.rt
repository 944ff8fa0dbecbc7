//! Whole connections, with a service that knows one package and nobody.

ghost use Rattle.std.specs.Prelude.{None, false};
ghost use Rattle.registry_service.proofs.DialectFacts.{profile_asks_queries};
ghost use Rattle.registry_service.specs.Turns.{profile};

use crate::outcome::same;
use crate::parts::{around, as_text, field, repeated};
use crate::wire::reader::{Narrow, Source};
use registry_cache::SharedText;
use registry_names::{ByteOut, Fault, FromRead, Moment, Refusal, ToWrite};
use registry_packument::{Opener, Sent};
use registry_rules::{Action, Credential, Reply, Request};
use registry_service::{
    Clock, End, HttpService, PackumentService, Served, Service, Turned, serve, turn,
};
use registry_wire::{Inbox, Wanted};
use std::alloc::Global;
use std::process::Abort;

/// A service that shows the tags of any package to a caller who shows a token, and has a fault for
/// teams.
#[derive(Drop)]
pub struct FixedTags {
    pub asked: Vec<i64>,
}

impl Service for FixedTags {
    ghost answers = { λ M r o N. Unit {0} };

    ghost over = { λ _. false };

    fn answer(&mut self, alloc: Global, request: &Request) -> Result<Reply, Fault> {
        self.asked.push(request.at.seconds())?;
        match (&request.what, &request.who) {
            (Action::Tags { package: _ }, Credential::Token(_)) => {
                Ok(Reply::Doc(SharedText::from_str(alloc, "{\"latest\":\"1.0.0\"}")?))
            }
            (Action::Teams { organisation: _ }, _) => Err(Fault::Database),
            (Action::OrgSet { .. }, _) => Ok(Reply::Refused(Refusal::NoCaller)),
            _ => Ok(Reply::Refused(Refusal::NotFound)),
        }
    }

    fn is_over(&self) -> bool {
        false
    }
}

impl HttpService for FixedTags {
    ghost speaks = { profile };

    fn turn(&mut self, alloc: Global, wanted: &Wanted, at: Moment, is_last: bool) -> Turned {
        turn(alloc, self, wanted, at, is_last)
    }

    ghost asks_queries = { profile_asks_queries };
}

impl PackumentService for FixedTags {
    fn send_packument<W: ByteOut, O: Opener>(
        &mut self,
        _alloc: Global,
        request: &Request,
        _writer: &mut W,
        _opener: &O,
    ) -> Sent {
        match self.asked.push(request.at.seconds()) {
            Ok(()) => Sent::Refused(Refusal::NotFound),
            Err(_) => Sent::Broken {
                fault: Fault::Memory,
                has_started: false,
            },
        }
    }
}

/// A clock that advances by a second each time.
#[derive(Drop)]
pub struct Steps {
    pub next: i64,
}

impl Clock for Steps {
    ghost readings = { λ s. None };

    fn now(&mut self) -> Moment {
        let at = Moment::clamped(self.next);
        self.next = self.next.saturating_add(1);
        at
    }
}

// What comes on a connection; ` => ` and what is written in answer to it, both with `^` at the end of each
// line; ` => ` and how many requests are answered, how many the service is asked, and how it ends. Behind
// a comma stands how many reads are interrupted before it, and behind another one that a read breaks
// after it.
pub const CONNECTIONS: &str = r#" =>  => 0 0 Closed
GET /-/package/@lab%2fkit/dist-tags HTTP/1.1^authorization: Bearer npm_bob_000000001^^ => HTTP/1.1 200 OK^content-type: application/json^content-length: 18^^{"latest":"1.0.0"} => 1 1 Closed
GET /kit HTTP/1.1^host: l => HTTP/1.1 400 Bad Request^content-type: application/json^content-length: 19^connection: close^^{"error":"BadBody"} => 0 0 BadInput
PUT /kit HTTP/1.1^content-length: 4194305^^ => HTTP/1.1 413 Payload Too Large^content-type: application/json^content-length: 20^connection: close^^{"error":"TooLarge"} => 0 0 BadInput
GET /kit HTTP/1.1^^PUT /-/org/lab/eve HTTP/1.1^connection: close^content-length: 11^^"developer"GET /kit HTTP/1.1^^ => HTTP/1.1 404 Not Found^content-type: application/json^content-length: 20^^{"error":"NotFound"}HTTP/1.1 401 Unauthorized^content-type: application/json^content-length: 20^www-authenticate: Bearer^connection: close^^{"error":"NoCaller"} => 2 2 Closed
HEAD /kit HTTP/1.1^^ => HTTP/1.1 404 Not Found^content-type: application/json^content-length: 20^connection: close^^{"error":"NotFound"} => 1 0 Closed
GET /-/team/lab HTTP/1.1^^GET /kit HTTP/1.1^^ => HTTP/1.1 500 Internal Server Error^content-type: application/json^content-length: 20^connection: close^^{"error":"Database"} => 1 1 Faulted(Database)
PUT /-/org/lab/eve HTTP/1.1^content-length: 12^^"developer" => HTTP/1.1 400 Bad Request^content-type: application/json^content-length: 19^connection: close^^{"error":"BadBody"} => 0 0 BadInput"#;

const OTHERS: &str =
    r#"PUT /kit HTTP/1.1^content-length: +3^^abc => HTTP/1.1 400 Bad Request^content-type: application/json^content-length: 19^connection: close^^{"error":"BadBody"} => 0 0 BadInput
PUT /kit HTTP/1.1^content-length: 3, 3^^abc => HTTP/1.1 400 Bad Request^content-type: application/json^content-length: 19^connection: close^^{"error":"BadBody"} => 0 0 BadInput
PUT /kit HTTP/1.1^content-length: 3^content-length: 3^^abc => HTTP/1.1 400 Bad Request^content-type: application/json^content-length: 19^connection: close^^{"error":"BadBody"} => 0 0 BadInput
PUT /kit HTTP/1.1^transfer-encoding: chunked^^ => HTTP/1.1 400 Bad Request^content-type: application/json^content-length: 19^connection: close^^{"error":"BadBody"} => 0 0 BadInput
PUT /kit HTTP/1.1^content-length: 5^^abc => HTTP/1.1 400 Bad Request^content-type: application/json^content-length: 19^connection: close^^{"error":"BadBody"} => 0 0 BadInput
PUT /kit HTTP/1.1^content-length: 4194305^^ => HTTP/1.1 413 Payload Too Large^content-type: application/json^content-length: 20^connection: close^^{"error":"TooLarge"} => 0 0 BadInput,0,breaks
PUT /kit HTTP/1.1^content-length: 18446744073709551616^^ => HTTP/1.1 413 Payload Too Large^content-type: application/json^content-length: 20^connection: close^^{"error":"TooLarge"} => 0 0 BadInput,0,breaks
GET /-/package/@lab%2fkit/dist-tags HTTP/1.1^authorization: Bearer npm_bob_000000001^^ => HTTP/1.1 200 OK^content-type: application/json^content-length: 18^^{"latest":"1.0.0"} => 1 1 Closed,999
GET /-/package/@lab%2fkit/dist-tags HTTP/1.1^authorization: Bearer npm_bob_000000001^^ =>  => 0 0 ReadFault,1000
 =>  => 0 0 ReadFault,0,breaks"#;

// The text with the ends of its lines.
pub fn bytes(rt: &impl Abort, alloc: Global, text: &str) -> String {
    text.replace(alloc, "^", "\r\n").expect(rt, "memory")
}

// Checks how a connection is served whose input comes in pieces of this many bytes.
fn comes_out(
    rt: &impl Abort,
    alloc: Global,
    input: &str,
    output: &str,
    told: &str,
    piece_len: usize,
) {
    let wanted = field(told, ',', 0);
    let interruptions = field(told, ',', 1);
    let breaks = field(told, ',', 2);
    let mut service = FixedTags {
        asked: Vec::new(alloc),
    };
    let reader = FromRead::new(Source {
        interruptions: interruptions.parse::<u32>().unwrap_or(0),
        text: input.as_bytes(),
        piece_len,
        breaks: breaks == "breaks",
    });
    let mut inbox = Inbox::new(alloc, reader);
    let mut out = Vec::new(alloc);
    let mut writer = ToWrite::new(&mut out);
    let mut clock = Steps { next: 0 };
    let served = serve(alloc, &mut service, &mut inbox, &mut writer, &mut clock);
    let shows = input.get(..60).unwrap_or(input);
    let (requests, end, asked) = (served.requests, served.end, service.asked.len());
    let told = format!(in alloc; "{requests} {asked} {end:?}").expect(rt, "memory");
    same(rt, shows, told.as_str(), wanted);
    same(rt, shows, as_text(&out) == output, true);
    same(rt, shows, service.asked.is_sorted(), true);
}

// The same with all bytes at once, and with one byte a read.
fn both_come_out(rt: &impl Abort, alloc: Global, input: &str, output: &str, told: &str) {
    comes_out(rt, alloc, input, output, told, usize::MAX);
    comes_out(rt, alloc, input, output, told, 1);
}

#[test]
fn connections_are_served(rt: HostRuntime) {
    let alloc = rt.alloc();
    for line in CONNECTIONS.lines().chain(OTHERS.lines()) {
        let (input, rest) = line.split_once(" => ").expect(&rt, line);
        let (output, told) = rest.split_once(" => ").expect(&rt, line);
        let (input, output) = (bytes(&rt, alloc, input), bytes(&rt, alloc, output));
        both_come_out(&rt, alloc, input.as_str(), output.as_str(), told);
    }
}

pub const TAGS: &str =
    "GET /-/package/@lab%2fkit/dist-tags HTTP/1.1\r\nauthorization: Bearer npm_bob_000000001\r\n\r\n";

pub const TAGS_OUT: &str =
    "HTTP/1.1 200 OK\r\ncontent-type: application/json\r\ncontent-length: 18\r\n\r\n{\"latest\":\"1.0.0\"}";

pub const CUT_OUT: &str =
    "HTTP/1.1 400 Bad Request\r\ncontent-type: application/json\r\ncontent-length: 19\r\nconnection: close\r\n\r\n{\"error\":\"BadBody\"}";

const LAST_OUT: &str =
    "HTTP/1.1 200 OK\r\ncontent-type: application/json\r\ncontent-length: 18\r\nconnection: close\r\n\r\n{\"latest\":\"1.0.0\"}";

const NOT_FOUND_OUT: &str =
    "HTTP/1.1 404 Not Found\r\ncontent-type: application/json\r\ncontent-length: 20\r\n\r\n{\"error\":\"NotFound\"}";

const NOT_FOUND_LAST: &str =
    "HTTP/1.1 404 Not Found\r\ncontent-type: application/json\r\ncontent-length: 20\r\nconnection: close\r\n\r\n{\"error\":\"NotFound\"}";

// A head has 16,384 bytes at most and 64 fields, and a connection a thousand requests.
#[test]
fn long_connections_are_served(rt: HostRuntime) {
    let alloc = rt.alloc();
    let head = "GET /kit HTTP/1.1\r\n";
    let input = around(&rt, alloc, head, "a: b", 1, "");
    let input = around(&rt, alloc, input.as_str(), "b", 16_362, "");
    same(&rt, "its length", input.len(), 16_385);
    both_come_out(&rt, alloc, &input, CUT_OUT, "0 0 BadInput");
    let input = around(&rt, alloc, head, "a:\r\n", 64, "\r\n");
    both_come_out(&rt, alloc, &input, NOT_FOUND_OUT, "1 1 Closed");
    let input = around(&rt, alloc, head, "a:\r\n", 65, "\r\n");
    both_come_out(&rt, alloc, &input, CUT_OUT, "0 0 BadInput");
    let input = repeated(&rt, alloc, TAGS, 1_001);
    let output = around(&rt, alloc, "", TAGS_OUT, 999, LAST_OUT);
    both_come_out(&rt, alloc, &input, &output, "1000 1000 Limit");
    let input = repeated(&rt, alloc, "GET /kit HTTP/1.1\r\n\r\n", 1_001);
    let output = around(&rt, alloc, "", NOT_FOUND_OUT, 999, NOT_FOUND_LAST);
    both_come_out(&rt, alloc, &input, &output, "1000 1000 Limit");
}

// Checks how a connection of two requests ends where this many bytes are taken.
fn is_cut(rt: &impl Abort, alloc: Global, limit: usize, requests: u32) {
    let two = repeated(rt, alloc, TAGS, 2);
    let mut service = FixedTags {
        asked: Vec::new(alloc),
    };
    let mut clock = Steps { next: 0 };
    let mut inbox = Inbox::new(alloc, FromRead::new(two.as_bytes()));
    let mut narrow = Narrow {
        taken: Vec::new(alloc),
        limit,
    };
    let mut writer = ToWrite::new(&mut narrow);
    let served = serve(alloc, &mut service, &mut inbox, &mut writer, &mut clock);
    let end = End::WriteFault;
    same(rt, &limit, &served, &Served { requests, end });
    let front = TAGS_OUT.get(..limit).unwrap_or("?");
    same(rt, &limit, as_text(&narrow.taken), front);
}

#[test]
fn a_failed_write_ends_a_connection(rt: HostRuntime) {
    let alloc = rt.alloc();
    is_cut(&rt, alloc, 0, 0);
    is_cut(&rt, alloc, 50, 0);
    is_cut(&rt, alloc, TAGS_OUT.len(), 1);
}
