//! The moments of requests over HTTP and of commands, beside those of the clock.

use super::serving::answers_client;
use super::{BODY, DONE, begin, end, leaves};
use crate::outcome::same;
use crate::tests::asking::does;
use crate::tests::at_path::number_at;
use crate::tests::lists::{LAB, LAB_KIT};
use registry_desk::Registry;
use registry_http::RegistryService;
use registry_names::Moment;
use registry_server::Server;
use registry_service::HttpService;
use std::alloc::Global;
use std::cell::Cell;
use std::io::{Read, Write};
use std::net::{Ipv4Addr, Net, OpenStream, Shutdown, SocketAddr, TcpStream};
use std::process::Abort;
use std::time::{Clock, Duration};
use std::{fs, io};

/// When the clock of the tests begins, in seconds.
const BEGINS: u64 = 1_700_000_000;

/// A request for the tags of `@lab/kit` by `bob`.
const TAGS: &str =
    "GET /-/package/@lab%2fkit/dist-tags HTTP/1.1\r\nauthorization: Bearer npm_bob_000000001\r\n\r\n";

/// The answer to it.
const TAGS_OUT: &str =
    "HTTP/1.1 200 OK\r\ncontent-type: application/json\r\ncontent-length: 18\r\n\r\n{\"latest\":\"1.0.0\"}";

/// A withdrawal of `kit` 1.0.0 by `bob`.
const WITHDRAW: &str =
    "DELETE /-/package/kit/versions/1.0.0 HTTP/1.1\r\nauthorization: Bearer npm_bob_000000001\r\n\r\n";

const CREATED: &str =
    "HTTP/1.1 201 Created\r\ncontent-type: application/json\r\ncontent-length: 11\r\n\r\n{\"ok\":true}";

#[test]
fn a_publish_over_http_has_the_systems_moment(rt: HostRuntime) {
    begin(&rt, &rt, "files_of_http");
    let adds = "--db files_of_http/registry.db --operator user-add bob";
    leaves(&rt, &rt, adds, DONE);
    let adds = "--db files_of_http/registry.db --operator token-add bob npm_bob_000000001";
    leaves(&rt, &rt, adds, DONE);
    let asks = publish_text(&rt, rt.alloc());
    let before = now(&rt, &rt);
    let db = "files_of_http/registry.db";
    answers_client(&rt, &rt, db, asks.as_str(), CREATED);
    is_published_since(&rt, &rt, db, before);
    end(&rt, "files_of_http");
}

#[test]
fn a_command_has_the_systems_moment(rt: HostRuntime) {
    begin(&rt, &rt, "files_of_commands");
    let adds = "--db files_of_commands/registry.db --operator user-add bob";
    leaves(&rt, &rt, adds, DONE);
    fs::write(&rt, "files_of_commands/kit.json", BODY.as_bytes()).expect(&rt, "a body");
    let before = now(&rt, &rt);
    let publishes =
        "--db files_of_commands/registry.db --as bob publish files_of_commands/kit.json";
    leaves(&rt, &rt, publishes, DONE);
    is_published_since(&rt, &rt, "files_of_commands/registry.db", before);
    end(&rt, "files_of_commands");
}

// The second of the system's clock.
fn now(rt: &HostRuntime, ends: &impl Abort) -> u64 {
    rt.since_1970().expect(ends, "a moment").as_secs()
}

// Checks that the one version in the file was published from that second on, and not later than now.
fn is_published_since(rt: &HostRuntime, ends: &impl Abort, db: &str, before: u64) {
    let published = number_at(rt, ends, db, "", "SELECT published FROM versions");
    let after = now(rt, ends);
    let is_since = before <= published && published <= after;
    same(ends, (before, published, after), is_since, true);
}

// The publish of `kit` 1.0.0 by bob.
fn publish_text(ends: &impl Abort, alloc: Global) -> String {
    let length = BODY.len();
    let text = format!(in alloc;
        "PUT /kit HTTP/1.1\r\nauthorization: Bearer npm_bob_000000001\r\ncontent-length: {length}\r\n\r\n{BODY}"
    );
    text.expect(ends, "memory")
}

/// A clock that jumps by this many seconds whenever the moment is read.
#[derive(Drop)]
struct Jumping<'a> {
    rt: &'a HostRuntime,
    seconds: Cell<u64>,
    jump: u64,
}

impl Clock for Jumping<'_> {
    fn monotonic(&self) -> io::Result<Duration> {
        self.rt.monotonic()
    }

    fn since_1970(&self) -> io::Result<Duration> {
        let seconds = self.seconds.get().saturating_add(self.jump);
        self.seconds.set(seconds);
        Ok(Duration::from_secs(seconds))
    }
}

/// How many seconds pass between a publish and the withdrawal, and the answer to that.
static JUMPS: [(u64, &str); 2] = [
    (
        259_199,
        "HTTP/1.1 200 OK\r\ncontent-type: application/json\r\ncontent-length: 11\r\n\r\n{\"ok\":true}",
    ),
    (
        259_200,
        "HTTP/1.1 409 Conflict\r\ncontent-type: application/json\r\ncontent-length: 19\r\n\r\n{\"error\":\"TooLate\"}",
    ),
];

#[test]
fn a_withdrawal_over_http_is_refused_after_72_hours(rt: HostRuntime) {
    let publish = publish_text(&rt, rt.alloc());
    let asks = joined(&rt, rt.alloc(), publish.as_str(), WITHDRAW);
    for (jump, answer) in &JUMPS {
        let wanted = joined(&rt, rt.alloc(), CREATED, answer);
        let answers = answers_to(&rt, &rt, *jump, LAB, &[asks.as_str()]);
        same(&rt, *jump, answers.as_str(), wanted.as_str());
    }
}

#[test]
fn a_server_answers_two_clients_at_a_registry(rt: HostRuntime) {
    let wanted = joined(&rt, rt.alloc(), TAGS_OUT, TAGS_OUT);
    let answers = answers_to(&rt, &rt, 0, LAB_KIT, &[TAGS, TAGS]);
    same(&rt, "two clients", answers.as_str(), wanted.as_str());
}

fn joined(ends: &impl Abort, alloc: Global, first: &str, second: &str) -> String {
    format!(in alloc; "{first}{second}").expect(ends, "memory")
}

// What a server answers to clients, one after the other, from a registry in memory that did the
// requests of a text. Its clock jumps by this many seconds whenever it is read.
fn answers_to(rt: &HostRuntime, ends: &impl Abort, jump: u64, text: &str, asks: &[&str]) -> String {
    let mut registry = Registry::in_memory(rt.alloc()).expect(ends, "a registry");
    does(ends, rt.alloc(), &mut registry, text);
    answers_of(rt, ends, jump, &mut RegistryService::new(registry), asks)
}

fn answers_of<S: HttpService>(
    rt: &HostRuntime,
    ends: &impl Abort,
    jump: u64,
    service: &mut S,
    asks: &[&str],
) -> String {
    let count = asks.len() as u64;
    let server = Server::bind(rt, rt.alloc(), 0, count).expect(ends, "a server");
    let port = server.port().expect(ends, "a port");
    let mut clients = Vec::new(rt.alloc());
    for text in asks {
        let client = client(rt, port, text).expect(ends, "a client");
        clients.push(client).expect(ends, "memory");
    }
    let clock = Jumping {
        rt,
        seconds: Cell::new(BEGINS),
        jump,
    };
    let ended = server.run(&clock, rt.alloc(), Moment::clamped(1_700_000_000), service);
    let _ended = ended.expect(ends, "an end");
    heard(ends, rt.alloc(), &clients)
}

// A client that has asked this, and sends no more.
fn client(rt: &HostRuntime, port: u16, text: &str) -> io::Result<TcpStream> {
    let mut stream = rt.connect(SocketAddr::from((Ipv4Addr::LOCALHOST, port)))?;
    stream.write_all(text.as_bytes())?;
    stream.shutdown(Shutdown::Write)?;
    Ok(stream)
}

// Everything that clients are sent, one after the other.
fn heard(ends: &impl Abort, alloc: Global, clients: &[TcpStream]) -> String {
    let mut all = String::new(alloc);
    for client in clients {
        let mut client = client;
        client.read_to_string(&mut all).expect(ends, "an answer");
    }
    all
}
