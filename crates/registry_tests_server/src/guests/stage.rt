//! Scripts of what a server's side of the sockets of a file and its clients do.

use crate::guests::client::{connect, hears, is_done, is_listening, message, send};
use crate::guests::files::{forget, lay};
use crate::guests::server::ServerSide;
use crate::outcome::same;
use registry_guests::Hold;
use registry_server::Guests;
use std::alloc::Global;
use std::os::unix::net::UnixStream;
use std::process::Abort;

// A server's side, and its clients in the order in which they came.
#[derive(Drop)]
struct Stage {
    server: Option<ServerSide>,
    clients: Vec<Option<UnixStream>>,
}

/// Plays a script on a new file, each line of which is a step, or begins with `#`.
///
/// - `connect SOCKET`: one more client comes. Clients are counted from 0.
/// - `rounds TIME`: the server makes rounds, each at this time in milliseconds.
/// - `close`: the server ends.
/// - `listening true` or `false`: whether somebody listens for commands.
/// - `server asked COUNT`: its service was asked so often. `server told TEXT`: it was told this of
///   commands. `server holds` and `server stops` with `true` or `false`: whether somebody holds or
///   stops it.
/// - `ask CLIENT WORDS`: the client sends the message of a command. With `begin` it sends the first
///   half of it, and with `finish` the second.
/// - `send CLIENT TEXT`: it sends a text.
/// - `hears CLIENT TEXT`: this has come, and nothing more, and the server is still there.
/// - `done CLIENT`: the server was ready, has answered that a command is done, and has ended the
///   connection. `done-since CLIENT`: the same where the client was told before that it was ready.
/// - `ended CLIENT TEXT`: this has come, and the server has ended the connection. `drop CLIENT`: the client does.
/// - `loses CLIENT`: the client asks for the hold that it had, and it has it no longer.
pub fn play(rt: &HostRuntime, ends: &impl Abort, file: &str, script: &str) {
    lay(rt, file).expect(ends, "a file");
    let mut stage = Stage {
        server: Some(ServerSide::open(rt, ends, file)),
        clients: Vec::new(rt.alloc()),
    };
    for line in script.trim().lines() {
        step(rt, ends, &mut stage, file, line);
    }
    forget(rt, file);
}

fn step(rt: &HostRuntime, ends: &impl Abort, stage: &mut Stage, file: &str, line: &str) {
    let (verb, rest) = line.split_once(' ').unwrap_or((line, ""));
    match verb {
        "connect" => {
            let client = connect(rt, file, rest).expect(ends, line);
            stage.clients.push(Some(client)).expect(ends, "memory");
        }
        "rounds" => {
            let now = rest.parse::<u64>().ok().expect(ends, line);
            let server = stage.server.as_mut().expect(ends, line);
            server.go_on(ends, rt.alloc(), now);
        }
        "#" => {}
        "close" => stage.server = None,
        "listening" => same(ends, line, is_listening(rt, file), rest == "true"),
        "server" => is_so(ends, stage.server.as_ref().expect(ends, line), line, rest),
        _ => acts(ends, rt.alloc(), stage, line),
    }
}

fn is_so(ends: &impl Abort, server: &ServerSide, line: &str, rest: &str) {
    let (verb, wanted) = rest.split_once(' ').expect(ends, line);
    match verb {
        "asked" => {
            same(
                ends,
                line,
                Some(server.service.asked),
                wanted.parse::<u64>().ok(),
            );
        }
        "told" => {
            let told = server.service.told.as_str();
            same(ends, line, told.strip_suffix("\n"), Some(wanted));
        }
        "holds" => same(ends, line, server.listener.holds(), wanted == "true"),
        "stops" => same(ends, line, server.listener.stops(), wanted == "true"),
        _ => panic!(ends; "{line} is no step"),
    }
}

// A step of a client.
fn acts(ends: &impl Abort, alloc: Global, stage: &mut Stage, line: &str) {
    let (verb, rest) = line.split_once(' ').expect(ends, line);
    let (who, rest) = rest.split_once(' ').unwrap_or((rest, ""));
    let place = who.parse::<usize>().ok().expect(ends, line);
    let client = stage.clients.get_mut(place).expect(ends, line);
    match verb {
        "drop" => *client = None,
        "loses" => {
            let mut hold = Hold::of(client.take().expect(ends, line)).expect(ends, line);
            same(ends, line, hold.confirm().expect(ends, line), false);
        }
        _ => {
            let client = client.as_ref().expect(ends, line);
            sends(ends, alloc, client, (line, verb, rest));
        }
    }
}

// A client sends something, or something has come at it.
fn sends(ends: &impl Abort, alloc: Global, client: &UnixStream, does: (&str, &str, &str)) {
    let (_, verb, rest) = does;
    match verb {
        "ask" => send(ends, client, &message(ends, alloc, rest)),
        "begin" => {
            let message = message(ends, alloc, rest);
            send(ends, client, message.split_at(message.len() / 2).0);
        }
        "finish" => {
            let message = message(ends, alloc, rest);
            send(ends, client, message.split_at(message.len() / 2).1);
        }
        "send" => send(ends, client, rest.as_bytes()),
        _ => has_come(ends, alloc, client, does),
    }
}

fn has_come(ends: &impl Abort, alloc: Global, client: &UnixStream, does: (&str, &str, &str)) {
    let (line, verb, rest) = does;
    match verb {
        "hears" => hears(ends, alloc, line, client, rest, false),
        "done" => is_done(ends, alloc, line, client, b"r"),
        "done-since" => is_done(ends, alloc, line, client, b""),
        "ended" => hears(ends, alloc, line, client, rest, true),
        _ => panic!(ends; "{line} is no step"),
    }
}
