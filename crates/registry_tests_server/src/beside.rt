//! A server with connections over loopback and with commands beside it.

use crate::client::{
    ANSWER, COMMAND, LAST_ANSWER, client, has_ended, hears, send as send_query, wait,
};
use crate::clock::{Play, new_clock};
use crate::guests::client::{ADDS_ANN, connect, is_done, message, send};
use crate::guests::files::{forget, lay};
use crate::outcome::same;
use crate::service::new_service;
use mio::{Token, Waker};
use registry_guests::{CommandListener, GUEST_COUNT};
use registry_names::Moment;
use registry_server::{Ended, FIRST_GUEST, Server};
use std::cell::Cell;
use std::io;
use std::io::Write;
use std::net::{Shutdown, TcpStream};
use std::os::unix::net::UnixStream;
use std::process::Abort;

/// What is sent before a server for two connections runs, and what comes of it.
struct Case<'c> {
    file: &'c str,
    play: Play,
    /// What is sent at the control socket.
    control: Option<&'c str>,
    /// Whether a command is sent beside the server.
    has_command: bool,
    /// What each client over HTTP sends: `q` is a query, `c` a command, and `.` the end.
    sends: [&'c str; 2],
    ended: Ended,
    /// How often the service was asked meanwhile, and whether the clock has seen what it looks for.
    seen: (u32, bool),
    /// How often the service was asked in all.
    asked: u32,
    /// What each client hears: `a` is an answer, and `l` one that says that it is the last.
    hears: [&'c str; 2],
}

// Two clients ask, and one of them sends a command and asks again. A third sends a command beside the
// server.
#[test]
fn commands_wait_during_a_hold(rt: HostRuntime) {
    let turn = command_in(
        &rt,
        &rt,
        &Case {
            file: "hold.db",
            play: Play::Hold,
            control: Some("h"),
            has_command: true,
            sends: ["q.", "qcq."],
            ended: Ended::Enough,
            seen: (2, true),
            asked: 5,
            hears: ["", "aa"],
        },
    );
    same(&rt, "after the hold", turn > 2, true);
}

#[test]
fn a_hold_of_a_server_lapses_after_a_minute(rt: HostRuntime) {
    let _turn = command_in(
        &rt,
        &rt,
        &Case {
            file: "lapse.db",
            play: Play::Lapse,
            control: Some("h"),
            has_command: false,
            sends: ["c.", "c."],
            ended: Ended::Enough,
            seen: (0, false),
            asked: 2,
            hears: ["a", "a"],
        },
    );
}

// Each client sends three requests, and in each round one of them is answered.
#[test]
fn a_command_is_answered_between_requests(rt: HostRuntime) {
    let turn = command_in(
        &rt,
        &rt,
        &Case {
            file: "between.db",
            play: Play::Nothing,
            control: None,
            has_command: true,
            sends: ["qqq.", "qqq."],
            ended: Ended::Enough,
            seen: (u32::MAX, false),
            asked: 7,
            hears: ["aaa", "aaa"],
        },
    );
    same(&rt, "after the first of both", turn > 2, true);
    same(&rt, "before the last of both", turn < 6, true);
}

#[test]
fn who_has_asked_is_answered_at_a_stop(rt: HostRuntime) {
    let _turn = command_in(
        &rt,
        &rt,
        &Case {
            file: "stop.db",
            play: Play::Stop,
            control: Some(""),
            has_command: false,
            sends: ["q", "q"],
            ended: Ended::Stopped,
            seen: (u32::MAX, false),
            asked: 4,
            hears: ["al", "al"],
        },
    );
}

// Runs the server, checks all, and gives how often the service was asked up to the command beside it.
fn command_in(rt: &HostRuntime, ends: &impl Abort, case: &Case<'_>) -> u32 {
    let alloc = rt.alloc();
    let server = Server::bind(rt, alloc, 0, 2).expect(ends, "a server");
    let mut listener = listener(rt, &server, case.file).expect(ends, "sockets");
    let (file, text) = (case.file, case.control.unwrap_or("").as_bytes());
    let control = guest(rt, ends, (file, "control"), case.control.is_some(), text);
    let message = message(ends, alloc, ADDS_ANN);
    let user = guest(rt, ends, (file, "command"), case.has_command, &message);
    let clients = clients(rt, ends, &server, case);
    let asked = Cell::new(0);
    let mut clock = new_clock(rt, case.play, control.as_ref(), &clients, &asked);
    clock.waker = waker(&server, case.play).expect(ends, "a waker");
    let mut service = new_service(&asked, None);
    let at = Moment::clamped(0);
    let ended = server.run_beside(&clock, alloc, at, &mut service, &mut listener);
    has_ended(ends, ended, case.ended);
    let seen = (clock.asked_meanwhile.get(), clock.first.get());
    same(ends, "seen meanwhile", seen, case.seen);
    same(ends, "asked in all", asked.get(), case.asked);
    hears_all(rt, ends, &clients[0], case.hears[0]);
    hears_all(rt, ends, &clients[1], case.hears[1]);
    if let Some(user) = &user {
        is_done(ends, alloc, "the command", user, b"r");
    }
    forget(rt, case.file);
    service.command
}

// A listener for commands of a file, beside a server for two connections.
fn listener(rt: &HostRuntime, server: &Server, file: &str) -> io::Result<CommandListener> {
    let alloc = rt.alloc();
    lay(rt, file)?;
    let mut listener = CommandListener::closed(alloc)?;
    listener.open(rt, alloc, server.registry(), file)?;
    Ok(listener)
}

// A client that sends these bytes to a socket of a file, if it is to come.
fn guest(
    rt: &HostRuntime,
    ends: &impl Abort,
    socket: (&str, &str),
    comes: bool,
    bytes: &[u8],
) -> Option<UnixStream> {
    if !comes {
        return None;
    }
    let stream = connect(rt, socket.0, socket.1).expect(ends, "a client");
    send(ends, &stream, bytes);
    Some(stream)
}

// No guest has this token: those of commands come first, and then that of the command that holds the
// server.
fn waker(server: &Server, play: Play) -> io::Result<Option<Waker>> {
    match play {
        Play::Lapse => {
            let token = Token(FIRST_GUEST + GUEST_COUNT + 7);
            Ok(Some(Waker::new(server.registry(), token)?))
        }
        _ => Ok(None),
    }
}

fn clients(
    rt: &HostRuntime,
    ends: &impl Abort,
    server: &Server,
    case: &Case<'_>,
) -> [TcpStream; 2] {
    let clients = [
        client(rt, server).expect(ends, "a client"),
        client(rt, server).expect(ends, "a client"),
    ];
    send_all(ends, &clients[0], case.sends[0]);
    send_all(ends, &clients[1], case.sends[1]);
    wait(rt);
    clients
}

fn send_all(ends: &impl Abort, mut client: &TcpStream, sends: &str) {
    for what in sends.as_bytes() {
        let sent = match *what {
            b'q' => send_query(client),
            b'c' => client.write_all(COMMAND.as_bytes()),
            _ => client.shutdown(Shutdown::Write),
        };
        sent.expect(ends, "it is sent");
    }
}

fn hears_all(rt: &HostRuntime, ends: &impl Abort, client: &TcpStream, heard: &str) {
    let mut wanted = String::new(rt.alloc());
    for what in heard.as_bytes() {
        let answer = if *what == b'a' { ANSWER } else { LAST_ANSWER };
        wanted.push_str(answer).expect(ends, "memory");
    }
    hears(ends, rt.alloc(), "a client", client, wanted.as_str());
}
