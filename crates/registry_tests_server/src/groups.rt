//! Commands that come at one moment at a server whose service fails.

ghost use Rattle.std.specs.Prelude.{◌≡◌, false, true};
ghost use Rattle.registry_service.proofs.DialectFacts.{profile_asks_queries};
ghost use Rattle.registry_service.specs.Dialects.{AsksOne};
ghost use Rattle.registry_service.specs.Turns.{profile};

use crate::client::{COMMAND, client, has_ended, hears, wait};
use crate::outcome::same;
use registry_names::{Fault, Moment};
use registry_rules::{Reply, Request};
use registry_server::{Ended, Server};
use registry_service::{HttpService, Service, Turned, turn};
use registry_wire::Wanted;
use std::alloc::Global;
use std::cell::Cell;
use std::io;
use std::io::Write;
use std::net::{Shutdown, TcpStream};

/// What each client hears.
const FAULT: &str =
    "HTTP/1.1 503 Service Unavailable\r\ncontent-type: application/json\r\ncontent-length: 18\r\nconnection: close\r\n\r\n{\"error\":\"Memory\"}";

/// A service that does a request, and has no memory for commands together.
#[derive(Drop)]
struct Failing<'a> {
    /// How many requests were done, how many times commands were asked together, and how many these
    /// were in all.
    asked: &'a Cell<(u32, u32, usize)>,
}

impl Service for Failing<'_> {
    ghost answers = { λ M r o N. Unit {0} };

    ghost over = { λ _. false };

    fn answer(&mut self, _alloc: Global, _request: &Request) -> Result<Reply, Fault> {
        let (done, groups, together) = self.asked.get();
        self.asked.set((done.saturating_add(1), groups, together));
        Ok(Reply::Done)
    }

    fn answer_together(
        &mut self,
        _alloc: Global,
        requests: &[Request],
        outcomes: &mut [Result<Reply, Fault>],
    ) {
        let (done, groups, together) = self.asked.get();
        let together = together.saturating_add(requests.len());
        self.asked.set((done, groups.saturating_add(1), together));
        for (place, _) in requests.iter().enumerate() {
            outcomes[place] = Err(Fault::Memory);
        }
    }

    fn is_over(&self) -> bool {
        false
    }
}

impl HttpService for Failing<'_> {
    ghost speaks = { profile };

    fn turn(&mut self, alloc: Global, wanted: &Wanted, at: Moment, is_last: bool) -> Turned {
        turn(alloc, self, wanted, at, is_last)
    }

    fn asks_one(&self, _wanted: &Wanted) -> bool
        ensures { result ≡ true → AsksOne profile _wanted.now }
    {
        true
    }

    ghost asks_queries = { profile_asks_queries };
}

// Each of three clients is answered by the one fault, and its connection ends.
#[test]
fn commands_that_come_together_meet_one_fault(rt: HostRuntime) {
    let alloc = rt.alloc();
    let server = Server::bind(&rt, alloc, 0, 3).expect(&rt, "a server");
    let clients = [
        commanding(&rt, &server).expect(&rt, "a client"),
        commanding(&rt, &server).expect(&rt, "a client"),
        commanding(&rt, &server).expect(&rt, "a client"),
    ];
    wait(&rt);
    let asked = Cell::new((0, 0, 0));
    let mut service = Failing { asked: &asked };
    let ended = server.run(&rt, alloc, Moment::clamped(0), &mut service);
    has_ended(&rt, ended, Ended::Enough);
    same(&rt, "how it is asked", asked.get(), (0, 1, 3));
    for client in &clients {
        hears(&rt, alloc, "a client", client, FAULT);
    }
}

// A client that sends a command, and no more.
fn commanding(rt: &HostRuntime, server: &Server) -> io::Result<TcpStream> {
    let mut client = client(rt, server)?;
    client.write_all(COMMAND.as_bytes())?;
    client.shutdown(Shutdown::Write)?;
    Ok(client)
}
