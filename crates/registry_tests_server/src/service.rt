//! A service that does whatever it is asked.

ghost use Rattle.std.specs.Prelude.{false};
ghost use Rattle.registry_service.proofs.DialectFacts.{profile_asks_queries};
ghost use Rattle.registry_service.specs.Turns.{profile};

use crate::client::{send_last, wait};
use registry_names::{Fault, Moment};
use registry_rules::{Action, Reply, Request};
use registry_service::{HttpService, Service, Turned, turn};
use registry_wire::Wanted;
use std::alloc::Global;
use std::cell::Cell;
use std::io;
use std::net::{Shutdown, TcpStream};

/// A service that does whatever it is asked, and counts that.
#[derive(Drop)]
pub struct Counting<'a> {
    /// How often it was asked. Whoever plays a client sees that, too.
    pub asked: &'a Cell<u32>,
    /// How often it was asked up to the last command that adds a user, and up to the last request for
    /// the tags of `tool`.
    pub command: u32,
    pub tool: u32,
    /// How often it was told to look up what it lacks, and that a round is over.
    pub looks: Cell<u32>,
    pub rests: Cell<u32>,
    /// Clients that go on when it is asked.
    pub waking: Option<Waking<'a>>,
}

/// Two idle clients. At the first request of the service one of them asks, too; and once all clients
/// that have left are answered, the other ends.
#[derive(Drop)]
pub struct Waking<'a> {
    pub rt: &'a HostRuntime,
    /// How many clients have asked and left.
    pub gone: u64,
    pub asks: &'a TcpStream,
    pub idle: &'a TcpStream,
}

impl Waking<'_> {
    fn play(&self, asked: u32) -> io::Result<()> {
        if asked == 1 {
            send_last(self.asks)?;
            wait(self.rt);
        }
        // It fails where the connection has ended, as it should have.
        if u64::from(asked) > self.gone {
            let _ = self.idle.shutdown(Shutdown::Write);
        }
        Ok(())
    }
}

/// A service that was asked nothing yet, and the clients that go on when it is asked.
pub fn new_service<'a>(asked: &'a Cell<u32>, waking: Option<Waking<'a>>) -> Counting<'a> {
    Counting {
        asked,
        command: 0,
        tool: 0,
        looks: Cell::new(0),
        rests: Cell::new(0),
        waking,
    }
}

impl Service for Counting<'_> {
    ghost answers = { λ M r o N. Unit {0} };

    ghost over = { λ _. false };

    fn answer(&mut self, _alloc: Global, request: &Request) -> Result<Reply, Fault> {
        let asked = one_more(self.asked);
        match &request.what {
            Action::UserAdd { .. } => self.command = asked,
            Action::Tags { package } => {
                if package.text() == "tool" {
                    self.tool = asked;
                }
            }
            _ => {}
        }
        if let Some(waking) = &self.waking {
            if waking.play(asked).is_err() {
                return Err(Fault::Database);
            }
        }
        Ok(Reply::Done)
    }

    fn is_over(&self) -> bool {
        false
    }

    fn look_up(&mut self, _alloc: Global) {
        let _looks = one_more(&self.looks);
    }

    fn rest(&mut self) {
        let _rests = one_more(&self.rests);
    }
}

impl HttpService for Counting<'_> {
    ghost speaks = { profile };

    fn turn(&mut self, alloc: Global, wanted: &Wanted, at: Moment, is_last: bool) -> Turned {
        turn(alloc, self, wanted, at, is_last)
    }

    ghost asks_queries = { profile_asks_queries };
}

/// Counts one more, and returns the count.
pub fn one_more(count: &Cell<u32>) -> u32 {
    let more = count.get().saturating_add(1);
    count.set(more);
    more
}
