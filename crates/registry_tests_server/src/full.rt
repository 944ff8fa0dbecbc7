//! A server whose places are all taken.

use crate::client::{ANSWER, asking, client, has_ended, hears, wait};
use crate::outcome::same;
use crate::service::{Waking, new_service};
use registry_names::Moment;
use registry_server::{CONNECTION_COUNT, Ended, Server};
use std::cell::Cell;
use std::process::Abort;

// Clients come in the order in which they connect: two that are idle; `left` that leave at once;
// enough that ask and leave to take all other places; and then newcomers, one more than have left
// at once. When the server comes to the clients that have asked and left, it has looked at the
// first two, from which nothing had come. Clients that have left take no descriptor here: a process
// may often have only 1,024, too few for both ends of each connection.
// The test ends by `ends`.
fn newcomers_come(rt: &HostRuntime, ends: &impl Abort, left: usize) {
    let alloc = rt.alloc();
    let gone = (CONNECTION_COUNT - 2).saturating_sub(left);
    let count = CONNECTION_COUNT.saturating_add(left).saturating_add(1);
    let server = Server::bind(rt, alloc, 0, count as u64).expect(ends, "a server");
    let asks = client(rt, &server).expect(ends, "a client");
    let idle = client(rt, &server).expect(ends, "a client");
    for _ in 0..left {
        drop(client(rt, &server).expect(ends, "a client"));
    }
    for _ in 0..gone {
        drop(asking(rt, &server).expect(ends, "a client"));
    }
    let mut newcomers = Vec::new(alloc);
    for _ in 0..left.saturating_add(1) {
        let newcomer = asking(rt, &server).expect(ends, "a client");
        newcomers.push(newcomer).expect(ends, "memory");
    }
    wait(rt);
    let asked = Cell::new(0);
    let waking = Waking {
        rt,
        gone: gone as u64,
        asks: &asks,
        idle: &idle,
    };
    let mut service = new_service(&asked, Some(waking));
    let ended = server.run(rt, alloc, Moment::clamped(0), &mut service);
    has_ended(ends, ended, Ended::Enough);
    let all = CONNECTION_COUNT as u64;
    same(ends, "asked", u64::from(asked.get()), all);
    hears(ends, alloc, "who has asked", &asks, ANSWER);
    hears(ends, alloc, "who is idle", &idle, "");
    for newcomer in &newcomers {
        hears(ends, alloc, "a newcomer", newcomer, ANSWER);
    }
}

// Every place is taken when the newcomer is let in.
#[test]
fn an_idle_connection_ends_for_a_newcomer(rt: HostRuntime) {
    newcomers_come(&rt, &rt, 0);
}

// One place is free when both newcomers are let in: the first takes it, and so every place is taken
// when the second is.
#[test]
fn an_idle_connection_ends_for_the_second_newcomer(rt: HostRuntime) {
    newcomers_come(&rt, &rt, 1);
}
