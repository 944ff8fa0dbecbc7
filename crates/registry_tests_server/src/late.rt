//! A server whose time passes.

use crate::client::{ANSWER, client, has_ended, hears};
use crate::clock::{Play, new_clock};
use crate::outcome::same;
use crate::service::new_service;
use mio::{Token, Waker};
use registry_names::Moment;
use registry_server::{Ended, FIRST_GUEST, Server};
use std::cell::Cell;

#[test]
fn a_silent_connection_ends_after_a_minute(rt: HostRuntime) {
    let alloc = rt.alloc();
    let server = Server::bind(&rt, alloc, 0, 2).expect(&rt, "a server");
    let clients = [
        client(&rt, &server).expect(&rt, "a client"),
        client(&rt, &server).expect(&rt, "a client"),
    ];
    clients[0]
        .set_nonblocking(true)
        .expect(&rt, "it never waits");
    let asked = Cell::new(0);
    let mut clock = new_clock(&rt, Play::Silence, None, &clients, &asked);
    clock.waker = Waker::new(server.registry(), Token(FIRST_GUEST)).ok();
    clock.first.set(true);
    let mut service = new_service(&asked, None);
    let ended = server.run(&clock, alloc, Moment::clamped(0), &mut service);
    has_ended(&rt, ended, Ended::Enough);
    same(&rt, "a waker", clock.waker.is_some(), true);
    same(&rt, "ended after 58 s", clock.first.get(), false);
    same(&rt, "ended after 62 s", clock.second.get(), true);
    let both = ANSWER.repeat(alloc, 2).expect(&rt, "memory");
    hears(&rt, alloc, "who has asked", &clients[1], both.as_str());
}
