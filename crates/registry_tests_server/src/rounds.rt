//! What a server tells its service beside requests.

use crate::client::{ANSWER, asking, has_ended, hears};
use crate::outcome::same;
use crate::service::new_service;
use registry_names::Moment;
use registry_server::{Ended, Server};
use std::cell::Cell;

#[test]
fn a_service_is_told_of_each_round(rt: HostRuntime) {
    let alloc = rt.alloc();
    let server = Server::bind(&rt, alloc, 0, 1).expect(&rt, "a server");
    let asks = asking(&rt, &server).expect(&rt, "a client");
    let asked = Cell::new(0);
    let mut service = new_service(&asked, None);
    let ended = server.run(&rt, alloc, Moment::clamped(0), &mut service);
    has_ended(&rt, ended, Ended::Enough);
    same(&rt, "rounds were told", service.rests.get() > 0, true);
    let (looks, rests) = (service.looks.get(), service.rests.get());
    same(&rt, "with a look each", looks, rests);
    hears(&rt, alloc, "the client", &asks, ANSWER);
}
