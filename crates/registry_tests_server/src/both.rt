//! A server that listens at a port and at a Unix socket.

use crate::client::{ANSWER, asking, has_ended, hears, wait};
use crate::outcome::same;
use crate::service::new_service;
use registry_names::Moment;
use registry_server::{Ended, ListenAt, LocalSocket, Server};
use std::cell::Cell;
use std::io;
use std::io::Write;
use std::net::Shutdown;
use std::os::unix::net::UnixStream;

/// The request of the client at the socket, which is for another package than that of the others.
const TOOL: &str = "GET /-/package/tool/dist-tags HTTP/1.1\r\n\r\n";

// Three clients wait at the port, and one at the socket, when the server lets in the first.
#[test]
fn who_waits_at_a_socket_is_let_in_beside_those_at_the_port(rt: HostRuntime) {
    let alloc = rt.alloc();
    let (socket, file) = LocalSocket::bind(&rt, alloc, "both.sock").expect(&rt, "a socket");
    let server = Server::bind_at(&rt, alloc, ListenAt::Both(0, socket), 4);
    let server = server.expect(&rt, "a server");
    let clients = [
        asking(&rt, &server).expect(&rt, "a client"),
        asking(&rt, &server).expect(&rt, "a client"),
        asking(&rt, &server).expect(&rt, "a client"),
    ];
    let beside = asking_for_tool(&rt).expect(&rt, "a client");
    wait(&rt);
    let asked = Cell::new(0);
    let mut service = new_service(&asked, None);
    let ended = server.run(&rt, alloc, Moment::clamped(0), &mut service);
    has_ended(&rt, ended, Ended::Enough);
    same(&rt, "asked", asked.get(), 4);
    let is_early = service.tool > 0 && service.tool < 3;
    same(&rt, "among the first two", is_early, true);
    for client in &clients {
        hears(&rt, alloc, "a client", client, ANSWER);
    }
    drop(beside);
    file.remove(&rt).expect(&rt, "the socket is removed");
}

// The client at the socket.
fn asking_for_tool(rt: &HostRuntime) -> io::Result<UnixStream> {
    let mut client = UnixStream::connect(rt, "both.sock")?;
    client.write_all(TOOL.as_bytes())?;
    client.shutdown(Shutdown::Write)?;
    Ok(client)
}
