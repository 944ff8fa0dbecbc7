//! Clients of a server.

use crate::outcome::same;
use registry_server::{Ended, Server};
use std::alloc::Global;
use std::io::{Read, Write};
use std::net::{Ipv4Addr, Net, Shutdown, SocketAddr, TcpStream};
use std::process::Abort;
use std::time::Duration;
use std::{io, thread};

/// A request.
const REQUEST: &str = "GET /-/package/kit/dist-tags HTTP/1.1\r\n\r\n";

/// A request that may change a registry.
pub const COMMAND: &str =
    "PUT /-/package/kit/dist-tags/next HTTP/1.1\r\ncontent-length: 7\r\n\r\n\"1.0.0\"";

/// The answer to either, where the connection goes on.
pub const ANSWER: &str =
    "HTTP/1.1 200 OK\r\ncontent-type: application/json\r\ncontent-length: 11\r\n\r\n{\"ok\":true}";

/// The answer to either, where it is the last.
pub const LAST_ANSWER: &str =
    "HTTP/1.1 200 OK\r\ncontent-type: application/json\r\ncontent-length: 11\r\nconnection: close\r\n\r\n{\"ok\":true}";

/// What was sent over loopback is there after this many milliseconds, also on a busy machine.
const TRANSIT: u64 = 100;

/// A client over HTTP.
pub fn client(rt: &HostRuntime, server: &Server) -> io::Result<TcpStream> {
    let port = server.port()?;
    rt.connect(SocketAddr::from((Ipv4Addr::LOCALHOST, port)))
}

/// A client over HTTP that has asked, and sends no more.
pub fn asking(rt: &HostRuntime, server: &Server) -> io::Result<TcpStream> {
    let client = client(rt, server)?;
    send_last(&client)?;
    Ok(client)
}

/// Sends a request over HTTP.
pub fn send(mut client: &TcpStream) -> io::Result<()> {
    client.write_all(REQUEST.as_bytes())
}

/// Sends a request over HTTP, and says that no more comes.
pub fn send_last(client: &TcpStream) -> io::Result<()> {
    send(client)?;
    client.shutdown(Shutdown::Write)
}

/// Whether a client over HTTP was sent one answer, and nothing more yet.
pub fn is_answered(mut client: &TcpStream) -> io::Result<bool> {
    client.set_read_timeout(Some(Duration::from_millis(TRANSIT)))?;
    let mut piece = [0; 256];
    let count = client.read(&mut piece)?;
    client.set_read_timeout(None)?;
    Ok(&piece[..count] == ANSWER.as_bytes())
}

/// Waits until what was sent over loopback is there.
pub fn wait(rt: &HostRuntime) {
    thread::sleep(rt, Duration::from_millis(TRANSIT));
}

/// Checks that the run of a server ended like this.
pub fn has_ended(rt: &impl Abort, ended: io::Result<Ended>, wanted: Ended) {
    same(rt, "it ended", ended.expect(rt, "an end"), wanted);
}

/// Checks that this is everything that a client over HTTP was sent, once its connection has ended.
pub fn hears(rt: &impl Abort, alloc: Global, case: &str, mut client: &TcpStream, wanted: &str) {
    let mut text = String::new(alloc);
    client.read_to_string(&mut text).expect(rt, "a text comes");
    same(rt, case, text.as_str(), wanted);
}
