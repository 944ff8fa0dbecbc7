//! `serve` over loopback: a client that connects where the program says that it listens.

use super::{begin, end, text_of, words};
use crate::outcome::same;
use registry_names::{FromRead, ToWrite};
use registry_program::program;
use sqlite::Unknown;
use std::io;
use std::io::{Read, Write};
use std::net::{Ipv4Addr, Net, OpenListener, OpenStream, Shutdown, SocketAddr};
use std::process::Abort;

const ASKS: &str = "GET /kit HTTP/1.1\r\nhost: localhost\r\n\r\n";

const ANSWER: &str =
    "HTTP/1.1 404 Not Found\r\ncontent-type: application/json\r\ncontent-length: 20\r\n\r\n{\"error\":\"NotFound\"}";

/// The message where as many connections came as were to be served.
const ENOUGH: &str = "ended: as many connections came as --connections says\n";

/// An output that connects a client as soon as its first bytes say where the program listens. The
/// client asks, and sends no more.
#[derive(Drop)]
struct Caller<'a, R: Net> {
    rt: &'a R,
    port: u16,
    asks: &'a str,
    taken: Vec<u8>,
    client: Option<R::Stream>,
}

impl<R: Net> Caller<'_, R> {
    fn connect(&self) -> io::Result<R::Stream> {
        let place = SocketAddr::from((Ipv4Addr::LOCALHOST, self.port));
        let mut client = self.rt.connect(place)?;
        client.write_all(self.asks.as_bytes())?;
        client.shutdown(Shutdown::Write)?;
        Ok(client)
    }

    // Adds what the client is sent to what the output was given.
    fn hear(&mut self) -> io::Result<()> {
        if let Some(mut client) = self.client.take() {
            client.read_to_end(&mut self.taken)?;
        }
        Ok(())
    }
}

impl<R: Net> Write for Caller<'_, R> {
    fn write(&mut self, buf: &[u8]) -> io::Result<usize> {
        if self.client.is_none() {
            self.client = Some(self.connect()?);
        }
        self.taken.write(buf)
    }

    fn flush(&mut self) -> io::Result<()> {
        Ok(())
    }
}

#[test]
fn a_registry_in_a_file_is_served(rt: HostRuntime) {
    begin(&rt, &rt, "files_of_serving");
    answers_client(&rt, &rt, "files_of_serving/registry.db", ASKS, ANSWER);
    end(&rt, "files_of_serving");
}

/// Checks that the program, while it serves the registry in this file, answers this to a client.
pub(super) fn answers_client(
    rt: &HostRuntime,
    ends: &impl Abort,
    db: &str,
    asks: &str,
    answer: &str,
) {
    let port = free_port(rt).expect(ends, "a port");
    let mut caller = Caller {
        rt,
        port,
        asks,
        taken: Vec::new(rt.alloc()),
        client: None,
    };
    is_served(rt, ends, db, &mut caller);
    let wanted = format!(in rt.alloc(); "listening 127.0.0.1:{port}\n{answer}");
    let wanted = wanted.expect(ends, "memory");
    same(ends, asks, text_of(&caller.taken), wanted.as_str());
}

// The caller is served, and the program says why it ends.
fn is_served<R: Net>(rt: &HostRuntime, ends: &impl Abort, db: &str, caller: &mut Caller<R>) {
    let port = caller.port;
    let line = format!(in rt.alloc(); "--db {db} serve --port {port} --connections 1");
    let line = line.expect(ends, "memory");
    let mut errors = Vec::new(rt.alloc());
    let status = program::<Unknown, _, _, _>(
        rt,
        rt.alloc(),
        &words(ends, rt.alloc(), line.as_str()),
        &mut FromRead::new(io::empty()),
        &mut ToWrite::new(&mut *caller),
        &mut ToWrite::new(&mut errors),
    );
    caller.hear().expect(ends, "an answer");
    same(ends, "its end", (status, text_of(&errors)), (0, ENOUGH));
}

// A port at which nobody listens.
fn free_port<R: Net>(rt: &R) -> io::Result<u16> {
    let listener = rt.bind(SocketAddr::from((Ipv4Addr::LOCALHOST, 0)))?;
    Ok(listener.local_addr()?.port())
}
