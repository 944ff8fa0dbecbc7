//! The listening sockets at which connections come in.

use mio::net::{TcpListener, TcpStream, UnixListener};
use mio::{Interest, Registry, Token};
use std::io::ErrorKind;
use std::os::fd::OwnedFd;
use std::{io, mem};

/// A listening socket: a TCP port, or a Unix socket. Connections of both are stream sockets with
/// the same calls.
#[derive(Drop)]
pub(crate) enum Gate {
    Port(TcpListener),
    Path(UnixListener),
}

impl Gate {
    // Asks the system to report on it under a token.
    fn register(&mut self, registry: &Registry, token: Token) -> io::Result<()> {
        match self {
            Gate::Port(listener) => registry.register(listener, token, Interest::READABLE),
            Gate::Path(listener) => registry.register(listener, token, Interest::READABLE),
        }
    }

    // The next connection, or `WouldBlock` where none waits.
    fn accept(&self) -> io::Result<TcpStream> {
        match self {
            Gate::Port(listener) => accept_at_port(listener),
            Gate::Path(listener) => {
                let (stream, _) = listener.accept()?;
                Ok(TcpStream::from(OwnedFd::from(stream)))
            }
        }
    }
}

// The next connection. The system doesn't hold back what is sent on it to join it with more. Where
// that can't be set, the connection is broken, and its first visit finds that.
fn accept_at_port(listener: &TcpListener) -> io::Result<TcpStream> {
    let (stream, _) = listener.accept()?;
    let _ = stream.set_nodelay(true);
    Ok(stream)
}

fn port_of(listener: &TcpListener) -> io::Result<u16> {
    Ok(listener.local_addr()?.port())
}

/// One gate, or two that take turns.
#[derive(Drop)]
pub(crate) struct Gates {
    next: Gate,
    other: Option<Gate>,
}

impl Gates {
    /// One gate.
    pub(crate) fn one(gate: Gate) -> Gates {
        Gates {
            next: gate,
            other: None,
        }
    }

    /// Two gates.
    pub(crate) fn two(first: Gate, second: Gate) -> Gates {
        Gates {
            next: first,
            other: Some(second),
        }
    }

    /// Asks the system to report on each under the same token.
    pub(crate) fn register(&mut self, registry: &Registry, token: Token) -> io::Result<()> {
        self.next.register(registry, token)?;
        match &mut self.other {
            Some(other) => other.register(registry, token),
            None => Ok(()),
        }
    }

    /// The port, where one of the gates is a port. `NotConnected` is returned where none is.
    pub(crate) fn port(&self) -> io::Result<u16> {
        match (&self.next, &self.other) {
            (Gate::Port(listener), _) => port_of(listener),
            (_, Some(Gate::Port(listener))) => port_of(listener),
            _ => Err(io::Error::from(ErrorKind::NotConnected)),
        }
    }

    /// The next connection, or `WouldBlock` where none waits at either gate. The gates take turns
    /// in being asked first.
    pub(crate) fn accept(&mut self) -> io::Result<TcpStream> {
        self.turn();
        match self.next.accept() {
            Err(error) if error.kind() == ErrorKind::WouldBlock => self.accept_at_other(error),
            accepted => accepted,
        }
    }

    // The next connection at the other gate, where none waits at this one.
    fn accept_at_other(&self, nobody: io::Error) -> io::Result<TcpStream> {
        match &self.other {
            Some(other) => other.accept(),
            None => Err(nobody),
        }
    }

    // It is the other gate's turn.
    fn turn(&mut self) {
        if let Some(other) = &mut self.other {
            mem::swap(&mut self.next, other);
        }
    }
}
