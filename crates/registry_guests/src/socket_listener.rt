//! A socket that listens.

use crate::guest_socket::GuestSocket;
use mio::net::UnixListener;
use mio::{Interest, Registry, Token};
use std::io;
use std::io::ErrorKind;

/// A socket that listens, and whether more connections may wait there. A closed listener accepts
/// nobody.
#[derive(Drop)]
pub(crate) struct SocketListener {
    listener: Option<UnixListener>,
    is_ready: bool,
}

impl SocketListener {
    /// A closed listener.
    pub(crate) fn closed() -> SocketListener {
        SocketListener {
            listener: None,
            is_ready: false,
        }
    }

    /// A listener over a socket that listens, on which the system is to report under a token. An
    /// error is the system's.
    pub(crate) fn open(
        mut listener: UnixListener,
        registry: &Registry,
        token: Token,
    ) -> io::Result<SocketListener> {
        registry.register(&mut listener, token, Interest::READABLE)?;
        Ok(SocketListener {
            listener: Some(listener),
            is_ready: true,
        })
    }

    /// Somebody may wait.
    pub(crate) fn wake(&mut self) {
        self.is_ready = true;
    }

    /// Accepts the next connection. `None` where nobody waits.
    pub(crate) fn accept(&mut self) -> Option<GuestSocket> {
        if !self.is_ready {
            return None;
        }
        match self.listener.as_ref()?.accept() {
            Ok((stream, _)) => Some(GuestSocket::of(stream)),
            Err(error) => {
                if error.kind() == ErrorKind::WouldBlock {
                    self.is_ready = false;
                }
                None
            }
        }
    }
}
