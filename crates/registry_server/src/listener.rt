//! Where connections come in.

ghost use Rattle.std.specs.Prelude.{◌≡◌, ◌&&◌, Some, true, not, IfOk, IfSome, IfNone, OnErr};
ghost use Rattle.std.specs.Net.Addr.{IsV4And, ipv4_octets};
ghost use Rattle.std.specs.Net.Socket.{socket_ip, socket_port};
ghost use Rattle.registry_server.specs.Listening as spec;
ghost use Rattle.registry_server.specs.Listening.{counted, expecting, lets_in, loopback, one_less};

use crate::gates::{Gate, Gates};
use crate::local_socket::LocalSocket;
use mio::net::{TcpListener, TcpStream};
use mio::{Registry, Token};
use std::io;
use std::io::ErrorKind;
use std::marker::Model;
use std::net::{Ipv4Addr, Net, SocketAddr};

/// From this number on connections aren't counted.
pub const UNCOUNTED: u64 = 1_000_000;

// What the system says where the process may open no more descriptors, and where no process may.
const NONE_IN_PROCESS: i32 = 24;

const NONE_IN_SYSTEM: i32 = 23;

/// The system has no descriptor left.
#[derive(Clone, Copy, Debug, PartialEq, Eq)]
pub struct NoDescriptor;

/// Where a server listens.
#[derive(Drop)]
pub enum ListenAt {
    /// At a port of 127.0.0.1, or at any free port where it is 0.
    Port(u16),
    /// At a Unix socket.
    Socket(LocalSocket),
    /// At a port, as above, and at a Unix socket.
    Both(u16, LocalSocket),
}

/// Where connections come in, and how many more are to come in, where they are counted. It is
/// closed once the last connection was taken, or once it was shut.
#[derive(Drop)]
pub struct Listener {
    gates: Option<Gates>,
    left: Option<u64>,
    // Whether more connections may wait than have been taken.
    is_asked: bool,
}

impl Model for Listener {
    ghost use Rattle.std.specs.Prelude.{◌≡◌, is_some};
    ghost use Rattle.registry_server.specs.Listening.{Expected, expecting, lets_in};

    ghost Value = { Expected };

    ghost view = { λ l. expecting l.left l.is_asked };

    ghost invariant = { λ l. is_some l.gates ≡ lets_in l.left };
}

impl Listener {
    /// Listens at a place for `count` connections, at least one; from [`UNCOUNTED`] on, for all
    /// that come. The errors are those of the system.
    pub fn open<R: Net>(
        rt: &R,
        registry: &Registry,
        token: Token,
        at: ListenAt,
        count: u64,
    ) -> io::Result<Listener>
        ensures { IfOk result (λ l. l ≡ expecting (counted count) true) }
    {
        let mut gates = gates_at(rt, at)?;
        gates.register(registry, token)?;
        Ok(Listener {
            gates: Some(gates),
            left: counted(count),
            is_asked: true,
        })
    }

    /// The port at which it listens. `NotConnected` is returned where it listens at no port.
    pub fn port(&self) -> io::Result<u16> {
        match &self.gates {
            Some(gates) => gates.port(),
            None => Err(io::Error::from(ErrorKind::NotConnected)),
        }
    }

    /// Somebody is there.
    pub fn ask(&mut self)
        ensures { self.new ≡ expecting self.old.left true }
    {
        self.is_asked = true;
    }

    /// Whether somebody may be there.
    pub fn is_asked(&self) -> bool
        ensures { result ≡ self.now.is_asked && lets_in self.now.left }
    {
        self.is_asked && self.gates.is_some()
    }

    /// Nobody comes in any more.
    pub fn shut(&mut self)
        ensures { self.new ≡ expecting (Some 0) self.old.is_asked }
    {
        self.gates = None;
        self.left = Some(0);
    }

    /// Whether nobody comes in any more.
    pub fn is_shut(&self) -> bool
        ensures { result ≡ not (lets_in self.now.left) }
    {
        self.gates.is_none()
    }

    /// Lets one connection in, if one is there. The last one closes the listener. An error is
    /// returned where the system has no descriptor left for one: then somebody may still be there.
    pub fn admit(&mut self) -> Result<Option<TcpStream>, NoDescriptor>
        ensures some { IfOk result (λ came. IfSome came (λ _. self.new ≡ expecting (one_less self.old.left) self.old.is_asked)) }
        ensures lets_in { IfOk result (λ came. IfSome came (λ _. lets_in self.old.left ≡ true)) }
        ensures none { IfOk result (λ came. IfNone came (self.new.left ≡ self.old.left)) }
        ensures err { OnErr result (self.new ≡ self.old) }
    {
        let Some(gates) = &mut self.gates else {
            return Ok(None);
        };
        match gates.accept() {
            Ok(stream) => {
                self.came_in();
                Ok(Some(stream))
            }
            Err(error) if lacks_descriptor(&error) => Err(NoDescriptor),
            Err(error) => {
                if error.kind() == ErrorKind::WouldBlock {
                    self.is_asked = false;
                }
                Ok(None)
            }
        }
    }

    // One came in. The last one closes the listener.
    fn came_in(&mut self)
        ensures { self.new ≡ expecting (one_less self.old.left) self.old.is_asked }
    {
        self.left = one_less(self.left);
        if !may_come(self.left) {
            self.gates = None;
        }
    }
}

// The gates of a place.
fn gates_at<R: Net>(rt: &R, at: ListenAt) -> io::Result<Gates> {
    match at {
        ListenAt::Port(port) => Ok(Gates::one(gate_at(rt, port)?)),
        ListenAt::Socket(socket) => Ok(Gates::one(Gate::Path(socket.listener))),
        ListenAt::Both(port, socket) => {
            let gate = gate_at(rt, port)?;
            Ok(Gates::two(gate, Gate::Path(socket.listener)))
        }
    }
}

// The gate of a port.
fn gate_at<R: Net>(rt: &R, port: u16) -> io::Result<Gate> {
    Ok(Gate::Port(TcpListener::bind(rt, address(port))?))
}

// The address of a port: 127.0.0.1, which can't be reached over a network, and this port.
fn address(port: u16) -> SocketAddr
    ensures ip { IsV4And (socket_ip result) (λ ip. ipv4_octets ip ≡ loopback) }
    ensures port { socket_port result ≡ port }
{
    SocketAddr::from((Ipv4Addr::LOCALHOST, port))
}

// Whether a call of the system failed because no descriptor is left.
fn lacks_descriptor(error: &io::Error) -> bool {
    match error.raw_os_error() {
        Some(code) => code == NONE_IN_PROCESS || code == NONE_IN_SYSTEM,
        None => false,
    }
}

// How many connections are to come in, where they are counted.
fn counted(count: u64) -> Option<u64>
    ensures { result ≡ spec.counted count }
{
    if count < UNCOUNTED {
        Some(count.max(1))
    } else {
        None
    }
}

// How many more are to come in after one has.
fn one_less(left: Option<u64>) -> Option<u64>
    ensures { result ≡ spec.one_less left }
{
    match left {
        Some(left) => Some(left.saturating_sub(1)),
        None => None,
    }
}

// Whether one more may come in.
fn may_come(left: Option<u64>) -> bool
    ensures { result ≡ spec.lets_in left }
{
    match left {
        Some(left) => left > 0,
        None => true,
    }
}
