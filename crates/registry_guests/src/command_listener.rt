//! Where commands reach a server: two Unix sockets in a folder beside the registry's file, which the
//! file's owner alone enters.
//!
//! Whoever may enter the folder may write the file, so a guest shows no token. The process that
//! holds the file's lock listens there, and may remove what an earlier server left.

ghost use Rattle.registry_guests.specs.Controls.{AcceptsIfFree};

use crate::asking::connect_at;
use crate::control::Control;
use crate::folder::{
    COMMAND_SOCKET, CONTROL_SOCKET, IDENTITY, folder_of, make_folder, path_in, remove,
};
use crate::guest_pool::{GUEST_COUNT, GuestPool};
use crate::guest_socket::GuestSocket;
use crate::identity::identity_of;
use crate::socket_listener::SocketListener;
use mio::net::UnixListener;
use mio::{Registry, Token};
use registry_server::{FIRST_GUEST, Guests, Socket};
use registry_service::{Clock, Service};
use std::alloc::Global;
use std::fs::Files;
use std::io::ErrorKind;
use std::net::Net;
use std::{fs, io};

/// The tokens, counted from that of the first guest: the slots' are their numbers.
const COMMAND_TOKEN: usize = GUEST_COUNT;

const CONTROL_TOKEN: usize = GUEST_COUNT + 1;

const CONTROL_CONNECTION_TOKEN: usize = GUEST_COUNT + 2;

// Removes what a server has in its folder. The control socket is the last: once that is gone, the next
// server may listen there, and nothing of it is removed.
fn remove_all<R: Files>(rt: &R, alloc: Global, folder: &str) -> io::Result<()> {
    for name in [COMMAND_SOCKET, IDENTITY, CONTROL_SOCKET] {
        remove(rt, path_in(alloc, folder, name)?.as_str())?;
    }
    Ok(())
}

// Listens in the folder, where no other server does. What an earlier server left is taken away first.
fn listen<R: Files + Net>(
    rt: &R,
    alloc: Global,
    folder: &str,
    file: &str,
) -> io::Result<(UnixListener, UnixListener)> {
    let command = path_in(alloc, folder, COMMAND_SOCKET)?;
    let control = path_in(alloc, folder, CONTROL_SOCKET)?;
    if connect_at(rt, control.as_str())?.is_some() {
        return Err(io::Error::from(ErrorKind::AddrInUse));
    }
    remove_all(rt, alloc, folder)?;
    let identity = identity_of(rt, alloc, file)?;
    fs::write(
        rt,
        path_in(alloc, folder, IDENTITY)?.as_str(),
        identity.as_str(),
    )?;
    let listeners = bind(rt, command.as_str(), control.as_str());
    if listeners.is_err() {
        let _ = remove_all(rt, alloc, folder);
    }
    listeners
}

fn bind<R: Files + Net>(
    rt: &R,
    command: &str,
    control: &str,
) -> io::Result<(UnixListener, UnixListener)> {
    let control = UnixListener::bind(rt, control)?;
    let command = UnixListener::bind(rt, command)?;
    Ok((command, control))
}

/// Listens for commands: has the guests that are answered, and the connection that holds or stops
/// the server. A closed listener accepts nobody.
///
/// It keeps the connection that stops the server until it is dropped. So drop it after the file is
/// let go of.
#[derive(Drop)]
pub struct CommandListener {
    command_socket: SocketListener,
    control_socket: SocketListener,
    pool: GuestPool<GuestSocket>,
    control: Control<GuestSocket>,
    is_open: bool,
}

impl CommandListener {
    /// A closed listener.
    ///
    /// An error is returned where no memory is left.
    pub fn closed(alloc: Global) -> io::Result<CommandListener> {
        Ok(CommandListener {
            command_socket: SocketListener::closed(),
            control_socket: SocketListener::closed(),
            pool: GuestPool::new(alloc)?,
            control: Control::new(),
            is_open: false,
        })
    }

    /// Listens at the sockets of the file, whose lock the caller holds. It stays closed after an error.
    ///
    /// `PermissionDenied` comes where the folder is another's or others may enter it, `AddrInUse` where
    /// another server listens there, which has another file, `InvalidInput` where the path is too long
    /// for a socket (92 bytes is the longest path of a file), and else what the system says.
    pub fn open<R: Files + Net + Alloc>(
        &mut self,
        rt: &R,
        alloc: Global,
        registry: &Registry,
        file: &str,
    ) -> io::Result<()> {
        let folder = folder_of(rt, alloc, file)?;
        make_folder(rt, folder.as_str(), file)?;
        let (commands, controls) = listen(rt, alloc, folder.as_str(), file)?;
        let controls = SocketListener::open(
            controls,
            registry,
            Token(FIRST_GUEST + CONTROL_TOKEN),
        )?;
        self.command_socket = SocketListener::open(
            commands,
            registry,
            Token(FIRST_GUEST + COMMAND_TOKEN),
        )?;
        self.control_socket = controls;
        self.is_open = true;
        Ok(())
    }

    /// Removes the sockets of the file and their folder, if it was opened. It goes on with the
    /// connections that it has. To be called while the file is still locked, also after a stop.
    ///
    /// An error is the system's.
    pub fn remove_sockets<R: Files + Alloc>(
        &self,
        rt: &R,
        alloc: Global,
        file: &str,
    ) -> io::Result<()> {
        if !self.is_open {
            return Ok(());
        }
        let folder = folder_of(rt, alloc, file)?;
        remove_all(rt, alloc, folder.as_str())?;
        fs::remove_dir(rt, folder.as_str())
    }
}

// Accepts commands, as long as there are free slots.
fn accept_commands(
    pool: &mut GuestPool<GuestSocket>,
    listener: &mut SocketListener,
    alloc: Global,
    registry: &Registry,
    now: u64,
) {
    for _ in 0..GUEST_COUNT {
        let Some(number) = pool.place() else {
            return;
        };
        match listener.accept() {
            Some(socket) => add_guest(pool, alloc, registry, number, socket, now),
            None => return,
        }
    }
}

// A guest takes a slot, and is told that the server is ready. One that can't be told so, or that the
// system can't report on, ends.
fn add_guest(
    pool: &mut GuestPool<GuestSocket>,
    alloc: Global,
    registry: &Registry,
    number: usize,
    mut socket: GuestSocket,
    now: u64,
) {
    if number < GUEST_COUNT {
        let token = Token(FIRST_GUEST + number);
        if socket.register(registry, token).is_ok() && socket.greet() {
            pool.add(alloc, number, socket, now);
        }
    }
}

// Accepts a connection that is to hold or stop the server, if none is there. One that the system can't
// report on ends.
fn accept_control(
    control: &mut Control<GuestSocket>,
    listener: &mut SocketListener,
    registry: &Registry,
    now: u64,
)
    ensures { AcceptsIfFree now control.old control.new }
{
    if !control.is_free() {
        return;
    }
    if let Some(mut socket) = listener.accept() {
        let token = Token(FIRST_GUEST + CONTROL_CONNECTION_TOKEN);
        if socket.register(registry, token).is_ok() {
            control.add(socket, now);
        }
    }
}

impl Guests for CommandListener {
    ghost use Rattle.registry_guests.specs.Controls as spec;
    ghost use Rattle.registry_guests.specs.GuestPools.{VisitsSlots, can_go_on, is_empty};

    ghost holds = { λ d. spec.holds d.control };

    ghost stops = { λ d. spec.stops d.control };

    ghost busy = { λ d. can_go_on d.control d.pool.slots.items };

    ghost empty = { λ d. is_empty d.pool.slots.items };

    ghost attends = { λ now old new.
        spec.Attends ⟦<GuestSocket as Socket>⟧.received ⟦<GuestSocket as Socket>⟧.sent
        ⟦<GuestSocket as Socket>⟧.has_none ⟦<GuestSocket as Socket>⟧.is_ended
        ⟦<GuestSocket as Socket>⟧.is_broken now old.control new.control };

    ghost visits = { λ answers over most d M N readings readings2.
        VisitsSlots ⟦<GuestSocket as Socket>⟧.received ⟦<GuestSocket as Socket>⟧.sent
        ⟦<GuestSocket as Socket>⟧.has_none ⟦<GuestSocket as Socket>⟧.is_full
        ⟦<GuestSocket as Socket>⟧.is_ended ⟦<GuestSocket as Socket>⟧.is_broken
        answers over most d.pool.slots.items M N readings readings2 };

    fn holds(&self) -> bool {
        self.control.holds()
    }

    fn stops(&self) -> bool {
        self.control.stops()
    }

    /// Visits the connection that holds or stops the server, ends one that is late, and accepts the
    /// next. Once the server is to end, it accepts no command.
    fn attend(&mut self, registry: &Registry, now: u64) {
        self.control.visit(now);
        self.control.end_late(now);
        if self.control.stops() {
            self.command_socket = SocketListener::closed();
        }
        accept_control(&mut self.control, &mut self.control_socket, registry, now);
    }

    fn wake(&mut self, number: usize) {
        if number == COMMAND_TOKEN {
            self.command_socket.wake();
        } else if number == CONTROL_TOKEN {
            self.control_socket.wake();
        } else if number == CONTROL_CONNECTION_TOKEN {
            self.control.wake();
        } else {
            self.pool.wake(number);
        }
    }

    fn is_busy(&self) -> bool {
        self.control.is_busy() || !self.control.holds() && self.pool.is_busy()
    }

    fn is_empty(&self) -> bool {
        self.pool.is_empty()
    }

    /// Visits once each guest that is to be visited, ends those that are late, and accepts new ones.
    fn visit<D: Service, C: Clock>(
        &mut self,
        alloc: Global,
        service: &mut D,
        clock: &mut C,
        buffer: &mut [u8],
        registry: &Registry,
        now: u64,
    ) {
        self.pool.visit_all(alloc, service, clock, buffer);
        self.pool.end_late(now);
        accept_commands(
            &mut self.pool,
            &mut self.command_socket,
            alloc,
            registry,
            now,
        );
    }
}
