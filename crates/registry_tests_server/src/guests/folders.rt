//! The folder of a server's sockets.

use crate::guests::client::{ADDS_ANN, connect, is_done, is_listening, message, send};
use crate::guests::files::{folder, forget, lay, temporary};
use crate::guests::server::ServerSide;
use crate::outcome::same;
use registry_guests::{CommandListener, connect_to_server, has_other_file, hold, stop};
use std::alloc::Global;
use std::fs::Permissions;
use std::io::ErrorKind;
use std::os::unix::fs::{PermissionsExt, symlink};
use std::os::unix::net::UnixStream;
use std::process::Abort;
use std::{fs, io};

// The kind of an error, if one came.
fn kind_of<T: Drop>(done: io::Result<T>) -> Option<ErrorKind> {
    match done {
        Ok(_) => None,
        Err(error) => Some(error.kind()),
    }
}

// What comes of a server's attempt to listen for commands of a file.
fn opened(rt: &HostRuntime, file: &str) -> Option<ErrorKind> {
    kind_of(open(rt, file))
}

fn open(rt: &HostRuntime, file: &str) -> io::Result<()> {
    let alloc = rt.alloc();
    let poll = mio::Poll::new(rt)?;
    let mut listener = CommandListener::closed(alloc)?;
    listener.open(rt, alloc, poll.registry(), file)
}

// What comes of each attempt of a client to reach a server of a file.
fn reached(rt: &HostRuntime, file: &str) -> [Option<ErrorKind>; 3] {
    let alloc = rt.alloc();
    [
        kind_of(connect_to_server(rt, alloc, file)),
        kind_of(hold(rt, alloc, file)),
        kind_of(stop(rt, alloc, file)),
    ]
}

// Whether nobody comes in, neither a server nor a client.
fn is_closed(rt: &HostRuntime, file: &str) -> bool {
    let denied = Some(ErrorKind::PermissionDenied);
    opened(rt, file) == denied && reached(rt, file) == [denied, denied, denied]
}

// Whether a server of another file listens in the folder. `None` where it can't be known.
fn has_other(rt: &HostRuntime, file: &str) -> Option<bool> {
    has_other_file(rt, rt.alloc(), file).ok()
}

// Gives a file or a folder this mode. Returns whether it has it.
fn set_mode(rt: &HostRuntime, path: &str, mode: u32) -> bool {
    fs::set_permissions(rt, path, Permissions::from_mode(mode)).is_ok()
}

// Whether the sockets of a server's side were removed.
fn are_removed(rt: &HostRuntime, listener: &CommandListener, file: &str) -> bool {
    listener.remove_sockets(rt, rt.alloc(), file).is_ok()
}

#[test]
fn a_new_folder_is_its_owners_alone(rt: HostRuntime) {
    let file = "owned.db";
    lay(&rt, file).expect(&rt, "a file");
    let server = ServerSide::open(&rt, &rt, file);
    let folder = folder(rt.alloc(), file).expect(&rt, "memory");
    let made = fs::metadata(&rt, folder.as_str()).expect(&rt, "a folder");
    same(&rt, "its mode", made.permissions().mode() & 0o777, 0o700);
    let are_removed = are_removed(&rt, &server.listener, file);
    same(&rt, "its sockets are removed", are_removed, true);
    let is_gone = fs::metadata(&rt, folder.as_str()).is_err();
    same(&rt, "it is gone", is_gone, true);
    forget(&rt, file);
}

#[test]
fn a_folder_that_others_may_enter_is_refused(rt: HostRuntime) {
    let file = "entered.db";
    for mode in [0o777, 0o755, 0o770, 0o710, 0o701, 0o704, 0o702] {
        lay(&rt, file).expect(&rt, "a file");
        let folder = folder(rt.alloc(), file).expect(&rt, "memory");
        fs::create_dir(&rt, folder.as_str()).expect(&rt, "a folder");
        same(
            &rt,
            (mode, "set"),
            set_mode(&rt, folder.as_str(), mode),
            true,
        );
        same(&rt, (mode, "closed"), is_closed(&rt, file), true);
        same(&rt, mode, has_other(&rt, file), Some(false));
    }
    forget(&rt, file);
}

#[test]
fn a_server_whose_file_was_moved_away_has_another(rt: HostRuntime) {
    let file = "moved.db";
    same(&rt, "no folder", has_other(&rt, file), Some(false));
    lay(&rt, file).expect(&rt, "a file");
    let server = ServerSide::open(&rt, &rt, file);
    same(&rt, "its own", has_other(&rt, file), Some(false));
    fs::remove_file(&rt, file).expect(&rt, "no file");
    same(&rt, "moved away", has_other(&rt, file), Some(true));
    let are_removed = are_removed(&rt, &server.listener, file);
    same(&rt, "its sockets are removed", are_removed, true);
    same(&rt, "nothing listens", has_other(&rt, file), Some(false));
    forget(&rt, file);
}

#[test]
fn a_folder_of_another_kind_is_refused(rt: HostRuntime) {
    let file = "linked.db";
    lay(&rt, file).expect(&rt, "a file");
    let folder = folder(rt.alloc(), file).expect(&rt, "memory");
    fs::write(&rt, folder.as_str(), "").expect(&rt, "a file");
    same(&rt, "set", set_mode(&rt, folder.as_str(), 0o600), true);
    same(&rt, "a file", is_closed(&rt, file), true);
    fs::remove_file(&rt, folder.as_str()).expect(&rt, "no file");
    symlink(&rt, ".", folder.as_str()).expect(&rt, "a link");
    same(&rt, "a link", is_closed(&rt, file), true);
    forget(&rt, file);
}

#[test]
fn a_command_by_a_link_finds_the_server(rt: HostRuntime) {
    let alloc = rt.alloc();
    let file = temporary(&rt, "-target.db").expect(&rt, "a path");
    let link = temporary(&rt, "-link.db").expect(&rt, "a path");
    let (file, link) = (file.as_str(), link.as_str());
    lay(&rt, file).expect(&rt, "a file");
    forget(&rt, link);
    symlink(&rt, file, link).expect(&rt, "a link");
    let mut server = ServerSide::open(&rt, &rt, link);
    let client = connect(&rt, file, "command").expect(&rt, "a client");
    answers(&rt, alloc, &mut server, &client);
    same(&rt, "by the link", has_other(&rt, link), Some(false));
    same(&rt, "by the file", has_other(&rt, file), Some(false));
    forget(&rt, link);
    forget(&rt, file);
}

#[test]
fn a_server_of_another_file_is_told_from_its_own(rt: HostRuntime) {
    let alloc = rt.alloc();
    let (file, moved) = ("replaced.db", "moved.db");
    lay(&rt, file).expect(&rt, "a file");
    forget(&rt, moved);
    let first = ServerSide::open(&rt, &rt, file);
    same(&rt, "its own", has_other(&rt, file), Some(false));
    fs::rename(&rt, file, moved).expect(&rt, "the file moves");
    fs::write(&rt, file, "").expect(&rt, "a file");
    same(&rt, "another", has_other(&rt, file), Some(true));
    let other = Some(ErrorKind::InvalidData);
    let command = kind_of(connect_to_server(&rt, alloc, file));
    same(&rt, "a command", command, other);
    same(&rt, "a hold", kind_of(hold(&rt, alloc, file)), other);
    let in_use = Some(ErrorKind::AddrInUse);
    same(&rt, "a second server", opened(&rt, file), in_use);
    same(
        &rt,
        "the first still listens",
        is_listening(&rt, file),
        true,
    );
    drop(first);
    same(&rt, "it has ended", has_other(&rt, file), Some(false));
    // A server listens where an earlier one ended without removing its sockets.
    let mut second = ServerSide::open(&rt, &rt, file);
    let client = connect(&rt, file, "command").expect(&rt, "a client");
    answers(&rt, alloc, &mut second, &client);
    forget(&rt, moved);
    forget(&rt, file);
}

// A server's side answers a client's command.
fn answers(rt: &impl Abort, alloc: Global, server: &mut ServerSide, client: &UnixStream) {
    send(rt, client, &message(rt, alloc, ADDS_ANN));
    server.go_on(rt, alloc, 0);
    is_done(rt, alloc, "its command", client, b"r");
}

#[test]
fn a_server_that_ends_leaves_the_next_ones_sockets(rt: HostRuntime) {
    let file = "successor.db";
    lay(&rt, file).expect(&rt, "a file");
    let alloc = rt.alloc();
    let poll = mio::Poll::new(&rt).expect(&rt, "a poll");
    let first = ServerSide::open(&rt, &rt, file);
    let mut second = CommandListener::closed(alloc).expect(&rt, "memory");
    let refused = kind_of(second.open(&rt, alloc, poll.registry(), file));
    let in_use = Some(ErrorKind::AddrInUse);
    same(&rt, "while the first is there", refused, in_use);
    same(&rt, "removed", are_removed(&rt, &second, file), true);
    same(
        &rt,
        "the first still listens",
        is_listening(&rt, file),
        true,
    );
    same(
        &rt,
        "removed",
        are_removed(&rt, &first.listener, file),
        true,
    );
    drop(first);
    second
        .open(&rt, alloc, poll.registry(), file)
        .expect(&rt, "sockets");
    same(&rt, "then the second does", is_listening(&rt, file), true);
    same(&rt, "removed", are_removed(&rt, &second, file), true);
    forget(&rt, file);
}
