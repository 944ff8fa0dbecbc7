//! Serving the registry in a file over HTTP.

use crate::logging::{is_allowed, log_at};
use crate::moment::read_moment;
use registry_cli::{Line, Serving};
use registry_desk::Registry;
use registry_files::{Begins, Blockage, Ending, Failure, close_files, open_soon};
use registry_guests::CommandListener;
use registry_http::RegistryService;
use registry_log::{LineSink, Log, LogClock, LoggedService};
use registry_names::{ByteOut, Moment, Text, write_whole};
use registry_npm::NpmService;
use registry_server::{Ended, ListenAt, LocalSocket, Server, SocketFile};
use registry_service::HttpService;
use sqlite::{Alter, FileStore};
use sqlite_disk::Disk;
use std::alloc::{AllocError, Global};
use std::io;
use std::io::ErrorKind;

/// What is said of a port or a number of connections that isn't a number.
const NO_NUMBER: &str = "error: --port and --connections take whole numbers";

/// What is said of a log that would be kept in something that isn't a file, or in one of the
/// registry's files.
const NO_LOG: &str = "error: --log takes a file that isn't one of the registry's";

/// What is said where a server ends since enough connections came.
const ENOUGH: &str = "ended: as many connections came as --connections says\n";

/// What is said where a server ends since a command asked for it.
const STOPPED: &str = "ended: a command told it to stop\n";

/// How much room is taken and let go of before the first request, in bytes: that of the largest body.
const ROOM: usize = 4_194_304;

/// What is printed where commands can't be answered.
const NO_COMMANDS: &str = "no command beside this server is answered: ";

/// Where a server listens and for how many connections, the path of its file and whether that has to be
/// there, the path of a log of requests, if one is kept, and whether npm's own requests are answered.
#[derive(Clone, Copy)]
struct ServeOptions<'a> {
    port: Option<u16>,
    socket: Option<&'a str>,
    connections: u64,
    path: &'a str,
    existing: bool,
    log: Option<&'a str>,
    answers_npm: bool,
}

impl<'a> ServeOptions<'a> {
    // What a line says that asks to serve: after the name `serve` the port and the connections.
    fn of(line: &'a Line) -> Option<ServeOptions<'a>> {
        let arguments = line.what.as_slice();
        let port = arguments.get(1)?.as_str().parse::<u16>().ok()?;
        let connections = arguments.get(2)?.as_str().parse::<u64>().ok()?;
        Some(ServeOptions {
            port: Some(port),
            socket: None,
            connections,
            path: line.db.as_str(),
            existing: line.existing,
            log: None,
            answers_npm: false,
        })
    }

    // The same with a socket, a log, npm's own requests, or several of these.
    fn beside(serving: &'a Serving) -> Option<ServeOptions<'a>> {
        let options = ServeOptions::of(&serving.line)?;
        Some(ServeOptions {
            port: if serving.has_port { options.port } else { None },
            socket: shown(&serving.socket),
            log: shown(&serving.log),
            answers_npm: serving.answers_npm,
            ..options
        })
    }
}

fn shown(text: &Option<Text>) -> Option<&str> {
    match text {
        Some(text) => Some(text.as_str()),
        None => None,
    }
}

/// A server that listens, as its options say.
#[derive(Drop)]
struct Bound<'a> {
    server: Server,
    options: ServeOptions<'a>,
}

/// Serves the registry in the line's file to as many connections as it says, and returns the exit
/// status, 0, once all have ended; the errors then say why the server ends. The greatest number
/// stands for no limit: then it serves all that come. It listens before the file is opened. The
/// address is printed on the output before the first connection is accepted. Commands beside the
/// server are answered, too, and one of them may end it: its log is then copied into its file, and
/// that command is told last. A registry that a fault of its disk has shut is a fault, and so is a
/// log that can't be copied.
pub fn serve<S: Begins, O: ByteOut, E: ByteOut>(
    rt: &HostRuntime,
    alloc: Global,
    line: &Line,
    output: &mut O,
    errors: &mut E,
) -> Result<u8, Ending> {
    serve_as::<S, _, _>(rt, alloc, ServeOptions::of(line), output, errors)
}

/// Serves as [`serve`] does, at a Unix socket, or at the port of the line, or at both, and keeps a
/// log of requests, if there is to be one. npm's own requests are answered, too, if they are to be.
///
/// A socket is removed at the end. A socket at whose path nothing listens any more is replaced; it
/// is a fault where something listens there, or where the path names something that isn't a socket.
///
/// The log has a line for each request, one for the beginning and one for the end. A log that can't
/// be written stops nothing. One of the registry's own files, or something that isn't a file, is
/// `Wrong`.
pub fn serve_beside<S: Begins, O: ByteOut, E: ByteOut>(
    rt: &HostRuntime,
    alloc: Global,
    serving: &Serving,
    output: &mut O,
    errors: &mut E,
) -> Result<u8, Ending> {
    serve_as::<S, _, _>(rt, alloc, ServeOptions::beside(serving), output, errors)
}

fn serve_as<S: Begins, O: ByteOut, E: ByteOut>(
    rt: &HostRuntime,
    alloc: Global,
    options: Option<ServeOptions<'_>>,
    output: &mut O,
    errors: &mut E,
) -> Result<u8, Ending> {
    let Some(options) = options else {
        return Err(Ending::Wrong(NO_NUMBER));
    };
    let log = log_at(rt, alloc, options.log, options.path)?;
    serve_with_commands::<S, _, _, _, _>(rt, alloc, options, log, output, errors)
}

// Makes the C library keep the room of one request for the next. Otherwise it gives memory at the
// end of its heap back to the system, and each page that is taken again costs a page fault. It
// keeps up to twice the largest block that it has mapped and freed.
fn keep_room(alloc: Global) {
    let room: Result<Vec<u8>, AllocError> = Vec::with_capacity(alloc, ROOM);
    drop(room);
}

// Serves beside a listener of commands. It keeps the connection that asked for the end until it is
// dropped: at the end of this function.
fn serve_with_commands<S: Begins, K: LogClock + Drop, W: LineSink + Drop, O: ByteOut, E: ByteOut>(
    rt: &HostRuntime,
    alloc: Global,
    options: ServeOptions<'_>,
    log: Option<Log<K, W>>,
    output: &mut O,
    errors: &mut E,
) -> Result<u8, Ending> {
    let mut listener = CommandListener::closed(alloc)?;
    let (server, file) = listen(rt, alloc, options)?;
    let bound = Bound { server, options };
    let ended = serve_file::<S, _, _, _, _>(rt, alloc, bound, log, &mut listener, output, errors);
    if let Some(file) = file {
        let _ = file.remove(rt);
    }
    end(ended?, errors)
}

// A server that listens as its options say, and the file of its socket, if it has one.
fn listen(
    rt: &HostRuntime,
    alloc: Global,
    options: ServeOptions<'_>,
) -> Result<(Server, Option<SocketFile>), Ending> {
    let Some(path) = options.socket else {
        let port = options.port.unwrap_or(0);
        return Ok((Server::bind(rt, alloc, port, options.connections)?, None));
    };
    let (socket, file) = LocalSocket::bind(rt, alloc, path).map_err(no_socket)?;
    let at = match options.port {
        Some(port) => ListenAt::Both(port, socket),
        None => ListenAt::Socket(socket),
    };
    match Server::bind_at(rt, alloc, at, options.connections) {
        Ok(server) => Ok((server, Some(file))),
        Err(error) => {
            let _ = file.remove(rt);
            Err(Ending::from(error))
        }
    }
}

// Why the server can't listen at a socket.
fn no_socket(error: io::Error) -> Ending {
    let why = match error.kind() {
        ErrorKind::OutOfMemory => return Ending::from(error),
        ErrorKind::AddrInUse => Blockage::Taken,
        ErrorKind::AlreadyExists => Blockage::Foreign,
        ErrorKind::InvalidInput => Blockage::Long,
        _ => Blockage::Unmade,
    };
    Ending::Fault(Failure::Socket(why))
}

// Opens the file, and serves its registry. A command may have the file for a moment.
fn serve_file<S: Begins, K: LogClock + Drop, W: LineSink + Drop, O: ByteOut, E: ByteOut>(
    rt: &HostRuntime,
    alloc: Global,
    bound: Bound<'_>,
    log: Option<Log<K, W>>,
    listener: &mut CommandListener,
    output: &mut O,
    errors: &mut E,
) -> Result<Ended, Ending> {
    match open_soon::<S>(rt, bound.options.path, bound.options.existing) {
        Ok(registry) => {
            keep_room(alloc);
            serve_registry(rt, alloc, bound, log, registry, listener, output, errors)
        }
        Err(ending) => Err(ending),
    }
}

// How a server of a registry ended.
enum Served<S: Alter> {
    // A command stopped it, and the registry's log is to be copied. The sockets are still there.
    Stopped(Registry<S>),
    // It ended otherwise, or wasn't begun. The registry is let go of.
    Otherwise(Result<Ended, Ending>),
}

// Serves a registry, and lets go of it. After a stop its log is copied into its file; where that
// fails, it is a fault. Otherwise the next open does what is left to do.
fn serve_registry<D: Disk + Drop, K: LogClock + Drop, W: LineSink + Drop, O: ByteOut, E: ByteOut>(
    rt: &HostRuntime,
    alloc: Global,
    bound: Bound<'_>,
    log: Option<Log<K, W>>,
    registry: Registry<FileStore<D>>,
    listener: &mut CommandListener,
    output: &mut O,
    errors: &mut E,
) -> Result<Ended, Ending> {
    let path = bound.options.path;
    match serve_until_end(rt, alloc, bound, log, registry, listener, output, errors) {
        Served::Stopped(registry) => close_stopped(rt, alloc, path, registry, listener),
        Served::Otherwise(ended) => ended,
    }
}

// Serves a registry until the server ends.
fn serve_until_end<S: Alter + Drop, K: LogClock + Drop, W: LineSink + Drop, O: ByteOut, E: ByteOut>(
    rt: &HostRuntime,
    alloc: Global,
    bound: Bound<'_>,
    log: Option<Log<K, W>>,
    mut registry: Registry<S>,
    listener: &mut CommandListener,
    output: &mut O,
    errors: &mut E,
) -> Served<S> {
    let path = bound.options.path;
    // What npm reads of a package has the digest of its packument in front.
    if bound.options.answers_npm {
        registry.make_digests();
    }
    let service = LoggedService::new(RegistryService::new(registry), log);
    let (ended, service) = serve_with(rt, alloc, bound, service, listener, output, errors);
    let registry = service.into_inner().into_registry();
    if matches!(ended, Ok(Ended::Stopped)) {
        return Served::Stopped(registry);
    }
    close_listener(rt, alloc, path, listener);
    drop(registry);
    Served::Otherwise(ended)
}

// Serves with the service, which answers npm's own requests, too, where the options say so.
fn serve_with<S: Alter + Drop, K: LogClock + Drop, W: LineSink + Drop, O: ByteOut, E: ByteOut>(
    rt: &HostRuntime,
    alloc: Global,
    bound: Bound<'_>,
    service: LoggedService<S, K, W>,
    listener: &mut CommandListener,
    output: &mut O,
    errors: &mut E,
) -> (Result<Ended, Ending>, LoggedService<S, K, W>) {
    if bound.options.answers_npm {
        let mut npm = NpmService { service };
        let ended = serve_bound(rt, alloc, bound, &mut npm, listener, output, errors);
        let NpmService { service } = npm;
        (ended, service)
    } else {
        let mut service = service;
        let ended = serve_bound(rt, alloc, bound, &mut service, listener, output, errors);
        (ended, service)
    }
}

/// A service that says in its log, if it keeps one, when its server begins and ends.
trait Told: HttpService {
    fn tell(&mut self, text: &str);
}

impl<S: Alter, K: LogClock, W: LineSink> Told for LoggedService<S, K, W> {
    fn tell(&mut self, text: &str) {
        self.say(text)
    }
}

impl<D: Told> Told for NpmService<D> {
    fn tell(&mut self, text: &str) {
        self.service.tell(text)
    }
}

// Copies the log of a registry whose server was stopped into its file, and lets go of it.
fn close_stopped<D: Disk + Drop>(
    rt: &HostRuntime,
    alloc: Global,
    path: &str,
    registry: Registry<FileStore<D>>,
    listener: &CommandListener,
) -> Result<Ended, Ending> {
    let left = close_files(registry);
    close_listener(rt, alloc, path, listener);
    match left {
        Ok(files) => {
            drop(files);
            Ok(Ended::Stopped)
        }
        Err((ending, files)) => {
            drop(files);
            Err(ending)
        }
    }
}

// Removes the sockets of commands, if they were opened. The registry's files are still locked, so no
// other server listens there.
fn close_listener(rt: &HostRuntime, alloc: Global, path: &str, listener: &CommandListener) {
    let _ = listener.remove_sockets(rt, alloc, path);
}

// Serves with the service, from the present moment on. The clock is read before anything is
// printed.
fn serve_bound<D: Told, O: ByteOut, E: ByteOut>(
    rt: &HostRuntime,
    alloc: Global,
    bound: Bound<'_>,
    service: &mut D,
    listener: &mut CommandListener,
    output: &mut O,
    errors: &mut E,
) -> Result<Ended, Ending> {
    let Some(at) = read_moment(rt) else {
        return Err(Ending::Fault(Failure::Read));
    };
    let Bound { server, options } = bound;
    require_log(rt, alloc, options)?;
    open_listener(rt, alloc, &server, options.path, listener, errors);
    match announce(alloc, &server, options.socket, output) {
        Ok(()) => run(rt, alloc, server, at, service, listener),
        Err(ending) => Err(ending),
    }
}

// Listens for commands, or warns that none is answered.
fn open_listener<E: ByteOut>(
    rt: &HostRuntime,
    alloc: Global,
    server: &Server,
    path: &str,
    listener: &mut CommandListener,
    errors: &mut E,
) {
    if let Err(error) = listener.open(rt, alloc, server.registry(), path) {
        warn(&error, errors);
    }
}

// A log, if one is to be kept, isn't to be written into the registry's own files.
fn require_log(rt: &HostRuntime, alloc: Global, options: ServeOptions<'_>) -> Result<(), Ending> {
    let Some(log) = options.log else {
        return Ok(());
    };
    if is_allowed(rt, alloc, log, options.path)? {
        Ok(())
    } else {
        Err(Ending::Wrong(NO_LOG))
    }
}

// Runs a server, and says in its log when it begins and ends, and why.
fn run<D: Told>(
    rt: &HostRuntime,
    alloc: Global,
    server: Server,
    at: Moment,
    service: &mut D,
    listener: &mut CommandListener,
) -> Result<Ended, Ending> {
    service.tell("begun");
    let ended = server.run_beside(rt, alloc, at, service, listener);
    let said = match &ended {
        Ok(ended) => end_text(*ended),
        Err(_) => "ended: a fault",
    };
    service.tell(said);
    Ok(ended?)
}

// What the log says of why a server ended.
fn end_text(ended: Ended) -> &'static str {
    match ended {
        Ended::Enough => "ended: as many connections came as --connections says",
        Ended::Stopped => "ended: a command told it to stop",
        Ended::ServiceOver => "ended: the disk failed",
    }
}

// Says that commands beside the server aren't answered, and why.
fn warn<E: ByteOut>(error: &io::Error, errors: &mut E) {
    let why = match error.kind() {
        ErrorKind::PermissionDenied =>
            "its folder isn't one that the file's owner alone may enter\n",
        ErrorKind::AddrInUse =>
            "a server of another file that was at the path still listens there\n",
        ErrorKind::InvalidInput => "the path is too long for a socket\n",
        _ => "its socket can't be made\n",
    };
    for text in [NO_COMMANDS, why] {
        let _ = write_whole(errors, text.as_bytes());
    }
}

// What a server that ended so leaves: the exit status, or the fault of its disk.
fn end<E: ByteOut>(ended: Ended, errors: &mut E) -> Result<u8, Ending> {
    match ended {
        Ended::Enough => {
            let _ = write_whole(errors, ENOUGH.as_bytes());
            Ok(0)
        }
        Ended::Stopped => {
            let _ = write_whole(errors, STOPPED.as_bytes());
            Ok(0)
        }
        Ended::ServiceOver => Err(Ending::Fault(Failure::Shut)),
    }
}

// Prints where the server listens: at a port, at a socket, or at both.
fn announce<O: ByteOut>(
    alloc: Global,
    server: &Server,
    socket: Option<&str>,
    output: &mut O,
) -> Result<(), Ending> {
    let said = match (server.port(), socket) {
        (Ok(port), None) => format!(in alloc; "listening 127.0.0.1:{port}\n")?,
        (Ok(port), Some(path)) => format!(in alloc; "listening 127.0.0.1:{port} unix:{path}\n")?,
        (Err(_), Some(path)) => format!(in alloc; "listening unix:{path}\n")?,
        (Err(error), None) => return Err(Ending::from(error)),
    };
    Ok(write_whole(output, said.as_bytes())?)
}
