//! Why the program ends without an answer.

ghost use Rattle.std.specs.Prelude.{◌≡◌};
ghost use Rattle.registry_files.specs.Asked.{ending_of, stopping};

use registry_cli::Usage;
use registry_names::{Fault, ReadStop, Refusal, Stop, Text, WriteFailed};
use std::alloc::AllocError;
use std::io;
use std::io::ErrorKind;

/// Why nothing is printed on standard output.
#[derive(Drop)]
pub enum Ending {
    /// What is asked is refused.
    Refused(Refusal),
    /// The program doesn't take the arguments, or they ask for help: the message.
    Usage(Text),
    /// The program doesn't take the arguments: the message.
    Wrong(&'static str),
    /// The machine failed.
    Fault(Failure),
}

/// What failed.
#[derive(Clone, Copy)]
pub enum Failure {
    /// The registry.
    Registry(Fault),
    /// The registry's file, which can't be opened.
    Opening(Obstacle),
    /// The disk of the registry's file, which is shut for it.
    Shut,
    /// A server of the registry's file.
    Server(Trouble),
    /// Standard input, the machine's clock or its randomness, or the port where connections are to
    /// come in.
    Read,
    /// The socket where connections are to come in.
    Socket(Blockage),
    /// A file that the arguments name.
    File,
    /// The copy that the arguments name, which can't be made.
    Backup(Snag),
    /// The registry's file, which can't be made anew or from a copy.
    Restore(Snag),
    /// Standard output.
    Write,
}

/// Why a server of the registry's file did nothing.
#[derive(Clone, Copy)]
pub enum Trouble {
    /// There is none.
    NoServer,
    /// It wasn't ready for a command: it is held, or halted. Nothing was asked.
    Unready,
    /// It gave no answer, and what was asked may be done.
    Unanswered,
    /// It couldn't be held: another command holds it, or it is halted.
    Unheld,
    /// It went on, or ended, before everything was copied.
    WentOn,
}

/// Why no server listens at a socket.
#[derive(Clone, Copy)]
pub enum Blockage {
    /// Something else listens there, or may do so.
    Taken,
    /// The path names something that isn't a socket.
    Foreign,
    /// The path is too long for a socket.
    Long,
    /// It can't be made.
    Unmade,
}

/// Why there is no copy, or no file that is made from one.
#[derive(Clone, Copy)]
pub enum Snag {
    /// A file has its name already, or the name of its log or of its part.
    Taken,
    /// The disk is full.
    Full,
    /// It can't be written.
    Unwritable,
    /// What was written doesn't open.
    Unreadable,
    /// The copy that is to be restored isn't there, is empty, or can't be opened.
    Missing,
    /// Another process has it.
    Busy,
    /// A newer program wrote it.
    Newer,
    /// It has an older schema, and is to be checked.
    Older,
}

/// Why the registry's file can't be opened.
#[derive(Clone, Copy)]
pub enum Obstacle {
    /// It isn't there or is empty, and a registry is to be in it.
    Missing,
    /// Another process has it.
    Busy,
    /// Another process has it, and commands can't reach that process.
    Barred,
    /// A server listens there that has another file open, which was at the path before.
    Other,
    /// It, or its log, can't be opened or written.
    Unreachable,
    /// The disk is full.
    Full,
    /// It holds no registry that can be read.
    Foreign,
    /// A newer program wrote it: the number of its schema is greater than this program's.
    Newer,
    /// It has the tables of an older schema, which can't be migrated.
    Older,
}

impl From<Fault> for Ending {
    ghost from_gives = { λ fault e. e ≡ ending_of fault };

    fn from(fault: Fault) -> Ending {
        Ending::Fault(Failure::Registry(fault))
    }
}

impl From<AllocError> for Ending {
    fn from(error: AllocError) -> Ending {
        Ending::from(Fault::from(error))
    }
}

impl From<Usage> for Ending {
    fn from(usage: Usage) -> Ending {
        match usage {
            Usage::Words(said) => Ending::Usage(said),
            Usage::Memory => Ending::from(Fault::Memory),
        }
    }
}

impl From<Stop> for Ending {
    ghost from_gives = { λ stop e. e ≡ stopping stop };

    fn from(stop: Stop) -> Ending {
        match stop {
            Stop::Refused(refusal) => Ending::Refused(refusal),
            Stop::Fault(fault) => Ending::from(fault),
        }
    }
}

impl From<io::Error> for Ending {
    fn from(error: io::Error) -> Ending {
        if error.kind() == ErrorKind::OutOfMemory {
            Ending::from(Fault::Memory)
        } else {
            Ending::Fault(Failure::Read)
        }
    }
}

impl From<ReadStop> for Ending {
    fn from(stop: ReadStop) -> Ending {
        match stop {
            ReadStop::Read => Ending::Fault(Failure::Read),
            ReadStop::Memory => Ending::from(Fault::Memory),
        }
    }
}

impl From<WriteFailed> for Ending {
    fn from(_failed: WriteFailed) -> Ending {
        Ending::Fault(Failure::Write)
    }
}
