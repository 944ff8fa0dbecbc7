//! Why nothing is answered: a refusal, or a fault.

ghost use Rattle.std.specs.Prelude.{◌≡◌, Some};
ghost use Rattle.registry_names.specs.Faults.{fault_status, fault_text, stop_text};
ghost use Rattle.registry_names.specs.declared.stop.Stop.TheVariants.{Fault as Faulted};
ghost use Rattle.registry_names.specs.declared.stop.Fault.TheVariants.{Memory};

use crate::refusal::Refusal;
use std::alloc::{AllocError, AllocFailed};
use std::error::Error;
use std::fmt;

/// What went wrong in the machine. A fault may come at any place instead of an answer. What was
/// asked for is then not done, with one exception: where a fault of the disk has shut a registry
/// for good, the request that met that fault may have been done, all of it.
#[derive(Clone, Copy, Debug, PartialEq, Eq)]
pub enum Fault {
    /// No memory was left.
    Memory,
    /// The database failed, or held what the registry never writes.
    Database,
}

impl Fault {
    /// The name that is printed, such as `Memory`.
    pub fn text(self) -> &'static str
        ensures { result.now ≡ fault_text self }
    {
        match self {
            Fault::Memory => "Memory",
            Fault::Database => "Database",
        }
    }

    /// The HTTP status code (RFC 9110) of a response that says so.
    pub fn status(self) -> u16
        ensures { result ≡ fault_status self }
    {
        match self {
            Fault::Memory => 503,
            Fault::Database => 500,
        }
    }
}

impl fmt::Display for Fault {
    ghost output = { λ fault. Some (fault_text fault) };

    fn fmt<W: fmt::Write>(&self, f: &mut fmt::Formatter<W>) -> fmt::Result {
        f.write_str(self.text())
    }
}

impl Error for Fault {}

/// Why a call answers nothing. Such a call hands out nothing.
#[derive(Clone, Copy, Debug, PartialEq, Eq)]
pub enum Stop {
    /// The request is refused.
    Refused(Refusal),
    /// The machine failed.
    Fault(Fault),
}

impl Stop {
    /// What is printed of it: the refusal's text, or the fault's.
    pub fn text(self) -> &'static str
        ensures { result.now ≡ stop_text self }
    {
        match self {
            Stop::Refused(refusal) => refusal.text(),
            Stop::Fault(fault) => fault.text(),
        }
    }
}

impl fmt::Display for Stop {
    ghost output = { λ stop. Some (stop_text stop) };

    fn fmt<W: fmt::Write>(&self, f: &mut fmt::Formatter<W>) -> fmt::Result {
        f.write_str(self.text())
    }
}

impl Error for Stop {}

impl From<AllocError> for Fault {
    ghost from_gives = { λ _ fault. fault ≡ Memory };

    fn from(_error: AllocError) -> Fault {
        Fault::Memory
    }
}

impl<T: Drop> From<AllocFailed<T>> for Fault {
    ghost from_gives = { λ _ fault. fault ≡ Memory };

    fn from(_error: AllocFailed<T>) -> Fault {
        Fault::Memory
    }
}

impl From<AllocError> for Stop {
    ghost from_gives = { λ _ stop. stop ≡ Faulted Memory };

    fn from(_error: AllocError) -> Stop {
        Stop::Fault(Fault::Memory)
    }
}

impl<T: Drop> From<AllocFailed<T>> for Stop {
    ghost from_gives = { λ _ stop. stop ≡ Faulted Memory };

    fn from(_error: AllocFailed<T>) -> Stop {
        Stop::Fault(Fault::Memory)
    }
}

impl From<Fault> for Stop {
    ghost from_gives = { λ fault stop. stop ≡ Faulted fault };

    fn from(fault: Fault) -> Stop {
        Stop::Fault(fault)
    }
}
