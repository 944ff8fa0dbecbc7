//! Why arguments mean no line.

ghost use Rattle.std.specs.Prelude.{◌≡◌, codes};
ghost use Rattle.clap.specs.Values.{kind_of};
ghost use Rattle.clap.specs.declared.error.kind.ErrorKind.TheVariants.{OutOfMemory};
ghost use Rattle.registry_cli.specs.declared.usage.Usage.TheVariants as usage;

use clap::Error;
use clap::error::ErrorKind;
use registry_names::Text;
use std::alloc::{AllocError, AllocFailed, Global};

/// Why a line means nothing.
#[derive(Debug, Drop)]
pub enum Usage {
    /// The program doesn't take the arguments, or they ask for help. The text is to be printed.
    Words(Text),
    /// No memory was left.
    Memory,
}

impl Usage {
    /// What `clap` says of the arguments.
    pub(crate) fn said(alloc: Global, error: &Error) -> Usage
        ensures { kind_of error.now ≡ OutOfMemory → result ≡ usage.Memory }
    {
        if error.kind() == ErrorKind::OutOfMemory {
            return Usage::Memory;
        }
        match format!(in alloc; "{error}") {
            Ok(text) => Usage::Words(Text::from(text)),
            Err(_) => Usage::Memory,
        }
    }
}

impl From<AllocError> for Usage {
    ghost from_gives = { λ _ u. u ≡ usage.Memory };

    fn from(_error: AllocError) -> Usage {
        Usage::Memory
    }
}

impl<T: Drop> From<AllocFailed<T>> for Usage {
    ghost from_gives = { λ _ u. u ≡ usage.Memory };

    fn from(_error: AllocFailed<T>) -> Usage {
        Usage::Memory
    }
}
