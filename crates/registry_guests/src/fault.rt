//! Why a message can't be read.

ghost use Rattle.std.specs.Prelude.{◌≡◌};
ghost use Rattle.registry_guests.specs.declared.fault.ReadError.TheVariants.{Memory};

use std::alloc::{AllocError, AllocFailed};

/// What came isn't a message: it ends before a word does.
#[derive(Clone, Copy, Debug, PartialEq, Eq)]
pub struct Malformed;

/// Why a message can't be read.
#[derive(Debug, Drop)]
pub enum ReadError {
    /// No memory was left.
    Memory,
    /// It isn't a message.
    Malformed(Malformed),
}

impl From<AllocError> for ReadError {
    ghost from_gives = { λ _ e. e ≡ Memory };

    fn from(_e: AllocError) -> ReadError {
        ReadError::Memory
    }
}

impl<T: Drop> From<AllocFailed<T>> for ReadError {
    ghost from_gives = { λ _ e. e ≡ Memory };

    fn from(_e: AllocFailed<T>) -> ReadError {
        ReadError::Memory
    }
}
