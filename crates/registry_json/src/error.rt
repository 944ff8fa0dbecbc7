//! Why a text isn't read.

use std::alloc::{AllocError, AllocFailed};

/// Why a text isn't read.
#[derive(Clone, Copy, Debug, PartialEq, Eq, Drop)]
pub enum ReadError {
    /// The text isn't JSON that is read.
    NotJson,
    /// No memory is left.
    Memory,
}

impl From<json::Invalid> for ReadError {
    ghost use Rattle.registry_json.specs.declared.error.ReadError.TheVariants.{NotJson};
    ghost use Rattle.std.specs.Prelude.{◌≡◌};

    ghost from_gives = { λ _ e. e ≡ NotJson };

    fn from(_invalid: json::Invalid) -> ReadError {
        ReadError::NotJson
    }
}

impl From<AllocError> for ReadError {
    ghost use Rattle.registry_json.specs.declared.error.ReadError.TheVariants.{Memory};
    ghost use Rattle.std.specs.Prelude.{◌≡◌};

    ghost from_gives = { λ _ e. e ≡ Memory };

    fn from(_refused: AllocError) -> ReadError {
        ReadError::Memory
    }
}

impl<T: Drop> From<AllocFailed<T>> for ReadError {
    ghost use Rattle.registry_json.specs.declared.error.ReadError.TheVariants.{Memory};
    ghost use Rattle.std.specs.Prelude.{◌≡◌};

    ghost from_gives = { λ _ e. e ≡ Memory };

    fn from(_refused: AllocFailed<T>) -> ReadError {
        ReadError::Memory
    }
}
