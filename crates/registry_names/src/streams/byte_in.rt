//! Streams that bytes are read from.

ghost use Rattle.std.specs.Prelude.{◌≡◌, ◌↔◌, ◌≤◌, ℕ, List, Option, Bool, true, false, IfOk, OnOk, IsErr, length};
ghost use Rattle.std.specs.Io.KnownBytes.{ReadConsumes};
ghost use Rattle.std.specs.IoError.{error_kind};
ghost use Rattle.std.specs.declared.io.ErrorKind.TheVariants as kinds;
ghost use Rattle.registry_names.specs.ByteStreams.{failures_after, full_count};
ghost use Rattle.registry_names.specs.declared.streams.byte_in.ReadFailed.TheVariants.{Interrupted};

use std::error::Error;
use std::io::ErrorKind;
use std::{fmt, io};

/// Why a read gave no bytes.
#[derive(Clone, Copy, Debug, PartialEq, Eq)]
pub enum ReadFailed {
    /// A signal came before any byte; the next read may go on.
    Interrupted,
    /// Anything else.
    Broken,
}

impl fmt::Display for ReadFailed {
    fn fmt<W: fmt::Write>(&self, f: &mut fmt::Formatter<W>) -> fmt::Result {
        f.write_str(match self {
            ReadFailed::Interrupted => "the read was interrupted",
            ReadFailed::Broken => "the read failed",
        })
    }
}

impl Error for ReadFailed {}

impl From<io::Error> for ReadFailed {
    ghost from_gives = { λ error failed.
        (failed ≡ Interrupted) ↔ (error_kind error ≡ kinds.Interrupted) };

    /// `Interrupted` for an error of that kind, and `Broken` for every other.
    fn from(error: io::Error) -> ReadFailed {
        match error.kind() {
            ErrorKind::Interrupted => ReadFailed::Interrupted,
            _ => ReadFailed::Broken,
        }
    }
}

/// A stream that bytes are read from.
///
/// Contracts see the bytes that are left, where they are known, and how many of its calls
/// failed. They are known if `bytes` is `Some` and not `is_unknown`. Each failed call
/// raises the count by one; at 2^64 - 1 the count stays, and every later call fails.
pub trait ByteIn {
    // The bytes that are left, where they are known.
    ghost bytes: { Self → Option (List ℕ) };

    // How many calls failed.
    ghost failures: { Self → ℕ };

    // Whether its bytes are no longer known. A failed call may make it so, for good.
    ghost is_unknown: { Self → Bool } = { λ _. false };

    /// Moves some of the bytes that are left to the front of the buffer, and returns how many.
    /// For a buffer with room it returns 0 only where no byte is left.
    ///
    /// A failed read takes no byte, or its bytes are no longer known.
    fn read(&mut self, buf: &mut [u8]) -> Result<usize, ReadFailed>
        ensures bound { IfOk result (λ n. n ≤ length buf.new) }
        ensures taken { is_unknown self.new ≡ false
            → ReadConsumes (bytes self.old) (bytes self.new) result buf.new }

        ensures counted { failures self.new ≡ failures_after result (failures self.old) }
        ensures full { failures self.old ≡ full_count → IsErr result }

        // Only a failed call makes the bytes unknown, for good.
        ensures told { OnOk result (is_unknown self.new ≡ is_unknown self.old) }
        ensures unknown { is_unknown self.old ≡ true → is_unknown self.new ≡ true };
}
