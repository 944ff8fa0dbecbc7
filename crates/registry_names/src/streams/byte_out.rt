//! Streams that bytes are written to.

ghost use Rattle.std.specs.Prelude.{◌≡◌, ◌≤◌, ◌<◌, ℕ, List, Option, Bool, true, false, IfOk, OnOk, IsErr, length};
ghost use Rattle.std.specs.Io.KnownBytes.{WriteAppends};
ghost use Rattle.registry_names.specs.ByteStreams.{failures_after, full_count};

use std::error::Error;
use std::fmt;

/// A write took no byte of a text.
#[derive(Clone, Copy, Debug, PartialEq, Eq)]
pub struct WriteFailed;

impl fmt::Display for WriteFailed {
    fn fmt<W: fmt::Write>(&self, f: &mut fmt::Formatter<W>) -> fmt::Result {
        f.write_str("the write failed")
    }
}

impl Error for WriteFailed {}

/// A stream that bytes are written to.
///
/// Contracts see the bytes that were written, where they are known, and how many of its calls
/// failed. They are known if `bytes` is `Some` and not `is_unknown`. Each failed call
/// raises the count by one; at 2^64 - 1 the count stays, and every later call fails.
pub trait ByteOut {
    // The bytes that were written, where they are known.
    ghost bytes: { Self → Option (List ℕ) };

    // How many calls failed.
    ghost failures: { Self → ℕ };

    // Whether its bytes are no longer known. A failed call may make it so, for good.
    ghost is_unknown: { Self → Bool } = { λ _. false };

    /// Adds a prefix of the text to the bytes that were written, and returns its length.
    /// Taking no byte of a text that isn't empty is a failure.
    ///
    /// A failed write adds no byte, or its bytes are no longer known.
    fn write(&mut self, text: &[u8]) -> Result<usize, WriteFailed>
        ensures bound { IfOk result (λ n. n ≤ length text.now) }
        ensures some { IfOk result (λ n. 0 < length text.now → 0 < n) }
        ensures added { is_unknown self.new ≡ false
            → WriteAppends (bytes self.old) (bytes self.new) result text.now }

        ensures counted { failures self.new ≡ failures_after result (failures self.old) }
        ensures full { failures self.old ≡ full_count → IsErr result }

        // Only a failed call makes the bytes unknown, for good.
        ensures told { OnOk result (is_unknown self.new ≡ is_unknown self.old) }
        ensures unknown { is_unknown self.old ≡ true → is_unknown self.new ≡ true };
}
