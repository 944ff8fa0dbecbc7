//! Reading a whole input.

ghost use Rattle.std.specs.Prelude.{◌≡◌, ◌+◌, ◌≤◌, ◌<◌, true, false, IfOk, OnOk, OnErr, IsErr, vec_len};
ghost use Rattle.registry_names.specs.ByteStreams.{AreFirst, Reads, ReadsUpTo, RisesBetween, full_count};
ghost use Rattle.registry_names.specs.declared.streams.reading.TheConstants.{RETRY_LIMIT};
ghost use Rattle.registry_names.specs.declared.streams.reading.ReadStop.TheVariants.{Memory};

use super::{ByteIn, ReadFailed};
use std::alloc::{AllocError, Global};
use std::error::Error;
use std::fmt;

/// How often `read_whole` reads again after an interrupted read.
pub const RETRY_LIMIT: u32 = 1000;

/// Why `read_whole` gave no bytes.
#[derive(Clone, Copy, Debug, PartialEq, Eq)]
pub enum ReadStop {
    /// A read failed, or was interrupted once more than `RETRY_LIMIT` times.
    Read,
    /// The memory for the bytes was refused.
    Memory,
}

impl fmt::Display for ReadStop {
    fn fmt<W: fmt::Write>(&self, f: &mut fmt::Formatter<W>) -> fmt::Result {
        f.write_str(match self {
            ReadStop::Read => "the input could not be read",
            ReadStop::Memory => "out of memory",
        })
    }
}

impl Error for ReadStop {}

impl From<AllocError> for ReadStop {
    ghost from_gives = { λ _ stop. stop ≡ Memory };

    fn from(_: AllocError) -> ReadStop {
        ReadStop::Memory
    }
}

/// Reads all that is left, or the first `limit` bytes where more is left.
///
/// An interrupted read is tried again, up to `RETRY_LIMIT` times in all. After an error the bytes
/// that were read are gone.
pub fn read_whole<R: ByteIn>(
    alloc: Global,
    reader: &mut R,
    limit: usize,
) -> Result<Vec<u8>, ReadStop>
    ensures first { IfOk result
        (λ v. AreFirst limit (R.bytes reader.old) (R.is_unknown reader.new) v.items) }
    ensures taken { IfOk result (λ v.
        Reads (R.bytes reader.old) (R.bytes reader.new) (R.is_unknown reader.new) v.items) }
    ensures bound { IfOk result (λ v. vec_len v ≤ limit) }
    ensures lost { OnErr result
        (ReadsUpTo limit (R.bytes reader.old) (R.bytes reader.new) (R.is_unknown reader.new)) }

    // Only interrupted reads are tried again, and only a failed one stops.
    ensures retried { OnOk result
        (RisesBetween 0 RETRY_LIMIT (R.failures reader.old) (R.failures reader.new)) }
    ensures stopped { result ≡ Err ReadStop.Read
        → RisesBetween 1 (RETRY_LIMIT + 1) (R.failures reader.old) (R.failures reader.new) }
    ensures memory { result ≡ Err ReadStop.Memory
        → RisesBetween 0 RETRY_LIMIT (R.failures reader.old) (R.failures reader.new) }
    ensures full { R.failures reader.old ≡ full_count → 0 < limit → IsErr result }

    ensures unknown { R.is_unknown reader.old ≡ true → R.is_unknown reader.new ≡ true }
{
    let mut bytes = Vec::new(alloc);
    let mut retries = 0;
    let mut piece = [0; 4096];
    'pieces: while bytes.len() < limit {
        let room = piece.len().min(limit - bytes.len());
        match reader.read(&mut piece[..room]) {
            Ok(0) => break,
            Ok(n) => bytes.extend_from_slice(&piece[..n])?,
            Err(ReadFailed::Interrupted) if retries < RETRY_LIMIT => retries += 1,
            Err(_) => return Err(ReadStop::Read),
        }
    }
    Ok(bytes)
}
