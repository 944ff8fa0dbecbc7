//! Readers of the standard library as byte streams.

ghost use Rattle.std.specs.Prelude.{◌≡◌, false};

use super::{ByteIn, ReadFailed};
use std::io::Read;

/// A reader of the standard library as a byte stream. Each of its errors is a failed read, which is
/// interrupted where the error's kind is `Interrupted`; its bytes never become unknown.
#[derive(Drop)]
pub struct FromRead<R: Read> {
    reader: R,
    failures: u64,
}

impl<R: Read> FromRead<R> {
    /// The stream whose bytes are those that the reader has left, where they are known.
    pub fn new(reader: R) -> FromRead<R>
        ensures bytes { ⟦<FromRead<R> as ByteIn>⟧.bytes result ≡ R.remaining reader }
        ensures failures { ⟦<FromRead<R> as ByteIn>⟧.failures result ≡ 0 }
        ensures tells { ⟦<FromRead<R> as ByteIn>⟧.is_unknown result ≡ false }
    {
        FromRead {
            reader,
            failures: 0,
        }
    }
}

impl<R: Read> ByteIn for FromRead<R> {
    ghost bytes = { λ end. R.remaining end.reader };

    ghost failures = { λ end. end.failures };

    fn read(&mut self, buf: &mut [u8]) -> Result<usize, ReadFailed> {
        if self.failures == u64::MAX {
            return Err(ReadFailed::Broken);
        }
        match self.reader.read(buf) {
            Ok(n) => Ok(n),
            Err(error) => {
                self.failures += 1;
                Err(ReadFailed::from(error))
            }
        }
    }
}
