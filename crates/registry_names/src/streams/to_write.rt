//! Writers of the standard library as byte streams.

ghost use Rattle.std.specs.Prelude.{◌≡◌, false};

use super::{ByteOut, WriteFailed};
use std::io::Write;

/// A writer of the standard library as a byte stream. Each of its errors is a failed write, and so
/// is a write that took nothing of a text that isn't empty; its bytes never become unknown.
#[derive(Drop)]
pub struct ToWrite<W: Write> {
    writer: W,
    failures: u64,
}

impl<W: Write> ToWrite<W> {
    /// The stream whose bytes are those that the writer holds, where they are known.
    pub fn new(writer: W) -> ToWrite<W>
        ensures bytes { ⟦<ToWrite<W> as ByteOut>⟧.bytes result ≡ W.contents writer }
        ensures failures { ⟦<ToWrite<W> as ByteOut>⟧.failures result ≡ 0 }
        ensures tells { ⟦<ToWrite<W> as ByteOut>⟧.is_unknown result ≡ false }
    {
        ToWrite {
            writer,
            failures: 0,
        }
    }
}

impl<W: Write> ByteOut for ToWrite<W> {
    ghost bytes = { λ end. W.contents end.writer };

    ghost failures = { λ end. end.failures };

    fn write(&mut self, text: &[u8]) -> Result<usize, WriteFailed> {
        if self.failures == u64::MAX {
            return Err(WriteFailed);
        }
        match self.writer.write(text) {
            Ok(n) if n > 0 || text.is_empty() => Ok(n),
            _ => {
                self.failures += 1;
                Err(WriteFailed)
            }
        }
    }
}
