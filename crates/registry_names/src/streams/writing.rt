//! Writing a whole text.

ghost use Rattle.std.specs.Prelude.{◌≡◌, ◌<◌, true, OnOk, OnErr, IsErr, length};
ghost use Rattle.registry_names.specs.ByteStreams.{Writes, WritesPrefix, failures_after, full_count};

use super::{ByteOut, WriteFailed};

/// Writes all of the text, or a prefix of it up to the first failed write.
pub fn write_whole<W: ByteOut>(writer: &mut W, text: &[u8]) -> Result<(), WriteFailed>
    ensures ok { OnOk result
        (Writes (W.bytes writer.old) (W.bytes writer.new) (W.is_unknown writer.new) text.now) }
    ensures err { OnErr result
        (WritesPrefix (W.bytes writer.old) (W.bytes writer.new) (W.is_unknown writer.new) text.now) }

    ensures counted { W.failures writer.new ≡ failures_after result (W.failures writer.old) }
    ensures full { W.failures writer.old ≡ full_count → 0 < length text.now → IsErr result }

    ensures told { OnOk result (W.is_unknown writer.new ≡ W.is_unknown writer.old) }
    ensures unknown { W.is_unknown writer.old ≡ true → W.is_unknown writer.new ≡ true }
{
    let mut written = 0;
    'pieces: while written < text.len() {
        written += writer.write(&text[written..])?;
    }
    Ok(())
}
