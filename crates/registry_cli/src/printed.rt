//! What is printed of an answer.

ghost use Rattle.std.specs.Prelude.{◌≡◌, ◌++◌, codes, decimal, IfErr, IfOk};
ghost use Rattle.registry_names.specs.declared.stop.Fault.TheVariants.{Memory};
ghost use Rattle.registry_names.specs.Refusals.{refusal_text};
ghost use Rattle.registry_cli.specs.Prints.{newline, on_errors, on_output, printed};

use registry_names::{Blob, Fault, Refusal, Text};
use registry_rules::Reply;
use std::alloc::{AllocError, Global};

/// What the program prints of an answer, and how it ends.
#[derive(Debug, PartialEq, Eq, Drop)]
pub struct Printed {
    /// What is printed on standard output.
    pub out: Blob,
    /// What is printed on standard error.
    pub err: Text,
    /// The status with which the program ends.
    pub status: u8,
}

/// What is printed of an answer. On standard output, with status 0: a document and a newline; the
/// bytes of an archive as they are; `{"ok":true}` and a newline for a command that was done; or,
/// for example, `{"count":2,"ok":true}` and a newline for a deprecation of 2 versions. On standard
/// error, with status 1: `refused: `, the refusal, and a newline.
///
/// `Memory` is returned where no memory is left.
pub fn render(alloc: Global, reply: &Reply) -> Result<Printed, Fault>
    ensures ok { IfOk result (λ p. p ≡ printed reply.now) }
    ensures err { IfErr result (λ fault. fault ≡ Memory) }
{
    let rendered = match reply {
        Reply::Created | Reply::Done => answer(alloc, "{\"ok\":true}".as_bytes(), "\n"),
        Reply::Count(count) => counted(alloc, *count),
        Reply::Doc(text) => answer(alloc, text.as_str().as_bytes(), "\n"),
        Reply::Bytes(archive) => answer(alloc, archive.as_slice(), ""),
        Reply::Refused(refusal) => refused(alloc, *refusal),
    };
    Ok(rendered?)
}

// An answer of these bytes and this end.
fn answer(alloc: Global, bytes: &[u8], end: &str) -> Result<Printed, AllocError>
    ensures { IfOk result (λ p. p ≡ on_output (bytes.now ++ end.now)) }
{
    let mut out = Vec::from_slice(alloc, bytes)?;
    out.extend_from_slice(end.as_bytes())?;
    Ok(Printed {
        out: Blob::from(out),
        err: Text::from_str(alloc, "")?,
        status: 0,
    })
}

// An answer with this count.
fn counted(alloc: Global, count: u64) -> Result<Printed, AllocError>
    ensures { IfOk result (λ p. p ≡ on_output
        (codes "{\"count\":" ++ decimal count ++ codes ",\"ok\":true}" ++ newline)) }
{
    let text = format!(in alloc; "{{\"count\":{count},\"ok\":true}}")?;
    answer(alloc, text.as_bytes(), "\n")
}

fn refused(alloc: Global, refusal: Refusal) -> Result<Printed, AllocError>
    ensures { IfOk result (λ p.
        p ≡ on_errors (codes "refused: " ++ refusal_text refusal ++ newline)) }
{
    let mut line = String::from_str(alloc, "refused: ")?;
    line.push_str(refusal.text())?;
    line.push_str("\n")?;
    Ok(Printed {
        out: Blob::from_slice(alloc, &[])?,
        err: Text::from(line),
        status: 1,
    })
}
