//! Printing an answer, which takes no memory.

ghost use Rattle.std.specs.Prelude.{◌≡◌, ◌++◌, OnOk, OnErr, IfOk, codes, decimal, true};
ghost use Rattle.registry_names.specs.ByteStreams.{Writes, WritesPrefix, failures_after};
ghost use Rattle.registry_cli.specs.Prints.{WritesSome, newline, printed, printed_token, token_out};

use itoa::Buffer;
use registry_names::{ByteOut, WriteFailed, write_whole};
use registry_rules::Reply;

/// What is printed for a command that was done.
const DONE: &str = "{\"ok\":true}\n";

/// Prints an answer, and gives the status with which the program ends.
///
/// What [`render`](crate::render) gives goes to the output, and then to the errors as far as they
/// take it. No memory is taken. An error is returned where a write on the output fails; it may have
/// taken a prefix of the answer, and nothing is written to the errors.
pub fn print_reply<O: ByteOut, E: ByteOut>(
    reply: &Reply,
    output: &mut O,
    errors: &mut E,
) -> Result<u8, WriteFailed>
    ensures status { IfOk result (λ status. status ≡ (printed reply.now).status) }
    ensures output { OnOk result (Writes (O.bytes output.old) (O.bytes output.new)
        (O.is_unknown output.new) (printed reply.now).out) }
    ensures errors { OnOk result (WritesSome (E.bytes errors.old) (E.bytes errors.new)
        (E.is_unknown errors.new) (printed reply.now).err) }
    ensures broken { OnErr result (WritesPrefix (O.bytes output.old) (O.bytes output.new)
        (O.is_unknown output.new) (printed reply.now).out) }
    ensures silent { OnErr result (errors.new ≡ errors.old) }
    ensures failed { O.failures output.new ≡ failures_after result (O.failures output.old) }
{
    write_answer(reply, output)?;
    let _ = write_refusal(reply, errors);
    Ok(status_of(reply))
}

/// Prints the answer to a line that adds a token which was made, and gives the status with which
/// the program ends.
///
/// The token and a newline go to the output where the token was added. Otherwise the token isn't
/// printed, and the reply is printed as [`print_reply`] does. No memory is taken. An error is
/// returned where a write on the output fails; the token may have been added then, and nobody has
/// it.
pub fn print_token<O: ByteOut, E: ByteOut>(
    token: &str,
    reply: &Reply,
    output: &mut O,
    errors: &mut E,
) -> Result<u8, WriteFailed>
    ensures status { IfOk result (λ status. status ≡ (printed_token token.now reply.now).status) }
    ensures output { OnOk result (Writes (O.bytes output.old) (O.bytes output.new)
        (O.is_unknown output.new) (printed_token token.now reply.now).out) }
    ensures errors { OnOk result (WritesSome (E.bytes errors.old) (E.bytes errors.new)
        (E.is_unknown errors.new) (printed_token token.now reply.now).err) }
    ensures broken { OnErr result (WritesPrefix (O.bytes output.old) (O.bytes output.new)
        (O.is_unknown output.new) (printed_token token.now reply.now).out) }
    ensures silent { OnErr result (errors.new ≡ errors.old) }
    ensures failed { O.failures output.new ≡ failures_after result (O.failures output.old) }
{
    write_token(token, reply, output)?;
    let _ = write_refusal(reply, errors);
    Ok(status_of(reply))
}

// Writes the token where it was added, and otherwise the part of the answer that goes to standard
// output.
fn write_token<W: ByteOut>(token: &str, reply: &Reply, writer: &mut W) -> Result<(), WriteFailed>
    ensures ok { OnOk result (Writes (W.bytes writer.old) (W.bytes writer.new)
        (W.is_unknown writer.new) (token_out token.now reply.now)) }
    ensures err { OnErr result (WritesPrefix (W.bytes writer.old) (W.bytes writer.new)
        (W.is_unknown writer.new) (token_out token.now reply.now)) }
    ensures failed { W.failures writer.new ≡ failures_after result (W.failures writer.old) }
{
    match reply {
        Reply::Created | Reply::Done => write_two(writer, token.as_bytes(), b"\n"),
        _ => write_answer(reply, writer),
    }
}

fn status_of(reply: &Reply) -> u8
    ensures { result ≡ (printed reply.now).status }
{
    match reply {
        Reply::Created | Reply::Done | Reply::Count(_) | Reply::Doc(_) | Reply::Bytes(_) => 0,
        Reply::Refused(_) => 1,
    }
}

// Writes the part of an answer that goes to standard output.
fn write_answer<W: ByteOut>(reply: &Reply, writer: &mut W) -> Result<(), WriteFailed>
    ensures ok { OnOk result (Writes (W.bytes writer.old) (W.bytes writer.new)
        (W.is_unknown writer.new) (printed reply.now).out) }
    ensures err { OnErr result (WritesPrefix (W.bytes writer.old) (W.bytes writer.new)
        (W.is_unknown writer.new) (printed reply.now).out) }
    ensures failed { W.failures writer.new ≡ failures_after result (W.failures writer.old) }
{
    match reply {
        Reply::Created | Reply::Done => write_whole(writer, DONE.as_bytes()),
        Reply::Count(count) => write_count(*count, writer),
        Reply::Doc(text) => write_two(writer, text.as_str().as_bytes(), b"\n"),
        Reply::Bytes(archive) => write_whole(writer, archive.as_slice()),
        Reply::Refused(_) => write_whole(writer, &[]),
    }
}

// Writes the part of an answer that goes to standard error.
fn write_refusal<W: ByteOut>(reply: &Reply, writer: &mut W) -> Result<(), WriteFailed>
    ensures ok { OnOk result (Writes (W.bytes writer.old) (W.bytes writer.new)
        (W.is_unknown writer.new) (printed reply.now).err) }
    ensures err { OnErr result (WritesPrefix (W.bytes writer.old) (W.bytes writer.new)
        (W.is_unknown writer.new) (printed reply.now).err) }
    ensures failed { W.failures writer.new ≡ failures_after result (W.failures writer.old) }
{
    match reply {
        Reply::Created | Reply::Done | Reply::Count(_) | Reply::Doc(_) | Reply::Bytes(_) =>
            write_whole(writer, &[]),
        Reply::Refused(refusal) => write_three(
            writer,
            b"refused: ",
            refusal.text().as_bytes(),
            b"\n",
        ),
    }
}

// Writes the answer with this count.
fn write_count<W: ByteOut>(count: u64, writer: &mut W) -> Result<(), WriteFailed>
    ensures ok { OnOk result (Writes (W.bytes writer.old) (W.bytes writer.new)
        (W.is_unknown writer.new)
        (codes "{\"count\":" ++ decimal count ++ codes ",\"ok\":true}" ++ newline)) }
    ensures err { OnErr result (WritesPrefix (W.bytes writer.old) (W.bytes writer.new)
        (W.is_unknown writer.new)
        (codes "{\"count\":" ++ decimal count ++ codes ",\"ok\":true}" ++ newline)) }
    ensures failed { W.failures writer.new ≡ failures_after result (W.failures writer.old) }
{
    let mut digits = Buffer::new();
    let number = digits.format(count).as_bytes();
    write_three(writer, b"{\"count\":", number, b",\"ok\":true}\n")
}

// Writes three texts, or a prefix of them up to the first failed write.
fn write_three<W: ByteOut>(
    writer: &mut W,
    first: &[u8],
    second: &[u8],
    third: &[u8],
) -> Result<(), WriteFailed>
    ensures ok { OnOk result (Writes (W.bytes writer.old) (W.bytes writer.new)
        (W.is_unknown writer.new) (first.now ++ (second.now ++ third.now))) }
    ensures err { OnErr result (WritesPrefix (W.bytes writer.old) (W.bytes writer.new)
        (W.is_unknown writer.new) (first.now ++ (second.now ++ third.now))) }
    ensures failed { W.failures writer.new ≡ failures_after result (W.failures writer.old) }
{
    write_whole(writer, first)?;
    write_two(writer, second, third)
}

fn write_two<W: ByteOut>(writer: &mut W, first: &[u8], second: &[u8]) -> Result<(), WriteFailed>
    ensures ok { OnOk result (Writes (W.bytes writer.old) (W.bytes writer.new)
        (W.is_unknown writer.new) (first.now ++ second.now)) }
    ensures err { OnErr result (WritesPrefix (W.bytes writer.old) (W.bytes writer.new)
        (W.is_unknown writer.new) (first.now ++ second.now)) }

    ensures unknown { W.is_unknown writer.old ≡ true → W.is_unknown writer.new ≡ true }
    ensures failed { W.failures writer.new ≡ failures_after result (W.failures writer.old) }
{
    write_whole(writer, first)?;
    write_whole(writer, second)
}
