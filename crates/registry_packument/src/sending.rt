//! Packuments that are sent: what opens one for its length, and its bytes.

ghost use Rattle.std.specs.Prelude.{◌≡◌, ◌≢◌, ◌+◌, ◌++◌, ◌<◌, ◌⊎◌, [], true, false, Err, Some, None, length, string_bytes, OnOk, OnErr, IfOk, IfErr};
ghost use Rattle.registry_names.specs.ByteStreams as streams;
ghost use Rattle.registry_names.specs.ByteStreams.{Writes, WritesPrefix, full_count};
ghost use Rattle.registry_names.specs.declared.stop.Fault.{Fault};
ghost use Rattle.registry_names.specs.declared.stop.Fault.TheVariants.{Memory, Database};
ghost use Rattle.registry_packument.specs.Packuments.{opening_text, pack_len, pack_text, version_pair, version_pairs};
ghost use Rattle.registry_packument.specs.Counted as counted;
ghost use Rattle.registry_packument.specs.Counted.{IfBroken, IsBreak, IsUnbroken, IsUnstopped, Takes, WritesWithin, row_text, rows_text};
ghost use Rattle.registry_packument.specs.Sendings as sendings;
ghost use Rattle.registry_packument.specs.Streams.{failures_after};
ghost use Rattle.registry_packument.specs.declared.opener.Sent.TheVariants.{Broken, Whole, WriteFault};
ghost use Rattle.registry_packument.specs.declared.stream.PackFault.TheVariants.{Write, Source};

use crate::form::PackForm;
use crate::head::PackHead;
use crate::opener::{Opener, Sent};
use crate::opening::opening;
use crate::packument::{CLOSING, VersionRow};
use crate::source::VersionSource;
use crate::stream::PackFault;
use registry_names::{ByteOut, Fault, WriteFailed, write_whole};
use std::alloc::Global;

// ---- a text that is there

// Writes one text and then another.
fn write_both<W: ByteOut>(writer: &mut W, first: &str, second: &str) -> Result<(), WriteFailed>
    ensures ok { OnOk result (Writes (W.bytes writer.old) (W.bytes writer.new)
        (W.is_unknown writer.new) (first.now ++ second.now)) }
    ensures err { OnErr result (WritesPrefix (W.bytes writer.old) (W.bytes writer.new)
        (W.is_unknown writer.new) (first.now ++ second.now)) }

    ensures counted { W.failures writer.new
        ≡ streams.failures_after result (W.failures writer.old) }
    ensures told { OnOk result (W.is_unknown writer.new ≡ W.is_unknown writer.old) }
    ensures unknown { W.is_unknown writer.old ≡ true → W.is_unknown writer.new ≡ true }
{
    write_whole(writer, first.as_bytes())?;
    write_whole(writer, second.as_bytes())?;
    Ok(())
}

/// Sends a packument whose text is there: what opens it for its length, and the text.
///
/// It is broken off only by a failed write, or before the first byte, where no memory is left for
/// what opens it.
pub fn send_text<W: ByteOut, O: Opener>(
    alloc: Global,
    text: &str,
    writer: &mut W,
    opener: &O,
) -> Sent
    ensures takes { Takes (O.opens opener.now) (λ bytes. bytes ≡ text.now)
        (W.bytes writer.old) (W.bytes writer.new) (W.is_unknown writer.new) result }
    ensures whole { (fault : Fault) → result ≢ Broken fault true }
    ensures fault { IfBroken result (λ fault. fault ≡ Memory) }

    ensures counted { W.failures writer.new ≡ sendings.failures_after result (W.failures writer.old) }
    ensures told { result ≢ WriteFault → W.is_unknown writer.new ≡ W.is_unknown writer.old }
    ensures unknown { W.is_unknown writer.old ≡ true → W.is_unknown writer.new ≡ true }
{
    let opening = match opener.opening(alloc, text.len() as u64) {
        Ok(opening) => opening,
        Err(fault) => return Sent::Broken {
            fault,
            has_started: false,
        },
    };
    match write_both(writer, opening.as_str(), text) {
        Ok(()) => Sent::Whole,
        Err(_) => Sent::WriteFault,
    }
}

// ---- version by version, where it is known how many bytes there are

// How many bytes the members of the versions have, where the packument has this many and this text
// comes before them.
fn room_after(len: u64, before: &str) -> Result<u64, Fault>
    ensures ok { IfOk result (λ room. length before.now + (room + 2) ≡ len) }
    ensures err { IfErr result (λ _. len < length before.now + 2) }
{
    let Some(versions) = len.checked_sub(before.len() as u64) else {
        return Err(Fault::Database);
    };
    versions
        .checked_sub(CLOSING.len() as u64)
        .ok_or(Fault::Database)
}

// What is sent before the first version.
#[derive(Drop)]
struct Start {
    // What opens the packument, and its own bytes before the first version.
    text: String,
    // How many bytes the members of the versions have then.
    room: u64,
}

// What is sent before the first version of a packument that has this many bytes.
fn start_of<O: Opener>(alloc: Global, head: &PackHead, len: u64, opener: &O) -> Result<Start, Fault>
    ensures text { IfOk result (λ start. string_bytes start.text
        ≡ O.opens opener.now len ++ opening_text head.now) }
    ensures room { IfOk result (λ start.
        length (opening_text head.now) + (start.room + 2) ≡ len) }
    ensures err { IfErr result (λ fault.
        (fault ≡ Memory) ⊎ (len < length (opening_text head.now) + 2)) }
{
    let before = opening(alloc, head)?;
    let room = room_after(len, before.as_str())?;
    let mut text = opener.opening(alloc, len)?.into_string();
    text.push_str(before.as_str())?;
    Ok(Start { text, room })
}

// Writes the member of one version where it has no more bytes than the room, and gives what is left
// of that.
fn write_within<W: ByteOut>(
    alloc: Global,
    form: PackForm,
    room: u64,
    later: bool,
    row: VersionRow,
    writer: &mut W,
) -> Result<u64, PackFault>
    ensures ok { OnOk result (Writes (W.bytes writer.old) (W.bytes writer.new)
        (W.is_unknown writer.new) (row_text form later row)) }
    ensures left { IfOk result (λ left. length (row_text form later row) + left ≡ room) }
    ensures err { OnErr result (WritesPrefix (W.bytes writer.old) (W.bytes writer.new)
        (W.is_unknown writer.new) (row_text form later row)) }
    ensures within { OnErr result (WritesWithin (room + 1) result (W.bytes writer.old)
        (W.bytes writer.new) (W.is_unknown writer.new)) }
    ensures fault { result ≡ Err (Source Database)
        → (version_pair form row ≡ None) ⊎ (room < length (row_text form later row)) }

    ensures counted { W.failures writer.new ≡ failures_after result (W.failures writer.old) }
    ensures told { result ≢ Err Write → W.is_unknown writer.new ≡ W.is_unknown writer.old }
    ensures unknown { W.is_unknown writer.old ≡ true → W.is_unknown writer.new ≡ true }
{
    let member = row.into_known_member(alloc, form, later)?;
    let Some(left) = room.checked_sub(member.len() as u64) else {
        return Err(PackFault::Source(Fault::Database));
    };
    write_whole(writer, member.as_bytes())?;
    Ok(left)
}

// Writes the members of the versions, which have as many bytes as the room, and the packument's end.
fn write_counted<W: ByteOut, S: VersionSource>(
    alloc: Global,
    form: PackForm,
    source: &mut S,
    room: u64,
    writer: &mut W,
) -> Result<(), PackFault>
    ensures within { WritesWithin (room + 2) result (W.bytes writer.old) (W.bytes writer.new)
        (W.is_unknown writer.new) }
    ensures ok { S.is_known source.new → OnOk result (Writes (W.bytes writer.old)
        (W.bytes writer.new) (W.is_unknown writer.new)
        (rows_text form false (S.rows source.old))) }
    ensures err { S.is_known source.new → OnErr result (WritesPrefix (W.bytes writer.old)
        (W.bytes writer.new) (W.is_unknown writer.new)
        (rows_text form false (S.rows source.old))) }
    ensures long { S.is_known source.new → OnOk result
        (length (rows_text form false (S.rows source.old)) ≡ room + 2) }
    ensures fault { S.is_known source.new → result ≡ Err (Source Database)
        → (S.stopped source.new ≡ Some Database) ⊎ ((version_pairs form (S.rows source.old) ≡ None)
        ⊎ (length (rows_text form false (S.rows source.old)) ≢ room + 2)) }
    ensures taken { S.is_known source.new → OnOk result (S.rows source.new ≡ []) }

    ensures known { S.is_known source.new → S.is_known source.old }
    ensures behind { S.leaves source.old source.new }
    ensures goes_on { IsUnstopped result → S.stopped source.new ≡ None }

    ensures counted { W.failures writer.new ≡ failures_after result (W.failures writer.old) }
    ensures told { result ≢ Err Write → W.is_unknown writer.new ≡ W.is_unknown writer.old }
    ensures unknown { W.is_unknown writer.old ≡ true → W.is_unknown writer.new ≡ true }
{
    let mut left = room;
    let mut later = false;
    'versions: while let Some(row) = source.next(alloc)? {
        left = write_within(alloc, form, left, later, row, writer)?;
        later = true;
    }
    if left > 0 {
        return Err(PackFault::Source(Fault::Database));
    }
    write_whole(writer, CLOSING.as_bytes())?;
    Ok(())
}

// How a packument was sent, of which bytes were written before its versions.
fn end_of(written: Result<(), PackFault>) -> Sent
    ensures { result ≡ counted.end_of written }
{
    match written {
        Ok(()) => Sent::Whole,
        Err(PackFault::Write) => Sent::WriteFault,
        Err(PackFault::Source(fault)) => Sent::Broken {
            fault,
            has_started: true,
        },
    }
}

/// Sends the packument of the rows that the source gives, whose length is known
/// ([`packument_len`](crate::packument_len)): what opens a packument of that length, and then the
/// packument. One version is held at a time.
///
/// Whatever the source gives: never more bytes are written of the packument than that many, and it
/// is whole with exactly as many. Where the rows don't have them it is broken off by `Database`.
/// Otherwise it is broken off by the source's own fault, or where no memory is left.
///
/// The manifests were read when the bytes were counted. For a full packument those of versions
/// without a message aren't read again.
pub fn send_counted<W: ByteOut, S: VersionSource, O: Opener>(
    alloc: Global,
    head: &PackHead,
    source: &mut S,
    len: u64,
    writer: &mut W,
    opener: &O,
) -> Sent
    ensures framed { Takes (O.opens opener.now) (λ text. length text ≡ len)
        (W.bytes writer.old) (W.bytes writer.new) (W.is_unknown writer.new) result }
    // Where what the source gave is known, it is whole only if its rows have that many bytes; and
    // where they have:
    ensures long { S.is_known source.new → result ≡ Whole
        → length (opening_text head.now ++ rows_text head.now.form false (S.rows source.old)) ≡ len }
    ensures takes { S.is_known source.new → pack_len head.now (S.rows source.old) ≡ Some len
        → Takes (O.opens opener.now) (λ text. pack_text head.now (S.rows source.old) ≡ Some text)
        (W.bytes writer.old) (W.bytes writer.new) (W.is_unknown writer.new) result }
    ensures fault { S.is_known source.new → IfBroken result (IsBreak (S.stopped source.new) len
        (pack_len head.now (S.rows source.old))) }
    ensures taken { S.is_known source.new → result ≡ Whole → S.rows source.new ≡ [] }

    ensures known { S.is_known source.new → S.is_known source.old }
    ensures behind { S.leaves source.old source.new }
    ensures goes_on { S.stopped source.old ≡ None → IsUnbroken result
        → S.stopped source.new ≡ None }

    ensures counted { W.failures writer.new ≡ sendings.failures_after result (W.failures writer.old) }
    ensures full { W.failures writer.old ≡ full_count → result ≢ Whole }
    ensures told { result ≢ WriteFault → W.is_unknown writer.new ≡ W.is_unknown writer.old }
    ensures unknown { W.is_unknown writer.old ≡ true → W.is_unknown writer.new ≡ true }
{
    let start = match start_of(alloc, head, len, opener) {
        Ok(start) => start,
        Err(fault) => return Sent::Broken {
            fault,
            has_started: false,
        },
    };
    match write_whole(writer, start.text.as_bytes()) {
        Ok(()) => end_of(write_counted(alloc, head.form(), source, start.room, writer)),
        Err(_) => Sent::WriteFault,
    }
}
