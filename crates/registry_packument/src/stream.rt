//! Packuments version by version: one document of a version is held at a time, and one text of a
//! moment. The moments themselves are in the head.

ghost use Rattle.std.specs.Prelude.{◌≡◌, ◌≢◌, ◌+◌, ◌≤◌, ◌<◌, ◌^◌, ◌⊎◌, true, false, [], Some, None, length, string_bytes, OnOk, OnErr, IfOk, IfErr, IsErr, IsSome, IsSomeAnd};
ghost use Rattle.registry_names.specs.ByteStreams.{Writes, WritesPrefix, full_count};
ghost use Rattle.registry_packument.specs.ObjectTexts.{Pair, member_text};
ghost use Rattle.registry_packument.specs.Packuments.{version_pair, version_pairs, opening_text, pack_text, pack_len};
ghost use Rattle.registry_packument.specs.Sources.{IsFaultFrom};
ghost use Rattle.registry_packument.specs.Streams.{row_prefix, versions_prefix, pack_prefix, IsPackFault, failures_after, pack_fault_text};
ghost use Rattle.registry_packument.specs.Writing.{Adds, IsFaultOf};
ghost use Rattle.registry_names.specs.declared.stop.Fault.TheVariants.{Memory};
ghost use Rattle.registry_packument.specs.declared.stream.PackFault.TheVariants.{Write, Source};

use crate::form::PackForm;
use crate::head::PackHead;
use crate::opening::{opening_len, write_opening};
use crate::packument::{CLOSING, VersionMember, VersionRow};
use crate::source::VersionSource;
use registry_names::{ByteOut, Fault, WriteFailed, write_whole};
use std::alloc::{AllocError, Global};
use std::error::Error;
use std::fmt;

/// Why a packument wasn't written whole.
#[derive(Clone, Copy, Debug, PartialEq, Eq)]
pub enum PackFault {
    /// A write failed.
    Write,
    /// The source's own fault, or that of a manifest that isn't one, or no memory was left.
    Source(Fault),
}

impl fmt::Display for PackFault {
    ghost output = { λ fault. Some (pack_fault_text fault) };

    fn fmt<W: fmt::Write>(&self, f: &mut fmt::Formatter<W>) -> fmt::Result {
        match self {
            PackFault::Write => f.write_str("Write"),
            PackFault::Source(fault) => f.write_str(fault.text()),
        }
    }
}

impl Error for PackFault {}

impl From<WriteFailed> for PackFault {
    ghost from_gives = { λ _ fault. fault ≡ Write };

    fn from(_error: WriteFailed) -> PackFault {
        PackFault::Write
    }
}

impl From<Fault> for PackFault {
    ghost from_gives = { λ fault stop. stop ≡ Source fault };

    fn from(fault: Fault) -> PackFault {
        PackFault::Source(fault)
    }
}

impl From<AllocError> for PackFault {
    ghost from_gives = { λ _ fault. fault ≡ Source Memory };

    fn from(_error: AllocError) -> PackFault {
        PackFault::Source(Fault::Memory)
    }
}

/// The member of one version, in one piece.
pub(crate) fn member_string(
    alloc: Global,
    form: PackForm,
    later: bool,
    row: VersionRow,
) -> Result<String, Fault>
    ensures ok { IfOk result (λ text. Adds (member_text later) (version_pair form row)
        [] (string_bytes text)) }
    ensures err { IfErr result (IsFaultOf (version_pair form row)) }
{
    let VersionMember { key, document } = row.into_member(alloc, form, later)?;
    let mut text = key.into_string();
    text.push_str(document.as_str())?;
    Ok(text)
}

/// A count of bytes, and those of a text.
pub(crate) fn counted(count: u64, text: &str) -> Result<u64, Fault>
    ensures ok { IfOk result (λ sum. sum ≡ count + length text.now) }
    ensures fits { IfOk result (λ sum. sum < 2 ^ 64) }
    ensures err { IfErr result (λ fault. (fault ≡ Fault.Database)
        × (2 ^ 64 ≤ count + length text.now)) }
{
    count.checked_add(text.len() as u64).ok_or(Fault::Database)
}

// A count of bytes, and those of the member of one version.
fn counted_row(
    alloc: Global,
    form: PackForm,
    count: u64,
    later: bool,
    row: VersionRow,
) -> Result<u64, Fault>
    ensures ok { IfOk result (λ sum. (p : Pair) × (version_pair form row ≡ Some p)
        × (sum ≡ count + length (member_text later p))) }
    ensures err { IfErr result (λ fault. (fault ≡ Fault.Memory) ⊎ ((p : Pair)
        → version_pair form row ≡ Some p → 2 ^ 64 ≤ count + length (member_text later p))) }
{
    let member = row.into_member(alloc, form, later)?;
    let key_end = counted(count, member.key.as_str())?;
    counted(key_end, member.document.as_str())
}

/// How many bytes [`packument_text`](crate::packument_text) has of the rows that the source gives.
///
/// `Database` is returned where a manifest isn't one (see [`version_text`](crate::version_text)),
/// and where the number isn't below 2^64. Otherwise the source's own fault is returned, or `Memory`
/// when no memory is left. Where it succeeds, the source has given all its rows.
pub fn packument_len<S: VersionSource>(
    alloc: Global,
    head: &PackHead,
    source: &mut S,
) -> Result<u64, Fault>
    // Where what the source gave is known:
    ensures ok { S.is_known source.new
        → IfOk result (λ len. pack_len head.now (S.rows source.old) ≡ Some len) }
    ensures err { S.is_known source.new → IfErr result (IsFaultFrom (S.stopped source.new)
        (pack_len head.now (S.rows source.old))) }
    ensures taken { S.is_known source.new → OnOk result (S.rows source.new ≡ []) }

    ensures known { S.is_known source.new → S.is_known source.old }
    ensures goes_on { OnOk result (S.stopped source.new ≡ None) }
    ensures behind { S.leaves source.old source.new }
{
    let form = head.form();
    let mut count = opening_len(alloc, head)?;
    let mut later = false;
    'versions: while let Some(row) = source.next(alloc)? {
        count = counted_row(alloc, form, count, later, row)?;
        later = true;
    }
    counted(count, CLOSING)
}

// Writes the member of one version.
fn write_version<W: ByteOut>(
    alloc: Global,
    form: PackForm,
    later: bool,
    row: VersionRow,
    writer: &mut W,
) -> Result<(), PackFault>
    ensures ok { OnOk result (Writes (W.bytes writer.old) (W.bytes writer.new)
        (W.is_unknown writer.new) (row_prefix form later row)) }
    ensures whole { OnOk result (IsSome (version_pair form row)) }
    ensures err { OnErr result (WritesPrefix (W.bytes writer.old) (W.bytes writer.new)
        (W.is_unknown writer.new) (row_prefix form later row)) }
    ensures fault { IfErr result (IsPackFault None (version_pair form row)) }

    ensures counted { W.failures writer.new ≡ failures_after result (W.failures writer.old) }
    ensures told { result ≢ Err Write → W.is_unknown writer.new ≡ W.is_unknown writer.old }
    ensures unknown { W.is_unknown writer.old ≡ true → W.is_unknown writer.new ≡ true }
{
    write_whole(writer, member_string(alloc, form, later, row)?.as_bytes())?;
    Ok(())
}

// Writes the members of the versions, and the packument's end.
fn write_versions<W: ByteOut, S: VersionSource>(
    alloc: Global,
    form: PackForm,
    source: &mut S,
    writer: &mut W,
) -> Result<(), PackFault>
    ensures ok { S.is_known source.new → OnOk result (Writes (W.bytes writer.old)
        (W.bytes writer.new) (W.is_unknown writer.new)
        (versions_prefix form false (S.rows source.old))) }
    ensures whole { S.is_known source.new
        → OnOk result (IsSome (version_pairs form (S.rows source.old))) }
    ensures err { S.is_known source.new → OnErr result (WritesPrefix (W.bytes writer.old)
        (W.bytes writer.new) (W.is_unknown writer.new)
        (versions_prefix form false (S.rows source.old))) }
    ensures fault { S.is_known source.new → IfErr result (IsPackFault (S.stopped source.new)
        (version_pairs form (S.rows source.old))) }
    ensures taken { S.is_known source.new → OnOk result (S.rows source.new ≡ []) }
    ensures known { S.is_known source.new → S.is_known source.old }
    ensures goes_on { OnOk result (S.stopped source.new ≡ None) }
    ensures behind { S.leaves source.old source.new }

    ensures counted { W.failures writer.new ≡ failures_after result (W.failures writer.old) }
    ensures told { result ≢ Err Write → W.is_unknown writer.new ≡ W.is_unknown writer.old }
    ensures unknown { W.is_unknown writer.old ≡ true → W.is_unknown writer.new ≡ true }
{
    let mut later = false;
    'versions: while let Some(row) = source.next(alloc)? {
        write_version(alloc, form, later, row, writer)?;
        later = true;
    }
    write_whole(writer, CLOSING.as_bytes())?;
    Ok(())
}

/// Writes the packument of the rows that the source gives: the bytes of
/// [`packument_text`](crate::packument_text).
///
/// `Write` is returned only where a write failed. `Source` has the source's own fault, or
/// `Database` where a manifest isn't one (see [`version_text`](crate::version_text)), or `Memory`
/// when no memory is left. After a fault a prefix of the packument was written, and not all of it;
/// it ends before the document that is missing, if one is. No more than one row is held at a time,
/// and no more than one text of a moment.
pub fn write_packument<W: ByteOut, S: VersionSource>(
    alloc: Global,
    head: &PackHead,
    source: &mut S,
    writer: &mut W,
) -> Result<(), PackFault>
    // Where what the source gave is known:
    ensures ok { S.is_known source.new
        → OnOk result (IsSomeAnd (pack_text head.now (S.rows source.old)) (λ text.
        Writes (W.bytes writer.old) (W.bytes writer.new) (W.is_unknown writer.new) text)) }
    ensures err { S.is_known source.new → OnErr result (WritesPrefix (W.bytes writer.old)
        (W.bytes writer.new) (W.is_unknown writer.new)
        (pack_prefix head.now (S.rows source.old))) }
    ensures fault { S.is_known source.new → IfErr result (IsPackFault (S.stopped source.new)
        (pack_text head.now (S.rows source.old))) }
    ensures taken { S.is_known source.new → OnOk result (S.rows source.new ≡ []) }

    ensures known { S.is_known source.new → S.is_known source.old }
    ensures goes_on { OnOk result (S.stopped source.new ≡ None) }
    ensures behind { S.leaves source.old source.new }

    // Only a failed write is counted, and only it makes the bytes unknown, for good.
    ensures counted { W.failures writer.new ≡ failures_after result (W.failures writer.old) }
    ensures full { W.failures writer.old ≡ full_count → IsErr result }
    ensures told { result ≢ Err Write → W.is_unknown writer.new ≡ W.is_unknown writer.old }
    ensures unknown { W.is_unknown writer.old ≡ true → W.is_unknown writer.new ≡ true }
{
    write_opening(alloc, head, writer)?;
    write_versions(alloc, head.form(), source, writer)
}
