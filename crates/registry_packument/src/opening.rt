//! What comes before the first version of a packument: as a text, and in pieces. In pieces the
//! moments of the versions are texts one after the other, and one of them is held at a time. An
//! abbreviated packument doesn't have them.

ghost use Rattle.std.specs.Prelude.{◌≡◌, ◌≢◌, ◌++◌, ◌+◌, ◌≤◌, ◌^◌, ◌⊎◌, true, false, [], length, string_bytes, OnOk, OnErr, IfOk, IfErr, IsErr};
ghost use Rattle.registry_names.specs.ByteStreams.{Writes, WritesPrefix, full_count};
ghost use Rattle.registry_names.specs.declared.stop.Fault.TheVariants.{Memory};
ghost use Rattle.registry_packument.specs.Heads.{time_entry};
ghost use Rattle.registry_packument.specs.ObjectTexts.{member_text};
ghost use Rattle.registry_packument.specs.Packuments.{before_times, opening_of_form, opening_text, time_pair, times_text};
ghost use Rattle.registry_packument.specs.Streams.{failures_after};
ghost use Rattle.registry_packument.specs.declared.form.PackForm.TheVariants.{Full, Abbreviated};
ghost use Rattle.registry_packument.specs.declared.stream.PackFault.TheVariants.{Write, Source};

use crate::form::PackForm;
use crate::head::PackHead;
use crate::json_text::{push_key, push_object, push_text_member};
use crate::stream::{PackFault, counted};
use crate::times::{VersionTime, push_moment};
use registry_names::{ByteOut, Fault, write_whole};
use std::alloc::{AllocError, Global};

// All of a full packument that comes before the first of the moments.
fn before_times(alloc: Global, head: &PackHead) -> Result<String, AllocError>
    ensures { IfOk result (λ text. string_bytes text ≡ before_times head.now) }
{
    let name = head.name();
    let mut out = String::new(alloc);
    out.push_str("{")?;
    push_text_member(alloc, &mut out, false, "_id", name)?;
    push_key(alloc, &mut out, true, "dist-tags")?;
    push_object(alloc, &mut out, head.tags())?;
    push_text_member(alloc, &mut out, true, "name", name)?;
    push_key(alloc, &mut out, true, "time")?;
    out.push_str("{")?;
    Ok(out)
}

// A version with its moment.
fn push_time(
    alloc: Global,
    out: &mut String,
    later: bool,
    time: &VersionTime,
) -> Result<(), AllocError>
    ensures { OnOk result (string_bytes out.new
        ≡ string_bytes out.old ++ member_text later (time_pair (time_entry time.now))) }
{
    push_moment(alloc, out, later, time.version.as_str(), time.published)
}

// The moments of the package itself, and what comes before the first version.
fn push_after_times(
    alloc: Global,
    out: &mut String,
    later: bool,
    head: &PackHead,
) -> Result<(), AllocError>
    ensures { OnOk result (string_bytes out.new
        ≡ string_bytes out.old ++ times_text head.now later []) }
{
    push_moment(alloc, out, later, "created", head.created())?;
    push_moment(alloc, out, true, "modified", head.modified())?;
    out.push_str("}")?;
    push_key(alloc, out, true, "versions")?;
    out.push_str("{")
}

// ---- as a text

// The moments, and what follows them up to the first version.
fn push_times(
    alloc: Global,
    out: &mut String,
    head: &PackHead,
    times: &[VersionTime],
) -> Result<(), AllocError>
    ensures { OnOk result (string_bytes out.new
        ≡ string_bytes out.old ++ times_text head.now false times.now) }
{
    let mut later = false;
    for time in times {
        push_time(alloc, out, later, time)?;
        later = true;
    }
    push_after_times(alloc, out, later, head)
}

// All of a full packument that comes before its first version.
fn full_opening(alloc: Global, head: &PackHead) -> Result<String, AllocError>
    ensures { IfOk result (λ text. string_bytes text ≡ opening_of_form Full head.now) }
{
    let mut out = before_times(alloc, head)?;
    push_times(alloc, &mut out, head, head.times())?;
    Ok(out)
}

// All of an abbreviated packument that comes before its first version.
fn abbreviated_opening(alloc: Global, head: &PackHead) -> Result<String, AllocError>
    ensures { IfOk result (λ text. string_bytes text ≡ opening_of_form Abbreviated head.now) }
{
    let mut out = String::new(alloc);
    out.push_str("{")?;
    push_key(alloc, &mut out, false, "dist-tags")?;
    push_object(alloc, &mut out, head.tags())?;
    push_moment(alloc, &mut out, true, "modified", head.modified())?;
    push_text_member(alloc, &mut out, true, "name", head.name())?;
    push_key(alloc, &mut out, true, "versions")?;
    out.push_str("{")?;
    Ok(out)
}

/// All of a packument that comes before its first version.
pub(crate) fn opening(alloc: Global, head: &PackHead) -> Result<String, AllocError>
    ensures { IfOk result (λ text. string_bytes text ≡ opening_text head.now) }
{
    match head.form() {
        PackForm::Full => full_opening(alloc, head),
        PackForm::Abbreviated => abbreviated_opening(alloc, head),
    }
}

// ---- in pieces

fn time_member(alloc: Global, later: bool, time: &VersionTime) -> Result<String, AllocError>
    ensures { IfOk result (λ text. string_bytes text
        ≡ member_text later (time_pair (time_entry time.now))) }
{
    let mut out = String::new(alloc);
    push_time(alloc, &mut out, later, time)?;
    Ok(out)
}

fn after_times(alloc: Global, later: bool, head: &PackHead) -> Result<String, AllocError>
    ensures { IfOk result (λ text. string_bytes text ≡ times_text head.now later []) }
{
    let mut out = String::new(alloc);
    push_after_times(alloc, &mut out, later, head)?;
    Ok(out)
}

// Writes the moments, and what follows them up to the first version.
fn write_times<W: ByteOut>(
    alloc: Global,
    head: &PackHead,
    times: &[VersionTime],
    writer: &mut W,
) -> Result<(), PackFault>
    ensures ok { OnOk result (Writes (W.bytes writer.old) (W.bytes writer.new)
        (W.is_unknown writer.new) (times_text head.now false times.now)) }
    ensures err { OnErr result (WritesPrefix (W.bytes writer.old) (W.bytes writer.new)
        (W.is_unknown writer.new) (times_text head.now false times.now)) }
    ensures fault { IfErr result (λ fault. (fault ≡ Write) ⊎ (fault ≡ Source Memory)) }

    ensures counted { W.failures writer.new ≡ failures_after result (W.failures writer.old) }
    ensures told { result ≢ Err Write → W.is_unknown writer.new ≡ W.is_unknown writer.old }
    ensures unknown { W.is_unknown writer.old ≡ true → W.is_unknown writer.new ≡ true }
{
    let mut later = false;
    for time in times {
        let member = time_member(alloc, later, time)?;
        write_whole(writer, member.as_bytes())?;
        later = true;
    }
    let after = after_times(alloc, later, head)?;
    write_whole(writer, after.as_bytes())?;
    Ok(())
}

// Writes all of a full packument that comes before its first version.
fn write_full_opening<W: ByteOut>(
    alloc: Global,
    head: &PackHead,
    writer: &mut W,
) -> Result<(), PackFault>
    ensures ok { OnOk result (Writes (W.bytes writer.old) (W.bytes writer.new)
        (W.is_unknown writer.new) (opening_of_form Full head.now)) }
    ensures err { OnErr result (WritesPrefix (W.bytes writer.old) (W.bytes writer.new)
        (W.is_unknown writer.new) (opening_of_form Full head.now)) }
    ensures fault { IfErr result (λ fault. (fault ≡ Write) ⊎ (fault ≡ Source Memory)) }

    ensures counted { W.failures writer.new ≡ failures_after result (W.failures writer.old) }
    ensures full { W.failures writer.old ≡ full_count → IsErr result }
    ensures told { result ≢ Err Write → W.is_unknown writer.new ≡ W.is_unknown writer.old }
    ensures unknown { W.is_unknown writer.old ≡ true → W.is_unknown writer.new ≡ true }
{
    let before = before_times(alloc, head)?;
    write_whole(writer, before.as_bytes())?;
    write_times(alloc, head, head.times(), writer)
}

// Writes all of an abbreviated packument that comes before its first version.
fn write_abbreviated_opening<W: ByteOut>(
    alloc: Global,
    head: &PackHead,
    writer: &mut W,
) -> Result<(), PackFault>
    ensures ok { OnOk result (Writes (W.bytes writer.old) (W.bytes writer.new)
        (W.is_unknown writer.new) (opening_of_form Abbreviated head.now)) }
    ensures err { OnErr result (WritesPrefix (W.bytes writer.old) (W.bytes writer.new)
        (W.is_unknown writer.new) (opening_of_form Abbreviated head.now)) }
    ensures fault { IfErr result (λ fault. (fault ≡ Write) ⊎ (fault ≡ Source Memory)) }

    ensures counted { W.failures writer.new ≡ failures_after result (W.failures writer.old) }
    ensures full { W.failures writer.old ≡ full_count → IsErr result }
    ensures told { result ≢ Err Write → W.is_unknown writer.new ≡ W.is_unknown writer.old }
    ensures unknown { W.is_unknown writer.old ≡ true → W.is_unknown writer.new ≡ true }
{
    let text = abbreviated_opening(alloc, head)?;
    write_whole(writer, text.as_bytes())?;
    Ok(())
}

/// Writes all of a packument that comes before its first version.
pub(crate) fn write_opening<W: ByteOut>(
    alloc: Global,
    head: &PackHead,
    writer: &mut W,
) -> Result<(), PackFault>
    ensures ok { OnOk result (Writes (W.bytes writer.old) (W.bytes writer.new)
        (W.is_unknown writer.new) (opening_text head.now)) }
    ensures err { OnErr result (WritesPrefix (W.bytes writer.old) (W.bytes writer.new)
        (W.is_unknown writer.new) (opening_text head.now)) }
    ensures fault { IfErr result (λ fault. (fault ≡ Write) ⊎ (fault ≡ Source Memory)) }

    ensures counted { W.failures writer.new ≡ failures_after result (W.failures writer.old) }
    ensures full { W.failures writer.old ≡ full_count → IsErr result }
    ensures told { result ≢ Err Write → W.is_unknown writer.new ≡ W.is_unknown writer.old }
    ensures unknown { W.is_unknown writer.old ≡ true → W.is_unknown writer.new ≡ true }
{
    match head.form() {
        PackForm::Full => write_full_opening(alloc, head, writer),
        PackForm::Abbreviated => write_abbreviated_opening(alloc, head, writer),
    }
}

// ---- how long it is

// A count of bytes, and those of the moments and of what follows them up to the first version.
fn counted_times(
    alloc: Global,
    count: u64,
    head: &PackHead,
    times: &[VersionTime],
) -> Result<u64, Fault>
    ensures ok { IfOk result (λ sum. sum ≡ count + length (times_text head.now false times.now)) }
    ensures err { IfErr result (λ fault. (fault ≡ Fault.Memory)
        ⊎ (2 ^ 64 ≤ count + length (times_text head.now false times.now))) }
{
    let mut sum = count;
    let mut later = false;
    for time in times {
        let member = time_member(alloc, later, time)?;
        sum = counted(sum, member.as_str())?;
        later = true;
    }
    let after = after_times(alloc, later, head)?;
    counted(sum, after.as_str())
}

// How many bytes of a full packument come before its first version.
fn full_opening_len(alloc: Global, head: &PackHead) -> Result<u64, Fault>
    ensures ok { IfOk result (λ len. len ≡ length (opening_of_form Full head.now)) }
    ensures err { IfErr result (λ fault. (fault ≡ Fault.Memory)
        ⊎ (2 ^ 64 ≤ length (opening_of_form Full head.now))) }
{
    let before = before_times(alloc, head)?;
    counted_times(alloc, before.len() as u64, head, head.times())
}

// How many bytes of an abbreviated packument come before its first version.
fn abbreviated_opening_len(alloc: Global, head: &PackHead) -> Result<u64, Fault>
    ensures ok { IfOk result (λ len. len ≡ length (opening_of_form Abbreviated head.now)) }
    ensures err { IfErr result (λ fault. fault ≡ Fault.Memory) }
{
    let text = abbreviated_opening(alloc, head)?;
    Ok(text.len() as u64)
}

/// How many bytes come before the first version.
pub(crate) fn opening_len(alloc: Global, head: &PackHead) -> Result<u64, Fault>
    ensures ok { IfOk result (λ len. len ≡ length (opening_text head.now)) }
    ensures err { IfErr result (λ fault. (fault ≡ Fault.Memory)
        ⊎ (2 ^ 64 ≤ length (opening_text head.now))) }
{
    match head.form() {
        PackForm::Full => full_opening_len(alloc, head),
        PackForm::Abbreviated => abbreviated_opening_len(alloc, head),
    }
}
