//! The first request of the bytes that have come.

ghost use Rattle.std.specs.Prelude.{◌≡◌, ◌<◌, length, Ok, IfOk, IfErr};
ghost use Rattle.httparse.specs.Grammar.{RequestHead};
ghost use Rattle.registry_names.specs.declared.stop.Fault.TheVariants.{Memory};
ghost use Rattle.registry_wire.specs.Asked.{value_of, wanted_of};
ghost use Rattle.registry_wire.specs.Knowledge.{IsKnown};
ghost use Rattle.registry_wire.specs.Parts.{ArePartsOf, said_of};
ghost use Rattle.registry_wire.specs.Spelling.{EndsWith, IsUnfinished, Says, request_limit};
ghost use Rattle.registry_wire.specs.declared.first.First.TheVariants.{Unfinished};

use crate::field::Values;
use crate::head::{HeadFound, HeadParts, head_in, prefix_of};
use crate::known::{Known, UNSEEN_HEAD};
use crate::wanted::{FieldValue, Wanted};
use registry_names::{Blob, Fault, Refusal};
use std::alloc::{AllocError, Global};

/// The most bytes of a head, its blank line included.
pub const HEAD_LIMIT: usize = 16_384;

/// The most fields of a head.
pub const FIELD_LIMIT: usize = 64;

/// What the bytes that have come say of the first request.
#[derive(Debug, Drop)]
pub enum First {
    /// It has come whole, and has this many bytes.
    Whole(Wanted, usize),
    /// It hasn't come whole, and may.
    Unfinished,
    /// Whatever follows, the connection ends with this refusal.
    Bad(Refusal),
}

/// How the bytes of a connection end.
#[derive(Clone, Copy, Debug, PartialEq, Eq)]
pub enum Ending {
    /// After a whole request, or before the first.
    Closed,
    /// With what isn't a request that is served.
    BadInput(Refusal),
}

/// What the bytes that have come say of the first request. A fault is returned when no memory is
/// left for its texts and its body.
///
/// A head is refused with `BadBody` where `httparse` refuses it, where it has more than
/// `FIELD_LIMIT` fields or doesn't end within `HEAD_LIMIT` bytes, where it has a
/// `transfer-encoding` or a `content-encoding` other than `identity`, and where it has two
/// `content-length` or one that isn't digits. Any other head is refused with `TooLarge` where its
/// length is above [`BODY_LIMIT`](registry_names::BODY_LIMIT). The length is 0 where the head says
/// none.
pub fn first_in(alloc: Global, bytes: &[u8]) -> Result<First, Fault>
    ensures says { IfOk result (Says bytes.now) }
    ensures fault { IfErr result (λ fault. fault ≡ Memory) }
    ensures short { result ≡ Ok Unfinished → length bytes.now < request_limit }
{
    let (first, _) = looked_at(alloc, bytes)?;
    Ok(first)
}

/// What the bytes that have come say of the first request, and what is known where it isn't whole.
pub fn looked_at(alloc: Global, bytes: &[u8]) -> Result<(First, Known), Fault>
    ensures says { IfOk result (λ r. Says bytes.now r.0) }
    ensures known { IfOk result (λ r. IsKnown bytes.now r.1) }
    ensures fault { IfErr result (λ fault. fault ≡ Memory) }
    ensures short { IfOk result (λ r. r.0 ≡ Unfinished → length bytes.now < request_limit) }
{
    let parts = match head_in(prefix_of(bytes)) {
        HeadFound::Whole(parts) => parts,
        HeadFound::Unfinished => return Ok((First::Unfinished, UNSEEN_HEAD)),
        HeadFound::Never => return Ok((First::Bad(Refusal::BadBody), Known::Nothing)),
    };
    let len = match parts.body {
        Ok(len) => len,
        Err(refusal) => return Ok((First::Bad(refusal), Known::Nothing)),
    };
    let (_, after) = bytes.split_at(parts.len);
    if after.len() < len {
        return Ok((First::Unfinished, Known::Body(parts.len + len)));
    }
    let (body, _) = after.split_at(len);
    let wanted = wanted(alloc, &parts, body)?;
    Ok((First::Whole(wanted, parts.len + len), Known::Nothing))
}

fn wanted(alloc: Global, parts: &HeadParts<'_>, body: &[u8]) -> Result<Wanted, AllocError>
    ensures { (h : RequestHead) → ArePartsOf h parts.now
        → IfOk result (λ w. w ≡ wanted_of h body.now) }
{
    Ok(Wanted {
        method: parts.method,
        target: Blob::from_slice(alloc, parts.target)?,
        authorization: value(alloc, parts.authorization)?,
        if_none_match: value(alloc, parts.if_none_match)?,
        accept: value(alloc, parts.accept)?,
        body: Blob::from_slice(alloc, body)?,
        closes: parts.closes,
    })
}

fn value(alloc: Global, values: Values<'_>) -> Result<FieldValue, AllocError>
    ensures { IfOk result (λ v. v ≡ value_of (said_of values.entry)) }
{
    match values {
        Values::Absent => Ok(FieldValue::Absent),
        Values::Once(value) => Ok(FieldValue::Once(Blob::from_slice(alloc, value)?)),
        Values::Repeated => Ok(FieldValue::Repeated),
    }
}

/// How a connection ends that gives no more bytes, where these are the last and hold no whole
/// request: closed where there are none, and otherwise with `BadBody`.
pub fn ending_of(bytes: &[u8]) -> Ending
    ensures { IsUnfinished bytes.now → EndsWith bytes.now result }
{
    if bytes.is_empty() {
        Ending::Closed
    } else {
        Ending::BadInput(Refusal::BadBody)
    }
}
