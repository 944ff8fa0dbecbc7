//! The archive in a publish body.

ghost use Rattle.std.specs.Prelude.{◌≡◌, Ok, IfOk, IfErr, List, ℕ, MatchResult};
ghost use Rattle.base64.specs.Engines.{standard};
ghost use Rattle.base64.specs.GeneralPurpose.{decode_of};
ghost use Rattle.serde_json.specs.View.{view};
ghost use Rattle.registry_publish.specs.Attachments as spec;
ghost use Rattle.registry_publish.specs.Attachments.{IsAttached};
ghost use Rattle.registry_publish.specs.Stops.{StopsReading};

use crate::json::BAD_BODY;
use crate::members::{sole_at, text_at};
use base64::DecodeAllocError;
use base64::engine::general_purpose::STANDARD;
use registry_names::{Fault, Stop};
use serde_json::Value;
use std::alloc::Global;

fn decoded(alloc: Global, coded: &str) -> Result<Vec<u8>, Stop>
    ensures ok { IfOk result (λ z. decode_of standard coded.now ≡ Ok z.items) }
    ensures err { IfErr result (StopsReading
        ((z : List ℕ) → ¬ (decode_of standard coded.now ≡ Ok z))) }
{
    match STANDARD.decode(alloc, coded.as_bytes()) {
        Ok(archive) => Ok(archive),
        Err(DecodeAllocError::OutOfMemory) => Err(Stop::Fault(Fault::Memory)),
        Err(DecodeAllocError::DecodeError(_)) => Err(BAD_BODY),
    }
}

// Whether the attachment gives no other length.
fn has_length(attachment: &Value, bytes: usize) -> bool
    ensures { result ≡ spec.has_length bytes (view attachment.now) }
{
    match attachment.get("length") {
        Some(length) => length.as_u64() == Some(bytes as u64),
        None => true,
    }
}

// The bytes of the body's one attachment.
pub(crate) fn archive_of(alloc: Global, body: &Value) -> Result<Vec<u8>, Stop>
    ensures { MatchResult result
        (λ archive. IsAttached (view body.now) archive.items)
        (StopsReading ((z : List ℕ) → ¬ IsAttached (view body.now) z)) }
{
    let (_file, attachment) = sole_at(body, "_attachments").ok_or(BAD_BODY)?;
    let coded = text_at(attachment, "data").ok_or(BAD_BODY)?;
    let archive = decoded(alloc, coded)?;
    if has_length(attachment, archive.len()) {
        Ok(archive)
    } else {
        Err(BAD_BODY)
    }
}
