//! The integrity of an archive.

ghost use Rattle.std.specs.Prelude.{◌≡◌, option_map, IfOk, IfErr};
ghost use Rattle.serde_json.specs.View.{view};
ghost use Rattle.registry_publish.specs.Integrity as spec;
ghost use Rattle.registry_publish.specs.Integrity.{integrity_text};

use crate::members::is_text;
use base64::engine::general_purpose::STANDARD;
use registry_names::{Fault, Text};
use serde_json::Value;
use sha2::{Digest, Sha512};
use std::alloc::Global;

/// The integrity of these bytes, as [Subresource Integrity](https://www.w3.org/TR/SRI/) writes
/// it: `sha512-`, and after it the padded base64 (RFC 4648) of the bytes' SHA-512 (FIPS 180-4).
///
/// `Memory` is returned when no memory is left, and no other fault is returned.
pub fn integrity_of(alloc: Global, bytes: &[u8]) -> Result<Text, Fault>
    ensures ok { IfOk result (λ text. text ≡ integrity_text bytes.now) }
    ensures err { IfErr result (λ fault. fault ≡ Fault.Memory) }
{
    let digest = Sha512::digest(bytes);
    let mut text = String::from_str(alloc, "sha512-")?;
    STANDARD.encode_string(&digest, &mut text)?;
    Ok(Text::from(text))
}

// Whether the manifest says no other integrity of its archive.
pub(crate) fn has_integrity(manifest: &Value, integrity: &str) -> bool
    ensures { result ≡ spec.has_integrity integrity.now (view manifest.now) }
{
    match stated_integrity(manifest) {
        Some(stated) => is_text(stated, integrity),
        None => true,
    }
}

fn stated_integrity(manifest: &Value) -> Option<&Value>
    ensures { option_map (λ stated. view stated.now) result
        ≡ spec.stated_integrity (view manifest.now) }
{
    manifest.get("dist")?.get("integrity")
}
