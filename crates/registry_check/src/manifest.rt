//! Whether a manifest is right.

ghost use Rattle.std.specs.Prelude.{◌≡◌, ◌&&◌, IfOk, is_some, option_and_then, option_map};
ghost use Rattle.serde_json.specs.Find.{get};
ghost use Rattle.serde_json.specs.Read.{read};
ghost use Rattle.serde_json.specs.View.{view};
ghost use Rattle.serde_json.specs.Written.{compact_text};
ghost use Rattle.registry_names.specs.Texts as texts;
ghost use Rattle.registry_publish.specs.Body as body;
ghost use Rattle.registry_publish.specs.Integrity as integrities;
ghost use Rattle.registry_publish.specs.Members as members;
ghost use Rattle.registry_check.specs.Forms as spec;

use registry_json::ReadError;
use registry_names::Fault;
use registry_publish::has_float;
use serde_json::Value;
use std::alloc::Global;

// The value that the text spells, if it is JSON.
fn document(alloc: Global, text: &str) -> Result<Option<Value>, Fault>
    ensures { IfOk result (λ value. option_map (λ v. view v) value ≡ read text.now) }
{
    match registry_json::from_str(alloc, text) {
        Ok(value) => Ok(Some(value)),
        Err(ReadError::NotJson) => Ok(None),
        Err(ReadError::Memory) => Err(Fault::Memory),
    }
}

/// Whether the text is the compact JSON of a manifest of this name and version.
pub(crate) fn is_manifest_text(
    alloc: Global,
    name: &str,
    version: &str,
    text: &str,
) -> Result<bool, Fault>
    ensures { IfOk result (λ is. is ≡ spec.is_manifest_text name.now version.now text.now) }
{
    match document(alloc, text)? {
        Some(value) => is_written(alloc, &value, name, version, text),
        None => Ok(false),
    }
}

// Whether the value is a manifest of this name and version, and is written so.
fn is_written(
    alloc: Global,
    value: &Value,
    name: &str,
    version: &str,
    text: &str,
) -> Result<bool, Fault>
    ensures { IfOk result (λ is. is ≡ (body.is_manifest name.now version.now (view value.now)
        && texts.is text.now (compact_text (view value.now)))) }
{
    if !is_manifest(value, name, version) {
        return Ok(false);
    }
    let written = value.to_string(alloc)?;
    Ok(is_same(text, written.as_str()))
}

#[tactic(auto, unfolding(registry_names::specs::Texts::is))]
fn is_same(text: &str, other: &str) -> bool
    ensures { result ≡ texts.is text.now other.now }
{
    text == other
}

#[tactic(auto, unfolding(registry_publish::specs::Body::is_manifest))]
fn is_manifest(value: &Value, name: &str, version: &str) -> bool
    ensures { result ≡ body.is_manifest name.now version.now (view value.now) }
{
    has_text(value, "name", name)
        && has_text(value, "version", version)
        && !has_member(value, "deprecated")
        && !has_float(value)
}

fn has_member(value: &Value, key: &str) -> bool
    ensures { result ≡ is_some (get key.now (view value.now)) }
{
    value.get(key).is_some()
}

fn text_at<'v>(value: &'v Value, key: &str) -> Option<&'v str>
    ensures { option_map (λ t. t.now) result ≡ members.text_at key.now (view value.now) }
{
    value.get(key).and_then(Value::as_str)
}

fn has_text(value: &Value, key: &str, text: &str) -> bool
    ensures { result ≡ members.has_text key.now text.now (view value.now) }
{
    match text_at(value, key) {
        Some(found) => found == text,
        None => false,
    }
}

/// Whether the manifest states this integrity of its archive, if it states any. A text that isn't
/// JSON states none.
pub(crate) fn states(alloc: Global, integrity: &str, manifest: &str) -> Result<bool, Fault>
    ensures { IfOk result (λ states. states ≡ spec.states integrity.now manifest.now) }
{
    match document(alloc, manifest)? {
        Some(value) => Ok(has_integrity(&value, integrity)),
        None => Ok(true),
    }
}

fn has_integrity(manifest: &Value, integrity: &str) -> bool
    ensures { result ≡ integrities.has_integrity integrity.now (view manifest.now) }
{
    match stated_integrity(manifest) {
        Some(stated) => is_text(stated, integrity),
        None => true,
    }
}

fn stated_integrity(manifest: &Value) -> Option<&Value>
    ensures { option_map (λ stated. view stated.now) result
        ≡ integrities.stated_integrity (view manifest.now) }
{
    manifest.get("dist")?.get("integrity")
}

fn is_text(value: &Value, text: &str) -> bool
    ensures { result ≡ members.is_text text.now (view value.now) }
{
    match value.as_str() {
        Some(found) => found == text,
        None => false,
    }
}
