//! What the bodies of requests say.

ghost use Rattle.std.specs.Prelude.{◌≡◌, string_bytes, option_and_then, option_map, IfOk, IfErr};
ghost use Rattle.serde_json.specs.Find.{as_str, get};
ghost use Rattle.serde_json.specs.View.{view};
ghost use Rattle.registry_names.specs.Faults.{IsMemoryOr};
ghost use Rattle.registry_names.specs.Spellings.{status_named};
ghost use Rattle.registry_names.specs.Texts.{Text};
ghost use Rattle.registry_access.specs.Spellings.{grant_named, role_named};
ghost use Rattle.registry_ranges.specs.Selectors.{HasConditions};
ghost use Rattle.registry_routes.specs.Bodies as spec;
ghost use Rattle.registry_routes.specs.Bodies.{IsDeprecationBody, IsJson, IsNoString, IsNoWord};
ghost use Rattle.registry_routes.specs.Bodies.{IsString, IsVersionBody, IsWordOf};
ghost use Rattle.registry_routes.specs.Bodies.{StopsDeprecation, StopsVersion};

use registry_access::{Grant, Role};
use registry_json::ReadError;
use registry_names::{Fault, Message, Refusal, Status, Stop, Ver};
use registry_ranges::Selector;
use serde_json::Value;
use std::alloc::Global;

const BAD_BODY: Stop = Stop::Refused(Refusal::BadBody);

/// What a deprecation asks for: the versions that it is about, and its message.
#[derive(Debug, Drop)]
pub struct Deprecation {
    pub selector: Selector,
    pub message: Message,
}

// The JSON value of a body.
fn json_of(alloc: Global, body: &[u8]) -> Result<Value, Stop>
    ensures ok { IfOk result (λ value. IsJson body.now (view value)) }
    ensures err { IfErr result (IsMemoryOr Refusal.BadBody (spec.IsNoJson body.now)) }
{
    match registry_json::from_slice(alloc, body) {
        Ok(value) => Ok(value),
        Err(ReadError::NotJson) => Err(BAD_BODY),
        Err(ReadError::Memory) => Err(Stop::Fault(Fault::Memory)),
    }
}

// The text of a body that is a JSON string.
fn string_of(alloc: Global, body: &[u8]) -> Result<String, Stop>
    ensures ok { IfOk result (λ text. IsString body.now (string_bytes text)) }
    ensures err { IfErr result (IsMemoryOr Refusal.BadBody (IsNoString body.now)) }
{
    let value = json_of(alloc, body)?;
    match into_string(value) {
        Some(text) => Ok(text),
        None => Err(BAD_BODY),
    }
}

fn into_string(value: Value) -> Option<String>
    ensures { option_map string_bytes result ≡ as_str (view value) }
{
    match value {
        Value::String(text) => Some(text),
        _ => None,
    }
}

/// The version that a body says: a JSON string (RFC 8259) of it.
///
/// `BadBody` is returned only for a body that isn't a JSON string, `BadVersion` only for the string
/// of a text that isn't a version, and `Memory` when no memory is left.
pub fn version_of_body(alloc: Global, body: &[u8]) -> Result<Ver, Stop>
    ensures ok { IfOk result (IsVersionBody body.now) }
    ensures err { IfErr result (StopsVersion body.now) }
{
    let text = string_of(alloc, body)?;
    Ver::parse(alloc, text.as_str())
}

/// The status that a body says: the JSON string `"public"` or `"restricted"`.
///
/// `BadBody` is returned only for any other body, and `Memory` when no memory is left.
pub fn status_of_body(alloc: Global, body: &[u8]) -> Result<Status, Stop>
    ensures ok { IfOk result (IsWordOf status_named body.now) }
    ensures err { IfErr result (IsMemoryOr Refusal.BadBody (IsNoWord status_named body.now)) }
{
    let word = string_of(alloc, body)?;
    match Status::parse(word.as_str()) {
        Some(status) => Ok(status),
        None => Err(BAD_BODY),
    }
}

/// The role that a body says: the JSON string `"developer"`, `"admin"` or `"owner"`.
///
/// `BadBody` is returned only for any other body, and `Memory` when no memory is left.
pub fn role_of_body(alloc: Global, body: &[u8]) -> Result<Role, Stop>
    ensures ok { IfOk result (IsWordOf role_named body.now) }
    ensures err { IfErr result (IsMemoryOr Refusal.BadBody (IsNoWord role_named body.now)) }
{
    let word = string_of(alloc, body)?;
    match Role::parse(word.as_str()) {
        Some(role) => Ok(role),
        None => Err(BAD_BODY),
    }
}

/// The grant that a body says: the JSON string `"read-only"` or `"read-write"`.
///
/// `BadBody` is returned only for any other body, and `Memory` when no memory is left.
pub fn grant_of_body(alloc: Global, body: &[u8]) -> Result<Grant, Stop>
    ensures ok { IfOk result (IsWordOf grant_named body.now) }
    ensures err { IfErr result (IsMemoryOr Refusal.BadBody (IsNoWord grant_named body.now)) }
{
    let word = string_of(alloc, body)?;
    match Grant::parse(word.as_str()) {
        Some(grant) => Ok(grant),
        None => Err(BAD_BODY),
    }
}

// The text of a member.
fn text_at<'a>(value: &'a Value, key: &str) -> Option<&'a str>
    ensures { option_map (λ t. t.now) result
        ≡ option_and_then as_str (get key.now (view value.now)) }
{
    value.get(key).and_then(Value::as_str)
}

/// The deprecation that a body says: a JSON object (RFC 8259) with the texts `selector`, a selector
/// of versions, and `message`, of at most 1,024 bytes. Its other members aren't read, and of equal
/// keys the last one counts.
///
/// `BadBody` is returned only for a body that isn't such an object or whose message is too long,
/// `BadSelector` only for one whose selector isn't one, and `Memory` when no memory is left.
pub fn deprecation_of_body(alloc: Global, body: &[u8]) -> Result<Deprecation, Stop>
    ensures ok { IfOk result (λ d. (text : Text) × IsDeprecationBody body.now text d.message
        × HasConditions text d.selector) }
    ensures err { IfErr result (StopsDeprecation body.now) }
{
    let value = json_of(alloc, body)?;
    let Some(selector) = text_at(&value, "selector") else {
        return Err(BAD_BODY);
    };
    let Some(message) = text_at(&value, "message") else {
        return Err(BAD_BODY);
    };
    let message = Message::parse(alloc, message)?;
    let selector = Selector::parse(alloc, selector)?;
    Ok(Deprecation { selector, message })
}
