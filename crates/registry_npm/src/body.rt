//! What the bodies of npm's own requests say.

ghost use Rattle.std.specs.Prelude.{◌≡◌, is_some, option_map, IfOk, IfErr};
ghost use Rattle.serde_json.specs.Find.{get};
ghost use Rattle.serde_json.specs.View.{view};
ghost use Rattle.registry_names.specs.Faults.{IsMemoryOr};
ghost use Rattle.registry_names.specs.Spellings.{status_named};
ghost use Rattle.registry_routes.specs.Bodies.{IsJson, IsNoJson};
ghost use Rattle.registry_npm.specs.Bodies as spec;

use registry_access::{Grant, Role};
use registry_json::ReadError;
use registry_names::{Fault, Ident, Name, Refusal, Status, Stop};
use serde_json::Value;
use std::alloc::Global;

const BAD_BODY: Stop = Stop::Refused(Refusal::BadBody);

const NOT_SERVED: Stop = Stop::Refused(Refusal::NotServed);

fn is_space(byte: u8) -> bool
    ensures { result ≡ spec.is_space byte }
{
    byte == b' ' || byte == b'\t' || byte == b'\n' || byte == b'\r'
}

// Whether a body begins as an object of JSON does.
pub(crate) fn begins_object(mut body: &[u8]) -> bool
    ensures { result ≡ spec.begins_object body.now }
{
    while let [byte, rest @ ..] = body {
        if !is_space(*byte) {
            return *byte == b'{';
        }
        body = rest;
    }
    false
}

// The JSON value of a body.
pub(crate) fn json_of(alloc: Global, body: &[u8]) -> Result<Value, Stop>
    ensures ok { IfOk result (λ value. IsJson body.now (view value)) }
    ensures err { IfErr result (IsMemoryOr Refusal.BadBody (IsNoJson body.now)) }
{
    match registry_json::from_slice(alloc, body) {
        Ok(value) => Ok(value),
        Err(ReadError::NotJson) => Err(BAD_BODY),
        Err(ReadError::Memory) => Err(Stop::Fault(Fault::Memory)),
    }
}

// The text of a member.
fn text_at<'a>(value: &'a Value, key: &str) -> Option<&'a str>
    ensures { option_map (λ t. t.now) result ≡ spec.text_at key.now (view value.now) }
{
    value.get(key).and_then(Value::as_str)
}

// The name of a user or a team that a member has.
#[tactic(auto, unfolding(crate::specs::Bodies::reads_ident_at))]
pub(crate) fn ident_at(alloc: Global, value: &Value, key: &str) -> Result<Ident, Stop>
    ensures { spec.reads_ident_at key.now (view value.now) result }
{
    match text_at(value, key) {
        Some(text) => Ident::parse(alloc, text),
        None => Err(BAD_BODY),
    }
}

// The name of a package that a member has.
#[tactic(auto, unfolding(crate::specs::Bodies::reads_name_at))]
pub(crate) fn name_at(alloc: Global, value: &Value, key: &str) -> Result<Name, Stop>
    ensures { spec.reads_name_at key.now (view value.now) result }
{
    match text_at(value, key) {
        Some(text) => Name::parse(alloc, text),
        None => Err(BAD_BODY),
    }
}

// The role that a member names.
#[tactic(auto, unfolding(crate::specs::Bodies::reads_role_at))]
fn role_at(value: &Value, key: &str) -> Result<Role, Stop>
    ensures { spec.reads_role_at key.now (view value.now) result }
{
    match text_at(value, key).and_then(Role::parse) {
        Some(role) => Ok(role),
        None => Err(BAD_BODY),
    }
}

// The grant that a member names.
#[tactic(auto, unfolding(crate::specs::Bodies::reads_grant_at))]
fn grant_at(value: &Value, key: &str) -> Result<Grant, Stop>
    ensures { spec.reads_grant_at key.now (view value.now) result }
{
    match text_at(value, key).and_then(Grant::parse) {
        Some(grant) => Ok(grant),
        None => Err(BAD_BODY),
    }
}

// The status that a member names.
fn status_at(value: &Value, key: &str) -> Result<Status, Stop>
    ensures { spec.reads_word_at status_named key.now (view value.now) result }
{
    match text_at(value, key).and_then(Status::parse) {
        Some(status) => Ok(status),
        None => Err(BAD_BODY),
    }
}

// A user, and their role.
#[tactic(auto, unfolding(crate::specs::Bodies::reads_user_role))]
pub(crate) fn user_role(alloc: Global, value: &Value) -> Result<(Ident, Role), Stop>
    ensures { spec.reads_user_role (view value.now) result }
{
    let user = ident_at(alloc, value, "user")?;
    let role = role_at(value, "role")?;
    Ok((user, role))
}

// A package, and what is granted on it.
#[tactic(auto, unfolding(crate::specs::Bodies::reads_granted))]
pub(crate) fn granted(alloc: Global, value: &Value) -> Result<(Name, Grant), Stop>
    ensures { spec.reads_granted (view value.now) result }
{
    let package = name_at(alloc, value, "package")?;
    let grant = grant_at(value, "permissions")?;
    Ok((package, grant))
}

fn has_member(value: &Value, key: &str) -> bool
    ensures { result ≡ is_some (get key.now (view value.now)) }
{
    value.get(key).is_some()
}

// Who may read a package, as npm sends it.
pub(crate) fn access_of(value: &Value) -> Result<Status, Stop>
    ensures { spec.reads_access (view value.now) result }
{
    if has_member(value, "publish_requires_tfa") {
        return Err(NOT_SERVED);
    }
    status_at(value, "access")
}
