//! Documents in the forms that npm reads.

ghost use Rattle.std.specs.Prelude.{◌≡◌, ◌<◌, ◌^◌, codes, is_some, option_map, option_and_then, map, IfOk, IfErr, string_bytes};
ghost use Rattle.json.specs.Print.{quoted};
ghost use Rattle.serde_json.specs.Find.{as_str, get};
ghost use Rattle.serde_json.specs.Read.{read};
ghost use Rattle.serde_json.specs.View.{view, items_view, members_view};
ghost use Rattle.registry_access.specs.Spellings.{grant_named};
ghost use Rattle.registry_npm.specs.Forms as spec;

use crate::body::json_of;
use registry_access::{Grant, Level, Role};
use registry_names::{Fault, Ident, Stop, Text};
use registry_packument::{List, PackageLevel, list_text};
use serde_json::{Map, Value, json};
use std::alloc::{AllocError, Global};

// ---- what the registry answers, as values

// The value of a document. `None` where it isn't JSON.
pub(crate) fn value_of(alloc: Global, text: &str) -> Result<Option<Value>, Fault>
    ensures ok { IfOk result (λ value. option_map view value ≡ read text.now) }
    ensures err { IfErr result (λ fault. fault ≡ Fault.Memory) }
{
    match json_of(alloc, text.as_bytes()) {
        Ok(value) => Ok(Some(value)),
        Err(Stop::Refused(_)) => Ok(None),
        Err(Stop::Fault(fault)) => Err(fault),
    }
}

// The texts of an array. `None` where an item isn't one.
fn names_of(alloc: Global, items: &[Value]) -> Result<Option<Vec<Text>>, AllocError>
    ensures { IfOk result (λ names. option_map (λ v. v.items) names
        ≡ spec.names_of (items_view items.now)) }
{
    let mut names = Vec::new(alloc);
    for item in items {
        let Some(text) = item.as_str() else {
            return Ok(None);
        };
        let name = Text::from_str(alloc, text)?;
        names.push(name)?;
    }
    Ok(Some(names))
}

pub(crate) fn names_in(alloc: Global, text: &str) -> Result<Option<Vec<Text>>, Fault>
    ensures ok { IfOk result (λ names. option_map (λ v. v.items) names ≡ spec.names_in text.now) }
    ensures err { IfErr result (λ fault. fault ≡ Fault.Memory) }
{
    let Some(value) = value_of(alloc, text)? else {
        return Ok(None);
    };
    match value.as_array() {
        Some(items) => Ok(names_of(alloc, items)?),
        None => Ok(None),
    }
}

fn grant_of(value: &Value) -> Option<Grant>
    ensures { result ≡ option_and_then grant_named (as_str (view value.now)) }
{
    value.as_str().and_then(Grant::parse)
}

fn level_of(grant: Grant) -> Level
    ensures { result ≡ spec.level_of grant }
{
    match grant {
        Grant::ReadOnly => Level::Read,
        Grant::ReadWrite => Level::Write,
    }
}

// The packages of an object, each with the level that is granted on it. `None` where a value isn't a
// grant.
pub(crate) fn levels_of(
    alloc: Global,
    members: &Map<String, Value>,
) -> Result<Option<Vec<PackageLevel>>, AllocError>
    ensures { IfOk result (λ rows. option_map (λ v. v.items) rows
        ≡ option_map (map spec.granted_level) (spec.grants_of (members_view members.now.entries))) }
{
    let mut rows = Vec::new(alloc);
    for (name, member) in members.iter() {
        let Some(grant) = grant_of(member) else {
            return Ok(None);
        };
        let name = Text::from_str(alloc, name.as_str())?;
        rows.push(PackageLevel {
            name,
            level: level_of(grant),
        })?;
    }
    Ok(Some(rows))
}

// ---- npm's forms

fn team_text(alloc: Global, organisation: &str, team: &str) -> Result<Text, AllocError>
    ensures { IfOk result (λ text. text ≡ spec.team_text organisation.now team.now) }
{
    let text = format!(in alloc; "{organisation}:{team}")?;
    Ok(Text::from(text))
}

fn team_texts(alloc: Global, organisation: &Ident, teams: &[Text]) -> Result<Vec<Text>, AllocError>
    ensures { IfOk result (λ v. v.items ≡ map (spec.team_text organisation.now) teams.now) }
{
    let mut texts = Vec::new(alloc);
    for team in teams {
        let text = team_text(alloc, organisation.text(), team.as_str())?;
        texts.push(text)?;
    }
    Ok(texts)
}

/// The teams of an organisation, each after its name: `["lab:developers","lab:ops"]`. `None` where
/// the document isn't an array of texts.
///
/// `Memory` is returned where no memory is left, here and by the other forms.
pub(crate) fn teams(alloc: Global, organisation: &Ident, text: &str) -> Result<Option<Text>, Fault>
    ensures ok { IfOk result (λ shown. shown ≡ spec.teams_form organisation.now text.now) }
    ensures err { IfErr result (λ fault. fault ≡ Fault.Memory) }
{
    let Some(names) = names_in(alloc, text)? else {
        return Ok(None);
    };
    let texts = team_texts(alloc, organisation, &names)?;
    Ok(Some(list_text(alloc, &List::Names(texts))?))
}

/// Packages, each with `read` or `write`. `None` where the document isn't an object of grants.
pub(crate) fn grants(alloc: Global, text: &str) -> Result<Option<Text>, Fault>
    ensures ok { IfOk result (λ shown. shown ≡ spec.grants_form text.now) }
    ensures err { IfErr result (λ fault. fault ≡ Fault.Memory) }
{
    let Some(value) = value_of(alloc, text)? else {
        return Ok(None);
    };
    let Some(members) = value.as_object() else {
        return Ok(None);
    };
    match levels_of(alloc, members)? {
        Some(rows) => Ok(Some(list_text(alloc, &List::Levels(rows))?)),
        None => Ok(None),
    }
}

fn writer_rows(alloc: Global, users: &[Text]) -> Result<Vec<PackageLevel>, AllocError>
    ensures { IfOk result (λ v. v.items ≡ map spec.writer users.now) }
{
    let mut rows = Vec::new(alloc);
    for user in users {
        let name = Text::from_str(alloc, user.as_str())?;
        rows.push(PackageLevel {
            name,
            level: Level::Write,
        })?;
    }
    Ok(rows)
}

/// Users, each with `write`. `None` where the document isn't an array of texts.
pub(crate) fn writers(alloc: Global, text: &str) -> Result<Option<Text>, Fault>
    ensures ok { IfOk result (λ shown. shown ≡ spec.writers_form text.now) }
    ensures err { IfErr result (λ fault. fault ≡ Fault.Memory) }
{
    let Some(names) = names_in(alloc, text)? else {
        return Ok(None);
    };
    let rows = writer_rows(alloc, &names)?;
    Ok(Some(list_text(alloc, &List::Levels(rows))?))
}

fn username(value: &Value) -> Option<&str>
    ensures { option_map (λ t. t.now) result
        ≡ option_and_then as_str (get (codes "username") (view value.now)) }
{
    value.get("username").and_then(Value::as_str)
}

// A text in JSON's quotes.
fn quoted(alloc: Global, text: &str) -> Result<String, AllocError>
    ensures { IfOk result (λ s. string_bytes s ≡ quoted text.now) }
{
    Value::try_from_str(alloc, text)?.to_string(alloc)
}

fn profile_text(alloc: Global, name: &str) -> Result<Text, AllocError>
    ensures { IfOk result (λ text. text ≡ spec.profile_text name.now) }
{
    let name = quoted(alloc, name)?;
    let text = format!(in alloc; "{{\"email\":\"\",\"name\":{name},\"tfa\":false}}")?;
    Ok(Text::from(text))
}

/// The profile of the user whom the document names: `{"email":"","name":"ann","tfa":false}`. `None`
/// where it names none.
pub(crate) fn profile(alloc: Global, text: &str) -> Result<Option<Text>, Fault>
    ensures ok { IfOk result (λ shown. shown ≡ spec.profile_form text.now) }
    ensures err { IfErr result (λ fault. fault ≡ Fault.Memory) }
{
    let Some(value) = value_of(alloc, text)? else {
        return Ok(None);
    };
    match username(&value) {
        Some(name) => Ok(Some(profile_text(alloc, name)?)),
        None => Ok(None),
    }
}

fn user_id(alloc: Global, user: &str) -> Result<String, AllocError>
    ensures { IfOk result (λ text. string_bytes text ≡ spec.user_id user.now) }
{
    format!(in alloc; "org.couchdb.user:{user}")
}

/// The document of a user.
pub(crate) fn user(alloc: Global, user: &Ident) -> Result<Text, AllocError>
    ensures { IfOk result (λ text. text ≡ spec.user_text user.now) }
{
    let id = user_id(alloc, user.text())?;
    let id = quoted(alloc, id.as_str())?;
    let name = quoted(alloc, user.text())?;
    user_text(alloc, id.as_str(), name.as_str())
}

fn user_text(alloc: Global, id: &str, name: &str) -> Result<Text, AllocError>
    ensures { IfOk result (λ text. text ≡ spec.user_of id.now name.now) }
{
    let text = format!(in alloc;
        "{{\"_id\":{id},\"email\":\"\",\"name\":{name},\"roles\":[],\"type\":\"user\"}}"
    )?;
    Ok(Text::from(text))
}

fn size_of(members: &Map<String, Value>) -> u64
    ensures size { result ≡ spec.size_of (members_view members.now.entries) }
    ensures small { result < 2 ^ 63 }
{
    members.len() as u64
}

// How many members an object has, once it has one with this key.
fn size_with(key: &str, value: &Value, members: &Map<String, Value>) -> u64
    ensures { result ≡ spec.size_with key.now (view value.now) (members_view members.now.entries) }
{
    let size = size_of(members);
    if has(value, key) { size } else { size + 1 }
}

fn has(value: &Value, key: &str) -> bool
    ensures { result ≡ is_some (get key.now (view value.now)) }
{
    value.get(key).is_some()
}

fn size_in(alloc: Global, key: &str, text: &str) -> Result<Option<u64>, Fault>
    ensures ok { IfOk result (λ size. size ≡ spec.size_in key.now text.now) }
    ensures err { IfErr result (λ fault. fault ≡ Fault.Memory) }
{
    let Some(value) = value_of(alloc, text)? else {
        return Ok(None);
    };
    match value.as_object() {
        Some(members) => Ok(Some(size_with(key, &value, members))),
        None => Ok(None),
    }
}

fn org_text(alloc: Global, organisation: &Ident, size: u64) -> Result<String, AllocError>
    ensures { IfOk result (λ text. string_bytes text ≡ spec.org_text organisation.now size) }
{
    let name = quoted(alloc, organisation.text())?;
    format!(in alloc; "{{\"name\":{name},\"size\":{size}}}")
}

fn member_text(alloc: Global, org: &str, role: &str, user: &str) -> Result<Text, AllocError>
    ensures { IfOk result (λ text. text ≡ spec.member_of org.now role.now user.now) }
{
    let text = format!(in alloc; "{{\"org\":{org},\"role\":{role},\"user\":{user}}}")?;
    Ok(Text::from(text))
}

fn membership_text(
    alloc: Global,
    organisation: &Ident,
    user: &Ident,
    role: Role,
    size: u64,
) -> Result<Text, AllocError>
    ensures { IfOk result (λ text. text
        ≡ spec.membership_text organisation.now user.now role size) }
{
    let org = org_text(alloc, organisation, size)?;
    let role = quoted(alloc, role.text())?;
    let user = quoted(alloc, user.text())?;
    member_text(alloc, org.as_str(), role.as_str(), user.as_str())
}

/// A member, and how many members there are with this one: `{"org":{"name":"lab","size":2},..}`. `None`
/// where the document isn't an object.
pub(crate) fn membership(
    alloc: Global,
    organisation: &Ident,
    user: &Ident,
    role: Role,
    text: &str,
) -> Result<Option<Text>, Fault>
    ensures ok { IfOk result (λ shown. shown
        ≡ spec.membership_form organisation.now user.now role text.now) }
    ensures err { IfErr result (λ fault. fault ≡ Fault.Memory) }
{
    match size_in(alloc, user.text(), text)? {
        Some(size) => Ok(Some(membership_text(alloc, organisation, user, role, size)?)),
        None => Ok(None),
    }
}

/// Whether anybody may read a package: `{"public":true}`.
pub(crate) fn visibility(alloc: Global, is_public: bool) -> Result<Text, AllocError>
    ensures { IfOk result (λ text. text ≡ spec.visibility_text is_public) }
{
    let value = json!(in alloc; {"public": is_public})?;
    Ok(Text::from(value.to_string(alloc)?))
}

/// An object without members.
pub(crate) fn empty(alloc: Global) -> Result<Text, AllocError>
    ensures { IfOk result (λ text. text ≡ spec.empty_text) }
{
    Text::from_str(alloc, "{}")
}
