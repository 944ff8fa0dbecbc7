//! What the members of an organisation may do with a package, as the registry's documents say it.

ghost use Rattle.std.specs.Prelude.{◌≡◌, ◌++◌, option_map, option_and_then, map, IfOk, IfErr, OnOk, Some};
ghost use Rattle.serde_json.specs.Find.{as_str};
ghost use Rattle.serde_json.specs.View.{view, members_view};
ghost use Rattle.registry_access.specs.Levels as levels;
ghost use Rattle.registry_access.specs.Spellings.{role_named};
ghost use Rattle.registry_npm.specs.Collaborators as spec;

use crate::forms::{levels_of, names_in, value_of};
use registry_access::{Level, Role};
use registry_names::{Fault, Ident, Stop, Text};
use registry_packument::{List, Member, PackageLevel, list_text};
use serde_json::{Map, Value};
use std::alloc::{AllocError, Global};

// ---- what the registry answers, as values

fn role_of(value: &Value) -> Option<Role>
    ensures { result ≡ option_and_then role_named (as_str (view value.now)) }
{
    value.as_str().and_then(Role::parse)
}

// The members of an object, each with their role. `None` where a value isn't a role.
fn members_of(
    alloc: Global,
    entries: &Map<String, Value>,
) -> Result<Option<Vec<Member>>, AllocError>
    ensures { IfOk result (λ rows. option_map (λ v. v.items) rows
        ≡ spec.members_of (members_view entries.now.entries)) }
{
    let mut rows = Vec::new(alloc);
    for (name, value) in entries.iter() {
        let Some(role) = role_of(value) else {
            return Ok(None);
        };
        let user = Text::from_str(alloc, name.as_str())?;
        rows.push(Member { user, role })?;
    }
    Ok(Some(rows))
}

/// The members of an organisation. `None` where the document isn't an object of roles.
///
/// `Memory` is returned where no memory is left, here and by the other forms.
pub(crate) fn members_in(alloc: Global, text: &str) -> Result<Option<Vec<Member>>, Fault>
    ensures ok { IfOk result (λ rows. option_map (λ v. v.items) rows ≡ spec.members_in text.now) }
    ensures err { IfErr result (λ fault. fault ≡ Fault.Memory) }
{
    let Some(value) = value_of(alloc, text)? else {
        return Ok(None);
    };
    match value.as_object() {
        Some(entries) => Ok(members_of(alloc, entries)?),
        None => Ok(None),
    }
}

// The names of teams. `None` where a text isn't one.
fn idents_of(alloc: Global, texts: &[Text]) -> Result<Option<Vec<Ident>>, Fault>
    ensures ok { IfOk result (λ teams. option_map (λ v. v.items) teams ≡ spec.idents_of texts.now) }
    ensures err { IfErr result (λ fault. fault ≡ Fault.Memory) }
{
    let mut teams = Vec::new(alloc);
    for text in texts {
        match Ident::parse(alloc, text.as_str()) {
            Ok(team) => teams.push(team)?,
            Err(Stop::Refused(_)) => return Ok(None),
            Err(Stop::Fault(_)) => return Err(Fault::Memory),
        }
    }
    Ok(Some(teams))
}

/// The teams of an organisation. `None` where the document isn't an array of their names.
pub(crate) fn teams_in(alloc: Global, text: &str) -> Result<Option<Vec<Ident>>, Fault>
    ensures ok { IfOk result (λ teams. option_map (λ v. v.items) teams ≡ spec.teams_in text.now) }
    ensures err { IfErr result (λ fault. fault ≡ Fault.Memory) }
{
    match names_in(alloc, text)? {
        Some(texts) => idents_of(alloc, &texts),
        None => Ok(None),
    }
}

/// The packages of a team, each with what it is granted on it. `None` where the document isn't an
/// object of grants.
pub(crate) fn levels_in(alloc: Global, text: &str) -> Result<Option<Vec<PackageLevel>>, Fault>
    ensures ok { IfOk result (λ rows. option_map (λ v. v.items) rows ≡ spec.levels_in text.now) }
    ensures err { IfErr result (λ fault. fault ≡ Fault.Memory) }
{
    let Some(value) = value_of(alloc, text)? else {
        return Ok(None);
    };
    match value.as_object() {
        Some(members) => Ok(levels_of(alloc, members)?),
        None => Ok(None),
    }
}

// ---- rights

fn larger(a: Level, b: Level) -> Level
    ensures { result ≡ levels.larger a b }
{
    match (a, b) {
        (Level::Nothing, b) => b,
        (Level::Read, Level::Write) => Level::Write,
        (Level::Read, Level::Nothing | Level::Read) => Level::Read,
        (Level::Write, _) => Level::Write,
    }
}

/// Whether one who has this level may read.
pub(crate) fn reads(level: Level) -> bool
    ensures { result ≡ levels.reads level }
{
    match level {
        Level::Nothing => false,
        Level::Read | Level::Write => true,
    }
}

#[tactic(auto, unfolding(registry_names::specs::Texts::is))]
fn level_of_row(row: &PackageLevel, name: &str) -> Level
    ensures { result ≡ spec.level_of_row name.now row.now }
{
    if row.name.as_str() == name {
        row.level
    } else {
        Level::Nothing
    }
}

/// What rows say of a name: the greatest of its levels, and `Nothing` where none has the name.
pub(crate) fn level_said(rows: &[PackageLevel], name: &str) -> Level
    ensures { result ≡ spec.level_said name.now rows.now }
{
    let mut said = Level::Nothing;
    for row in rows {
        said = larger(said, level_of_row(row, name));
    }
    said
}

/// The members of a team, each with what it is granted, behind the rows that are there.
pub(crate) fn give(
    alloc: Global,
    rows: &mut Vec<PackageLevel>,
    users: &[Text],
    level: Level,
) -> Result<(), AllocError>
    ensures { OnOk result (rows.new.items ≡ rows.old.items ++ map (spec.given level) users.now) }
{
    for user in users {
        let name = Text::from_str(alloc, user.as_str())?;
        rows.push(PackageLevel { name, level })?;
    }
    Ok(())
}

fn is_manager(role: Role) -> bool
    ensures { result ≡ levels.is_owner_or_admin (Some role) }
{
    match role {
        Role::Owner | Role::Admin => true,
        Role::Developer => false,
    }
}

fn level_of_member(member: &Member, granted: &[PackageLevel]) -> Level
    ensures { result ≡ (spec.rights_of granted.now member.now).level }
{
    if is_manager(member.role) {
        Level::Write
    } else {
        level_said(granted, member.user.as_str())
    }
}

fn collaborators(
    alloc: Global,
    members: &[Member],
    granted: &[PackageLevel],
) -> Result<Vec<PackageLevel>, AllocError>
    ensures { IfOk result (λ v. v.items ≡ spec.collaborators members.now granted.now) }
{
    let mut rows = Vec::new(alloc);
    for member in members {
        let level = level_of_member(member, granted);
        if reads(level) {
            let name = Text::from_str(alloc, member.user.as_str())?;
            rows.push(PackageLevel { name, level })?;
        }
    }
    Ok(rows)
}

/// Each member who may do something with a package: `{"ann":"write","eve":"read"}`.
pub(crate) fn collaborators_text(
    alloc: Global,
    members: &[Member],
    granted: &[PackageLevel],
) -> Result<Text, Fault>
    ensures ok { IfOk result (λ text. text ≡ spec.collaborators_text members.now granted.now) }
    ensures err { IfErr result (λ fault. fault ≡ Fault.Memory) }
{
    let rows = collaborators(alloc, members, granted)?;
    list_text(alloc, &List::Levels(rows))
}
