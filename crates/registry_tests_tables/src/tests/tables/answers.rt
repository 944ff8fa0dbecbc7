//! What the tables answer to a line of a case.

ghost use Rattle.std.specs.Prelude.{◌≡◌, OnOk};
ghost use Rattle.registry_tests_tables.specs.Resting.{IsWhole};

use super::asked::Asked;
use super::changes::change_of;
use super::text::Loaded;
use registry_access::Ask;
use registry_names::{Fault, Ident, Name};
use registry_rows::write;
use registry_tables::{
    are_grants_in_scope, has_grant, has_live, has_other_maintainer, has_tag, has_version,
    is_maintainer, is_spent, load_archive, load_grants, load_standing, load_status, load_tags,
    load_team_packages, load_team_users, load_times, load_token_user, load_user_tokens, make,
    numbers_are_in_range, put_version,
};
use sqlite::{Alter, Transaction, params};
use std::alloc::Global;
use std::process::Abort;

/// What is answered to a line.
pub fn answer<S: Alter>(
    rt: &impl Abort,
    alloc: Global,
    tx: &mut Transaction<'_, S>,
    asked: &Asked<'_>,
) -> Result<Loaded, Fault>
    requires whole { IsWhole S.Store tx.old }
    ensures same_reference { tx.new.conn.ghost_name ≡ tx.old.conn.ghost_name }
    ensures whole { OnOk result (IsWhole S.Store tx.new) }
{
    match change_of(rt, asked) {
        Some(change) => {
            make(tx, &change)?;
            Ok(Loaded::Done)
        }
        None => about_packages(rt, alloc, tx, asked),
    }
}

// Answers about packages and versions.
fn about_packages<S: Alter>(
    rt: &impl Abort,
    alloc: Global,
    tx: &mut Transaction<'_, S>,
    asked: &Asked<'_>,
) -> Result<Loaded, Fault>
    requires whole { IsWhole S.Store tx.old }
    ensures same_reference { tx.new.conn.ghost_name ≡ tx.old.conn.ghost_name }
    ensures whole { OnOk result (IsWhole S.Store tx.new) }
{
    let third = asked.words[2];
    match asked.verb {
        "status-of" => Ok(Loaded::Status(load_status(tx, asked.name(rt))?)),
        "tags" => Ok(Loaded::Tags(load_tags(alloc, tx, asked.name(rt))?)),
        "times" => Ok(Loaded::Times(load_times(alloc, tx, asked.name(rt))?)),
        "archive" => Ok(Loaded::Archive(load_archive(tx, asked.name(rt), third)?)),
        "publish" => {
            put_version(tx, asked.form(rt), asked.at)?;
            Ok(Loaded::Done)
        }
        _ => about_versions(rt, alloc, tx, asked),
    }
}

// Whether a version or a tag is there.
fn about_versions<S: Alter>(
    rt: &impl Abort,
    alloc: Global,
    tx: &mut Transaction<'_, S>,
    asked: &Asked<'_>,
) -> Result<Loaded, Fault>
    requires whole { IsWhole S.Store tx.old }
    ensures same_reference { tx.new.conn.ghost_name ≡ tx.old.conn.ghost_name }
    ensures whole { OnOk result (IsWhole S.Store tx.new) }
{
    let third = asked.words[2];
    match asked.verb {
        "has-live" => Ok(Loaded::IsSo(has_live(tx, asked.name(rt))?)),
        "has-version" => Ok(Loaded::IsSo(has_version(tx, asked.name(rt), third)?)),
        "is-spent" => Ok(Loaded::IsSo(is_spent(tx, asked.name(rt), third)?)),
        "has-tag" => Ok(Loaded::IsSo(has_tag(tx, asked.name(rt), third)?)),
        _ => about_people(rt, alloc, tx, asked),
    }
}

// Answers about users, teams, and what is granted.
fn about_people<S: Alter>(
    rt: &impl Abort,
    alloc: Global,
    tx: &mut Transaction<'_, S>,
    asked: &Asked<'_>,
) -> Result<Loaded, Fault>
    requires whole { IsWhole S.Store tx.old }
    ensures same_reference { tx.new.conn.ghost_name ≡ tx.old.conn.ghost_name }
    ensures whole { OnOk result (IsWhole S.Store tx.new) }
{
    let [_, second, third, fourth, _, _] = asked.words;
    match asked.verb {
        "team-users" => {
            let (organisation, team) = two_of(rt, alloc, second, third);
            let users = load_team_users(alloc, tx, &organisation, &team)?;
            Ok(Loaded::Names(users))
        }
        "grants" => {
            let user = ident_of(rt, alloc, fourth);
            let grants = load_grants(alloc, tx, third, &user, asked.name(rt))?;
            Ok(Loaded::Grants(grants))
        }
        "has-grant" => {
            let (organisation, team) = two_of(rt, alloc, third, fourth);
            let has = has_grant(tx, &organisation, &team, asked.name(rt))?;
            Ok(Loaded::IsSo(has))
        }
        _ => about_maintainers(rt, alloc, tx, asked),
    }
}

// Answers about the maintainers of a package.
fn about_maintainers<S: Alter>(
    rt: &impl Abort,
    alloc: Global,
    tx: &mut Transaction<'_, S>,
    asked: &Asked<'_>,
) -> Result<Loaded, Fault>
    requires whole { IsWhole S.Store tx.old }
    ensures same_reference { tx.new.conn.ghost_name ≡ tx.old.conn.ghost_name }
    ensures whole { OnOk result (IsWhole S.Store tx.new) }
{
    match asked.verb {
        "is-maintainer" => {
            let is = is_maintainer(tx, asked.name(rt), asked.user(rt))?;
            Ok(Loaded::IsSo(is))
        }
        "has-other-maintainer" => {
            let has = has_other_maintainer(alloc, tx, asked.name(rt), asked.user(rt))?;
            Ok(Loaded::IsSo(has))
        }
        _ => about_callers(rt, alloc, tx, asked),
    }
}

// Answers about callers, their tokens, and all that is stored.
fn about_callers<S: Alter>(
    rt: &impl Abort,
    alloc: Global,
    tx: &mut Transaction<'_, S>,
    asked: &Asked<'_>,
) -> Result<Loaded, Fault>
    requires whole { IsWhole S.Store tx.old }
    ensures same_reference { tx.new.conn.ghost_name ≡ tx.old.conn.ghost_name }
    ensures whole { OnOk result (IsWhole S.Store tx.new) }
{
    let [_, second, third, _, _, _] = asked.words;
    match asked.verb {
        "standing" => {
            let name = asked.name(rt);
            let standing = load_standing(alloc, tx, &asked.caller, name, &Ask::Write(name))?;
            Ok(Loaded::Standing(standing))
        }
        "team-packages" => {
            let (organisation, team) = two_of(rt, alloc, second, third);
            let granted = load_team_packages(alloc, tx, &asked.caller, &organisation, &team)?;
            Ok(Loaded::Granted(granted))
        }
        "token-user" => Ok(Loaded::User(load_token_user(alloc, tx, &asked.digest)?)),
        "tokens" => Ok(Loaded::Digests(load_user_tokens(alloc, tx, asked.user(rt))?)),
        "in-scope" => Ok(Loaded::IsSo(are_grants_in_scope(tx)?)),
        "in-range" => Ok(Loaded::IsSo(numbers_are_in_range(tx)?)),
        _ => {
            run(rt, tx, asked)?;
            Ok(Loaded::Done)
        }
    }
}

fn ident_of(rt: &impl Abort, alloc: Global, word: &str) -> Ident {
    Ident::parse(alloc, word).ok().expect(rt, word)
}

fn two_of(rt: &impl Abort, alloc: Global, one: &str, other: &str) -> (Ident, Ident) {
    (ident_of(rt, alloc, one), ident_of(rt, alloc, other))
}

// Runs a statement that puts a row which no call puts.
fn run<S: Alter>(
    rt: &impl Abort,
    tx: &mut Transaction<'_, S>,
    asked: &Asked<'_>,
) -> Result<(), Fault>
    requires whole { IsWhole S.Store tx.old }
    ensures same_reference { tx.new.conn.ghost_name ≡ tx.old.conn.ghost_name }
    ensures whole { OnOk result (IsWhole S.Store tx.new) }
{
    let [_, _, third, fourth, fifth, _] = asked.words;
    match asked.verb {
        "number" => put_number(tx, asked.name(rt), number_of(rt, third)),
        "level" => put_level(tx, (third, fourth), asked.name(rt), number_of(rt, fifth)),
        "short-token" => put_short(tx, &asked.digest.as_slice()[..1], asked.user(rt)),
        verb => panic!(rt; "{verb} is no call"),
    }
}

fn number_of(rt: &impl Abort, word: &str) -> i64 {
    word.parse::<i64>().ok().expect(rt, "a number")
}

// Any number for the status of a package.
fn put_number<S: Alter>(
    tx: &mut Transaction<'_, S>,
    package: &Name,
    number: i64,
) -> Result<(), Fault>
    requires whole { IsWhole S.Store tx.old }
    ensures same_reference { tx.new.conn.ghost_name ≡ tx.old.conn.ghost_name }
    ensures whole { OnOk result (IsWhole S.Store tx.new) }
{
    write(
        tx,
        "INSERT INTO packages VALUES (?1, ?2)",
        params![package.text(), number],
    )
}

// Any number for what a team is granted.
fn put_level<S: Alter>(
    tx: &mut Transaction<'_, S>,
    team: (&str, &str),
    package: &Name,
    number: i64,
) -> Result<(), Fault>
    requires whole { IsWhole S.Store tx.old }
    ensures same_reference { tx.new.conn.ghost_name ≡ tx.old.conn.ghost_name }
    ensures whole { OnOk result (IsWhole S.Store tx.new) }
{
    write(
        tx,
        "INSERT INTO grants VALUES (?1, ?2, ?3, ?4)",
        params![team.0, team.1, package.text(), number],
    )
}

// A digest of any length.
fn put_short<S: Alter>(
    tx: &mut Transaction<'_, S>,
    digest: &[u8],
    user: &Ident,
) -> Result<(), Fault>
    requires whole { IsWhole S.Store tx.old }
    ensures same_reference { tx.new.conn.ghost_name ≡ tx.old.conn.ghost_name }
    ensures whole { OnOk result (IsWhole S.Store tx.new) }
{
    write(
        tx,
        "INSERT INTO tokens VALUES (?1, ?2)",
        params![digest, user.text()],
    )
}
