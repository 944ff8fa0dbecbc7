//! What decides a withdrawal and a deprecation.

ghost use Rattle.std.specs.Prelude.{◌≡◌, IfOk, List, None, false, map};
ghost use Rattle.std.specs.List.{list_any};
ghost use Rattle.registry_access.specs.declared.caller.Caller.{Caller as Asker};
ghost use Rattle.registry_names.specs.Texts.{Text as SpecText};
ghost use Rattle.registry_ranges.specs.Selectors.{Condition};
ghost use Rattle.registry_access.specs.RowsFor.{StandingTells};
ghost use Rattle.registry_rules.specs.Facts.{since_of};
ghost use Rattle.registry_rules.specs.Refusals.{withdraw_all_refusal, withdraw_refusal};
ghost use Rattle.registry_rules.specs.Withdrawals as withdrawals;
ghost use Rattle.registry_rules.specs.Withdrawals.{all_tags};
ghost use Rattle.registry_rules.specs.declared.request.Action.TheVariants as asked;
ghost use Rattle.registry_tables.specs.Contents.{access_of, registry_of};
ghost use Rattle.registry_tables.specs.Inside.{Finds};
ghost use Rattle.registry_tables.specs.Teams.{AreTeamsSound};
ghost use Rattle.registry_desk.specs.Early.{Decides, IsFound, LetsWrite, denial};

use crate::policy::{Found, standing_if_allowed};
use registry_access::{Ask, Caller, Standing};
use registry_names::{DistTag, Fault, Moment, Name, Refusal, Text, Ver};
use registry_rules::{About, LiveVersion};
use registry_tables::{
    is_any_depended, is_depended, load_live, load_live_since, load_published, load_tags,
    load_version_tags,
};
use sqlite::{Alter, Transaction};
use std::alloc::{AllocError, Global};

/// Three days: an older version isn't withdrawn.
const OLDEST: i64 = 259_200;

/// Loads what decides a withdrawal, if the policy allows it. The stored needs say who needs the
/// version.
pub(crate) fn facts_for_withdraw<S: Alter>(
    alloc: Global,
    tx: &mut Transaction<'_, S>,
    caller: &Caller,
    name: &Name,
    version: &Ver,
    now: &Moment,
) -> Result<Found, Fault>
    ensures { Finds S.Store tx.old tx.new result (λ found c. AreTeamsSound c
        → IsFound found c now.now caller.now (asked.Withdraw name.now version.now)) }
{
    match standing_if_allowed(alloc, tx, caller, name, &Ask::Write(name))? {
        Ok(standing) => facts_if_allowed(alloc, tx, standing, name, version, now),
        Err(refusal) => Ok(Found::Refused(refusal)),
    }
}

// The same where the policy allows it. The needs aren't asked for if the version doesn't live, or
// is too old, nor the tags that name it if another package needs it.
fn facts_if_allowed<S: Alter>(
    alloc: Global,
    tx: &mut Transaction<'_, S>,
    standing: Standing,
    name: &Name,
    version: &Ver,
    now: &Moment,
) -> Result<Found, Fault>
    requires allowed { LetsWrite standing }
    ensures { Finds S.Store tx.old tx.new result (λ found c. (who : Asker)
        → denial (access_of c) who (asked.Withdraw name.now version.now) ≡ None
        → StandingTells standing (access_of c) who name.now
        → IsFound found c now.now who (asked.Withdraw name.now version.now)) }
{
    let published = load_published(tx, name, version.text())?;
    if let Some(refusal) = refusal_by_age(&published, now) {
        return Ok(Found::Refused(refusal));
    }
    if is_depended(alloc, tx, name, version)? {
        return Ok(Found::Refused(Refusal::Depended));
    }
    let tags = load_version_tags(alloc, tx, name, version.text())?;
    let live = load_live(alloc, tx, name)?;
    Ok(Found::About(About::Withdraw {
        standing,
        published,
        depended: false,
        tags,
        live,
    }))
}

// Why a version isn't withdrawn, whoever needs it: it doesn't live, or is older than three days.
fn refusal_by_age(published: &Option<Moment>, now: &Moment) -> Option<Refusal>
    ensures { result ≡ withdraw_refusal now.now published.now false }
{
    match published {
        None => Some(Refusal::NotFound),
        Some(published) if is_too_old(now, published) => Some(Refusal::TooLate),
        Some(_) => None,
    }
}

// Where the clock went back the age of a version is 0.
fn is_too_old(now: &Moment, published: &Moment) -> bool
    ensures { result ≡ withdrawals.is_too_old now.now published.now }
{
    published.seconds() + OLDEST <= now.seconds()
}

/// Loads what decides the withdrawal of all live versions of a package, if the policy allows it.
pub(crate) fn facts_for_withdraw_all<S: Alter>(
    alloc: Global,
    tx: &mut Transaction<'_, S>,
    caller: &Caller,
    name: &Name,
    now: &Moment,
) -> Result<Found, Fault>
    ensures { Finds S.Store tx.old tx.new result (λ found c. AreTeamsSound c
        → IsFound found c now.now caller.now (asked.WithdrawAll name.now)) }
{
    match standing_if_allowed(alloc, tx, caller, name, &Ask::Write(name))? {
        Ok(standing) => facts_if_all_allowed(alloc, tx, standing, name, now),
        Err(refusal) => Ok(Found::Refused(refusal)),
    }
}

// The same where the policy allows it. The needs aren't asked for if no version lives, or one is too
// old, nor the tags if another package needs one.
fn facts_if_all_allowed<S: Alter>(
    alloc: Global,
    tx: &mut Transaction<'_, S>,
    standing: Standing,
    name: &Name,
    now: &Moment,
) -> Result<Found, Fault>
    requires allowed { LetsWrite standing }
    ensures { Finds S.Store tx.old tx.new result (λ found c. (who : Asker)
        → denial (access_of c) who (asked.WithdrawAll name.now) ≡ None
        → StandingTells standing (access_of c) who name.now
        → IsFound found c now.now who (asked.WithdrawAll name.now)) }
{
    let live = load_live_since(alloc, tx, name)?;
    if let Some(refusal) = refusal_by_ages(&live, now) {
        return Ok(Found::Refused(refusal));
    }
    if is_any_depended(alloc, tx, name, &live)? {
        return Ok(Found::Refused(Refusal::Depended));
    }
    let tags = load_tag_names(alloc, tx, name)?;
    Ok(Found::About(About::WithdrawAll {
        standing,
        depended: false,
        tags,
        live,
    }))
}

// The tags of a package, in byte order.
fn load_tag_names<S: Alter>(
    alloc: Global,
    tx: &mut Transaction<'_, S>,
    name: &Name,
) -> Result<Vec<Text>, Fault>
    ensures { Finds S.Store tx.old tx.new result
        (λ tags c. tags.items ≡ all_tags (registry_of c) name.now) }
{
    let tags = load_tags(alloc, tx, name)?;
    Ok(names_of(alloc, tags)?)
}

// The names of these tags.
fn names_of(alloc: Global, tags: Vec<DistTag>) -> Result<Vec<Text>, AllocError>
    ensures { IfOk result (λ names. names.items ≡ map (λ t. t.tag) tags.items) }
{
    let mut names = Vec::new(alloc);
    for row in tags {
        names.push(row.tag)?;
    }
    Ok(names)
}

// Why not all live versions are withdrawn, whoever needs them: there is none, or one is older than
// three days.
fn refusal_by_ages(live: &[LiveVersion], now: &Moment) -> Option<Refusal>
    ensures { result ≡ withdraw_all_refusal now.now (map since_of live.now) false }
{
    if live.is_empty() {
        Some(Refusal::NotFound)
    } else if has_too_old(live, now) {
        Some(Refusal::TooLate)
    } else {
        None
    }
}

fn has_too_old(live: &[LiveVersion], now: &Moment) -> bool
    ensures { result ≡ list_any (λ r. withdrawals.is_too_old now.now r.published) live.now }
{
    live.iter().any(|row| is_too_old(now, &row.published))
}

/// Loads what decides a deprecation of versions, if the policy allows it.
pub(crate) fn facts_for_deprecate<S: Alter>(
    alloc: Global,
    tx: &mut Transaction<'_, S>,
    caller: &Caller,
    name: &Name,
) -> Result<Found, Fault>
    ensures { Finds S.Store tx.old tx.new result (λ found c.
        (selector : List (List Condition)) (message : SpecText) → AreTeamsSound c
        → Decides found c caller.now (asked.Deprecate name.now selector message)) }
{
    match standing_if_allowed(alloc, tx, caller, name, &Ask::Write(name))? {
        Ok(standing) => {
            let live = load_live(alloc, tx, name)?;
            Ok(Found::About(About::Deprecate { standing, live }))
        }
        Err(refusal) => Ok(Found::Refused(refusal)),
    }
}
