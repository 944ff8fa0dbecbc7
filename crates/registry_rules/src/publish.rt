//! The decision on a publish.

ghost use Rattle.std.specs.Prelude.{◌≡◌, is_some, map, IfOk};
ghost use Rattle.registry_names.specs.Names.{scope_of};
ghost use Rattle.registry_rules.specs.Changes.{change_of};
ghost use Rattle.registry_rules.specs.Effects as effects;
ghost use Rattle.registry_rules.specs.Effects.{publication};
ghost use Rattle.registry_rules.specs.Facts.{ArePublishFacts};
ghost use Rattle.registry_rules.specs.Refusals as spec;
ghost use Rattle.registry_rules.specs.State.{State};
ghost use Rattle.registry_rules.specs.Withdrawals as definitions;
ghost use Rattle.registry_publish.specs.Form.{FormParts};
ghost use Rattle.registry_access.specs.declared.caller.Caller.{Caller};

use crate::change::{Change, Changes};
use crate::facts::PublishFacts;
use crate::grants::{first_right, is_closed};
use crate::withdrawals::is_less_than_a_day_ago;
use registry_access::Caller;
use registry_names::{LATEST, Moment, Name, Refusal, Status};
use registry_publish::PublishForm;
use std::alloc::{AllocError, Global};

/// Why the publish is refused, if it is: a live version is never published again, and neither
/// is one that was withdrawn; a package without a scope is never restricted; and one of which all
/// versions were withdrawn waits a day.
pub(crate) fn publish_refusal(
    facts: &PublishFacts,
    form: &PublishForm,
    now: &Moment,
) -> Option<Refusal>
    ensures { (S : State) (who : Caller) → ArePublishFacts facts.now S who form.now
        → result ≡ spec.publish_refusal S now.now form.now }
{
    if facts.version_lives {
        return Some(Refusal::Published);
    }
    if facts.version_spent {
        return Some(Refusal::Spent);
    }
    if is_closed(form.access(), form.name()) {
        return Some(Refusal::AlwaysPublic);
    }
    if is_waiting(facts, now) {
        return Some(Refusal::Waiting);
    }
    None
}

// Whether no version of the package lives, and its last withdrawal was less than a day ago.
fn is_waiting(facts: &PublishFacts, now: &Moment) -> bool
    ensures { (S : State) (who : Caller) (form : FormParts) → ArePublishFacts facts.now S who form
        → result ≡ definitions.is_waiting S now.now form.name }
{
    is_less_than_a_day_ago(now, facts.gone_since)
}

/// What a publish that isn't refused changes. Its tag names the version, and so does `latest`
/// where there is none.
pub(crate) fn publish_changes<'a>(
    alloc: Global,
    caller: &'a Caller,
    facts: &PublishFacts,
    form: &'a PublishForm,
    now: &'a Moment,
) -> Result<Changes<'a>, AllocError>
    ensures { IfOk result (λ changes. (S : State) → ArePublishFacts facts.now S caller.now form.now
        → map change_of changes.items ≡ publication S now.now caller.now form.now) }
{
    let (package, version) = (form.name(), form.version());
    let old = facts.standing.status;
    let mut changes = Vec::with_capacity(alloc, 5)?;
    if let Some(status) = new_status(old, form) {
        changes.push(Change::PutStatus { package, status })?;
    }
    if let Some(right) = first_right(caller, package, old) {
        changes.push(right)?;
    }
    changes.push(Change::AddVersion { form, at: now })?;
    if !facts.latest_stands {
        changes.push(Change::PutTag {
            package,
            tag: LATEST,
            version,
        })?;
    }
    changes.push(Change::PutTag {
        package,
        tag: form.tag().text(),
        version,
    })?;
    Ok(changes)
}

// The status that a publish gives: the one that it asks for; otherwise, for a first publication,
// what the name's scope says; otherwise none, and the old one stays.
fn new_status(old: Option<Status>, form: &PublishForm) -> Option<Status>
    ensures { result ≡ effects.new_status form.now.access old form.now.name }
{
    match (form.access(), old) {
        (Some(status), _) => Some(status),
        (None, Some(_)) => None,
        (None, None) => Some(first_status(form.name())),
    }
}

// A package with a scope is restricted until its status is set, and one without a scope is public.
fn first_status(name: &Name) -> Status
    ensures { result ≡ effects.first_status name.now }
{
    if has_scope(name) {
        Status::Restricted
    } else {
        Status::Public
    }
}

// Whether the package is an organisation's.
fn has_scope(name: &Name) -> bool
    ensures { result ≡ is_some (scope_of name.now) }
{
    name.scope().is_some()
}
