//! What decides an action about packages, their versions and their tags.

ghost use Rattle.std.specs.Prelude.{◌≡◌, ◌||◌, false};
ghost use Rattle.registry_names.specs.Tags.{latest};
ghost use Rattle.registry_names.specs.Texts.{Text, is};
ghost use Rattle.registry_names.specs.declared.status.Status.{Status};
ghost use Rattle.registry_tables.specs.Contents.{registry_of};
ghost use Rattle.registry_tables.specs.Inside.{Finds, Knows};
ghost use Rattle.registry_tables.specs.Teams.{AreTeamsSound};
ghost use Rattle.registry_desk.specs.Found.{AreTaken};
ghost use Rattle.registry_desk.specs.Early.{Decides};
ghost use Rattle.registry_rules.specs.State as state;
ghost use Rattle.registry_rules.specs.Withdrawals as withdrawals;
ghost use Rattle.registry_rules.specs.declared.request.Action.TheVariants as asked;
ghost use Rattle.registry_rules.specs.declared.request.Asked.TheVariants as which;

use crate::policy::{Found, standing_if_allowed};
use registry_access::{Ask, Caller};
use registry_names::{Fault, LATEST, Moment, Name, TagText, Ver};
use registry_publish::PublishForm;
use registry_rules::{About, Asked, PublishFacts};
use registry_tables::{
    has_live, has_tag, has_version, is_spent, load_last_withdrawal, load_standing, load_tag,
};
use sqlite::{Alter, Transaction};
use std::alloc::Global;

/// Loads what decides whether a status is set.
pub(crate) fn facts_for_set_access<S: Alter>(
    alloc: Global,
    tx: &mut Transaction<'_, S>,
    caller: &Caller,
    name: &Name,
) -> Result<Found, Fault>
    ensures { Finds S.Store tx.old tx.new result (λ found c. (status : Status)
        → AreTeamsSound c
        → Decides found c caller.now (asked.SetAccess name.now status)) }
{
    let standing = load_standing(alloc, tx, caller, name, &Ask::Write(name))?;
    Ok(Found::About(About::Rights { standing }))
}

/// Loads what decides a query for the maintainers of a package.
pub(crate) fn facts_for_maintainers<S: Alter>(
    alloc: Global,
    tx: &mut Transaction<'_, S>,
    caller: &Caller,
    name: &Name,
) -> Result<Found, Fault>
    ensures { Finds S.Store tx.old tx.new result (λ found c. AreTeamsSound c
        → Decides found c caller.now (asked.Maintainers name.now)) }
{
    let standing = load_standing(alloc, tx, caller, name, &Ask::Read(name))?;
    Ok(Found::About(About::Rights { standing }))
}

/// Loads what decides a publish, if the policy allows it.
pub(crate) fn facts_for_publish<S: Alter>(
    alloc: Global,
    tx: &mut Transaction<'_, S>,
    caller: &Caller,
    form: &PublishForm,
) -> Result<Found, Fault>
    ensures { Finds S.Store tx.old tx.new result (λ found c. AreTeamsSound c
        → Decides found c caller.now (asked.Publish form.now)) }
{
    let name = form.name();
    let standing = match standing_if_allowed(alloc, tx, caller, name, &Ask::Publish(name))? {
        Ok(standing) => standing,
        Err(refusal) => return Ok(Found::Refused(refusal)),
    };
    let taken = find_taken(tx, form)?;
    Ok(Found::About(About::Publish(PublishFacts {
        standing,
        version_lives: taken.version_lives,
        version_spent: taken.version_spent,
        latest_stands: taken.latest_stands,
        gone_since: taken.gone_since,
    })))
}

// What exists already of what is to be published, and of its package.
#[derive(Drop)]
struct Taken {
    version_lives: bool,
    version_spent: bool,
    latest_stands: bool,
    gone_since: Option<Moment>,
}

fn find_taken<S: Alter>(tx: &mut Transaction<'_, S>, form: &PublishForm) -> Result<Taken, Fault>
    ensures { Finds S.Store tx.old tx.new result
        (λ taken c. AreTaken taken (registry_of c) form.now) }
{
    let (name, version) = (form.name(), form.version().text());
    let version_lives = has_version(tx, name, version)?;
    let latest_stands = has_latest(tx, form)?;
    let last_withdrawal = load_last_withdrawal(tx, name)?;
    let version_spent = was_withdrawn(tx, name, version, last_withdrawal.is_some())?;
    let gone_since = gone_since(tx, name, last_withdrawal)?;
    Ok(Taken {
        version_lives,
        version_spent,
        latest_stands,
        gone_since,
    })
}

// Whether the package has the tag `latest`, or gets it as the tag of the form.
fn has_latest<S: Alter>(tx: &mut Transaction<'_, S>, form: &PublishForm) -> Result<bool, Fault>
    ensures { Knows S.Store tx.old tx.new result (λ has c.
        has ≡ (state.stands (registry_of c) form.now.name latest || is form.now.tag latest)) }
{
    if is_latest(form.tag()) {
        Ok(true)
    } else {
        has_tag(tx, form.name(), LATEST)
    }
}

#[tactic(auto, unfolding(registry_names::specs::Texts::is))]
fn is_latest(tag: &TagText) -> bool
    ensures { result ≡ is tag.now latest }
{
    tag.text() == LATEST
}

// Whether the version was withdrawn, as none was where no version of the package ever was.
fn was_withdrawn<S: Alter>(
    tx: &mut Transaction<'_, S>,
    name: &Name,
    version: &str,
    any_was: bool,
) -> Result<bool, Fault>
    ensures { Knows S.Store tx.old tx.new result (λ was c.
        (any_was ≡ false → state.is_spent (registry_of c) name.now version.now ≡ false)
        → was ≡ state.is_spent (registry_of c) name.now version.now) }
{
    if any_was {
        is_spent(tx, name, version)
    } else {
        Ok(false)
    }
}

// When a version of the package was withdrawn last, if none lives.
fn gone_since<S: Alter>(
    tx: &mut Transaction<'_, S>,
    name: &Name,
    last_withdrawal: Option<Moment>,
) -> Result<Option<Moment>, Fault>
    ensures { Knows S.Store tx.old tx.new result (λ since c.
        last_withdrawal ≡ withdrawals.last_withdrawal (registry_of c) name.now
        → since ≡ withdrawals.gone_since (registry_of c) name.now) }
{
    if last_withdrawal.is_some() {
        let lives = has_live(tx, name)?;
        Ok(if lives { None } else { last_withdrawal })
    } else {
        Ok(None)
    }
}

/// Loads what decides whether a tag is set.
pub(crate) fn facts_for_tag_set<S: Alter>(
    alloc: Global,
    tx: &mut Transaction<'_, S>,
    caller: &Caller,
    name: &Name,
    version: &Ver,
) -> Result<Found, Fault>
    ensures { Finds S.Store tx.old tx.new result (λ found c. (tag : Text) → AreTeamsSound c
        → Decides found c caller.now (asked.TagSet name.now tag version.now)) }
{
    Ok(Found::About(About::TagSet {
        standing: load_standing(alloc, tx, caller, name, &Ask::Write(name))?,
        version_lives: has_version(tx, name, version.text())?,
    }))
}

/// Loads what decides whether a tag is removed.
pub(crate) fn facts_for_tag_remove<S: Alter>(
    alloc: Global,
    tx: &mut Transaction<'_, S>,
    caller: &Caller,
    name: &Name,
    tag: &TagText,
) -> Result<Found, Fault>
    ensures { Finds S.Store tx.old tx.new result (λ found c. AreTeamsSound c
        → Decides found c caller.now (asked.TagRemove name.now tag.now)) }
{
    Ok(Found::About(About::TagRemove {
        standing: load_standing(alloc, tx, caller, name, &Ask::Write(name))?,
        tag_stands: has_tag(tx, name, tag.text())?,
    }))
}

/// Loads what decides a query for the tags of a package.
pub(crate) fn facts_about_package<S: Alter>(
    alloc: Global,
    tx: &mut Transaction<'_, S>,
    caller: &Caller,
    name: &Name,
) -> Result<Found, Fault>
    ensures { Finds S.Store tx.old tx.new result (λ found c. AreTeamsSound c
        → Decides found c caller.now (asked.Tags name.now)) }
{
    Ok(Found::About(About::Package {
        standing: load_standing(alloc, tx, caller, name, &Ask::Read(name))?,
        lives: has_live(tx, name)?,
    }))
}

/// Loads what decides a query for the document of a version.
pub(crate) fn facts_about_document<S: Alter>(
    alloc: Global,
    tx: &mut Transaction<'_, S>,
    caller: &Caller,
    name: &Name,
    version: &Asked,
) -> Result<Found, Fault>
    ensures { Finds S.Store tx.old tx.new result (λ found c. AreTeamsSound c
        → Decides found c caller.now (asked.VersionDoc name.now version.now)) }
{
    Ok(Found::About(About::Version {
        standing: load_standing(alloc, tx, caller, name, &Ask::Read(name))?,
        lives: asked_lives(tx, name, version)?,
    }))
}

// Whether the version that is asked for lives.
fn asked_lives<S: Alter>(
    tx: &mut Transaction<'_, S>,
    name: &Name,
    version: &Asked,
) -> Result<bool, Fault>
    ensures { Finds S.Store tx.old tx.new result (λ lives c. lives ≡ state.lives
        (registry_of c) name.now (state.asked_version (registry_of c) name.now version.now)) }
{
    match version {
        Asked::Exact(version) => has_version(tx, name, version.text()),
        Asked::Latest => latest_lives(tx, name),
    }
}

// Whether the version that `latest` names lives. None does where the tag doesn't exist.
fn latest_lives<S: Alter>(tx: &mut Transaction<'_, S>, name: &Name) -> Result<bool, Fault>
    ensures { Finds S.Store tx.old tx.new result (λ lives c. lives ≡ state.lives
        (registry_of c) name.now (state.asked_version (registry_of c) name.now which.Latest)) }
{
    match load_tag(tx, name, LATEST)? {
        Some(version) => {
            let lives = has_version(tx, name, version.as_str())?;
            Ok(lives)
        }
        None => Ok(false),
    }
}

/// Loads what decides a query for the archive of a version.
pub(crate) fn facts_about_archive<S: Alter>(
    alloc: Global,
    tx: &mut Transaction<'_, S>,
    caller: &Caller,
    name: &Name,
    version: &Ver,
) -> Result<Found, Fault>
    ensures { Finds S.Store tx.old tx.new result (λ found c. AreTeamsSound c
        → Decides found c caller.now (asked.Archive name.now version.now)) }
{
    Ok(Found::About(About::Version {
        standing: load_standing(alloc, tx, caller, name, &Ask::Read(name))?,
        lives: has_version(tx, name, version.text())?,
    }))
}
