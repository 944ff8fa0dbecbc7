//! The decision on a request.

ghost use Rattle.std.specs.Prelude.{◌≡◌, ◌↔◌, ◌∷◌, ℕ, IfOk, IfErr, Ok, Err, Some, None, [], false, map};
ghost use Rattle.registry_rules.specs.Actions.{is_command};
ghost use Rattle.registry_rules.specs.Changes.{change_of};
ghost use Rattle.registry_rules.specs.Effects.{effects, effects_of};
ghost use Rattle.registry_rules.specs.Facts.{AboutTells, FactsTell};
ghost use Rattle.registry_rules.specs.Refusals as spec;
ghost use Rattle.registry_rules.specs.Refusals.{permitted, refusal};
ghost use Rattle.registry_rules.specs.State.{State};
ghost use Rattle.registry_access.specs.declared.caller.Caller.{Caller};

use crate::change::{Change, Changes};
use crate::facts::{About, Facts};
use crate::grants::{grant_refusal, maintaining, owner_remove_refusal, status_refusal};
use crate::organisations::{creation, membership, org_remove_refusal, org_set_refusal};
use crate::policy::permission;
use crate::publish::{publish_changes, publish_refusal};
use crate::request::{Action, Request};
use crate::tags::tag_remove_refusal;
use crate::teams::{team_destroy_refusal, team_joined};
use crate::users::{added_to_refusal, all_ended, unless_new};
use crate::withdrawals::{
    deprecation, withdraw_all_refusal, withdraw_refusal, withdrawal, withdrawal_of_all,
};
use registry_access::Caller;
use registry_names::{Fault, Moment, Refusal, Rule, Stop};
use std::alloc::{AllocError, Global};

/// Whether a request may be asked, or why it is refused. It takes no memory.
///
/// Facts that are said of another kind of action than the request's agree with no registry.
pub fn may_ask(facts: &Facts, request: &Request) -> Result<(), Refusal>
    ensures { (S : State) → FactsTell facts.now S request.now
        → result ≡ permitted (refusal S request.now) }
{
    match &facts.caller {
        None => Err(Refusal::NoCaller),
        Some(caller) => { permitted(refusal_by(caller, &facts.about, &request.what, &request.at)) }
    }
}

/// What a request changes, which is nothing for a query, or why it is refused, as [`may_ask`] says.
/// It begins with [`may_ask`], so both are exact without a premise.
///
/// `Memory` is returned when no memory is left for the changes of a request that isn't refused, and
/// no other fault is returned.
pub fn decide<'a>(
    alloc: Global,
    facts: &'a Facts,
    request: &'a Request,
) -> Result<Changes<'a>, Stop>
    ensures makes { IfOk result (λ changes. (S : State) → FactsTell facts.now S request.now
        → (refusal S request.now ≡ None)
        × (map change_of changes.items ≡ effects_of S request.now)) }
    ensures query { is_command request.now.what ≡ false
        → IfOk result (λ changes. changes.items ≡ []) }
    ensures refused { (S : State) → FactsTell facts.now S request.now
        → (r : Refusal) → (refusal S request.now ≡ Some r) ↔ (result ≡ Err (Stop.Refused r)) }
    ensures fault { IfErr result (λ stop. (fault : Fault) → stop ≡ Stop.Fault fault
        → fault ≡ Fault.Memory) }
{
    match may_ask(facts, request) {
        Ok(()) => Ok(changes_for(alloc, &facts.caller, &facts.about, request)?),
        Err(refusal) => Err(Stop::Refused(refusal)),
    }
}

fn permitted(refusal: Option<Refusal>) -> Result<(), Refusal>
    ensures { result ≡ spec.permitted refusal }
{
    match refusal {
        Some(refusal) => Err(refusal),
        None => Ok(()),
    }
}

// Why this caller's action is refused, if it is.
fn refusal_by(caller: &Caller, about: &About, action: &Action, now: &Moment) -> Option<Refusal>
    ensures { (S : State) → AboutTells about.now S caller.now action.now
        → result ≡ spec.refusal_by S now.now caller.now action.now }
{
    unless_allowed(permission(caller, about, action)).or(state_refusal(about, action, now))
}

fn unless_allowed(verdict: Result<Rule, Refusal>) -> Option<Refusal>
    ensures { result ≡ spec.unless_allowed verdict }
{
    verdict.err()
}

// Why an action is refused, whoever asks, if it is.
fn state_refusal(about: &About, action: &Action, now: &Moment) -> Option<Refusal>
    ensures { (S : State) (who : Caller) → AboutTells about.now S who action.now
        → result ≡ spec.state_refusal S now.now action.now }
{
    match (about, action) {
        (About::UserAdd { exists }, Action::UserAdd { .. }) => unless_new(*exists),
        (
            About::TokenAdd {
                user_exists,
                exists,
            },
            Action::TokenAdd { .. },
        ) => { added_to_refusal(*user_exists, *exists) }
        (About::TokenRemove { user }, Action::TokenRemove { .. }) => {
            unless_there(user.is_some())
        }
        (About::TokensRemove { user_exists, .. }, Action::TokensRemove { .. }) => {
            unless_there(*user_exists)
        }
        (
            About::OrgCreate {
                owner_exists,
                exists,
            },
            Action::OrgCreate { .. },
        ) => { added_to_refusal(*owner_exists, *exists) }
        (
            About::Member {
                user_exists,
                role: old,
                other_owner,
                ..
            },
            Action::OrgSet { role, .. },
        ) => org_set_refusal(*user_exists, *old, *other_owner, *role),
        (
            About::Member {
                role,
                other_owner,
                ..
            },
            Action::OrgRemove { .. },
        ) => { org_remove_refusal(*role, *other_owner) }
        (About::Team { exists, .. }, Action::TeamCreate { .. }) => unless_new(*exists),
        (About::Team { exists, .. }, Action::TeamDestroy { team, .. }) => {
            team_destroy_refusal(*exists, team)
        }
        (
            About::TeamMember {
                team_exists,
                is_member,
                ..
            },
            Action::TeamAdd { .. },
        ) => { unless_there(*team_exists && *is_member) }
        (
            About::TeamMember {
                team_exists,
                is_in_team,
                ..
            },
            Action::TeamRemove { .. },
        ) => { unless_there(*team_exists && *is_in_team) }
        (
            About::Organisation { .. },
            Action::Members { .. } | Action::Teams { .. } | Action::OrgPackages { .. },
        )
        | (About::Rights { .. }, Action::Maintainers { .. })
        | (
            About::Nothing,
            Action::WhoAmI
            | Action::MyPackages
            | Action::Users
            | Action::Organisations
            | Action::Packages,
        ) => None,
        (About::Team { exists, .. }, Action::TeamMembers { .. } | Action::TeamPackages { .. }) => {
            unless_there(*exists)
        }
        (
            About::Grant {
                team_exists,
                is_published,
                ..
            },
            Action::Grant {
                organisation,
                package,
                ..
            },
        ) => grant_refusal(*team_exists, *is_published, organisation, package),
        (About::Grant { stands, .. }, Action::Revoke { .. }) => unless_there(*stands),
        (About::Rights { .. }, Action::SetAccess { package, status }) => {
            status_refusal(Some(*status), package)
        }
        (About::OwnerAdd { user_exists, .. }, Action::OwnerAdd { .. }) => {
            unless_there(*user_exists)
        }
        (
            About::OwnerRemove {
                is_maintainer,
                other_maintainer,
                ..
            },
            Action::OwnerRemove { .. },
        ) => { owner_remove_refusal(*is_maintainer, *other_maintainer) }
        (About::Publish(facts), Action::Publish { form }) => publish_refusal(facts, form, now),
        (About::TagSet { version_lives, .. }, Action::TagSet { .. }) => unless_there(
            *version_lives,
        ),
        (About::TagRemove { tag_stands, .. }, Action::TagRemove { tag, .. }) => {
            tag_remove_refusal(*tag_stands, tag)
        }
        (
            About::Withdraw {
                published,
                depended,
                ..
            },
            Action::Withdraw { .. },
        ) => { withdraw_refusal(*published, *depended, now) }
        (About::WithdrawAll { depended, live, .. }, Action::WithdrawAll { .. }) => {
            withdraw_all_refusal(live, *depended, now)
        }
        (About::Deprecate { .. }, Action::Deprecate { .. }) => None,
        (About::Version { lives, .. }, Action::VersionDoc { .. } | Action::Archive { .. })
        | (
            About::Package { lives, .. },
            Action::Packument { .. }
            | Action::AbbreviatedPackument { .. }
            | Action::RevisedPackument { .. }
            | Action::Tags { .. },
        ) => { unless_there(*lives) }
        _ => Some(Refusal::NotFound),
    }
}

fn unless_there(found: bool) -> Option<Refusal>
    ensures { result ≡ spec.unless_there found }
{
    if found { None } else { Some(Refusal::NotFound) }
}

// What a request that isn't refused changes. A request of nobody is refused.
fn changes_for<'a>(
    alloc: Global,
    caller: &'a Option<Caller>,
    about: &'a About,
    request: &'a Request,
) -> Result<Changes<'a>, AllocError>
    ensures command { IfOk result (λ changes. (S : State) (who : Caller) → caller.now ≡ Some who
        → AboutTells about.now S who request.now.what
        → map change_of changes.items ≡ effects S request.now.at who request.now.what) }
    ensures query { is_command request.now.what ≡ false
        → IfOk result (λ changes. changes.items ≡ []) }
{
    match caller {
        Some(caller) => changes(alloc, caller, about, request),
        None => Ok(Vec::new(alloc)),
    }
}

// What a request that isn't refused changes.
fn changes<'a>(
    alloc: Global,
    caller: &'a Caller,
    about: &'a About,
    request: &'a Request,
) -> Result<Changes<'a>, AllocError>
    ensures command { IfOk result (λ changes. (S : State)
        → AboutTells about.now S caller.now request.now.what
        → map change_of changes.items ≡ effects S request.now.at caller.now request.now.what) }
    ensures query { is_command request.now.what ≡ false
        → IfOk result (λ changes. changes.items ≡ []) }
{
    match (about, &request.what) {
        (About::UserAdd { .. }, Action::UserAdd { user }) => only(alloc, Change::AddUser { user }),
        (About::TokenAdd { .. }, Action::TokenAdd { user, digest }) => only(
            alloc,
            Change::AddToken { digest, user },
        ),
        (About::TokenRemove { .. }, Action::TokenRemove { digest }) => {
            only(alloc, Change::DropToken { digest })
        }
        (About::TokensRemove { digests, .. }, Action::TokensRemove { .. }) => {
            all_ended(alloc, digests)
        }
        (
            About::OrgCreate { .. },
            Action::OrgCreate {
                organisation,
                owner,
            },
        ) => { creation(alloc, organisation, owner) }
        (
            About::Member { role: old, .. },
            Action::OrgSet {
                organisation,
                user,
                role,
            },
        ) => { membership(alloc, organisation, user, *role, *old) }
        (About::Member { .. }, Action::OrgRemove { organisation, user }) => {
            let organisation = organisation.text();
            only(alloc, Change::DropMember { organisation, user })
        }
        (About::Team { .. }, Action::TeamCreate { organisation, team }) => {
            let (organisation, team) = (organisation.text(), team.text());
            only(alloc, Change::AddTeam { organisation, team })
        }
        (About::Team { .. }, Action::TeamDestroy { organisation, team }) => {
            let (organisation, team) = (organisation.text(), team.text());
            only(alloc, Change::DropTeam { organisation, team })
        }
        (
            About::TeamMember { is_in_team, .. },
            Action::TeamAdd {
                organisation,
                team,
                user,
            },
        ) => { team_joined(alloc, organisation, team, user, *is_in_team) }
        (
            About::TeamMember { .. },
            Action::TeamRemove {
                organisation,
                team,
                user,
            },
        ) => {
            let (organisation, team) = (organisation.text(), team.text());
            only(
                alloc,
                Change::DropTeamMember {
                    organisation,
                    team,
                    user,
                },
            )
        }
        (
            About::Grant { .. },
            Action::Grant {
                organisation,
                team,
                package,
                grant,
            },
        ) => {
            let change = Change::PutGrant {
                organisation: organisation.text(),
                team: team.text(),
                package,
                grant: *grant,
            };
            only(alloc, change)
        }
        (
            About::Grant { .. },
            Action::Revoke {
                organisation,
                team,
                package,
            },
        ) => {
            let (organisation, team) = (organisation.text(), team.text());
            only(
                alloc,
                Change::DropGrant {
                    organisation,
                    team,
                    package,
                },
            )
        }
        (About::Rights { .. }, Action::SetAccess { package, status }) => {
            let status = *status;
            only(alloc, Change::PutStatus { package, status })
        }
        (About::OwnerAdd { is_maintainer, .. }, Action::OwnerAdd { package, user }) => {
            maintaining(alloc, package, user, *is_maintainer)
        }
        (About::OwnerRemove { .. }, Action::OwnerRemove { package, user }) => only(
            alloc,
            Change::DropOwner { package, user },
        ),
        (About::Publish(facts), Action::Publish { form }) => {
            publish_changes(alloc, caller, facts, form, &request.at)
        }
        (
            About::TagSet { .. },
            Action::TagSet {
                package,
                tag,
                version,
            },
        ) => {
            let change = Change::PutTag {
                package,
                tag: tag.text(),
                version,
            };
            only(alloc, change)
        }
        (About::TagRemove { .. }, Action::TagRemove { package, tag }) => {
            let change = Change::DropTag {
                package,
                tag: tag.text(),
            };
            only(alloc, change)
        }
        (
            About::Withdraw {
                published,
                tags,
                live,
                ..
            },
            Action::Withdraw { package, version },
        ) => { withdrawal(alloc, package, version, published, live, tags, &request.at) }
        (About::WithdrawAll { tags, live, .. }, Action::WithdrawAll { package }) => {
            withdrawal_of_all(alloc, package, live, tags, &request.at)
        }
        (
            About::Deprecate { live, .. },
            Action::Deprecate {
                package,
                selector,
                message,
            },
        ) => { deprecation(alloc, package, live, selector, message) }
        _ => Ok(Vec::new(alloc)),
    }
}

// A change alone.
fn only<'a>(alloc: Global, change: Change<'a>) -> Result<Changes<'a>, AllocError>
    ensures { IfOk result (λ changes. map change_of changes.items ≡ change_of change.entry ∷ []) }
{
    Ok(vec![in alloc; change]?)
}
