//! What decides an action, as the tables hold it. Nothing is changed.

ghost use Rattle.registry_tables.specs.Inside.{Finds};
ghost use Rattle.registry_tables.specs.Teams.{AreTeamsSound};
ghost use Rattle.registry_desk.specs.Early.{IsFound};
ghost use Rattle.registry_desk.specs.Sending.{IsAnyPackument};

use crate::grants::facts_about_grant;
use crate::maintainers::{facts_for_owner_add, facts_for_owner_remove};
use crate::organisations::{facts_about_member, facts_about_organisation, facts_for_org_create};
use crate::packages::{
    facts_about_archive, facts_about_document, facts_about_package, facts_for_maintainers,
    facts_for_publish, facts_for_set_access, facts_for_tag_remove, facts_for_tag_set,
};
use crate::people::{
    facts_for_token_add, facts_for_token_remove, facts_for_tokens_remove, facts_for_user_add,
    facts_of_caller,
};
use crate::policy::Found;
use crate::teams::{facts_about_team, facts_about_team_member};
use crate::withdrawals::{facts_for_deprecate, facts_for_withdraw, facts_for_withdraw_all};
use registry_access::Caller;
use registry_names::Fault;
use registry_rules::{Action, Request};
use sqlite::{Alter, Transaction};
use std::alloc::Global;

/// Loads what decides a caller's request, or answers why it is refused before what is costly to load
/// is loaded.
pub(crate) fn load_facts<S: Alter>(
    alloc: Global,
    tx: &mut Transaction<'_, S>,
    caller: &Caller,
    request: &Request,
) -> Result<Found, Fault>
    requires other { ¬ IsAnyPackument request.now.what }
    ensures { Finds S.Store tx.old tx.new result
        (λ found c. AreTeamsSound c
        → IsFound found c request.now.at caller.now request.now.what) }
{
    let what = &request.what;
    match what {
        Action::UserAdd { user } => facts_for_user_add(tx, user),
        Action::TokenAdd { user, digest } => facts_for_token_add(alloc, tx, user, digest),
        Action::TokenRemove { digest } => { facts_for_token_remove(alloc, tx, digest) }
        Action::TokensRemove { user } => facts_for_tokens_remove(alloc, tx, caller, user),
        Action::OrgCreate {
            organisation,
            owner,
        } => facts_for_org_create(tx, organisation, owner),
        Action::OrgSet {
            organisation,
            user,
            ..
        } => facts_about_member(alloc, tx, caller, organisation, user),
        Action::OrgRemove { organisation, user } => {
            facts_about_member(alloc, tx, caller, organisation, user)
        }
        Action::TeamCreate { organisation, team } => {
            facts_about_team(alloc, tx, caller, organisation, team)
        }
        Action::TeamDestroy { organisation, team } => {
            facts_about_team(alloc, tx, caller, organisation, team)
        }
        Action::TeamAdd {
            organisation,
            team,
            user,
        } => facts_about_team_member(alloc, tx, caller, organisation, team, user),
        Action::TeamRemove {
            organisation,
            team,
            user,
        } => facts_about_team_member(alloc, tx, caller, organisation, team, user),
        Action::Grant {
            organisation,
            team,
            package,
            ..
        } => facts_about_grant(alloc, tx, caller, organisation, team, package),
        Action::Revoke {
            organisation,
            team,
            package,
        } => facts_about_grant(alloc, tx, caller, organisation, team, package),
        Action::SetAccess { package, .. } => { facts_for_set_access(alloc, tx, caller, package) }
        Action::OwnerAdd { package, user } => {
            facts_for_owner_add(alloc, tx, caller, package, user)
        }
        Action::OwnerRemove { package, user } => facts_for_owner_remove(
            alloc, tx, caller, package, user,
        ),
        Action::Publish { form } => facts_for_publish(alloc, tx, caller, form),
        Action::TagSet {
            package,
            version,
            ..
        } => facts_for_tag_set(alloc, tx, caller, package, version),
        Action::TagRemove { package, tag } => {
            facts_for_tag_remove(alloc, tx, caller, package, tag)
        }
        Action::Withdraw { package, version } => {
            facts_for_withdraw(alloc, tx, caller, package, version, &request.at)
        }
        Action::WithdrawAll { package } => {
            facts_for_withdraw_all(alloc, tx, caller, package, &request.at)
        }
        Action::Deprecate { package, .. } => facts_for_deprecate(alloc, tx, caller, package),
        // Such a query doesn't come here: `queried` and `sent` answer it.
        Action::Packument { .. }
        | Action::AbbreviatedPackument { .. }
        | Action::RevisedPackument { .. } => unreachable!(),
        Action::Tags { package } => { facts_about_package(alloc, tx, caller, package) }
        Action::VersionDoc { package, version } => {
            facts_about_document(alloc, tx, caller, package, version)
        }
        Action::Archive { package, version } => {
            facts_about_archive(alloc, tx, caller, package, version)
        }
        Action::Members { organisation } | Action::Teams { organisation } => {
            facts_about_organisation(alloc, tx, caller, organisation)
        }
        Action::TeamMembers { organisation, team } | Action::TeamPackages { organisation, team } =>
            { facts_about_team(alloc, tx, caller, organisation, team) }
        Action::Maintainers { package } => { facts_for_maintainers(alloc, tx, caller, package) }
        Action::OrgPackages { organisation } => {
            facts_about_organisation(alloc, tx, caller, organisation)
        }
        Action::WhoAmI | Action::Users => facts_of_caller(tx),
        Action::Organisations | Action::Packages => facts_of_caller(tx),
        Action::MyPackages => facts_of_caller(tx),
    }
}
