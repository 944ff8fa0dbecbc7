//! What the policy says of an action.

ghost use Rattle.std.specs.Prelude.{◌≡◌, is_some};
ghost use Rattle.registry_names.specs.Names.{scope_of};
ghost use Rattle.registry_access.specs.Access.{Access};
ghost use Rattle.registry_access.specs.Agreement.{SameOrganisation};
ghost use Rattle.registry_access.specs.Callers.{role_of};
ghost use Rattle.registry_access.specs.Policy as policy;
ghost use Rattle.registry_access.specs.Positions.{has_organisation, position_in};
ghost use Rattle.registry_access.specs.RowMaps.{state_of};
ghost use Rattle.registry_access.specs.RowsFor.{StandingTells, TellsMaintainer, TellsReader};
ghost use Rattle.registry_rules.specs.Facts.{AboutTells};
ghost use Rattle.registry_rules.specs.Permissions as spec;
ghost use Rattle.registry_rules.specs.State.{State};

use crate::facts::About;
use crate::request::Action;
use registry_access::{
    AccessRows, Ask, Caller, Standing, allowed, allowed_by, may_end_token, may_operate,
};
use registry_names::{Ident, Name, Refusal, Rule};

/// The rule that allows a caller what they ask for, or why the policy refuses it.
pub(crate) fn permission(caller: &Caller, about: &About, action: &Action) -> Result<Rule, Refusal>
    ensures { (S : State) → AboutTells about.now S caller.now action.now
        → result ≡ spec.permission S.access caller.now action.now }
{
    match (about, action) {
        (
            _,
            Action::UserAdd { .. }
            | Action::TokenAdd { .. }
            | Action::TokensRemove { .. }
            | Action::OrgCreate { .. }
            | Action::Users
            | Action::Organisations
            | Action::Packages,
        ) => may_operate(caller),
        (_, Action::WhoAmI | Action::MyPackages) => may_be_named(caller),
        (About::TokenRemove { user }, Action::TokenRemove { .. }) => may_end_token(caller, user),
        (About::Member { rows, .. }, Action::OrgSet { organisation, .. }) => {
            may_manage_members(rows, caller, organisation)
        }
        (About::Member { rows, .. }, Action::OrgRemove { organisation, .. }) => {
            may_manage_members(rows, caller, organisation)
        }
        (About::Team { rows, .. }, Action::TeamCreate { organisation, .. }) => {
            may_manage_teams(rows, caller, organisation)
        }
        (About::Team { rows, .. }, Action::TeamDestroy { organisation, .. }) => {
            may_manage_teams(rows, caller, organisation)
        }
        (About::TeamMember { rows, .. }, Action::TeamAdd { organisation, .. }) => {
            may_manage_teams(rows, caller, organisation)
        }
        (About::TeamMember { rows, .. }, Action::TeamRemove { organisation, .. }) => {
            may_manage_teams(rows, caller, organisation)
        }
        (About::Grant { rows, .. }, Action::Grant { organisation, .. }) => {
            may_manage_teams(rows, caller, organisation)
        }
        (About::Grant { rows, .. }, Action::Revoke { organisation, .. }) => {
            may_manage_teams(rows, caller, organisation)
        }
        (About::Organisation { rows }, Action::Members { organisation }) => {
            may_see_organisation(rows, caller, organisation)
        }
        (About::Organisation { rows }, Action::Teams { organisation }) => {
            may_see_organisation(rows, caller, organisation)
        }
        (About::Organisation { rows }, Action::OrgPackages { organisation }) => {
            may_see_organisation(rows, caller, organisation)
        }
        (About::Team { rows, .. }, Action::TeamMembers { organisation, .. }) => {
            may_see_organisation(rows, caller, organisation)
        }
        (About::Team { rows, .. }, Action::TeamPackages { organisation, .. }) => {
            may_see_organisation(rows, caller, organisation)
        }
        (About::Rights { standing }, Action::SetAccess { package, .. }) => {
            may_write(standing, caller, package)
        }
        (About::OwnerAdd { standing, .. }, Action::OwnerAdd { package, .. }) => {
            may_manage_maintainers(standing, caller, package)
        }
        (About::OwnerRemove { standing, .. }, Action::OwnerRemove { package, .. }) => {
            may_manage_maintainers(standing, caller, package)
        }
        (About::Publish(facts), Action::Publish { form }) => {
            may_publish(&facts.standing, caller, form.name())
        }
        (About::TagSet { standing, .. }, Action::TagSet { package, .. }) => {
            may_write(standing, caller, package)
        }
        (About::TagRemove { standing, .. }, Action::TagRemove { package, .. }) => {
            may_write(standing, caller, package)
        }
        (About::Withdraw { standing, .. }, Action::Withdraw { package, .. }) => {
            may_write(standing, caller, package)
        }
        (About::WithdrawAll { standing, .. }, Action::WithdrawAll { package }) => {
            may_write(standing, caller, package)
        }
        (About::Deprecate { standing, .. }, Action::Deprecate { package, .. }) => {
            may_write(standing, caller, package)
        }
        (About::Version { standing, .. }, Action::VersionDoc { package, .. }) => {
            may_read(standing, caller, package)
        }
        (About::Version { standing, .. }, Action::Archive { package, .. }) => {
            may_read(standing, caller, package)
        }
        (About::Package { standing, .. }, Action::Packument { package }) => {
            may_read(standing, caller, package)
        }
        (About::Package { standing, .. }, Action::AbbreviatedPackument { package }) => {
            may_read(standing, caller, package)
        }
        (About::Package { standing, .. }, Action::RevisedPackument { package }) => {
            may_read(standing, caller, package)
        }
        (About::Package { standing, .. }, Action::Tags { package }) => {
            may_read(standing, caller, package)
        }
        (About::Rights { standing }, Action::Maintainers { package }) => {
            may_read(standing, caller, package)
        }
        _ => Err(Refusal::NotFound),
    }
}

fn may_be_named(caller: &Caller) -> Result<Rule, Refusal>
    ensures { result ≡ spec.may_be_named caller.now }
{
    match caller {
        Caller::User(_) => Ok(Rule::A5),
        Caller::Operator => Err(Refusal::Denied(Rule::A5)),
        Caller::Anonymous => Err(Refusal::NoCaller),
    }
}

fn may_manage_members(
    rows: &AccessRows,
    caller: &Caller,
    organisation: &Ident,
) -> Result<Rule, Refusal>
    ensures { (A : Access) → SameOrganisation (state_of rows.now) A caller.now organisation.now
        → result ≡ policy.may_manage_members caller.now (has_organisation A organisation.now)
        (role_of A caller.now organisation.now) }
{
    allowed(rows, caller, &Ask::OrgMembers(organisation))
}

fn may_manage_teams(
    rows: &AccessRows,
    caller: &Caller,
    organisation: &Ident,
) -> Result<Rule, Refusal>
    ensures { (A : Access) → SameOrganisation (state_of rows.now) A caller.now organisation.now
        → result ≡ policy.may_manage_teams caller.now (has_organisation A organisation.now)
        (role_of A caller.now organisation.now) }
{
    allowed(rows, caller, &Ask::OrgTeams(organisation))
}

fn may_see_organisation(
    rows: &AccessRows,
    caller: &Caller,
    organisation: &Ident,
) -> Result<Rule, Refusal>
    ensures { (A : Access) → SameOrganisation (state_of rows.now) A caller.now organisation.now
        → result ≡ policy.may_see_organisation caller.now (has_organisation A organisation.now)
        (role_of A caller.now organisation.now) }
{
    allowed(rows, caller, &Ask::OrgRead(organisation))
}

fn may_write(standing: &Standing, caller: &Caller, name: &Name) -> Result<Rule, Refusal>
    ensures { (A : Access) → StandingTells standing.now A caller.now name.now
        → result ≡ policy.may_write caller.now (position_in A caller.now name.now) }
{
    allowed_by(standing, caller, &Ask::Write(name))
}

fn may_manage_maintainers(
    standing: &Standing,
    caller: &Caller,
    name: &Name,
) -> Result<Rule, Refusal>
    ensures { (A : Access) → TellsMaintainer standing.now A caller.now name.now
        → result ≡ policy.may_manage_maintainers caller.now (position_in A caller.now name.now) }
{
    allowed_by(standing, caller, &Ask::Owners(name))
}

fn may_read(standing: &Standing, caller: &Caller, name: &Name) -> Result<Rule, Refusal>
    ensures { (A : Access) → TellsReader standing.now A caller.now name.now
        → result ≡ policy.may_read (position_in A caller.now name.now) }
{
    allowed_by(standing, caller, &Ask::Read(name))
}

fn may_publish(standing: &Standing, caller: &Caller, name: &Name) -> Result<Rule, Refusal>
    ensures { (A : Access) → StandingTells standing.now A caller.now name.now
        → result ≡ policy.may_publish caller.now (is_some (scope_of name.now))
        (position_in A caller.now name.now) }
{
    allowed_by(standing, caller, &Ask::Publish(name))
}
