//! Laws of the definitions that contracts cite. Each function does nothing: what it ensures holds
//! of the definitions themselves, or of every value of a type.

ghost use Rattle.std.specs.Prelude.{◌≡◌, None};
ghost use Rattle.registry_rules.specs.Kept.{IsKept};
ghost use Rattle.registry_rules.specs.Laws.{GrantsAreGiven, GrantsAreRevoked, MaintainersAreAdded, MaintainersAreRemoved, OtherMaintainersAreMaintainers, PublishesGiveFirstRights, StatusesAreSet, NewTeamsAreEmpty, TeamMembersAreAdded, TeamMembersAreRemoved, TeamsAreCreated, TeamsAreDestroyed, LiveVersionsAreTheLive, MembersAreRemoved, NeededHaveDependents, OrganisationsAreCreated, OtherOwnersAreOwners, OthersTokensAreHidden, RolesAreSet, PackagesStandApart, PublishesAddVersions, PublishesSetStatuses, PublishesSetTags, QueriesChangeNothing, RemovedTagsAreGone, SetTagsName, AllTokensAreEnded, TokensAreAdded, TokensAreEnded, UsersAreAdded, WithdrawalsSpend, WithdrawalsFreeTags, WithdrawalsOfAllAreRefusedAsOne, WithdrawalsOfAllAreRuns, WithdrawalsOfAllSpend, DeprecationsMark};
ghost use Rattle.registry_rules.specs.Refusals.{refusal};
ghost use Rattle.registry_rules.specs.Requests.{ArePartsInForm, IsActionInForm, IsAskedInForm, IsInForm};
ghost use Rattle.registry_rules.specs.State.{State, nothing};
ghost use Rattle.registry_rules.specs.Effects.{step};
ghost use Rattle.registry_rules.specs.declared.request.Request.{Request};

use crate::request::{Action, Asked, Request};
use registry_publish::PublishForm;

/// A user who is added is there, and a token that is added is theirs. Nothing else changes.
pub fn added_users_and_tokens_are_there()
    ensures users { UsersAreAdded }
    ensures tokens { TokensAreAdded }
{}

/// A token that ends names nobody, and neither does any token of a user whose tokens end. Each other
/// token is whose it was, and nothing else changes. A user who asks to end a token that isn't theirs
/// is answered the same whether it is there or not.
pub fn ended_tokens_name_nobody()
    ensures one { TokensAreEnded }
    ensures all { AllTokensAreEnded }
    ensures others { OthersTokensAreHidden }
{}

/// An organisation that is created has an owner and the team `developers` with them in it. A user
/// who is given a role has it, and joins that team where they had none. A member who is removed has
/// no role, and is in no team of the organisation. Nothing else changes.
pub fn members_come_and_go()
    ensures created { OrganisationsAreCreated }
    ensures set { RolesAreSet }
    ensures removed { MembersAreRemoved }
{}

/// A team that is created is there, and empty, whatever an earlier team of its name had. A team
/// that is destroyed is gone, with its members and its grants. A user who is put into a team is in
/// it, and one who is taken out isn't. Nothing else changes.
pub fn teams_come_and_go()
    ensures created { TeamsAreCreated }
    ensures new { NewTeamsAreEmpty }
    ensures destroyed { TeamsAreDestroyed }
    ensures added { TeamMembersAreAdded }
    ensures removed { TeamMembersAreRemoved }
{}

/// Another owner of an organisation than a user is another user who is an owner of it.
pub fn other_owners_are_owners()
    ensures { OtherOwnersAreOwners }
{}

/// A publish makes its version live, with its manifest, its archive and its moment; its tag names
/// the version, and so does `latest` where there was none; and its package has a status. The first
/// team of a new package's scope reads and writes it, and without a scope its publisher maintains
/// it. No other version, tag, status, grant or maintainer changes, and nothing else.
pub fn publishes_add_versions()
    ensures versions { PublishesAddVersions }
    ensures tags { PublishesSetTags }
    ensures statuses { PublishesSetStatuses }
    ensures rights { PublishesGiveFirstRights }
{}

/// A grant that is given to a team on a package is there, in place of an earlier one, and a grant
/// that is revoked is gone. A package has the status that it is given. A user who is made a
/// maintainer is one, and one who is removed isn't. Nothing else changes.
pub fn rights_come_and_go()
    ensures granted { GrantsAreGiven }
    ensures revoked { GrantsAreRevoked }
    ensures status { StatusesAreSet }
    ensures added { MaintainersAreAdded }
    ensures removed { MaintainersAreRemoved }
{}

/// Another maintainer of a package than a user is another user who is a maintainer of it.
pub fn other_maintainers_are_maintainers()
    ensures { OtherMaintainersAreMaintainers }
{}

/// A tag that is set names the version, and one that is removed is gone. Nothing else changes.
pub fn tags_are_set_and_removed()
    ensures set { SetTagsName }
    ensures removed { RemovedTagsAreGone }
{}

/// A version is needed exactly where another package has a live version whose manifest has a need
/// of its package, with a text that isn't a range, or with a range that allows the version.
pub fn needed_versions_have_dependents()
    ensures { NeededHaveDependents }
{}

/// A version that is withdrawn lives no more and is spent, with the moments of its publish and of
/// its withdrawal. No tag names it then: `latest` names the greatest other live version, or is gone
/// where there is none. Nothing else changes.
pub fn withdrawals_spend()
    ensures versions { WithdrawalsSpend }
    ensures tags { WithdrawalsFreeTags }
{}

/// The withdrawal of all versions of a package is the run of the withdrawals of its live versions, in
/// any order, at the same moment and by the same caller, each of which is accepted. If the
/// withdrawal of one of them would be refused, the whole is refused for the same reason, `TooLate`
/// before `Depended`, and nothing is withdrawn. Afterwards no version of the package lives and it has no tag, and each that lived is
/// spent. Nothing else changes.
pub fn whole_withdrawals_are_runs()
    ensures live { LiveVersionsAreTheLive }
    ensures runs { WithdrawalsOfAllAreRuns }
    ensures refused { WithdrawalsOfAllAreRefusedAsOne }
    ensures spent { WithdrawalsOfAllSpend }
{}

/// Each live version of the package that a deprecation's selector selects has its message, and
/// nothing else changes.
pub fn deprecations_mark()
    ensures { DeprecationsMark }
{}

/// A query changes nothing. A command changes nothing of a package that it doesn't name, except
/// that a team that is destroyed loses its grants on the package.
pub fn commands_leave_other_packages()
    ensures queries { QueriesChangeNothing }
    ensures packages { PackagesStandApart }
{}

/// An empty registry is in form, and each request in form that isn't refused keeps the registry in
/// form.
pub fn requests_keep_the_form()
    ensures nothing { IsKept nothing }
    ensures step { (S : State) (r : Request) → IsInForm r → refusal S r ≡ None
        → IsKept S → IsKept (step S r) }
{}

/// Each request is in form, as its parts say.
pub fn requests_are_in_form(request: &Request)
    ensures { IsInForm request.now }
{
    // Reading the moment tells the prover that it is one.
    request.at.seconds();
    action_is_in_form(&request.what);
}

// Reading a value tells the prover what its type promises. Each line does only this.
fn action_is_in_form(what: &Action)
    ensures { IsActionInForm what.now }
{
    match what {
        Action::UserAdd { user } | Action::TokensRemove { user } => {
            user.text();
        }
        Action::TokenAdd { user, digest } => {
            user.text();
            digest.as_slice();
        }
        Action::TokenRemove { digest } => {
            digest.as_slice();
        }
        Action::OrgCreate {
            organisation,
            owner,
        } => {
            organisation.text();
            owner.text();
        }
        Action::OrgSet {
            organisation,
            user,
            ..
        }
        | Action::OrgRemove { organisation, user } => {
            organisation.text();
            user.text();
        }
        Action::Members { organisation }
        | Action::Teams { organisation }
        | Action::OrgPackages { organisation } => {
            organisation.text();
        }
        Action::TeamCreate { organisation, team }
        | Action::TeamDestroy { organisation, team }
        | Action::TeamMembers { organisation, team }
        | Action::TeamPackages { organisation, team } => {
            organisation.text();
            team.text();
        }
        Action::TeamAdd {
            organisation,
            team,
            user,
        }
        | Action::TeamRemove {
            organisation,
            team,
            user,
        } => {
            organisation.text();
            team.text();
            user.text();
        }
        Action::Grant {
            organisation,
            team,
            package,
            ..
        }
        | Action::Revoke {
            organisation,
            team,
            package,
        } => {
            organisation.text();
            team.text();
            package.text();
        }
        Action::OwnerAdd { package, user } | Action::OwnerRemove { package, user } => {
            package.text();
            user.text();
        }
        Action::Publish { form } => parts_are_in_form(form),
        Action::TagSet {
            package,
            tag,
            version,
        } => {
            package.text();
            tag.text();
            version.text();
        }
        Action::TagRemove { package, tag } => {
            package.text();
            tag.text();
        }
        Action::Withdraw { package, version } => {
            package.text();
            version.text();
        }
        Action::Deprecate {
            package,
            message,
            ..
        } => {
            package.text();
            message.text();
        }
        Action::VersionDoc { package, version } => {
            package.text();
            asked_is_in_form(version);
        }
        Action::Archive { package, version } => {
            package.text();
            version.text();
        }
        Action::SetAccess { package, .. }
        | Action::Packument { package }
        | Action::AbbreviatedPackument { package }
        | Action::RevisedPackument { package }
        | Action::Tags { package }
        | Action::Maintainers { package }
        | Action::WithdrawAll { package } => {
            package.text();
        }
        Action::WhoAmI
        | Action::MyPackages
        | Action::Users
        | Action::Organisations
        | Action::Packages => {}
    }
}

// The same of a version that is asked for.
fn asked_is_in_form(version: &Asked)
    ensures { IsAskedInForm version.now }
{
    match version {
        Asked::Exact(version) => {
            version.text();
        }
        Asked::Latest => {}
    }
}

// The same of the parts of a form.
fn parts_are_in_form(form: &PublishForm)
    ensures { ArePartsInForm form.now }
{
    form.name();
    form.version();
    form.tag();
    form.manifest_text();
    form.needs();
    form.integrity();
}
