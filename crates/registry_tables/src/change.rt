//! Changes, made in the tables.

ghost use Rattle.std.specs.Prelude.{OnOk};
ghost use Rattle.registry_rules.specs.Changes.{change_of};
ghost use Rattle.registry_tables.specs.Changes.{Asks, stored_by};
ghost use Rattle.registry_tables.specs.Inside.{Makes};
ghost use Rattle.registry_tables.specs.Ranges.{HasMoments};

use crate::grants::{drop_grant, put_grant};
use crate::maintainers::{drop_owner, put_owner};
use crate::members::{drop_member, put_member};
use crate::organisations::add_organisation;
use crate::statuses::put_status;
use crate::tags::{drop_tag, put_tag};
use crate::team_members::{drop_team_member, put_team_member};
use crate::teams::{add_team, drop_team};
use crate::tokens::{add_token, drop_token};
use crate::users::add_user;
use crate::versions::{put_message, put_version};
use crate::withdrawals::retire_version;
use registry_names::Fault;
use registry_rules::Change;
use sqlite::{Alter, Transaction};

/// Makes one change. Nothing else that is stored is changed.
///
/// A role, a grant, a status and a tag take the place of what was there. Any other new row of a key
/// that is there already is a fault. So are a version that is published after it
/// was withdrawn, or in a package without a status, and one that is withdrawn although it doesn't
/// live, was withdrawn already, or has a tag.
///
/// No clause says so, but a row that refers to what the tables lack is a fault, too, such as a tag
/// of a version that doesn't live. A grant refers to its team and its package's status, a
/// maintainer to the user and to that status.
pub fn make<S: Alter>(tx: &mut Transaction<'_, S>, change: &Change<'_>) -> Result<(), Fault>
    ensures makes { Makes S.Store tx.old tx.new result
        (λ _. Asks (change_of change.now))
        (stored_by (change_of change.now)) }
    ensures in_time { OnOk result (HasMoments (change_of change.now)) }
{
    match *change {
        Change::AddUser { user } => add_user(tx, user.text()),
        Change::AddToken { digest, user } => add_token(tx, digest, user.text()),
        Change::DropToken { digest } => drop_token(tx, digest),
        Change::AddOrg { organisation } => add_organisation(tx, organisation),
        Change::PutMember {
            organisation,
            user,
            role,
        } => put_member(tx, organisation, user.text(), role),
        Change::DropMember { organisation, user } => drop_member(tx, organisation, user.text()),
        Change::AddTeam { organisation, team } => add_team(tx, organisation, team),
        Change::PutTeamMember {
            organisation,
            team,
            user,
        } => put_team_member(tx, organisation, team, user.text()),
        Change::DropTeamMember {
            organisation,
            team,
            user,
        } => drop_team_member(tx, organisation, team, user.text()),
        Change::DropTeam { organisation, team } => drop_team(tx, organisation, team),
        Change::PutGrant {
            organisation,
            team,
            package,
            grant,
        } => put_grant(tx, organisation, team, package.text(), grant),
        Change::DropGrant {
            organisation,
            team,
            package,
        } => drop_grant(tx, organisation, team, package.text()),
        Change::PutOwner { package, user } => put_owner(tx, package.text(), user.text()),
        Change::DropOwner { package, user } => drop_owner(tx, package.text(), user.text()),
        Change::PutStatus { package, status } => put_status(tx, package.text(), status),
        Change::AddVersion { form, at } => put_version(tx, form, *at),
        Change::RetireVersion {
            package,
            version,
            published,
            withdrawn,
        } => retire_version(tx, package, version.text(), *published, *withdrawn),
        Change::PutDeprecation {
            package,
            version,
            message,
        } => put_message(tx, package.text(), version.text(), message.text()),
        Change::PutTag {
            package,
            tag,
            version,
        } => put_tag(tx, package.text(), tag, version.text()),
        Change::DropTag { package, tag } => drop_tag(tx, package.text(), tag),
    }
}
