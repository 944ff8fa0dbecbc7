//! What decides an action about the teams of an organisation, and the users in them.

ghost use Rattle.registry_tables.specs.Inside.{Finds};
ghost use Rattle.registry_desk.specs.Early.{DecidesOfTeam, DecidesOfTeamMember};

use crate::policy::Found;
use registry_access::Caller;
use registry_names::{Fault, Ident};
use registry_rules::About;
use registry_tables::{has_team, is_in_team, load_access, load_role};
use sqlite::{Alter, Transaction};
use std::alloc::Global;

/// Loads what decides an action about a team.
pub(crate) fn facts_about_team<S: Alter>(
    alloc: Global,
    tx: &mut Transaction<'_, S>,
    caller: &Caller,
    organisation: &Ident,
    team: &Ident,
) -> Result<Found, Fault>
    ensures { Finds S.Store tx.old tx.new result
        (λ found c. DecidesOfTeam found c caller.now organisation.now team.now) }
{
    Ok(Found::About(About::Team {
        rows: load_access(alloc, tx, caller, organisation)?,
        exists: has_team(tx, organisation, team)?,
    }))
}

/// Loads what decides whether a user is put into a team, or taken out of it.
pub(crate) fn facts_about_team_member<S: Alter>(
    alloc: Global,
    tx: &mut Transaction<'_, S>,
    caller: &Caller,
    organisation: &Ident,
    team: &Ident,
    user: &Ident,
) -> Result<Found, Fault>
    ensures { Finds S.Store tx.old tx.new result
        (λ found c. DecidesOfTeamMember found c caller.now organisation.now team.now user.now) }
{
    Ok(Found::About(About::TeamMember {
        rows: load_access(alloc, tx, caller, organisation)?,
        team_exists: has_team(tx, organisation, team)?,
        is_member: load_role(tx, organisation, user)?.is_some(),
        is_in_team: is_in_team(tx, organisation, team, user)?,
    }))
}
