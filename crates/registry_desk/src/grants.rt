//! What decides an action about what a team is granted on a package.

ghost use Rattle.registry_tables.specs.Inside.{Finds};
ghost use Rattle.registry_desk.specs.Early.{DecidesOfGrant};

use crate::policy::Found;
use registry_access::Caller;
use registry_names::{Fault, Ident, Name};
use registry_rules::About;
use registry_tables::{has_grant, has_team, load_access, load_status};
use sqlite::{Alter, Transaction};
use std::alloc::Global;

/// Loads what decides whether a team is granted a package, or a grant is taken back.
pub(crate) fn facts_about_grant<S: Alter>(
    alloc: Global,
    tx: &mut Transaction<'_, S>,
    caller: &Caller,
    organisation: &Ident,
    team: &Ident,
    name: &Name,
) -> Result<Found, Fault>
    ensures { Finds S.Store tx.old tx.new result
        (λ found c. DecidesOfGrant found c caller.now organisation.now team.now name.now) }
{
    Ok(Found::About(About::Grant {
        rows: load_access(alloc, tx, caller, organisation)?,
        team_exists: has_team(tx, organisation, team)?,
        is_published: load_status(tx, name)?.is_some(),
        stands: has_grant(tx, organisation, team, name)?,
    }))
}
