//! What decides an action about organisations and their members.

ghost use Rattle.registry_access.specs.declared.caller.Caller.{Caller};
ghost use Rattle.registry_tables.specs.Inside.{Finds};
ghost use Rattle.registry_rules.specs.declared.request.Action.TheVariants as asked;
ghost use Rattle.registry_desk.specs.Early.{Decides, DecidesOfMember, DecidesOfOrganisation};

use crate::policy::{Found, rows_if_allowed};
use registry_access::{Ask, Caller};
use registry_names::{Fault, Ident};
use registry_rules::About;
use registry_tables::{has_organisation, has_other_owner, has_user, load_access, load_role};
use sqlite::{Alter, Transaction};
use std::alloc::Global;

/// Loads what decides whether an organisation is created.
pub(crate) fn facts_for_org_create<S: Alter>(
    tx: &mut Transaction<'_, S>,
    organisation: &Ident,
    owner: &Ident,
) -> Result<Found, Fault>
    ensures { Finds S.Store tx.old tx.new result (λ found c. (who : Caller)
        → Decides found c who (asked.OrgCreate organisation.now owner.now)) }
{
    Ok(Found::About(About::OrgCreate {
        owner_exists: has_user(tx, owner)?,
        exists: has_organisation(tx, organisation)?,
    }))
}

/// Loads what decides whether a user gets a role in an organisation, or leaves it, if the policy
/// allows it.
pub(crate) fn facts_about_member<S: Alter>(
    alloc: Global,
    tx: &mut Transaction<'_, S>,
    caller: &Caller,
    organisation: &Ident,
    user: &Ident,
) -> Result<Found, Fault>
    ensures { Finds S.Store tx.old tx.new result
        (λ found c. DecidesOfMember found c caller.now organisation.now user.now) }
{
    let ask = Ask::OrgMembers(organisation);
    let rows = match rows_if_allowed(alloc, tx, caller, organisation, &ask)? {
        Ok(rows) => rows,
        Err(refusal) => return Ok(Found::Refused(refusal)),
    };
    Ok(Found::About(About::Member {
        rows,
        user_exists: has_user(tx, user)?,
        role: load_role(tx, organisation, user)?,
        other_owner: has_other_owner(alloc, tx, organisation, user)?,
    }))
}

/// Loads what decides a query about an organisation.
pub(crate) fn facts_about_organisation<S: Alter>(
    alloc: Global,
    tx: &mut Transaction<'_, S>,
    caller: &Caller,
    organisation: &Ident,
) -> Result<Found, Fault>
    ensures { Finds S.Store tx.old tx.new result
        (λ found c. DecidesOfOrganisation found c caller.now organisation.now) }
{
    let rows = load_access(alloc, tx, caller, organisation)?;
    Ok(Found::About(About::Organisation { rows }))
}
