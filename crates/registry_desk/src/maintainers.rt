//! What decides an action about the maintainers of a package.

ghost use Rattle.registry_tables.specs.Inside.{Finds};
ghost use Rattle.registry_tables.specs.Teams.{AreTeamsSound};
ghost use Rattle.registry_rules.specs.declared.request.Action.TheVariants as asked;
ghost use Rattle.registry_desk.specs.Early.{Decides};

use crate::policy::{Found, standing_if_allowed};
use registry_access::{Ask, Caller};
use registry_names::{Fault, Ident, Name};
use registry_rules::About;
use registry_tables::{has_other_maintainer, has_user, is_maintainer, load_standing};
use sqlite::{Alter, Transaction};
use std::alloc::Global;

/// Loads what decides whether a user becomes a maintainer.
pub(crate) fn facts_for_owner_add<S: Alter>(
    alloc: Global,
    tx: &mut Transaction<'_, S>,
    caller: &Caller,
    name: &Name,
    user: &Ident,
) -> Result<Found, Fault>
    ensures { Finds S.Store tx.old tx.new result (λ found c. AreTeamsSound c
        → Decides found c caller.now (asked.OwnerAdd name.now user.now)) }
{
    Ok(Found::About(About::OwnerAdd {
        standing: load_standing(alloc, tx, caller, name, &Ask::Owners(name))?,
        user_exists: has_user(tx, user)?,
        is_maintainer: is_maintainer(tx, name, user)?,
    }))
}

/// Loads what decides whether a maintainer is removed, if the policy allows it.
pub(crate) fn facts_for_owner_remove<S: Alter>(
    alloc: Global,
    tx: &mut Transaction<'_, S>,
    caller: &Caller,
    name: &Name,
    user: &Ident,
) -> Result<Found, Fault>
    ensures { Finds S.Store tx.old tx.new result (λ found c. AreTeamsSound c
        → Decides found c caller.now (asked.OwnerRemove name.now user.now)) }
{
    let standing = match standing_if_allowed(alloc, tx, caller, name, &Ask::Owners(name))? {
        Ok(standing) => standing,
        Err(refusal) => return Ok(Found::Refused(refusal)),
    };
    Ok(Found::About(About::OwnerRemove {
        standing,
        is_maintainer: is_maintainer(tx, name, user)?,
        other_maintainer: has_other_maintainer(alloc, tx, name, user)?,
    }))
}
