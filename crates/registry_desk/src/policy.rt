//! The policy, asked before what is costly to load is loaded.

ghost use Rattle.std.specs.Prelude.{◌≡◌, IfOk, Some};
ghost use Rattle.registry_access.specs.RowsFor.{asked_package};
ghost use Rattle.registry_tables.specs.Contents.{access_of};
ghost use Rattle.registry_tables.specs.Inside.{Finds};
ghost use Rattle.registry_tables.specs.Teams.{AreTeamsSound};
ghost use Rattle.registry_desk.specs.Early.{IsAllowedBy, IsPlaced, IsPlacedIn, asked_organisation};

use registry_access::{AccessRows, Ask, Caller, Standing, allowed, allowed_by};
use registry_names::{Fault, Ident, Name, Refusal};
use registry_rules::About;
use registry_tables::{load_access, load_standing};
use sqlite::{Alter, Transaction};
use std::alloc::Global;

/// What was found of an action.
#[derive(Drop)]
pub(crate) enum Found {
    /// Why it is refused, before all that decides it was loaded.
    Refused(Refusal),
    /// What decides it.
    About(About),
}

/// The caller's standing to a package where the policy allows what they ask of it, or why it
/// doesn't. Nothing else is loaded.
pub(crate) fn standing_if_allowed<S: Alter>(
    alloc: Global,
    tx: &mut Transaction<'_, S>,
    caller: &Caller,
    name: &Name,
    ask: &Ask<'_>,
) -> Result<Result<Standing, Refusal>, Fault>
    requires asked { asked_package ask.now ≡ Some name.now }
    ensures finds { Finds S.Store tx.old tx.new result (λ placed c. AreTeamsSound c
        → IsPlaced placed (access_of c) caller.now ask.now name.now) }
    ensures allowed { IfOk result (λ placed. IfOk placed (λ standing.
        IsAllowedBy standing caller.now ask.now)) }
{
    let standing = load_standing(alloc, tx, caller, name, ask)?;
    match allowed_by(&standing, caller, ask) {
        Ok(_) => Ok(Ok(standing)),
        Err(refusal) => Ok(Err(refusal)),
    }
}

/// What the policy asks of a caller and an organisation, where it allows what they ask of it, or
/// why it doesn't. Nothing else is loaded.
pub(crate) fn rows_if_allowed<S: Alter>(
    alloc: Global,
    tx: &mut Transaction<'_, S>,
    caller: &Caller,
    organisation: &Ident,
    ask: &Ask<'_>,
) -> Result<Result<AccessRows, Refusal>, Fault>
    requires asked { asked_organisation ask.now ≡ Some organisation.now }
    ensures { Finds S.Store tx.old tx.new result (λ placed c.
        IsPlacedIn placed (access_of c) caller.now ask.now organisation.now) }
{
    let rows = load_access(alloc, tx, caller, organisation)?;
    match allowed(&rows, caller, ask) {
        Ok(_) => Ok(Ok(rows)),
        Err(refusal) => Ok(Err(refusal)),
    }
}
