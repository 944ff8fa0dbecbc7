//! What the policy asks of an organisation.

ghost use Rattle.std.specs.Prelude.{◌≡◌, IfOk, [], ◌∷◌};
ghost use Rattle.registry_access.specs.Agreement.{SameOrganisation};
ghost use Rattle.registry_access.specs.RowMaps.{state_of};
ghost use Rattle.registry_access.specs.declared.caller.Caller.TheVariants as caller;
ghost use Rattle.registry_tables.specs.Access.{RowsGiveStoredRole, TellOrganisation};
ghost use Rattle.registry_tables.specs.Contents.{access_of};
ghost use Rattle.registry_tables.specs.Inside.{Finds, Knows};

use crate::members::load_role;
use crate::organisations::has_organisation;
use registry_access::{AccessRows, Caller, MemberRow, Role};
use registry_names::{Fault, Ident, Text};
use sqlite::{Alter, Transaction};
use std::alloc::Global;

/// What the policy asks of an organisation and a caller: whether it is there, and their role in it.
pub fn load_access<S: Alter>(
    alloc: Global,
    tx: &mut Transaction<'_, S>,
    caller: &Caller,
    organisation: &Ident,
) -> Result<AccessRows, Fault>
    ensures { Finds S.Store tx.old tx.new result
        (λ rows c. SameOrganisation (state_of rows) (access_of c) caller.now organisation.now) }
{
    let organisations = organisation_rows(alloc, tx, organisation)?;
    let members = member_rows(alloc, tx, caller, organisation)?;
    Ok(AccessRows {
        organisations,
        members,
        teams: Vec::new(alloc),
        team_members: Vec::new(alloc),
        grants: Vec::new(alloc),
        packages: Vec::new(alloc),
        maintainers: Vec::new(alloc),
    })
}

// The organisation, if it is there.
fn organisation_rows<S: Alter>(
    alloc: Global,
    tx: &mut Transaction<'_, S>,
    organisation: &Ident,
) -> Result<Vec<Text>, Fault>
    ensures { Finds S.Store tx.old tx.new result
        (λ names c. TellOrganisation names.items c organisation.now) }
{
    if has_organisation(tx, organisation)? {
        one_name(alloc, organisation)
    } else {
        Ok(Vec::new(alloc))
    }
}

fn one_name(alloc: Global, name: &Ident) -> Result<Vec<Text>, Fault>
    ensures { IfOk result (λ names. names.items ≡ name.now ∷ []) }
{
    let name = Text::from_str(alloc, name.text())?;
    Ok(vec![in alloc; name]?)
}

// The membership of a caller, if they are a member. Nothing is asked of a caller who isn't a user.
fn member_rows<S: Alter>(
    alloc: Global,
    tx: &mut Transaction<'_, S>,
    caller: &Caller,
    organisation: &Ident,
) -> Result<Vec<MemberRow>, Fault>
    ensures { Knows S.Store tx.old tx.new result
        (λ members c. RowsGiveStoredRole members.items c caller.now organisation.now) }
{
    match caller {
        Caller::User(user) => user_rows(alloc, tx, user, organisation),
        Caller::Operator | Caller::Anonymous => Ok(Vec::new(alloc)),
    }
}

// The membership of a user, if they are a member.
fn user_rows<S: Alter>(
    alloc: Global,
    tx: &mut Transaction<'_, S>,
    user: &Ident,
    organisation: &Ident,
) -> Result<Vec<MemberRow>, Fault>
    ensures { Finds S.Store tx.old tx.new result
        (λ members c. RowsGiveStoredRole members.items c (caller.User user.now) organisation.now) }
{
    match load_role(tx, organisation, user)? {
        Some(role) => one_member(alloc, organisation, user, role),
        None => Ok(Vec::new(alloc)),
    }
}

fn one_member(
    alloc: Global,
    organisation: &Ident,
    user: &Ident,
    role: Role,
) -> Result<Vec<MemberRow>, Fault>
    ensures { IfOk result (λ members. members.items
        ≡ record { organisation = organisation.now; user = user.now; role = role } ∷ []) }
{
    let member = MemberRow {
        organisation: Text::from_str(alloc, organisation.text())?,
        user: Text::from_str(alloc, user.text())?,
        role,
    };
    Ok(vec![in alloc; member]?)
}
