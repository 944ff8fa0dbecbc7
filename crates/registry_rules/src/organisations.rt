//! The decision on organisations and their members.

ghost use Rattle.std.specs.Prelude.{◌≡◌, ◌&&◌, not, is_none, IfOk, map, Some, None};
ghost use Rattle.registry_names.specs.declared.refusal.Refusal.TheVariants as refusal;
ghost use Rattle.registry_access.specs.Levels as levels;
ghost use Rattle.registry_rules.specs.Changes.{change_of};
ghost use Rattle.registry_rules.specs.Effects as effects;
ghost use Rattle.registry_rules.specs.Refusals as spec;

use crate::change::{Change, Changes};
use crate::users::unless_new;
use registry_access::Role;
use registry_names::{Ident, Refusal};
use std::alloc::{AllocError, Global};

/// The team that each organisation has.
pub const DEVELOPERS: &str = "developers";

fn is_owner(role: Option<Role>) -> bool
    ensures { result ≡ levels.is_owner role }
{
    matches!(role, Some(Role::Owner))
}

/// Why a role can't be given, if it can't: there is no such user, or the user is the last owner and
/// the role is another one.
pub(crate) fn org_set_refusal(
    user_exists: bool,
    old: Option<Role>,
    other_owner: bool,
    role: Role,
) -> Option<Refusal>
    ensures { result ≡ spec.refuse (not user_exists) refusal.NotFound
        (spec.refuse (not (levels.is_owner (Some role)) && (levels.is_owner old && not other_owner))
        refusal.LastOwner None) }
{
    if !user_exists {
        return Some(Refusal::NotFound);
    }
    if !is_owner(Some(role)) && is_owner(old) && !other_owner {
        return Some(Refusal::LastOwner);
    }
    None
}

/// Why a member can't be removed, if they can't: the user isn't a member, or is the last owner.
pub(crate) fn org_remove_refusal(role: Option<Role>, other_owner: bool) -> Option<Refusal>
    ensures { result ≡ spec.refuse (is_none role) refusal.NotFound
        (spec.refuse (levels.is_owner role && not other_owner) refusal.LastOwner None) }
{
    if role.is_none() {
        return Some(Refusal::NotFound);
    }
    if is_owner(role) && !other_owner {
        return Some(Refusal::LastOwner);
    }
    None
}

/// An organisation has an owner, and its first team with the owner in it.
pub(crate) fn creation<'a>(
    alloc: Global,
    organisation: &'a Ident,
    owner: &'a Ident,
) -> Result<Changes<'a>, AllocError>
    ensures { IfOk result (λ changes. map change_of changes.items
        ≡ effects.creation organisation.now owner.now) }
{
    let organisation = organisation.text();
    Ok(vec![in alloc;
        Change::AddOrg { organisation },
        Change::PutMember {
            organisation,
            user: owner,
            role: Role::Owner
        },
        Change::AddTeam {
            organisation,
            team: DEVELOPERS
        },
        Change::PutTeamMember {
            organisation,
            team: DEVELOPERS,
            user: owner
        },
    ]?)
}

/// A member gets another role; a new member joins the first team.
pub(crate) fn membership<'a>(
    alloc: Global,
    organisation: &'a Ident,
    user: &'a Ident,
    role: Role,
    old: Option<Role>,
) -> Result<Changes<'a>, AllocError>
    ensures { IfOk result (λ changes. map change_of changes.items
        ≡ effects.membership organisation.now user.now role old) }
{
    let organisation = organisation.text();
    match old {
        Some(_) => Ok(vec![in alloc;
            Change::PutMember {
                organisation,
                user,
                role
            },
        ]?),
        None => Ok(vec![in alloc;
            Change::PutMember {
                organisation,
                user,
                role
            },
            Change::PutTeamMember {
                organisation,
                team: DEVELOPERS,
                user
            },
        ]?),
    }
}
