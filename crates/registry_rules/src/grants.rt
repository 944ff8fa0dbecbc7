//! The decision on grants and on maintainers.

ghost use Rattle.std.specs.Prelude.{◌≡◌, not, ◌&&◌, is_none, option_map, IfOk, map, None, Some};
ghost use Rattle.registry_names.specs.Names.{scope_of};
ghost use Rattle.registry_names.specs.Texts as texts;
ghost use Rattle.registry_names.specs.declared.refusal.Refusal.TheVariants as refusal;
ghost use Rattle.registry_rules.specs.Changes.{change_of};
ghost use Rattle.registry_rules.specs.Effects as effects;
ghost use Rattle.registry_rules.specs.Refusals as spec;

use crate::change::{Change, Changes};
use crate::organisations::DEVELOPERS;
use registry_access::{Caller, Grant};
use registry_names::{Ident, Name, Refusal, Status};
use std::alloc::{AllocError, Global};

#[tactic(auto, unfolding(registry_names::specs::Texts::is))]
fn is(scope: &str, organisation: &str) -> bool
    ensures { result ≡ texts.is scope.now organisation.now }
{
    scope == organisation
}

// Whether the package is of the organisation's scope.
fn is_scope(organisation: &Ident, name: &Name) -> bool
    ensures { result ≡ spec.is_scope organisation.now (scope_of name.now) }
{
    match name.scope() {
        Some(scope) => is(scope, organisation.text()),
        None => false,
    }
}

/// Why a grant is refused, if it is: the team isn't there; the package is of the team's scope and
/// was never published; or the package is of another scope, and then nothing more is said of it.
pub(crate) fn grant_refusal(
    team_exists: bool,
    is_published: bool,
    organisation: &Ident,
    name: &Name,
) -> Option<Refusal>
    ensures { result ≡ spec.grant_refusal team_exists is_published organisation.now name.now }
{
    let is_scope = is_scope(organisation, name);
    if !team_exists || (is_scope && !is_published) {
        return Some(Refusal::NotFound);
    }
    if !is_scope {
        return Some(Refusal::OtherScope);
    }
    None
}

/// Whether the package has no scope and would be restricted.
pub(crate) fn is_closed(status: Option<Status>, name: &Name) -> bool
    ensures { result ≡ (spec.is_restricted status && is_none (scope_of name.now)) }
{
    status == Some(Status::Restricted) && name.scope().is_none()
}

/// A package without a scope is never restricted.
pub(crate) fn status_refusal(status: Option<Status>, name: &Name) -> Option<Refusal>
    ensures { result ≡ spec.refuse (spec.is_restricted status && is_none (scope_of name.now))
        refusal.AlwaysPublic None }
{
    if is_closed(status, name) {
        return Some(Refusal::AlwaysPublic);
    }
    None
}

/// Why a maintainer can't be removed, if they can't: the user isn't one, or is the last one.
pub(crate) fn owner_remove_refusal(is_maintainer: bool, other_maintainer: bool) -> Option<Refusal>
    ensures { result ≡ spec.refuse (not is_maintainer) refusal.NotFound
        (spec.refuse (not other_maintainer) refusal.LastOwner None) }
{
    if !is_maintainer {
        return Some(Refusal::NotFound);
    }
    if !other_maintainer {
        return Some(Refusal::LastOwner);
    }
    None
}

/// Makes the user a maintainer. Where they are one already, nothing changes.
pub(crate) fn maintaining<'a>(
    alloc: Global,
    name: &'a Name,
    user: &'a Ident,
    is_maintainer: bool,
) -> Result<Changes<'a>, AllocError>
    ensures { IfOk result (λ changes. map change_of changes.items
        ≡ effects.maintaining name.now user.now is_maintainer) }
{
    if is_maintainer {
        return Ok(Vec::new(alloc));
    }
    Ok(vec![in alloc;
        Change::PutOwner {
            package: name,
            user
        },
    ]?)
}

/// The right to a package that is published for the first time: the first team of its scope reads
/// and writes it; without a scope its publisher maintains it.
pub(crate) fn first_right<'a>(
    caller: &'a Caller,
    name: &'a Name,
    old: Option<Status>,
) -> Option<Change<'a>>
    ensures { option_map change_of result ≡ effects.first_right caller.now name.now old }
{
    if old.is_some() {
        return None;
    }
    match (name.scope(), caller) {
        (Some(organisation), _) => Some(Change::PutGrant {
            organisation,
            team: DEVELOPERS,
            package: name,
            grant: Grant::ReadWrite,
        }),
        (None, Caller::User(user)) => Some(Change::PutOwner {
            package: name,
            user,
        }),
        (None, Caller::Operator | Caller::Anonymous) => None,
    }
}
