//! The decision on teams.

ghost use Rattle.std.specs.Prelude.{◌≡◌, not, IfOk, map, None};
ghost use Rattle.registry_names.specs.Texts.{is};
ghost use Rattle.registry_names.specs.declared.refusal.Refusal.TheVariants as refusal;
ghost use Rattle.registry_rules.specs.Changes.{change_of};
ghost use Rattle.registry_rules.specs.Effects.{joining};
ghost use Rattle.registry_rules.specs.Refusals as spec;
ghost use Rattle.registry_rules.specs.State.{developers};

use crate::change::{Change, Changes};
use crate::organisations::DEVELOPERS;
use registry_names::{Ident, Refusal};
use std::alloc::{AllocError, Global};

#[tactic(auto, unfolding(registry_names::specs::Texts::is))]
fn is_developers(team: &Ident) -> bool
    ensures { result ≡ is team.now developers }
{
    team.text() == DEVELOPERS
}

/// Why a team can't be destroyed, if it can't: it isn't there, or it is the one that each
/// organisation has.
pub(crate) fn team_destroy_refusal(exists: bool, team: &Ident) -> Option<Refusal>
    ensures { result ≡ spec.refuse (not exists) refusal.NotFound
        (spec.refuse (is team.now developers) refusal.KeepsDevelopers None) }
{
    if !exists {
        return Some(Refusal::NotFound);
    }
    if is_developers(team) {
        return Some(Refusal::KeepsDevelopers);
    }
    None
}

/// A member is in the team. Where they are already, nothing changes.
pub(crate) fn team_joined<'a>(
    alloc: Global,
    organisation: &'a Ident,
    team: &'a Ident,
    user: &'a Ident,
    is_in_team: bool,
) -> Result<Changes<'a>, AllocError>
    ensures { IfOk result (λ changes. map change_of changes.items
        ≡ joining organisation.now team.now user.now is_in_team) }
{
    if is_in_team {
        return Ok(Vec::new(alloc));
    }
    Ok(vec![in alloc;
        Change::PutTeamMember {
            organisation: organisation.text(),
            team: team.text(),
            user,
        },
    ]?)
}
