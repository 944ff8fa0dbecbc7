//! The decision on users and tokens.

ghost use Rattle.std.specs.Prelude.{◌≡◌, map, not, IfOk};
ghost use Rattle.registry_names.specs.declared.refusal.Refusal.TheVariants as refusal;
ghost use Rattle.registry_rules.specs.Changes.{change_of};
ghost use Rattle.registry_rules.specs.Effects as effects;
ghost use Rattle.registry_rules.specs.Refusals as spec;

use crate::change::{Change, Changes};
use registry_names::Refusal;
use registry_publish::TokenDigest;
use std::alloc::{AllocError, Global};

/// Why something can't be added, if it can't: it is there already.
pub(crate) fn unless_new(exists: bool) -> Option<Refusal>
    ensures { result ≡ spec.unless_new exists }
{
    if exists { Some(Refusal::Exists) } else { None }
}

/// Why something of a user can't be added, if it can't: the user isn't there, or it is there
/// already.
pub(crate) fn added_to_refusal(user_exists: bool, exists: bool) -> Option<Refusal>
    ensures { result ≡ spec.refuse (not user_exists) refusal.NotFound (spec.unless_new exists) }
{
    if user_exists {
        unless_new(exists)
    } else {
        Some(Refusal::NotFound)
    }
}

/// Each of these tokens ends.
pub(crate) fn all_ended<'a>(
    alloc: Global,
    digests: &'a [TokenDigest],
) -> Result<Changes<'a>, AllocError>
    ensures { IfOk result (λ changes. map change_of changes.items ≡ effects.ending digests.now) }
{
    let mut changes = Vec::new(alloc);
    for digest in digests {
        changes.push(Change::DropToken { digest })?;
    }
    Ok(changes)
}
