//! The dependencies of a manifest.

ghost use Rattle.std.specs.Prelude.{◌≡◌, ◌⊎◌, ◌++◌, ◌∷◌, [], None, Some, IfOk, IfErr, OnOk, MatchResult};
ghost use Rattle.serde_json.specs.View.{view, members_view};
ghost use Rattle.registry_publish.specs.Needs as spec;
ghost use Rattle.registry_publish.specs.Needs.{AddsNeeds, need, needs_at, needs_of_members};
ghost use Rattle.registry_publish.specs.Stops.{StopsReading};

use crate::json::{BAD_BODY, document};
use crate::need::Need;
use registry_names::{Fault, Refusal, Stop, Text};
use serde_json::{Map, Value};
use std::alloc::{AllocError, Global};

fn push_need(
    alloc: Global,
    needs: &mut Vec<Need>,
    target: &str,
    range: &str,
) -> Result<(), AllocError>
    ensures { OnOk result (needs.new.items ≡ needs.old.items ++ need target.now range.now ∷ []) }
{
    let need = Need {
        target: Text::from_str(alloc, target)?,
        range: Text::from_str(alloc, range)?,
    };
    needs.push(need)?;
    Ok(())
}

fn push_members(
    alloc: Global,
    needs: &mut Vec<Need>,
    members: &Map<String, Value>,
) -> Result<(), Stop>
    ensures ok { OnOk result (AddsNeeds (needs_of_members (members_view members.now.entries))
        needs.old.items needs.new.items) }
    ensures err { IfErr result (StopsReading
        (needs_of_members (members_view members.now.entries) ≡ None)) }
{
    for (target, range) in members.iter() {
        let Some(text) = range.as_str() else {
            return Err(BAD_BODY);
        };
        push_need(alloc, needs, target.as_str(), text)?;
    }
    Ok(())
}

fn push_needs_at(
    alloc: Global,
    needs: &mut Vec<Need>,
    manifest: &Value,
    key: &str,
) -> Result<(), Stop>
    ensures ok { OnOk result (AddsNeeds (needs_at key.now (view manifest.now))
        needs.old.items needs.new.items) }
    ensures err { IfErr result (StopsReading (needs_at key.now (view manifest.now) ≡ None)) }
{
    let Some(member) = manifest.get(key) else {
        return Ok(());
    };
    match member.as_object() {
        Some(members) => push_members(alloc, needs, members),
        None => Err(BAD_BODY),
    }
}

// What the manifest depends on, by its three members.
pub(crate) fn needs_in(alloc: Global, manifest: &Value) -> Result<Vec<Need>, Stop>
    ensures { MatchResult result
        (λ needs. spec.needs_in (view manifest.now) ≡ Some needs.items)
        (StopsReading (spec.needs_in (view manifest.now) ≡ None)) }
{
    if !manifest.is_object() {
        return Err(BAD_BODY);
    }
    let mut needs = Vec::new(alloc);
    push_needs_at(alloc, &mut needs, manifest, "dependencies")?;
    push_needs_at(alloc, &mut needs, manifest, "optionalDependencies")?;
    push_needs_at(alloc, &mut needs, manifest, "peerDependencies")?;
    Ok(needs)
}

/// Reads what a version depends on from the text of its manifest: the keys and values of its
/// members `dependencies`, `optionalDependencies` and `peerDependencies`, in this order, those of
/// each in byte order of the keys.
///
/// `BadBody` is returned only for a text that isn't JSON of an object in which each of the three is
/// absent or an object of texts, and `Memory` when no memory is left. Nothing else is asked of the
/// manifest, and no other fault is returned.
pub fn needs_of(alloc: Global, manifest: &str) -> Result<Vec<Need>, Stop>
    ensures ok { IfOk result (λ needs. spec.needs_of manifest.now ≡ Some needs.items) }
    ensures err { IfErr result (λ e. (e ≡ Stop.Fault Fault.Memory)
        ⊎ ((e ≡ Stop.Refused Refusal.BadBody) × (spec.needs_of manifest.now ≡ None))) }
{
    let value = document(alloc, manifest.as_bytes())?;
    needs_in(alloc, &value)
}
