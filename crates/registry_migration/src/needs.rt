//! What versions depend on: with the ranges, as their manifests have it.

ghost use Rattle.std.specs.Prelude.{◌≡◌, ℕ, List, IfOk, OnOk, Some, map, option_map, slice_get};
ghost use Rattle.sqlite.specs.State.{HasCleanDisk};
ghost use Rattle.registry_names.specs.Maps.{at, empty, entries, keys};
ghost use Rattle.registry_publish.specs.Needs as spec;
ghost use Rattle.registry_rows.specs.Frames.{Stays};
ghost use Rattle.registry_rows.specs.TextKeys.{Texts};
ghost use Rattle.registry_tables.specs.Effects.{InForm, IsUnderWay, Loads, Makes, shown, stored_in};
ghost use Rattle.registry_tables.specs.Inside.{IsOpen};
ghost use Rattle.registry_tables.specs.Teams.{text_spelled};
ghost use Rattle.registry_migration.specs.Steps.{HasNoRanges, PutsNeeds, PutsNeedsOf, Turns, target_key, target_spelled, version_key, without_target, without_targets};

use crate::versions::{VersionKey, load_versions};
use registry_names::{Fault, Stop, Text};
use registry_publish::{Need, needs_of};
use registry_rows::{RowKind, read, value_of_first_row, values_of_rows, write};
use registry_tables::put_needs;
use sqlite::{Alter, Error, Row, Transaction, params};
use std::alloc::Global;

/// Stores what all live versions depend on, and deletes what was stored of that without ranges.
/// `Database` is returned for a manifest whose needs can't be read.
pub(crate) fn put_ranges<S: Alter>(alloc: Global, tx: &mut Transaction<'_, S>) -> Result<(), Fault>
    requires under_way { IsUnderWay S.Store tx.old }
    requires none { HasCleanDisk (shown S.Store tx.old)
        → HasNoRanges (stored_in S.Store tx.old) }
    ensures stays { Stays S.Store tx.old tx.new }
    ensures put { Turns S.Store tx.old tx.new result PutsNeeds }
{
    let versions = load_versions(alloc, tx)?;
    put_each(alloc, tx, &versions)
}

// Stores the needs of these versions, which are all that live.
fn put_each<S: Alter>(
    alloc: Global,
    tx: &mut Transaction<'_, S>,
    versions: &[VersionKey],
) -> Result<(), Fault>
    requires under_way { IsUnderWay S.Store tx.old }
    requires all { HasCleanDisk (shown S.Store tx.old)
        → map version_key versions.now ≡ keys (entries (stored_in S.Store tx.old).versions) }
    requires none { HasCleanDisk (shown S.Store tx.old)
        → HasNoRanges (stored_in S.Store tx.old) }
    ensures stays { Stays S.Store tx.old tx.new }
    ensures put { Turns S.Store tx.old tx.new result PutsNeeds }
{
    for version in versions {
        put_ranges_of(alloc, tx, version)?;
    }
    Ok(())
}

// Stores the needs of a version, and deletes their targets that were stored without ranges.
fn put_ranges_of<S: Alter>(
    alloc: Global,
    tx: &mut Transaction<'_, S>,
    version: &VersionKey,
) -> Result<(), Fault>
    requires under_way { IsUnderWay S.Store tx.old }
    ensures stays { Stays S.Store tx.old tx.new }
    ensures put { Turns S.Store tx.old tx.new result (PutsNeedsOf (version_key version.now)) }
{
    let manifest = load_manifest(tx, version)?;
    let needs = needs_in(alloc, manifest.as_str())?;
    put_needs(
        tx,
        version.package.as_str(),
        version.version.as_str(),
        &needs,
    )?;
    drop_targets_of(tx, version, &needs)
}

// The manifest of a version. Where it has no row that is a fault.
fn load_manifest<S: Alter>(tx: &mut Transaction<'_, S>, version: &VersionKey) -> Result<Text, Fault>
    requires in_form { InForm S.Store tx.old }
    ensures stays { Stays S.Store tx.old tx.new }
    ensures loads { Loads S.Store tx.old tx.new result (λ manifest c.
        option_map (λ r. r.manifest) (at c.versions (version_key version.now)) ≡ Some manifest) }
    ensures ran { OnOk result (IsOpen S.Store tx.new) }
{
    let rows = read(
        tx,
        "SELECT manifest FROM versions WHERE package = ?1 AND version = ?2",
        params![version.package.as_str(), version.version.as_str()],
    )?;
    first_manifest(&rows)
}

fn first_manifest(rows: &[Row]) -> Result<Text, Fault>
    ensures { IfOk result (λ manifest.
        option_map text_spelled (slice_get rows.now 0) ≡ Some manifest) }
{
    match value_of_first_row::<ManifestRow>(rows)? {
        Some(manifest) => Ok(manifest),
        None => Err(Fault::Database),
    }
}

// The needs of a manifest. `Database` is returned where they can't be read.
fn needs_in(alloc: Global, manifest: &str) -> Result<Vec<Need>, Fault>
    ensures { IfOk result (λ needs. spec.needs_of manifest.now ≡ Some needs.items) }
{
    match needs_of(alloc, manifest) {
        Ok(needs) => Ok(needs),
        Err(Stop::Fault(fault)) => Err(fault),
        Err(Stop::Refused(_)) => Err(Fault::Database),
    }
}

// Deletes the targets of these needs of a version, where they are stored without ranges.
fn drop_targets_of<S: Alter>(
    tx: &mut Transaction<'_, S>,
    version: &VersionKey,
    needs: &[Need],
) -> Result<(), Fault>
    requires under_way { IsUnderWay S.Store tx.old }
    ensures stays { Stays S.Store tx.old tx.new }
    ensures makes { Makes S.Store tx.old tx.new result
        (λ c. record c { needs = without_targets c.needs (version_key version.now) needs.now }) }
{
    for need in needs {
        drop_target(
            tx,
            version.package.as_str(),
            version.version.as_str(),
            need.target.as_str(),
        )?;
    }
    Ok(())
}

/// Deletes what needs without ranges there are. Where a registry wrote them, they went with those of
/// their versions, so that the list of them takes no memory.
pub(crate) fn drop_targets<S: Alter>(
    alloc: Global,
    tx: &mut Transaction<'_, S>,
) -> Result<(), Fault>
    requires under_way { IsUnderWay S.Store tx.old }
    ensures stays { Stays S.Store tx.old tx.new }
    ensures makes { Makes S.Store tx.old tx.new result (λ c. record c { needs = empty }) }
{
    let targets = load_targets(alloc, tx)?;
    drop_each(tx, &targets)
}

fn load_targets<S: Alter>(
    alloc: Global,
    tx: &mut Transaction<'_, S>,
) -> Result<Vec<TargetKey>, Fault>
    requires in_form { InForm S.Store tx.old }
    ensures stays { Stays S.Store tx.old tx.new }
    ensures loads { Loads S.Store tx.old tx.new result
        (λ targets c. map target_key targets.items ≡ keys (entries c.needs)) }
{
    let rows = read(
        tx,
        "SELECT package, version, target FROM needs ORDER BY package, version, target",
        &[],
    )?;
    values_of_rows::<TargetKey>(alloc, &rows)
}

// Deletes these needs, which are all.
fn drop_each<S: Alter>(tx: &mut Transaction<'_, S>, targets: &[TargetKey]) -> Result<(), Fault>
    requires under_way { IsUnderWay S.Store tx.old }
    requires all { HasCleanDisk (shown S.Store tx.old)
        → map target_key targets.now ≡ keys (entries (stored_in S.Store tx.old).needs) }
    ensures stays { Stays S.Store tx.old tx.new }
    ensures makes { Makes S.Store tx.old tx.new result (λ c. record c { needs = empty }) }
{
    for target in targets {
        drop_target(
            tx,
            target.package.as_str(),
            target.version.as_str(),
            target.target.as_str(),
        )?;
    }
    Ok(())
}

fn drop_target<S: Alter>(
    tx: &mut Transaction<'_, S>,
    name: &str,
    version: &str,
    target: &str,
) -> Result<(), Fault>
    requires in_form { InForm S.Store tx.old }
    ensures stays { Stays S.Store tx.old tx.new }
    ensures makes { Makes S.Store tx.old tx.new result
        (λ c. record c { needs = without_target c.needs name.now version.now target.now }) }
{
    write(
        tx,
        "DELETE FROM needs WHERE package = ?1 AND version = ?2 AND target = ?3",
        params![name, version, target],
    )
}

// A need without its range.
#[derive(Drop)]
struct TargetKey {
    package: Text,
    version: Text,
    target: Text,
}

impl RowKind for TargetKey {
    type Value = TargetKey;

    ghost Seen = { Texts 2 };

    ghost seen = { target_key };

    ghost spelled = { target_spelled };

    fn read(row: &Row) -> Result<TargetKey, Error> {
        let package: String = row.get(0)?;
        let version: String = row.get(1)?;
        let target: String = row.get(2)?;
        Ok(TargetKey {
            package: Text::from(package),
            version: Text::from(version),
            target: Text::from(target),
        })
    }
}

// A manifest alone.
struct ManifestRow;

impl RowKind for ManifestRow {
    type Value = Text;

    ghost Seen = { List ℕ };

    ghost seen = { λ manifest. manifest };

    ghost spelled = { text_spelled };

    fn read(row: &Row) -> Result<Text, Error> {
        let manifest: String = row.get(0)?;
        Ok(Text::from(manifest))
    }
}
