//! Archives: each is stored once, and not in the row of a version.

ghost use Rattle.std.specs.Prelude.{◌≡◌, ℕ, List, IfOk, OnOk, Some, map, option_map, slice_get};
ghost use Rattle.sqlite.specs.State.{HasCleanDisk};
ghost use Rattle.registry_names.specs.Maps.{at, entries, keys};
ghost use Rattle.registry_rows.specs.Frames.{Stays};
ghost use Rattle.registry_tables.specs.Effects.{InForm, IsUnderWay, Loads, Makes, shown, stored_in};
ghost use Rattle.registry_tables.specs.Inside.{IsOpen};
ghost use Rattle.registry_tables.specs.Spelled.{blob_of_row};
ghost use Rattle.registry_migration.specs.Moved.{without_bytes};
ghost use Rattle.registry_migration.specs.Steps.{HasNoArchives, HasNoneMoved, Moves, MovesArchive, MovesArchives, Turns, version_key};

use crate::older::Older;
use crate::versions::{VersionKey, load_versions};
use registry_names::{Blob, Fault};
use registry_publish::integrity_of;
use registry_rows::{RowKind, read, value_of_first_row, write};
use registry_tables::{hold_archive, store_archive};
use sqlite::{Alter, Error, Row, Transaction, params};
use std::alloc::Global;

/// Stores each archive once, where the older schema has it in the rows of versions.
pub(crate) fn move_archives<S: Alter>(
    alloc: Global,
    tx: &mut Transaction<'_, S>,
    older: Older,
) -> Result<(), Fault>
    requires under_way { IsUnderWay S.Store tx.old }
    requires none { HasCleanDisk (shown S.Store tx.old)
        → HasNoneMoved older (stored_in S.Store tx.old) }
    ensures stays { Stays S.Store tx.old tx.new }
    ensures moved { Turns S.Store tx.old tx.new result (Moves older) }
{
    match older {
        Older::First => {
            let versions = load_versions(alloc, tx)?;
            move_each(alloc, tx, &versions)
        }
        Older::Second => Ok(()),
    }
}

// Stores the archives of these versions, which are all that live.
fn move_each<S: Alter>(
    alloc: Global,
    tx: &mut Transaction<'_, S>,
    versions: &[VersionKey],
) -> Result<(), Fault>
    requires under_way { IsUnderWay S.Store tx.old }
    requires all { HasCleanDisk (shown S.Store tx.old)
        → map version_key versions.now ≡ keys (entries (stored_in S.Store tx.old).versions) }
    requires none { HasCleanDisk (shown S.Store tx.old)
        → HasNoArchives (stored_in S.Store tx.old) }
    ensures stays { Stays S.Store tx.old tx.new }
    ensures moved { Turns S.Store tx.old tx.new result MovesArchives }
{
    for version in versions {
        move_archive(alloc, tx, version)?;
    }
    Ok(())
}

// Stores the archive of a version, and leaves none in its row.
fn move_archive<S: Alter>(
    alloc: Global,
    tx: &mut Transaction<'_, S>,
    version: &VersionKey,
) -> Result<(), Fault>
    requires under_way { IsUnderWay S.Store tx.old }
    ensures stays { Stays S.Store tx.old tx.new }
    ensures moved { Turns S.Store tx.old tx.new result (MovesArchive (version_key version.now)) }
{
    let archive = load_row_archive(tx, version)?;
    let integrity = integrity_of(alloc, archive.as_slice())?;
    let number = store_archive(tx, integrity.as_str(), archive.as_slice())?;
    hold_archive(
        tx,
        version.package.as_str(),
        version.version.as_str(),
        number,
    )?;
    clear_row_archive(tx, version)
}

// The archive in the row of a version. Where it has no row that is a fault.
fn load_row_archive<S: Alter>(
    tx: &mut Transaction<'_, S>,
    version: &VersionKey,
) -> Result<Blob, Fault>
    requires in_form { InForm S.Store tx.old }
    ensures stays { Stays S.Store tx.old tx.new }
    ensures loads { Loads S.Store tx.old tx.new result (λ archive c.
        option_map (λ r. r.archive) (at c.versions (version_key version.now)) ≡ Some archive) }
    ensures ran { OnOk result (IsOpen S.Store tx.new) }
{
    let rows = read(
        tx,
        "SELECT archive FROM versions WHERE package = ?1 AND version = ?2",
        params![version.package.as_str(), version.version.as_str()],
    )?;
    first_archive(&rows)
}

fn first_archive(rows: &[Row]) -> Result<Blob, Fault>
    ensures { IfOk result (λ archive.
        option_map blob_of_row (slice_get rows.now 0) ≡ Some archive) }
{
    match value_of_first_row::<ArchiveRow>(rows)? {
        Some(archive) => Ok(archive),
        None => Err(Fault::Database),
    }
}

fn clear_row_archive<S: Alter>(
    tx: &mut Transaction<'_, S>,
    version: &VersionKey,
) -> Result<(), Fault>
    requires in_form { InForm S.Store tx.old }
    ensures stays { Stays S.Store tx.old tx.new }
    ensures makes { Makes S.Store tx.old tx.new result (λ c. record c
        { versions = without_bytes c.versions (version_key version.now) }) }
{
    let none: &[u8] = &[];
    write(
        tx,
        "UPDATE versions SET archive = ?3 WHERE package = ?1 AND version = ?2",
        params![version.package.as_str(), version.version.as_str(), none],
    )
}

// An archive alone.
struct ArchiveRow;

impl RowKind for ArchiveRow {
    type Value = Blob;

    ghost Seen = { List ℕ };

    ghost seen = { λ archive. archive };

    ghost spelled = { blob_of_row };

    fn read(row: &Row) -> Result<Blob, Error> {
        let archive: Vec<u8> = row.get(0)?;
        Ok(Blob::from(archive))
    }
}
