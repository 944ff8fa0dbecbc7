//! A migration, step by step.

ghost use Rattle.std.specs.Prelude.{IsTrue, OnOk};
ghost use Rattle.sqlite.specs.State.{HasCleanDisk};
ghost use Rattle.registry_rows.specs.Frames.{Stays};
ghost use Rattle.registry_rows.specs.Ready.{Leaves, Ready};
ghost use Rattle.registry_tables.specs.Contents.{contents};
ghost use Rattle.registry_tables.specs.Effects.{shown, stored_in};
ghost use Rattle.registry_tables.specs.Schema.{schema};
ghost use Rattle.registry_migration.specs.Older.{contents_of, schema_of};
ghost use Rattle.registry_migration.specs.Migration.{MayMigrate, Migrates};

use crate::archives::move_archives;
use crate::needs::{drop_targets, put_ranges};
use crate::number::{check_number, put_number};
use crate::older::Older;
use crate::tables::add_tables;
use registry_names::Fault;
use sqlite::{Alter, Transaction};
use std::alloc::Global;

/// Makes a registry of an older schema one of schema 3, with all that it holds.
///
/// It runs in the caller's transaction: where that isn't committed, the registry of the older
/// schema is there as before. So a caller drops the transaction after a fault.
///
/// `Database` is returned where the number in `meta` isn't that of the schema, where the needs of a
/// manifest can't be read, and where SQLite counts for anything but the archives.
pub fn migrate<S: Alter>(
    alloc: Global,
    tx: &mut Transaction<'_, S>,
    older: Older,
) -> Result<(), Fault>
    requires older { Ready (schema_of older) (shown S.Store tx.old) }
    ensures stays { Stays S.Store tx.old tx.new }
    ensures made { HasCleanDisk (shown S.Store tx.new) → OnOk result
        (Leaves schema contents (stored_in S.Store tx.new) (shown S.Store tx.new)) }
    ensures migrates { HasCleanDisk (shown S.Store tx.new) → OnOk result
        (Migrates older (contents_of older (shown S.Store tx.old).now.trees)
        (stored_in S.Store tx.new)) }
    ensures asks { HasCleanDisk (shown S.Store tx.new) → OnOk result
        (MayMigrate older (contents_of older (shown S.Store tx.old).now.trees)) }
    ensures served { HasCleanDisk (shown S.Store tx.new)
        → OnOk result (IsTrue (shown S.Store tx.old).is_open) }
{
    add_tables(tx, older)?;
    check_number(tx, older)?;
    move_archives(alloc, tx, older)?;
    put_ranges(alloc, tx)?;
    drop_targets(alloc, tx)?;
    put_number(tx)
}
