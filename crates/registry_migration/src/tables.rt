//! The tables that an older schema lacks.

ghost use Rattle.std.specs.Prelude.{OnOk};
ghost use Rattle.sqlite.specs.State.{HasCleanDisk};
ghost use Rattle.registry_rows.specs.Frames.{Stays};
ghost use Rattle.registry_rows.specs.Ready.{Leaves, Ready};
ghost use Rattle.registry_tables.specs.Contents.{contents};
ghost use Rattle.registry_tables.specs.Effects.{shown};
ghost use Rattle.registry_tables.specs.Fresh.{schema_after};
ghost use Rattle.registry_tables.specs.Schema.{schema, schema_2};
ghost use Rattle.registry_migration.specs.Older.{contents_1, contents_2, contents_of, schema_1, schema_of};

use crate::older::Older;
use registry_names::Fault;
use registry_rows::write;
use registry_tables::TABLES;
use sqlite::{Alter, Transaction};

/// Makes the tables that the older schema lacks, with no row.
pub(crate) fn add_tables<S: Alter>(tx: &mut Transaction<'_, S>, older: Older) -> Result<(), Fault>
    requires older { Ready (schema_of older) (shown S.Store tx.old) }
    ensures stays { Stays S.Store tx.old tx.new }
    ensures made { HasCleanDisk (shown S.Store tx.new) → OnOk result
        (Leaves schema contents (contents_of older (shown S.Store tx.old).now.trees)
        (shown S.Store tx.new)) }
{
    match older {
        Older::First => {
            add_archives(tx)?;
            add_ranges(tx)
        }
        Older::Second => add_ranges(tx),
    }
}

// Makes what schema 2 has and schema 1 lacks: the tables of archives, and their index.
fn add_archives<S: Alter>(tx: &mut Transaction<'_, S>) -> Result<(), Fault>
    requires first { Ready schema_1 (shown S.Store tx.old) }
    ensures stays { Stays S.Store tx.old tx.new }
    ensures made { HasCleanDisk (shown S.Store tx.new) → OnOk result
        (Leaves schema_2 contents_2 (contents_1 (shown S.Store tx.old).now.trees)
        (shown S.Store tx.new)) }
{
    write(tx, TABLES[14], &[])?;
    write(tx, TABLES[15], &[])?;
    write(tx, TABLES[16], &[])
}

// Makes what schema 3 has and schema 2 lacks: the table of needs with their ranges, its index, and
// the indexes on tables that schema 2 has too.
fn add_ranges<S: Alter>(tx: &mut Transaction<'_, S>) -> Result<(), Fault>
    requires second { Ready schema_2 (shown S.Store tx.old) }
    ensures stays { Stays S.Store tx.old tx.new }
    ensures made { HasCleanDisk (shown S.Store tx.new) → OnOk result
        (Leaves schema contents (contents_2 (shown S.Store tx.old).now.trees)
        (shown S.Store tx.new)) }
{
    write(tx, TABLES[17], &[])?;
    write(tx, TABLES[18], &[])?;
    write(tx, TABLES[19], &[])?;
    add_user_indexes(tx)
}

// Makes the indexes by which the tokens, the organisations, the teams and the packages of a user are
// found.
fn add_user_indexes<S: Alter>(tx: &mut Transaction<'_, S>) -> Result<(), Fault>
    requires lacking { Ready (schema_after 20) (shown S.Store tx.old) }
    ensures stays { Stays S.Store tx.old tx.new }
    ensures made { HasCleanDisk (shown S.Store tx.new) → OnOk result
        (Leaves schema contents (contents (shown S.Store tx.old).now.trees)
        (shown S.Store tx.new)) }
{
    write(tx, TABLES[20], &[])?;
    write(tx, TABLES[21], &[])?;
    write(tx, TABLES[22], &[])?;
    write(tx, TABLES[23], &[])
}
