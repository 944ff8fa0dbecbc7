//! The number of the schema.

ghost use Rattle.std.specs.Prelude.{◌≡◌, IsSome, OnOk, Some, pos};
ghost use Rattle.sqlite.specs.State.{HasCleanDisk};
ghost use Rattle.registry_names.specs.Maps.{at};
ghost use Rattle.registry_rows.specs.Frames.{Stays};
ghost use Rattle.registry_rows.specs.Ready.{Reads};
ghost use Rattle.registry_tables.specs.Effects.{GoesOn, InForm, Makes, OnlyWhere, shown, stored_in};
ghost use Rattle.registry_tables.specs.Fresh.{CountsArchivesAlone, schema_key, schema_number, with_number};
ghost use Rattle.registry_tables.specs.Schema.{schema};
ghost use Rattle.registry_migration.specs.Older.{number_of};

use crate::older::Older;
use registry_names::Fault;
use registry_rows::write;
use registry_tables::{counts_archives_alone, opened};
use sqlite::{Alter, Transaction, params};

/// The number of the schema that a migration makes.
const SCHEMA: i64 = 3;

/// `Database` is returned for another number than that of the older schema, and for a counter
/// besides that of the archives.
pub(crate) fn check_number<S: Alter>(tx: &mut Transaction<'_, S>, older: Older) -> Result<(), Fault>
    requires in_form { InForm S.Store tx.old }
    requires going { HasCleanDisk (shown S.Store tx.old) → GoesOn S.Store tx.old }
    ensures stays { Stays S.Store tx.old tx.new }
    ensures reads { HasCleanDisk (shown S.Store tx.new)
        → OnOk result (Reads schema (shown S.Store tx.old) (shown S.Store tx.new)) }
    ensures numbered { OnlyWhere S.Store tx.old tx.new result
        (λ c. at c.meta schema_key ≡ Some (pos (number_of older))) }
    ensures counted { OnlyWhere S.Store tx.old tx.new result CountsArchivesAlone }
{
    if opened(tx)? != Some(older.number()) {
        return Err(Fault::Database);
    }
    if !counts_archives_alone(tx)? {
        return Err(Fault::Database);
    }
    Ok(())
}

/// Gives the schema its new number. It has one.
pub(crate) fn put_number<S: Alter>(tx: &mut Transaction<'_, S>) -> Result<(), Fault>
    requires in_form { InForm S.Store tx.old }
    requires numbered { HasCleanDisk (shown S.Store tx.old)
        → IsSome (at (stored_in S.Store tx.old).meta schema_key) }
    ensures stays { Stays S.Store tx.old tx.new }
    ensures makes { Makes S.Store tx.old tx.new result (λ c. with_number c schema_number) }
{
    write(
        tx,
        "UPDATE meta SET value = ?2 WHERE name = ?1",
        params!["schema", SCHEMA],
    )
}
