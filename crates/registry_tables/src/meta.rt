//! The table `meta`: what the tables are.

ghost use Rattle.std.specs.Prelude.{◌≡◌, IfOk, IsSome, None, OnOk, Some, false, option_map, pos, slice_get, true};
ghost use Rattle.sqlite_value.specs.Order.{column};
ghost use Rattle.sqlite.specs.State.{HasCleanDisk, KeepsCommit, Survives};
ghost use Rattle.registry_names.specs.Maps.{at};
ghost use Rattle.registry_rows.specs.Columns.{int_in};
ghost use Rattle.registry_rows.specs.Frames.{Stays};
ghost use Rattle.registry_tables.specs.Effects.{GoesOn, HasNoTables, InForm, Makes, Loads, TellsNone, shown};
ghost use Rattle.registry_tables.specs.Fresh.{schema_key, schema_number, with_number};
ghost use Rattle.registry_tables.specs.Opening.{Lists, Opened, PutsNumber, ShowsNumber};

use registry_names::Fault;
use registry_rows::{fault_of, read, write};
use sqlite::{Alter, Row, Transaction, params};

/// The number of the schema, which a change of the tables raises.
const SCHEMA: i64 = 3;

/// The number of the schema of the tables that are there, or `None` where the database has no
/// table.
///
/// `Database` is returned for a database that has tables and no number of a schema.
pub fn opened<S: Alter>(tx: &mut Transaction<'_, S>) -> Result<Option<u32>, Fault>
    ensures same_reference { tx.new.conn.ghost_name ≡ tx.old.conn.ghost_name }
    ensures committed { GoesOn S.Store tx.old → HasCleanDisk (shown S.Store tx.new)
        → KeepsCommit (shown S.Store tx.old) (shown S.Store tx.new) }
    ensures survives { Survives (shown S.Store tx.old) (shown S.Store tx.new) (λ _. ⊥) }
    ensures opened { IfOk result (λ number. Opened S.Store number tx.old tx.new) }
    ensures ours { InForm S.Store tx.old → Loads S.Store tx.old tx.new result
        (λ number c. IsSome number
        × (option_map (λ n. pos n) number ≡ at c.meta schema_key)) }
    ensures none { HasNoTables S.Store tx.old → TellsNone S.Store tx.old tx.new result
        (λ number. number ≡ None) }
{
    if lacks_tables(tx)? {
        return Ok(None);
    }
    Ok(Some(load_schema(tx)?))
}

fn lacks_tables<S: Alter>(tx: &mut Transaction<'_, S>) -> Result<bool, Fault>
    ensures same_reference { tx.new.conn.ghost_name ≡ tx.old.conn.ghost_name }
    ensures committed { GoesOn S.Store tx.old → HasCleanDisk (shown S.Store tx.new)
        → KeepsCommit (shown S.Store tx.old) (shown S.Store tx.new) }
    ensures survives { Survives (shown S.Store tx.old) (shown S.Store tx.new) (λ _. ⊥) }
    ensures lists { IfOk result (λ lacks. Lists S.Store lacks tx.old tx.new) }
    ensures ours { InForm S.Store tx.old → Loads S.Store tx.old tx.new result
        (λ lacks c. lacks ≡ false) }
    ensures none { HasNoTables S.Store tx.old → TellsNone S.Store tx.old tx.new result
        (λ lacks. lacks ≡ true) }
    ensures going { GoesOn S.Store tx.old → HasCleanDisk (shown S.Store tx.new)
        → OnOk result (GoesOn S.Store tx.new) }
{
    let objects = read(tx, "SELECT name FROM sqlite_schema", &[])?;
    Ok(objects.is_empty())
}

fn load_schema<S: Alter>(tx: &mut Transaction<'_, S>) -> Result<u32, Fault>
    ensures same_reference { tx.new.conn.ghost_name ≡ tx.old.conn.ghost_name }
    ensures committed { GoesOn S.Store tx.old → HasCleanDisk (shown S.Store tx.new)
        → KeepsCommit (shown S.Store tx.old) (shown S.Store tx.new) }
    ensures survives { Survives (shown S.Store tx.old) (shown S.Store tx.new) (λ _. ⊥) }
    ensures shows { IfOk result (λ number. ShowsNumber S.Store number tx.old tx.new) }
    ensures ours { InForm S.Store tx.old → Loads S.Store tx.old tx.new result
        (λ number c. at c.meta schema_key ≡ Some (pos number)) }
{
    let rows = read(
        tx,
        "SELECT value FROM meta WHERE name = ?1",
        params!["schema"],
    )?;
    first_number(&rows)
}

fn first_number(rows: &[Row]) -> Result<u32, Fault>
    ensures { IfOk result (λ number.
        option_map (λ r. int_in (column r 0)) (slice_get rows.now 0) ≡ Some (pos number)) }
{
    let Some(row) = rows.first() else {
        return Err(Fault::Database);
    };
    match row.get(0) {
        Ok(number) => Ok(number),
        Err(error) => Err(fault_of(error)),
    }
}

/// Puts the number of the schema.
pub(crate) fn put_schema<S: Alter>(tx: &mut Transaction<'_, S>) -> Result<(), Fault>
    ensures stays { Stays S.Store tx.old tx.new }
    ensures makes { InForm S.Store tx.old → Makes S.Store tx.old tx.new result
        (λ c. with_number c schema_number) }
    ensures puts { OnOk result (PutsNumber S.Store tx.old tx.new) }
{
    write(
        tx,
        "INSERT INTO meta VALUES ('schema', ?1)",
        params![SCHEMA],
    )
}
