//! The older schemas.

ghost use Rattle.std.specs.Prelude.{◌≡◌, ◌<◌, ◌≤◌, ◌↔◌, false, length, map, IfOk, IsTrue, OnOk};
ghost use Rattle.sqlite.specs.Held.{state};
ghost use Rattle.sqlite.specs.State.{HasCleanDisk};
ghost use Rattle.sqlite.specs.Steps.{IsEmpty};
ghost use Rattle.registry_rows.specs.Frames.{Stays};
ghost use Rattle.registry_tables.specs.Creation.{creation};
ghost use Rattle.registry_tables.specs.Effects.{HasNoTables};
ghost use Rattle.registry_tables.specs.Fresh.{HasMade};
ghost use Rattle.registry_migration.specs.Older.{number_of, schema_of, text_count};

use crate::same::is_same_schema;
use registry_names::Fault;
use registry_rows::{commit, write};
use registry_tables::TABLES;
use sqlite::{Alter, Connection, Transaction};
use sqlite_schema::schema::Schema;
use std::alloc::Global;

/// A schema that registries had before the present one.
#[derive(Clone, Copy, Debug, PartialEq, Eq)]
pub enum Older {
    /// Schema 1: fourteen tables. An archive is in the row of its version.
    First,
    /// Schema 2: archives have a table of their own. Only the target of a need is known.
    Second,
}

impl Older {
    /// The number of the schema.
    pub fn number(self) -> u32
        ensures { result ≡ number_of self }
    {
        match self {
            Older::First => 1,
            Older::Second => 2,
        }
    }
}

/// Which of the older schemas this one is, or `None` where it isn't one of them. It is compared
/// with what the first 14 or 17 of the texts make in memory. A registry asks this only where the
/// tables aren't today's.
pub fn older_schema(alloc: Global, schema: &Schema) -> Result<Option<Older>, Fault>
    ensures { IfOk result (λ found. (older : Older)
        → (found ≡ Some older) ↔ (schema.now ≡ schema_of older)) }
{
    if is_schema_of(alloc, Older::First, schema)? {
        return Ok(Some(Older::First));
    }
    if is_schema_of(alloc, Older::Second, schema)? {
        return Ok(Some(Older::Second));
    }
    Ok(None)
}

fn is_schema_of(alloc: Global, older: Older, schema: &Schema) -> Result<bool, Fault>
    ensures { IfOk result (λ is. IsTrue is ↔ (schema.now ≡ schema_of older)) }
{
    let Ok(mut conn) = Connection::open_in_memory(alloc) else {
        return Err(Fault::Memory);
    };
    make_tables(&mut conn, older)?;
    Ok(is_same_schema(conn.schema(), schema))
}

// Makes the tables of the older schema in a database that has none.
fn make_tables<S: Alter>(conn: &mut Connection<S>, older: Older) -> Result<(), Fault>
    requires idle { conn.old.in_transaction ≡ false }
    requires empty { HasCleanDisk (state S.Store conn.old) → IsEmpty (state S.Store conn.old) }
    ensures { HasCleanDisk (state S.Store conn.new)
        → OnOk result ((state S.Store conn.new).now.schema ≡ schema_of older) }
{
    let mut tx = conn.transaction();
    make_first(&mut tx, &TABLES, count_of(older))?;
    commit(tx)
}

// How many of the texts that make the tables are those of the older schema.
fn count_of(older: Older) -> usize
    ensures { result ≡ text_count older }
{
    match older {
        Older::First => 14,
        Older::Second => 17,
    }
}

// Runs this many of the first texts that make the tables.
fn make_first<S: Alter>(
    tx: &mut Transaction<'_, S>,
    texts: &[&str],
    count: usize,
) -> Result<(), Fault>
    requires texts { map (λ text. text.now) texts.now ≡ creation }
    requires some { 0 < count }
    requires few { count ≤ length creation }
    requires none { HasNoTables S.Store tx.old }
    ensures stays { Stays S.Store tx.old tx.new }
    ensures made { OnOk result (HasMade S.Store count tx.new) }
{
    for at in 0..count {
        write(tx, texts[at], &[])?;
    }
    Ok(())
}
