//! The table `sqlite_sequence`, in which SQLite counts the numbers of archives.

ghost use Rattle.std.specs.Prelude.{◌≡◌, ◌==◌, IfOk, length};
ghost use Rattle.registry_tables.specs.Inside.{Finds};
ghost use Rattle.registry_tables.specs.Opening.{is_name_of_archives, name_archives_alone};

use crate::queries::query;
use registry_names::Fault;
use sqlite::types::ValueRef;
use sqlite::{Alter, Row, Transaction};

/// Whether SQLite counts for the archives alone, as in tables that we made: no other row is there.
/// `Database` is returned for another row whose name isn't a text.
pub fn counts_archives_alone<S: Alter>(tx: &mut Transaction<'_, S>) -> Result<bool, Fault>
    ensures { Finds S.Store tx.old tx.new result (λ alone c. alone ≡ (length c.counters == 0)) }
{
    let rows = query(tx, "SELECT name FROM sqlite_sequence", &[])?;
    name_archives(&rows)
}

// Whether there are no rows, or only the name of the archives.
fn name_archives(rows: &[Row]) -> Result<bool, Fault>
    ensures { IfOk result (λ alone. alone ≡ name_archives_alone rows.now) }
{
    match rows {
        [] => Ok(true),
        [row] => names_archives(row),
        _ => Ok(false),
    }
}

fn names_archives(row: &Row) -> Result<bool, Fault>
    ensures { IfOk result (λ named. named ≡ is_name_of_archives row.now) }
{
    match row.get_ref(0) {
        Ok(ValueRef::Text(name)) => Ok(name == b"archives".as_slice()),
        _ => Err(Fault::Database),
    }
}
