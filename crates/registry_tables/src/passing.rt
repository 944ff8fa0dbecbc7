//! Tests of all rows that a query shows.

ghost use Rattle.std.specs.Prelude.{◌≡◌, Bool, IfOk, []};
ghost use Rattle.std.specs.List.{list_all};
ghost use Rattle.sqlite_value.specs.Order.{Row as Values};
ghost use Rattle.registry_tables.specs.Contents.{Contents};
ghost use Rattle.registry_tables.specs.Effects.{shown};
ghost use Rattle.registry_tables.specs.Inside.{Finds};
ghost use Rattle.registry_tables.specs.Queries.{IsQuery, ShowsOnly};

use crate::queries::query;
use registry_names::Fault;
use registry_rows::fault_of;
use sqlite::{Alter, Error, Row, Transaction};

/// A test of a row.
pub(crate) trait RowTest {
    // Whether a row passes.
    ghost passes: { Values → Bool };

    /// Tests a row. It fails where a column has another type.
    fn test(row: &Row) -> Result<bool, Error>
        ensures { IfOk result (λ is. is ≡ passes row.now) };
}

/// Whether all rows that a query without parameters shows pass a test.
pub(crate) fn all_rows_pass<T: RowTest, S: Alter>(
    tx: &mut Transaction<'_, S>,
    text: &str,
) -> Result<bool, Fault>
    ensures { (are : Contents → Bool) → IsQuery text.now
        → ShowsOnly text.now [] (shown S.Store tx.old) (shown S.Store tx.new) T.passes are
        → Finds S.Store tx.old tx.new result (λ all c. all ≡ are c) }
{
    let rows = query(tx, text, &[])?;
    all_pass::<T>(&rows)
}

fn all_pass<T: RowTest>(rows: &[Row]) -> Result<bool, Fault>
    ensures { IfOk result (λ all. all ≡ list_all T.passes rows.now) }
{
    for row in rows {
        match T::test(row) {
            Ok(true) => {}
            Ok(false) => return Ok(false),
            Err(error) => return Err(fault_of(error)),
        }
    }
    Ok(true)
}
