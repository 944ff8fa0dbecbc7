//! Queries: whether a row is shown, what the first row spells, and what all rows spell.

ghost use Rattle.std.specs.Prelude.{◌≡◌, Bool, List, Option, map, option_map};
ghost use Rattle.sqlite.specs.Values.{bound};
ghost use Rattle.registry_names.specs.Texts.{Text as Bytes};
ghost use Rattle.registry_tables.specs.Contents.{Contents};
ghost use Rattle.registry_tables.specs.Effects.{shown};
ghost use Rattle.registry_tables.specs.Inside.{Finds};
ghost use Rattle.registry_tables.specs.Queries.{HasShown, IsQuery, ShowsAll, ShowsFirst, ShowsWhether};
ghost use Rattle.registry_tables.specs.Teams.{text_spelled};

use crate::texts::TextRow;
use registry_names::{Fault, Text};
use registry_rows::{RowKind, read, value_of_first_row, values_of_rows};
use sqlite::types::ValueRef;
use sqlite::{Alter, Row, Transaction};
use std::alloc::Global;

/// The rows that a query shows.
pub(crate) fn query<S: Alter>(
    tx: &mut Transaction<'_, S>,
    text: &str,
    params: &[ValueRef<'_>],
) -> Result<Vec<Row>, Fault>
    ensures { IsQuery text.now → Finds S.Store tx.old tx.new result
        (λ rows c. HasShown text.now (bound params.now) (shown S.Store tx.old)
        (shown S.Store tx.new) c rows.items) }
{
    read(tx, text, params)
}

/// Whether a query shows a row.
pub(crate) fn has<S: Alter>(
    tx: &mut Transaction<'_, S>,
    text: &str,
    params: &[ValueRef<'_>],
) -> Result<bool, Fault>
    ensures { (is : Contents → Bool) → IsQuery text.now
        → ShowsWhether text.now (bound params.now) (shown S.Store tx.old) (shown S.Store tx.new) is
        → Finds S.Store tx.old tx.new result (λ has c. has ≡ is c) }
{
    let rows = query(tx, text, params)?;
    Ok(!rows.is_empty())
}

/// What the first row that a query shows spells. `None` where it shows none.
pub(crate) fn find<K: RowKind, S: Alter>(
    tx: &mut Transaction<'_, S>,
    text: &str,
    params: &[ValueRef<'_>],
) -> Result<Option<K::Value>, Fault>
    ensures { (first : Contents → Option K.Seen) → IsQuery text.now
        → ShowsFirst text.now (bound params.now) (shown S.Store tx.old) (shown S.Store tx.new)
        K.spelled first
        → Finds S.Store tx.old tx.new result (λ found c. option_map K.seen found ≡ first c) }
{
    let rows = query(tx, text, params)?;
    value_of_first_row::<K>(&rows)
}

/// What the rows that a query shows spell, in their order.
pub(crate) fn list<K: RowKind, S: Alter>(
    alloc: Global,
    tx: &mut Transaction<'_, S>,
    text: &str,
    params: &[ValueRef<'_>],
) -> Result<Vec<K::Value>, Fault>
    ensures { (all : Contents → List K.Seen) → IsQuery text.now
        → ShowsAll text.now (bound params.now) (shown S.Store tx.old) (shown S.Store tx.new)
        K.spelled all
        → Finds S.Store tx.old tx.new result (λ values c. map K.seen values.items ≡ all c) }
{
    let rows = query(tx, text, params)?;
    values_of_rows::<K>(alloc, &rows)
}

/// The texts that the rows of a query spell, one each.
pub(crate) fn texts<S: Alter>(
    alloc: Global,
    tx: &mut Transaction<'_, S>,
    text: &str,
    params: &[ValueRef<'_>],
) -> Result<Vec<Text>, Fault>
    ensures { (all : Contents → List Bytes) → IsQuery text.now
        → ShowsAll text.now (bound params.now) (shown S.Store tx.old) (shown S.Store tx.new)
        text_spelled all
        → Finds S.Store tx.old tx.new result (λ texts c. texts.items ≡ all c) }
{
    list::<TextRow, S>(alloc, tx, text, params)
}
