//! Rows in the order of their keys, in which a row is found by halving.

ghost use Rattle.std.specs.Prelude.{◌≡◌, IfOk, find, option_map};
ghost use Rattle.std.specs.List.{filter, list_any};
ghost use Rattle.std.specs.List.Sorted.{IsSortedByKey};
ghost use Rattle.std.specs.Ordering.{is_eq};
ghost use Rattle.std.specs.declared.cmp.Ordering.{Ordering as Order};
ghost use Rattle.registry_check.specs.Searched.{AnswersAs, RiseBy};

use registry_names::Fault;
use std::cmp::Ordering;

/// A row that has a key.
pub(crate) trait Keyed: Drop {
    /// What contracts see of a key.
    ghost Key: { Type 0 };

    /// The key of a row.
    ghost key: { Self → Key };

    /// The order of keys.
    ghost cmp: { Key → Key → Order };

    /// How the keys of both compare.
    fn compare(&self, other: &Self) -> Ordering
        ensures { result ≡ cmp (key self.now) (key other.now) };
}

/// The same rows, of which none has a lower key than the one before it.
///
/// It is the fault `Database` where one has. A query that orders by the key answers no such rows,
/// but nothing is known of what a disk answers that isn't clean.
pub(crate) fn in_order<R: Keyed>(rows: Vec<R>) -> Result<Vec<R>, Fault>
    ensures same { IfOk result (λ sorted. sorted.items ≡ rows.items) }
    ensures sorted { IfOk result (λ sorted. IsSortedByKey R.key R.cmp sorted.items) }
{
    if rows.is_sorted_by(|row, next| !next.compare(row).is_lt()) {
        Ok(rows)
    } else {
        Err(Fault::Database)
    }
}

/// The rows that `by` finds equal to what is asked. It compares a row with that, and never finds a
/// row lower than one before it.
pub(crate) fn rows_with<T, F: Fn(&T) -> Ordering>(rows: &[T], by: F) -> &[T]
    requires { F.IsAlwaysCallable by }
    ensures { (ord : T → Order) → AnswersAs (F.post by) ord → RiseBy ord rows.now
        → result.now ≡ filter (λ row. is_eq (ord row)) rows.now }
{
    let start = rows.partition_point(|row| by(row).is_lt());
    let rest = &rows[start..];
    let count = rest.partition_point(|row| by(row).is_eq());
    &rest[..count]
}

/// Whether `by` finds some row equal to what is asked.
pub(crate) fn contains<T, F: Fn(&T) -> Ordering>(rows: &[T], by: F) -> bool
    requires { F.IsAlwaysCallable by }
    ensures { (ord : T → Order) → AnswersAs (F.post by) ord → RiseBy ord rows.now
        → result ≡ list_any (λ row. is_eq (ord row)) rows.now }
{
    !rows_with(rows, by).is_empty()
}

/// The first row that `by` finds equal to what is asked.
pub(crate) fn first_with<T, F: Fn(&T) -> Ordering>(rows: &[T], by: F) -> Option<&T>
    requires { F.IsAlwaysCallable by }
    ensures { (ord : T → Order) → AnswersAs (F.post by) ord → RiseBy ord rows.now
        → option_map (λ row. row.now) result ≡ find (λ row. is_eq (ord row)) rows.now }
{
    rows_with(rows, by).first()
}
