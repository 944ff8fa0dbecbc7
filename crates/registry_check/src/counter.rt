//! The table `sqlite_sequence`, in which SQLite counts the numbers of archives.

ghost use Rattle.std.specs.Prelude.{◌≡◌, ℤ, Bool, IfOk, Option, find, map, option_map};
ghost use Rattle.sqlite_value.specs.Value.{owned};
ghost use Rattle.registry_names.specs.Texts.{Text as Bytes, is};
ghost use Rattle.registry_tables.specs.Schema as stored;
ghost use Rattle.registry_check.specs.Counter as spec;
ghost use Rattle.registry_check.specs.Counter.{are_alone, count_entry, count_spelled, counted_in, counter_among, counter_entry, whole};
ghost use Rattle.registry_check.specs.FormRules.{counter_forms, number_forms};
ghost use Rattle.registry_check.specs.Problems as problems;
ghost use Rattle.registry_check.specs.Rows.{archive_entry};

use crate::checked::Checked;
use crate::problem::{Test, Thing};
use crate::rule::Rule;
use crate::tables::{ArchiveRow, Tables};
use registry_names::Fault;
use registry_rows::RowKind;
use sqlite::types::ValueRef;
use sqlite::{Error, Row};
use std::alloc::Global;

/// A row of the table.
#[derive(Drop)]
pub(crate) struct CountRow {
    /// The rowid.
    pub(crate) row: i64,
    /// Whether it counts the archives.
    pub(crate) is_archives: bool,
    /// What it counts, if that is a whole number.
    pub(crate) count: Option<i64>,
}

/// What the table says.
#[derive(Drop)]
pub(crate) struct Counter {
    /// Whether nothing but archives is counted.
    pub(crate) is_alone: bool,
    /// The count of archives, if it is a whole number. It is 0 where nothing was counted yet.
    pub(crate) count: Option<i64>,
}

/// The rows of the table.
pub(crate) struct Counts;

impl RowKind for Counts {
    type Value = CountRow;

    ghost Seen = { ℤ × (Bool × Option ℤ) };

    ghost seen = { count_entry };

    ghost spelled = { count_spelled };

    fn read(row: &Row) -> Result<CountRow, Error> {
        Ok(CountRow {
            row: row.get(0)?,
            is_archives: is_archives(row.get_ref(1)?),
            count: whole_number(row.get_ref(2)?),
        })
    }
}

// Whether it is the name of the table of archives.
fn is_archives(name: ValueRef<'_>) -> bool
    ensures { result ≡ spec.is_archives (owned name.entry) }
{
    match name {
        ValueRef::Text(name) => is_name(name),
        _ => false,
    }
}

#[tactic(auto, unfolding(registry_names::specs::Texts::is))]
fn is_name(name: &[u8]) -> bool
    ensures { result ≡ is name.now stored.archives.name }
{
    name == b"archives".as_slice()
}

fn whole_number(value: ValueRef<'_>) -> Option<i64>
    ensures { result ≡ whole (owned value.entry) }
{
    match value {
        ValueRef::Int(number) => Some(number),
        _ => None,
    }
}

/// What the rows of the table say together.
pub(crate) fn counter_of(rows: &[CountRow]) -> Counter
    ensures { counter_entry result ≡ counter_among (map count_entry rows.now) }
{
    Counter {
        is_alone: is_alone(rows),
        count: count_in(rows),
    }
}

fn is_alone(rows: &[CountRow]) -> bool
    ensures { result ≡ are_alone (map count_entry rows.now) }
{
    match rows {
        [] => true,
        [row] => row.is_archives,
        _ => false,
    }
}

// What the row of the archives counts.
fn count_in(rows: &[CountRow]) -> Option<i64>
    ensures { result ≡ counted_in
        (option_map (λ e. e.1.1) (find (λ e. e.1.0) (map count_entry rows.now))) }
{
    match first_count(rows) {
        Some(count) => count,
        None => Some(0),
    }
}

// The same, where there is such a row.
fn first_count(rows: &[CountRow]) -> Option<Option<i64>>
    ensures { result ≡ option_map (λ row. row.count) (find (λ row. row.is_archives) rows.now) }
{
    rows.iter().find(|row| row.is_archives).map(|row| row.count)
}

// Whether it is a number from 0 on, and the next archive can have a higher one.
fn is_count(count: Option<i64>) -> bool
    ensures { result ≡ spec.is_count count }
{
    match count {
        Some(count) => 0 <= count && count < i64::MAX,
        None => false,
    }
}

// Whether the number isn't above the count.
fn is_counted(count: Option<i64>, number: i64) -> bool
    ensures { result ≡ spec.is_counted count number }
{
    match count {
        Some(count) => number <= count,
        None => true,
    }
}

/// What is counted.
pub(crate) struct Counters;

impl Checked for Counters {
    type Row = Counter;

    ghost Entry = { Bool × Option ℤ };

    ghost entry = { counter_entry };

    ghost about = { problems.counter };

    ghost tried = { counter_forms };

    fn thing(_alloc: Global, _row: &Counter) -> Result<Thing, Fault> {
        Ok(Thing::Counter)
    }

    fn tests(alloc: Global, row: &Counter, _all: &Tables) -> Result<Vec<Test>, Fault> {
        Ok(vec![in alloc;
            Test {
                rule: Rule::CountsAlone,
                holds: row.is_alone
            },
            Test {
                rule: Rule::HasCount,
                holds: is_count(row.count)
            },
        ]?)
    }
}

/// The numbers of archives.
pub(crate) struct Numbers;

impl Checked for Numbers {
    type Row = ArchiveRow;

    ghost Entry = { ℤ × Bytes };

    ghost entry = { archive_entry };

    ghost about = { problems.number };

    ghost tried = { number_forms };

    fn thing(_alloc: Global, row: &ArchiveRow) -> Result<Thing, Fault> {
        Ok(Thing::Archive { number: row.number })
    }

    fn tests(alloc: Global, row: &ArchiveRow, all: &Tables) -> Result<Vec<Test>, Fault> {
        Ok(vec![in alloc;
            Test {
                rule: Rule::IsCounted,
                holds: is_counted(all.counter.count, row.number)
            },
        ]?)
    }
}
