//! The texts of all tables. Each is UTF-8 in a registry that only requests have written.
//!
//! SQLite stores any bytes as a text. Where one isn't UTF-8, no other rule can be tried on its row.

ghost use Rattle.std.specs.Prelude.{◌≡◌, ◌++◌, ℤ, Bool, IfOk, OnOk, drop, map};
ghost use Rattle.std.specs.List.{list_all};
ghost use Rattle.std.specs.Str.{is_utf8};
ghost use Rattle.sqlite.specs.State.{HasCleanDisk};
ghost use Rattle.sqlite_value.specs.Value.{owned};
ghost use Rattle.registry_rows.specs.Frames.{Stays};
ghost use Rattle.registry_rows.specs.Ready.{Reads};
ghost use Rattle.registry_tables.specs.Effects.{InForm, shown};
ghost use Rattle.registry_tables.specs.Schema.{schema};
ghost use Rattle.registry_check.specs.Loaded.{Tells};
ghost use Rattle.registry_check.specs.Readable as spec;
ghost use Rattle.registry_check.specs.Readable.{ListsTexts, all_tables, table_of, table_problems, text_entry, text_spelled, unreadable};

use crate::loads::load;
use crate::problem::{Problem, Thing};
use crate::rule::Rule;
use registry_names::Fault;
use registry_rows::RowKind;
use sqlite::types::ValueRef;
use sqlite::{Alter, Error, Row, Transaction};
use std::alloc::Global;

/// A table that has texts.
#[derive(Clone, Copy, Debug, PartialEq, Eq)]
pub enum TextTable {
    /// Users.
    Users,
    /// Tokens.
    Tokens,
    /// Organisations.
    Organisations,
    /// Members of organisations.
    Members,
    /// Teams.
    Teams,
    /// Members of teams.
    TeamMembers,
    /// Packages.
    Packages,
    /// What teams are granted.
    Grants,
    /// Maintainers of packages.
    Maintainers,
    /// Live versions.
    Versions,
    /// Versions that were withdrawn.
    Spent,
    /// Tags.
    Tags,
    /// What versions needed, in schema 1.
    Needs,
    /// The number of the schema.
    Meta,
    /// Which archives versions have.
    Held,
    /// The archives.
    Archives,
    /// What versions need.
    NeedRanges,
}

const TABLES: [TextTable; 17] = [
    TextTable::Users,
    TextTable::Tokens,
    TextTable::Organisations,
    TextTable::Members,
    TextTable::Teams,
    TextTable::TeamMembers,
    TextTable::Packages,
    TextTable::Grants,
    TextTable::Maintainers,
    TextTable::Versions,
    TextTable::Spent,
    TextTable::Tags,
    TextTable::Needs,
    TextTable::Meta,
    TextTable::Held,
    TextTable::Archives,
    TextTable::NeedRanges,
];

impl TextTable {
    /// The name of the table.
    pub fn name(self) -> &'static str
        ensures { result.now ≡ (table_of self).name }
    {
        match self {
            TextTable::Users => "users",
            TextTable::Tokens => "tokens",
            TextTable::Organisations => "orgs",
            TextTable::Members => "members",
            TextTable::Teams => "teams",
            TextTable::TeamMembers => "team_members",
            TextTable::Packages => "packages",
            TextTable::Grants => "grants",
            TextTable::Maintainers => "owners",
            TextTable::Versions => "versions",
            TextTable::Spent => "spent",
            TextTable::Tags => "tags",
            TextTable::Needs => "needs",
            TextTable::Meta => "meta",
            TextTable::Held => "held",
            TextTable::Archives => "archives",
            TextTable::NeedRanges => "need_ranges",
        }
    }

    // The query of its texts, row by row, each row after its rowid.
    fn query(self) -> &'static str
        ensures { ListsTexts self result.now }
    {
        match self {
            TextTable::Users => "SELECT rowid, name FROM users ORDER BY rowid",
            TextTable::Tokens => "SELECT rowid, user FROM tokens ORDER BY rowid",
            TextTable::Organisations => "SELECT rowid, name FROM orgs ORDER BY rowid",
            TextTable::Members => "SELECT rowid, org, user FROM members ORDER BY rowid",
            TextTable::Teams => "SELECT rowid, org, team FROM teams ORDER BY rowid",
            TextTable::TeamMembers => {
                "SELECT rowid, org, team, user FROM team_members ORDER BY rowid"
            }
            TextTable::Packages => "SELECT rowid, name FROM packages ORDER BY rowid",
            TextTable::Grants => "SELECT rowid, org, team, package FROM grants ORDER BY rowid",
            TextTable::Maintainers => "SELECT rowid, package, user FROM owners ORDER BY rowid",
            TextTable::Versions => {
                "SELECT rowid, package, version, manifest, deprecated FROM versions ORDER BY rowid"
            }
            TextTable::Spent => "SELECT rowid, package, version FROM spent ORDER BY rowid",
            TextTable::Tags => "SELECT rowid, package, tag, version FROM tags ORDER BY rowid",
            TextTable::Needs => "SELECT rowid, package, version, target FROM needs ORDER BY rowid",
            TextTable::Meta => "SELECT rowid, name FROM meta ORDER BY rowid",
            TextTable::Held => "SELECT rowid, package, version FROM held ORDER BY rowid",
            TextTable::Archives => "SELECT id, integrity FROM archives ORDER BY id",
            TextTable::NeedRanges => {
                "SELECT rowid, package, version, target, range FROM need_ranges ORDER BY rowid"
            }
        }
    }
}

/// Whether the texts of a row are UTF-8.
#[derive(Drop)]
pub(crate) struct TextRow {
    /// The rowid.
    pub(crate) row: i64,
    /// Whether all of them are.
    pub(crate) is_readable: bool,
}

/// The texts of a row.
pub(crate) struct Texts;

impl RowKind for Texts {
    type Value = TextRow;

    ghost Seen = { ℤ × Bool };

    ghost seen = { text_entry };

    ghost spelled = { text_spelled };

    fn read(row: &Row) -> Result<TextRow, Error> {
        Ok(TextRow {
            row: row.get(0)?,
            is_readable: are_readable(row)?,
        })
    }
}

// Whether all texts after the first value are UTF-8.
fn are_readable(row: &Row) -> Result<bool, Error>
    ensures { IfOk result (λ are. are ≡ list_all spec.is_readable (drop 1 row.now)) }
{
    for at in 1..row.column_count() {
        if !is_readable(row.get_ref(at)?) {
            return Ok(false);
        }
    }
    Ok(true)
}

fn is_readable(value: ValueRef<'_>) -> bool
    ensures { result ≡ spec.is_readable (owned value.entry) }
{
    match value {
        ValueRef::Text(text) => is_utf8_text(text),
        _ => true,
    }
}

fn is_utf8_text(text: &[u8]) -> bool
    ensures { result ≡ is_utf8 text.now }
{
    match str::from_utf8(text) {
        Ok(_) => true,
        Err(_) => false,
    }
}

/// The rows that have a text that isn't UTF-8, one table after another.
pub(crate) fn text_problems<S: Alter>(
    alloc: Global,
    tx: &mut Transaction<'_, S>,
) -> Result<Vec<Problem>, Fault>
    requires in_form { InForm S.Store tx.old }
    ensures stays { Stays S.Store tx.old tx.new }
    ensures loads { Tells S.Store tx.old tx.new result
        (λ found db. found.items ≡ spec.text_problems db) }
{
    problems_of_tables(alloc, tx, &TABLES)
}

fn problems_of_tables<S: Alter>(
    alloc: Global,
    tx: &mut Transaction<'_, S>,
    tables: &[TextTable],
) -> Result<Vec<Problem>, Fault>
    requires in_form { InForm S.Store tx.old }
    requires all { tables.now ≡ all_tables }
    ensures stays { Stays S.Store tx.old tx.new }
    ensures loads { Tells S.Store tx.old tx.new result
        (λ found db. found.items ≡ spec.text_problems db) }
{
    let mut problems = Vec::new(alloc);
    for table in tables {
        push_table(alloc, &mut problems, tx, *table)?;
    }
    Ok(problems)
}

// Adds those of a table.
fn push_table<S: Alter>(
    alloc: Global,
    problems: &mut Vec<Problem>,
    tx: &mut Transaction<'_, S>,
    table: TextTable,
) -> Result<(), Fault>
    requires in_form { InForm S.Store tx.old }
    ensures stays { Stays S.Store tx.old tx.new }
    ensures adds { HasCleanDisk (shown S.Store tx.new) → OnOk result
        (Reads schema (shown S.Store tx.old) (shown S.Store tx.new) × (problems.new.items
        ≡ problems.old.items ++ table_problems (shown S.Store tx.old).now.trees table)) }
{
    let rows = load::<Texts, S>(alloc, tx, table.query())?;
    push_unreadable(problems, table, &rows)
}

fn push_unreadable(
    problems: &mut Vec<Problem>,
    table: TextTable,
    rows: &[TextRow],
) -> Result<(), Fault>
    ensures { OnOk result (problems.new.items
        ≡ problems.old.items ++ unreadable table (map text_entry rows.now)) }
{
    for row in rows {
        if !row.is_readable {
            problems.push(unreadable_row(table, row.row))?;
        }
    }
    Ok(())
}

fn unreadable_row(table: TextTable, row: i64) -> Problem
    ensures { result ≡ spec.unreadable_row table row }
{
    Problem {
        rule: Rule::IsReadable,
        thing: Thing::Row { table, row },
    }
}
