//! The archives, and which versions have them.

ghost use Rattle.std.specs.Prelude.{◌≡◌, ◌++◌, ℕ, ℤ, List, IfOk, OnOk, Some, find, map, option_map};
ghost use Rattle.std.specs.Ordering.{int_eq};
ghost use Rattle.sqlite.specs.State.{HasCleanDisk};
ghost use Rattle.registry_names.specs.Keys.{Pair};
ghost use Rattle.registry_names.specs.Maps.{at};
ghost use Rattle.registry_names.specs.Texts as texts;
ghost use Rattle.registry_publish.specs.Integrity.{integrity_text};
ghost use Rattle.registry_rows.specs.Frames.{Stays};
ghost use Rattle.registry_tables.specs.Contents.{Archive};
ghost use Rattle.registry_tables.specs.Effects.{InForm, IsAsBefore, Loads, shown, stored_in};
ghost use Rattle.registry_tables.specs.Spelled.{number_among};
ghost use Rattle.registry_check.specs.Problems as spec;
ghost use Rattle.registry_check.specs.Rows.{Found, archive_entry, bytes_under, found_entry, held_entry, integrities, like_entry, rows_of};
ghost use Rattle.registry_check.specs.Rules.{found_in, found_tests, held_tests, numbered};
ghost use Rattle.registry_check.specs.Spelled.{like_spelled};

use crate::checked::{Checked, push_broken};
use crate::people::copied;
use crate::problem::{Problem, Test, Thing};
use crate::rule::Rule;
use crate::search::is_number;
use crate::tables::{ArchiveRow, FoundArchive, HeldRow, LikeRow, Tables};
use registry_names::{Fault, Text};
use registry_publish::integrity_of;
use registry_rows::{read, values_of_rows};
use sqlite::{Alter, Row, Transaction, params};
use std::alloc::Global;

/// Which archives versions have.
pub(crate) struct Held;

impl Checked for Held {
    type Row = HeldRow;

    ghost Entry = { Pair × ℤ };

    ghost entry = { held_entry };

    ghost about = { spec.held };

    ghost tried = { held_tests };

    fn thing(alloc: Global, row: &HeldRow) -> Result<Thing, Fault> {
        Ok(Thing::Held {
            package: copied(alloc, &row.package)?,
            version: copied(alloc, &row.version)?,
        })
    }

    fn tests(alloc: Global, row: &HeldRow, all: &Tables) -> Result<Vec<Test>, Fault> {
        Ok(vec![in alloc;
            Test {
                rule: Rule::Lives,
                holds: all.lives(row.package.as_str(), row.version.as_str())
            },
            Test {
                rule: Rule::IsStored,
                holds: all.is_stored(row.archive)
            },
        ]?)
    }
}

/// Archives.
pub(crate) struct Archives;

/// The archives of one integrity.
pub(crate) struct Likes;

impl Checked for Archives {
    type Row = FoundArchive;

    ghost Entry = { Found };

    ghost entry = { found_entry };

    ghost about = { spec.found };

    ghost tried = { found_tests };

    fn thing(_alloc: Global, row: &FoundArchive) -> Result<Thing, Fault> {
        Ok(Thing::Archive { number: row.number })
    }

    fn tests(alloc: Global, row: &FoundArchive, all: &Tables) -> Result<Vec<Test>, Fault> {
        Ok(vec![in alloc;
            Test {
                rule: Rule::IsHeld,
                holds: all.is_held(row.number)
            },
            Test {
                rule: Rule::HasIntegrity,
                holds: is_same(&row.integrity, &row.hashed)
            },
            Test {
                rule: Rule::IsFirst,
                holds: is_numbered(row.number, row.first)
            },
        ]?)
    }
}

#[tactic(auto, unfolding(registry_names::specs::Texts::is))]
fn is_same(text: &Text, other: &Text) -> bool
    ensures { result ≡ texts.is text.now other.now }
{
    text == other
}

fn is_numbered(number: i64, first: Option<i64>) -> bool
    ensures { result ≡ numbered number first }
{
    match first {
        Some(first) => is_number(first, number),
        None => false,
    }
}

/// Adds the problems of the archives, whose bytes are read one after another.
pub(crate) fn push_archives<S: Alter>(
    alloc: Global,
    problems: &mut Vec<Problem>,
    tx: &mut Transaction<'_, S>,
    rows: &[ArchiveRow],
    all: &Tables,
) -> Result<(), Fault>
    requires in_form { InForm S.Store tx.old }
    ensures stays { Stays S.Store tx.old tx.new }
    ensures kept { HasCleanDisk (shown S.Store tx.new)
        → OnOk result (IsAsBefore (shown S.Store tx.old) (shown S.Store tx.new)) }
    ensures adds { HasCleanDisk (shown S.Store tx.new) → OnOk result
        (map archive_entry rows.now ≡ integrities (stored_in S.Store tx.old).archives
        → problems.new.items ≡ problems.old.items
        ++ spec.archive_problems (rows_of all.now) (stored_in S.Store tx.old).archives) }
{
    for row in rows {
        let found = find_archive(alloc, tx, row)?;
        push_broken::<Archives>(alloc, problems, &found, all)?;
    }
    Ok(())
}

// What there is to find of the archive. Only the archives of its integrity are read.
fn find_archive<S: Alter>(
    alloc: Global,
    tx: &mut Transaction<'_, S>,
    row: &ArchiveRow,
) -> Result<FoundArchive, Fault>
    requires in_form { InForm S.Store tx.old }
    ensures stays { Stays S.Store tx.old tx.new }
    ensures loads { Loads S.Store tx.old tx.new result (λ found c. (archive : Archive)
        → at c.archives row.now.number ≡ Some archive → archive.integrity ≡ row.now.integrity
        → found_entry found ≡ found_in c.archives (row.now.number, archive)) }
{
    let rows = read(
        tx,
        "SELECT id, bytes FROM archives WHERE integrity = ?1 ORDER BY id",
        params![row.integrity.as_str()],
    )?;
    found_in_rows(alloc, row, &rows)
}

// What there is to find of the archive, in the rows of those of its integrity.
fn found_in_rows(alloc: Global, row: &ArchiveRow, rows: &[Row]) -> Result<FoundArchive, Fault>
    ensures { IfOk result (λ found. (bytes : List ℕ)
        → bytes_under row.now.number (map like_spelled rows.now) ≡ Some bytes
        → found_entry found ≡ (
          row.now.number,
          (
            row.now.integrity,
            (
              integrity_text bytes,
              number_among bytes (map like_spelled rows.now),
            ),
          ),
        )) }
{
    let likes = values_of_rows::<Likes>(alloc, rows)?;
    found_among(alloc, row, &likes)
}

fn found_among(alloc: Global, row: &ArchiveRow, likes: &[LikeRow]) -> Result<FoundArchive, Fault>
    ensures { IfOk result (λ found. (bytes : List ℕ)
        → bytes_under row.now.number (map like_entry likes.now) ≡ Some bytes
        → found_entry found ≡ (
          row.now.number,
          (
            row.now.integrity,
            (
              integrity_text bytes,
              number_among bytes (map like_entry likes.now),
            ),
          ),
        )) }
{
    let Some(own) = like_under(likes, row.number) else {
        return Err(Fault::Database);
    };
    let bytes = own.bytes.as_slice();
    let hashed = integrity_of(alloc, bytes)?;
    Ok(FoundArchive {
        number: row.number,
        integrity: copied(alloc, &row.integrity)?,
        hashed,
        first: number_like(likes, bytes),
    })
}

// The archive of this number.
fn like_under(likes: &[LikeRow], number: i64) -> Option<&LikeRow>
    ensures { option_map (λ like. like.now.bytes) result
        ≡ option_map (λ like. like.bytes) (find (λ like. int_eq like.number number) likes.now) }
{
    likes.iter().find(|like| is_number(like.number, number))
}

// The number of the first of these archives that has these bytes.
fn number_like(likes: &[LikeRow], bytes: &[u8]) -> Option<i64>
    ensures { result ≡ option_map (λ like. like.number)
        (find (λ like. texts.is bytes.now like.bytes) likes.now) }
{
    likes
        .iter()
        .find(|like| is_bytes(bytes, like.bytes.as_slice()))
        .map(|like| like.number)
}

#[tactic(auto, unfolding(registry_names::specs::Texts::is))]
fn is_bytes(bytes: &[u8], other: &[u8]) -> bool
    ensures { result ≡ texts.is bytes.now other.now }
{
    bytes == other
}
