//! The tables `archives` and `held`: each archive that is stored, once, and which of them each live
//! version has.

ghost use Rattle.std.specs.Prelude.{⊤, ◌≡◌, ℕ, ℤ, List, IfOk, Some, map, option_map};
ghost use Rattle.sqlite_value.specs.Order.{column};
ghost use Rattle.registry_names.specs.Maps.{at, erase, put};
ghost use Rattle.registry_names.specs.Texts.{is};
ghost use Rattle.registry_rows.specs.Columns.{blob_in};
ghost use Rattle.registry_tables.specs.Archives.{archive_number, next_archive, number_of, with_archive, with_next_archive};
ghost use Rattle.registry_tables.specs.Changes.{IsFree, with_archive_of};
ghost use Rattle.registry_tables.specs.Contents.{live_of};
ghost use Rattle.registry_tables.specs.Inside.{Finds, Makes};
ghost use Rattle.registry_tables.specs.Spelled.{archive_spelled, blob_of_row, held_spelled, number_among};
ghost use Rattle.registry_tables.specs.Withdrawals as withdrawals;

use crate::queries::{find, has, query};
use crate::versions::has_version;
use registry_names::{Blob, Fault, Name};
use registry_publish::PublishForm;
use registry_rows::{RowKind, value_of_row, write};
use sqlite::types::ValueRef;
use sqlite::{Alter, Error, Row, Transaction, params};

/// The archive of a version. `None` where it doesn't live.
///
/// A version that lives and has no archive is a fault. A query for an archive makes three look-ups
/// by key. Only the first decides: whether the version lives. The others, of the archive's number
/// and of its bytes, are made here.
pub fn load_archive<S: Alter>(
    tx: &mut Transaction<'_, S>,
    name: &Name,
    version: &str,
) -> Result<Option<Blob>, Fault>
    ensures { Finds S.Store tx.old tx.new result
        (λ archive c. archive
        ≡ option_map (λ r. r.archive) (at (live_of c) (name.now, version.now))) }
{
    if let Some(number) = held_archive(tx, name, version)? {
        return Ok(Some(load_bytes(tx, number)?));
    }
    if has_version(tx, name, version)? {
        return Err(Fault::Database);
    }
    Ok(None)
}

/// The number of the archive that a version has, if it has one.
pub(crate) fn held_archive<S: Alter>(
    tx: &mut Transaction<'_, S>,
    name: &Name,
    version: &str,
) -> Result<Option<i64>, Fault>
    ensures { Finds S.Store tx.old tx.new result
        (λ number c. number ≡ at c.held (name.now, version.now)) }
{
    find::<NumberRow, S>(
        tx,
        "SELECT archive FROM held WHERE package = ?1 AND version = ?2",
        params![name.text(), version],
    )
}

// The bytes of the archive with this number. It is a fault where no archive has it.
fn load_bytes<S: Alter>(tx: &mut Transaction<'_, S>, number: i64) -> Result<Blob, Fault>
    ensures { Finds S.Store tx.old tx.new result
        (λ bytes c. option_map (λ a. a.bytes) (at c.archives number) ≡ Some bytes) }
{
    match find_bytes(tx, number)? {
        Some(bytes) => Ok(bytes),
        None => Err(Fault::Database),
    }
}

fn find_bytes<S: Alter>(tx: &mut Transaction<'_, S>, number: i64) -> Result<Option<Blob>, Fault>
    ensures { Finds S.Store tx.old tx.new result
        (λ found c. found ≡ option_map (λ a. a.bytes) (at c.archives number)) }
{
    find::<BytesRow, S>(
        tx,
        "SELECT bytes FROM archives WHERE id = ?1",
        params![number],
    )
}

/// Lets the version of a form have its archive, which is stored where it isn't yet.
pub(crate) fn put_archive<S: Alter>(
    tx: &mut Transaction<'_, S>,
    form: &PublishForm,
) -> Result<(), Fault>
    ensures { Makes S.Store tx.old tx.new result (λ _ _. ⊤) (with_archive_of form.now) }
{
    let number = store_archive(tx, form.integrity(), form.archive())?;
    hold_archive(tx, form.name().text(), form.version().text(), number)
}

/// The number of the archive with this integrity and these bytes, which is added where none is
/// stored.
///
/// Bytes that are stored with their own integrity aren't stored twice
/// ([`laws::archives_are_kept`](crate::laws::archives_are_kept)). With another integrity they may
/// be: the caller ensures that the integrity is theirs, as a form does.
pub fn store_archive<S: Alter>(
    tx: &mut Transaction<'_, S>,
    integrity: &str,
    bytes: &[u8],
) -> Result<i64, Fault>
    ensures { Makes S.Store tx.old tx.new result
        (λ number c. number ≡ archive_number integrity.now bytes.now c)
        (with_archive integrity.now bytes.now) }
{
    match find_number(tx, integrity, bytes)? {
        Some(number) => Ok(number),
        None => add(tx, integrity, bytes),
    }
}

// The number of the archive with this integrity and these bytes, as a whole.
fn find_number<S: Alter>(
    tx: &mut Transaction<'_, S>,
    integrity: &str,
    bytes: &[u8],
) -> Result<Option<i64>, Fault>
    ensures { Finds S.Store tx.old tx.new result
        (λ number c. number ≡ number_of integrity.now bytes.now c.archives) }
{
    let rows = query(
        tx,
        "SELECT id, bytes FROM archives WHERE integrity = ?1 ORDER BY id",
        params![integrity],
    )?;
    first_with(&rows, bytes)
}

// The number of the first of these archives that has these bytes.
fn first_with(rows: &[Row], bytes: &[u8]) -> Result<Option<i64>, Fault>
    ensures { IfOk result (λ number. number
        ≡ number_among bytes.now (map archive_spelled rows.now)) }
{
    for row in rows {
        if has_bytes(row, bytes)? {
            return Ok(Some(value_of_row::<NumberRow>(row)?));
        }
    }
    Ok(None)
}

fn has_bytes(row: &Row, bytes: &[u8]) -> Result<bool, Fault>
    ensures { IfOk result (λ has. has ≡ is bytes.now (blob_in (column row.now 1))) }
{
    match row.get_ref(1) {
        Ok(ValueRef::Blob(stored)) => Ok(bytes == stored),
        _ => Err(Fault::Database),
    }
}

// Adds an archive, and answers its number.
fn add<S: Alter>(tx: &mut Transaction<'_, S>, integrity: &str, bytes: &[u8]) -> Result<i64, Fault>
    ensures { Makes S.Store tx.old tx.new result
        (λ number c. number ≡ next_archive c)
        (with_next_archive integrity.now bytes.now) }
{
    write(
        tx,
        "INSERT INTO archives (integrity, bytes) VALUES (?1, ?2)",
        params![integrity, bytes],
    )?;
    Ok(tx.last_insert_rowid())
}

/// Lets a version have the archive with this number. A version that has one already is a fault.
///
/// No clause says so, but a version that doesn't live and a number that no archive has are faults,
/// too.
pub fn hold_archive<S: Alter>(
    tx: &mut Transaction<'_, S>,
    name: &str,
    version: &str,
    number: i64,
) -> Result<(), Fault>
    ensures { Makes S.Store tx.old tx.new result
        (λ _ c. IsFree c.held (name.now, version.now))
        (λ c. record c { held = put c.held (name.now, version.now) number }) }
{
    write(
        tx,
        "INSERT INTO held VALUES (?1, ?2, ?3)",
        params![name, version, number],
    )
}

/// Drops the archive of this number, unless a version has it.
pub(crate) fn free_archive<S: Alter>(tx: &mut Transaction<'_, S>, number: i64) -> Result<(), Fault>
    ensures { Makes S.Store tx.old tx.new result
        (λ _ _. ⊤)
        (λ c. record c { archives = withdrawals.archives_left (Some number) c }) }
{
    if is_held(tx, number)? {
        return Ok(());
    }
    drop_archive(tx, number)
}

// Whether a version has the archive with this number.
fn is_held<S: Alter>(tx: &mut Transaction<'_, S>, number: i64) -> Result<bool, Fault>
    ensures { Finds S.Store tx.old tx.new result (λ held c. held ≡ withdrawals.is_held number c) }
{
    has(
        tx,
        "SELECT package FROM held WHERE archive = ?1 LIMIT 1",
        params![number],
    )
}

// Drops the archive with this number.
fn drop_archive<S: Alter>(tx: &mut Transaction<'_, S>, number: i64) -> Result<(), Fault>
    ensures { Makes S.Store tx.old tx.new result
        (λ _ _. ⊤)
        (λ c. record c { archives = erase c.archives number }) }
{
    write(tx, "DELETE FROM archives WHERE id = ?1", params![number])
}

// The number of an archive, alone or before others.
struct NumberRow;

impl RowKind for NumberRow {
    type Value = i64;

    ghost Seen = { ℤ };

    ghost seen = { λ number. number };

    ghost spelled = { held_spelled };

    fn read(row: &Row) -> Result<i64, Error> {
        row.get(0)
    }
}

// Bytes alone.
struct BytesRow;

impl RowKind for BytesRow {
    type Value = Blob;

    ghost Seen = { List ℕ };

    ghost seen = { λ bytes. bytes };

    ghost spelled = { blob_of_row };

    fn read(row: &Row) -> Result<Blob, Error> {
        let bytes: Vec<u8> = row.get(0)?;
        Ok(Blob::from(bytes))
    }
}
