//! The table `packages`: every name that was ever published, and who may read it.

ghost use Rattle.std.specs.Prelude.{⊤, ◌≡◌, IfOk};
ghost use Rattle.registry_names.specs.Maps.{at, put};
ghost use Rattle.registry_names.specs.declared.status.Status.{Status as Readers};
ghost use Rattle.registry_tables.specs.Contents.{access_of};
ghost use Rattle.registry_tables.specs.Inside.{Finds, Makes};
ghost use Rattle.registry_tables.specs.Numbers.{status_number};
ghost use Rattle.registry_tables.specs.Spelled.{status_spelled};

use crate::queries::find;
use registry_names::{Fault, Name, Status};
use registry_rows::{RowKind, write};
use sqlite::{Alter, Error, Row, Transaction, params};

/// The status of a package. `None` where it was never published.
pub fn load_status<S: Alter>(
    tx: &mut Transaction<'_, S>,
    name: &Name,
) -> Result<Option<Status>, Fault>
    ensures { Finds S.Store tx.old tx.new result
        (λ status c. status ≡ at (access_of c).statuses name.now) }
{
    find_status(tx, name.text())
}

/// The status under a text. `None` where there is none.
pub(crate) fn find_status<S: Alter>(
    tx: &mut Transaction<'_, S>,
    name: &str,
) -> Result<Option<Status>, Fault>
    ensures { Finds S.Store tx.old tx.new result
        (λ status c. status ≡ at (access_of c).statuses name.now) }
{
    find::<StatusRow, S>(
        tx,
        "SELECT status FROM packages WHERE name = ?1",
        params![name],
    )
}

/// Gives a package this status, whatever it had before.
pub(crate) fn put_status<S: Alter>(
    tx: &mut Transaction<'_, S>,
    name: &str,
    status: Status,
) -> Result<(), Fault>
    ensures { Makes S.Store tx.old tx.new result
        (λ _ _. ⊤)
        (λ c. record c { packages = put c.packages name.now (status_number status) }) }
{
    write(
        tx,
        "INSERT INTO packages VALUES (?1, ?2) ON CONFLICT (name) DO UPDATE SET status = ?2",
        params![name, number_of(status)],
    )
}

// A status alone.
struct StatusRow;

impl RowKind for StatusRow {
    type Value = Status;

    ghost Seen = { Readers };

    ghost seen = { λ status. status };

    ghost spelled = { status_spelled };

    fn read(row: &Row) -> Result<Status, Error> {
        status_of(row.get(0)?)
    }
}

fn number_of(status: Status) -> i64
    ensures { result ≡ status_number status }
{
    match status {
        Status::Restricted => 0,
        Status::Public => 1,
    }
}

/// The status that a number spells. No other number is ever written.
pub(crate) fn status_of(number: i64) -> Result<Status, Error>
    ensures { IfOk result (λ status. number ≡ status_number status) }
{
    match number {
        0 => Ok(Status::Restricted),
        1 => Ok(Status::Public),
        _ => Err(Error::IntegralValueOutOfRange(0)),
    }
}
