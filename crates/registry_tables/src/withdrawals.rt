//! Withdrawals: what goes with a version.

ghost use Rattle.std.specs.Prelude.{◌≤◌, OnOk};
ghost use Rattle.registry_names.specs.Moments.{last_second};
ghost use Rattle.registry_tables.specs.Changes.{IsUntagged, MayRetire};
ghost use Rattle.registry_tables.specs.Inside.{Makes};
ghost use Rattle.registry_tables.specs.Withdrawals.{version_retired, without_rows};

use crate::archives::{free_archive, held_archive};
use crate::spent::put_withdrawal;
use registry_names::{Fault, Moment, Name};
use registry_rows::write;
use sqlite::{Alter, Transaction, params};

/// Ends the life of a version, which was published and is withdrawn at these moments, with what it
/// depends on. Its archive goes with it, unless another version has it.
///
/// A version that doesn't live is a fault, and so is one that a tag names, or that was withdrawn
/// already.
pub(crate) fn retire_version<S: Alter>(
    tx: &mut Transaction<'_, S>,
    name: &Name,
    version: &str,
    published: Moment,
    withdrawn: Moment,
) -> Result<(), Fault>
    ensures makes { Makes S.Store tx.old tx.new result
        (λ _. MayRetire name.now version.now)
        (version_retired name.now version.now published withdrawn) }
    ensures in_time { OnOk result ((published ≤ last_second) × (withdrawn ≤ last_second)) }
{
    let Some(number) = held_archive(tx, name, version)? else {
        return Err(Fault::Database);
    };
    drop_version(tx, name, version)?;
    free_archive(tx, number)?;
    put_withdrawal(tx, name, version, published, withdrawn)
}

// Drops the rows of a version: its own, and with it those of its needs and of its archive.
fn drop_version<S: Alter>(
    tx: &mut Transaction<'_, S>,
    name: &Name,
    version: &str,
) -> Result<(), Fault>
    ensures { Makes S.Store tx.old tx.new result
        (λ _. IsUntagged name.now version.now)
        (without_rows name.now version.now) }
{
    write(
        tx,
        "DELETE FROM versions WHERE package = ?1 AND version = ?2",
        params![name.text(), version],
    )
}
