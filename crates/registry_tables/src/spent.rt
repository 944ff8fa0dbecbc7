//! The table `spent`: the versions that were withdrawn, which are never published again.

ghost use Rattle.std.specs.Prelude.{◌≡◌, ◌≤◌, is_some, pos};
ghost use Rattle.registry_names.specs.Maps.{at, of, put};
ghost use Rattle.registry_names.specs.Moments.{last_second};
ghost use Rattle.registry_rules.specs.Moments.{spent_publications};
ghost use Rattle.registry_rules.specs.Withdrawals.{last_withdrawal};
ghost use Rattle.registry_tables.specs.Changes.{IsFree};
ghost use Rattle.registry_tables.specs.Contents.{registry_of};
ghost use Rattle.registry_tables.specs.Inside.{Finds, Makes};

use crate::moments::{SecondMoment, last_moment};
use crate::queries::{has, list, query};
use registry_names::{Fault, Moment, Name};
use registry_rows::write;
use sqlite::{Alter, Transaction, params};
use std::alloc::Global;

/// Whether the version of the package was withdrawn.
pub fn is_spent<S: Alter>(
    tx: &mut Transaction<'_, S>,
    name: &Name,
    version: &str,
) -> Result<bool, Fault>
    ensures { Finds S.Store tx.old tx.new result
        (λ spent c. spent ≡ is_some (at (registry_of c).spent (name.now, version.now))) }
{
    has_withdrawal(tx, name, version)
}

/// The same, by its row.
pub(crate) fn has_withdrawal<S: Alter>(
    tx: &mut Transaction<'_, S>,
    name: &Name,
    version: &str,
) -> Result<bool, Fault>
    ensures { Finds S.Store tx.old tx.new result
        (λ has c. has ≡ is_some (at c.spent (name.now, version.now))) }
{
    has(
        tx,
        "SELECT withdrawn FROM spent WHERE package = ?1 AND version = ?2",
        params![name.text(), version],
    )
}

/// When a version of the package was withdrawn last. `None` where none ever was.
pub fn load_last_withdrawal<S: Alter>(
    tx: &mut Transaction<'_, S>,
    name: &Name,
) -> Result<Option<Moment>, Fault>
    ensures { Finds S.Store tx.old tx.new result
        (λ last c. last ≡ last_withdrawal (registry_of c) name.now) }
{
    let rows = query(
        tx,
        "SELECT withdrawn, published, version FROM spent WHERE package = ?1 ORDER BY version",
        params![name.text()],
    )?;
    last_moment(&rows)
}

/// When the withdrawn versions of the package were published, in byte order of the versions.
pub fn load_spent_publications<S: Alter>(
    alloc: Global,
    tx: &mut Transaction<'_, S>,
    name: &Name,
) -> Result<Vec<Moment>, Fault>
    ensures { Finds S.Store tx.old tx.new result
        (λ moments c. moments.items ≡ spent_publications (of (registry_of c).spent name.now)) }
{
    list::<SecondMoment, S>(
        alloc,
        tx,
        "SELECT withdrawn, published, version FROM spent WHERE package = ?1 ORDER BY version",
        params![name.text()],
    )
}

/// Puts the version among those that were withdrawn, with the moments at which it was published and
/// withdrawn.
///
/// One that was withdrawn already is a fault, and so is a package without a status.
pub(crate) fn put_withdrawal<S: Alter>(
    tx: &mut Transaction<'_, S>,
    name: &Name,
    version: &str,
    published: Moment,
    withdrawn: Moment,
) -> Result<(), Fault>
    ensures makes { Makes S.Store tx.old tx.new result
        (λ _ c. IsFree c.spent (name.now, version.now))
        (λ c. record c {
          spent = put c.spent (name.now, version.now)
              (record { published = pos published; withdrawn = pos withdrawn });
        }) }
    ensures in_time { (published ≤ last_second) × (withdrawn ≤ last_second) }
{
    write(
        tx,
        "INSERT INTO spent VALUES (?1, ?2, ?3, ?4)",
        params![
            name.text(),
            version,
            published.seconds(),
            withdrawn.seconds()
        ],
    )
}
