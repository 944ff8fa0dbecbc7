//! The table `orgs`: every organisation.

ghost use Rattle.std.specs.Prelude.{◌≡◌, is_some};
ghost use Rattle.registry_names.specs.Maps.{at, entries, keys, put};
ghost use Rattle.registry_tables.specs.Changes.{IsFree};
ghost use Rattle.registry_tables.specs.Inside.{Finds, Makes};

use crate::queries::{has, texts};
use registry_names::{Fault, Ident, Text};
use registry_rows::write;
use sqlite::{Alter, Transaction, params};
use std::alloc::Global;

/// Whether there is an organisation of this name.
pub fn has_organisation<S: Alter>(
    tx: &mut Transaction<'_, S>,
    organisation: &Ident,
) -> Result<bool, Fault>
    ensures { Finds S.Store tx.old tx.new result
        (λ has c. has ≡ is_some (at c.organisations organisation.now)) }
{
    is_organisation(tx, organisation.text())
}

/// The same of its text.
pub(crate) fn is_organisation<S: Alter>(
    tx: &mut Transaction<'_, S>,
    organisation: &str,
) -> Result<bool, Fault>
    ensures { Finds S.Store tx.old tx.new result
        (λ has c. has ≡ is_some (at c.organisations organisation.now)) }
{
    has(
        tx,
        "SELECT name FROM orgs WHERE name = ?1",
        params![organisation],
    )
}

/// The names of all organisations, in byte order.
pub fn load_organisations<S: Alter>(
    alloc: Global,
    tx: &mut Transaction<'_, S>,
) -> Result<Vec<Text>, Fault>
    ensures { Finds S.Store tx.old tx.new result
        (λ names c. names.items ≡ keys (entries c.organisations)) }
{
    texts(alloc, tx, "SELECT name FROM orgs ORDER BY name", &[])
}

/// Adds an organisation. It is a fault where one of its name is there.
pub(crate) fn add_organisation<S: Alter>(
    tx: &mut Transaction<'_, S>,
    organisation: &str,
) -> Result<(), Fault>
    ensures { Makes S.Store tx.old tx.new result
        (λ _ c. IsFree c.organisations organisation.now)
        (λ c. record c { organisations = put c.organisations organisation.now tt }) }
{
    write(tx, "INSERT INTO orgs VALUES (?1)", params![organisation])
}
