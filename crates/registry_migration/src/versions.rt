//! The live versions, one after another.

ghost use Rattle.std.specs.Prelude.{◌≡◌, map};
ghost use Rattle.registry_names.specs.Keys.{Pair};
ghost use Rattle.registry_names.specs.Maps.{entries, keys};
ghost use Rattle.registry_rows.specs.Frames.{Stays};
ghost use Rattle.registry_tables.specs.Effects.{InForm, Loads};
ghost use Rattle.registry_migration.specs.Steps.{key_spelled, version_key};

use registry_names::{Fault, Text};
use registry_rows::{RowKind, read, values_of_rows};
use sqlite::{Alter, Error, Row, Transaction};
use std::alloc::Global;

/// A version of a package.
#[derive(Drop)]
pub(crate) struct VersionKey {
    pub(crate) package: Text,
    pub(crate) version: Text,
}

/// The live versions of all packages, in their order.
pub(crate) fn load_versions<S: Alter>(
    alloc: Global,
    tx: &mut Transaction<'_, S>,
) -> Result<Vec<VersionKey>, Fault>
    requires in_form { InForm S.Store tx.old }
    ensures stays { Stays S.Store tx.old tx.new }
    ensures loads { Loads S.Store tx.old tx.new result
        (λ versions c. map version_key versions.items ≡ keys (entries c.versions)) }
{
    let rows = read(
        tx,
        "SELECT package, version FROM versions ORDER BY package, version",
        &[],
    )?;
    values_of_rows::<VersionKey>(alloc, &rows)
}

impl RowKind for VersionKey {
    type Value = VersionKey;

    ghost Seen = { Pair };

    ghost seen = { version_key };

    ghost spelled = { key_spelled };

    fn read(row: &Row) -> Result<VersionKey, Error> {
        let package: String = row.get(0)?;
        let version: String = row.get(1)?;
        Ok(VersionKey {
            package: Text::from(package),
            version: Text::from(version),
        })
    }
}
