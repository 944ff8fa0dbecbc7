//! The table `need_ranges`: what every live version depends on.

ghost use Rattle.std.specs.Prelude.{⊤, map};
ghost use Rattle.registry_names.specs.Texts.{Text as Bytes};
ghost use Rattle.registry_tables.specs.Dependents.{HaveSame, dependent_entry, dependents_on, ranges_of};
ghost use Rattle.registry_tables.specs.Inside.{Finds, Makes, MayMake};
ghost use Rattle.registry_tables.specs.Needs.{with_need, with_needs};
ghost use Rattle.registry_tables.specs.Spelled.{tag_spelled};

use crate::queries::query;
use crate::texts::TextRow;
use registry_names::{Fault, Name, Text};
use registry_publish::Need;
use registry_rows::{RowKind, values_of_rows, write};
use sqlite::{Alter, Error, Row, Transaction, params};
use std::alloc::Global;

/// Puts what a version depends on. A pair of a target and a range that is named twice is put once.
///
/// No clause says so, but a version that doesn't live is a fault, except where nothing is listed.
pub fn put_needs<S: Alter>(
    tx: &mut Transaction<'_, S>,
    name: &str,
    version: &str,
    needs: &[Need],
) -> Result<(), Fault>
    ensures { MayMake S.Store tx.old tx.new result
        (λ _ _. ⊤)
        (λ c. record c { need_ranges = with_needs c.need_ranges name.now version.now needs.now }) }
{
    for need in needs {
        put_need(tx, name, version, need)?;
    }
    Ok(())
}

// Puts a need. One that is there stays.
fn put_need<S: Alter>(
    tx: &mut Transaction<'_, S>,
    name: &str,
    version: &str,
    need: &Need,
) -> Result<(), Fault>
    ensures { Makes S.Store tx.old tx.new result
        (λ _ _. ⊤)
        (λ c. record c { need_ranges = with_need c.need_ranges name.now version.now need.now }) }
{
    write(
        tx,
        "INSERT INTO need_ranges VALUES (?1, ?2, ?3, ?4) ON CONFLICT (package, version, target, range) DO NOTHING",
        params![name, version, need.target.as_str(), need.range.as_str()],
    )
}

/// A live version that needs another package.
#[derive(PartialEq, Eq, Drop)]
pub(crate) struct Dependent {
    package: Text,
    version: Text,
}

/// The live versions of other packages that need this one. Each comes once, though it may need the
/// package in several ranges.
pub(crate) fn load_dependents<S: Alter>(
    alloc: Global,
    tx: &mut Transaction<'_, S>,
    name: &Name,
) -> Result<Vec<Dependent>, Fault>
    ensures { Finds S.Store tx.old tx.new result
        (λ found c. HaveSame (map dependent_entry found.items) (dependents_on c name.now)) }
{
    let rows = query(
        tx,
        "SELECT package, version FROM need_ranges WHERE target = ?1 AND package <> ?1",
        params![name.text()],
    )?;
    let mut dependents = values_of_rows::<Dependent>(alloc, &rows)?;
    dependents.dedup();
    Ok(dependents)
}

/// The ranges in which one version needs a package.
pub(crate) fn load_ranges<S: Alter>(
    alloc: Global,
    tx: &mut Transaction<'_, S>,
    name: &Name,
    dependent: &Dependent,
) -> Result<Vec<Text>, Fault>
    ensures { Finds S.Store tx.old tx.new result
        (λ found c. HaveSame found.items (ranges_of c name.now (dependent_entry dependent.now))) }
{
    let rows = query(
        tx,
        "SELECT range FROM need_ranges WHERE package = ?1 AND version = ?2 AND target = ?3",
        params![
            dependent.package.as_str(),
            dependent.version.as_str(),
            name.text()
        ],
    )?;
    values_of_rows::<TextRow>(alloc, &rows)
}

impl RowKind for Dependent {
    type Value = Dependent;

    ghost Seen = { Bytes × Bytes };

    ghost seen = { dependent_entry };

    ghost spelled = { tag_spelled };

    fn read(row: &Row) -> Result<Dependent, Error> {
        let package: String = row.get(0)?;
        let version: String = row.get(1)?;
        Ok(Dependent {
            package: Text::from(package),
            version: Text::from(version),
        })
    }
}
