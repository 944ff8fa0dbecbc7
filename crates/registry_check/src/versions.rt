//! Live versions, and what they need.

ghost use Rattle.std.specs.Prelude.{◌≡◌, IfOk, option_map};
ghost use Rattle.std.specs.List.{list_all};
ghost use Rattle.registry_names.specs.Keys.{Pair};
ghost use Rattle.registry_publish.specs.Needs as needs;
ghost use Rattle.registry_tables.specs.Contents.{LiveVersion};
ghost use Rattle.registry_check.specs.Problems as spec;
ghost use Rattle.registry_check.specs.Rows.{live_entry, rows_of};
ghost use Rattle.registry_check.specs.Rules as rules;
ghost use Rattle.registry_check.specs.Rules.{live_tests, need_is};

use crate::checked::Checked;
use crate::people::copied;
use crate::problem::{Test, Thing};
use crate::rule::Rule;
use crate::tables::{LiveRow, Tables};
use registry_names::{Fault, Stop};
use registry_publish::{Need, needs_of};
use std::alloc::Global;

/// Live versions.
pub(crate) struct Live;

impl Checked for Live {
    type Row = LiveRow;

    ghost Entry = { Pair × LiveVersion };

    ghost entry = { live_entry };

    ghost about = { spec.version };

    ghost tried = { live_tests };

    fn thing(alloc: Global, row: &LiveRow) -> Result<Thing, Fault> {
        Ok(Thing::Version {
            package: copied(alloc, &row.package)?,
            version: copied(alloc, &row.version)?,
        })
    }

    fn tests(alloc: Global, row: &LiveRow, all: &Tables) -> Result<Vec<Test>, Fault> {
        let has_needs = has_needs(alloc, row, all)?;
        Ok(vec![in alloc;
            Test {
                rule: Rule::HasNeeds,
                holds: has_needs
            },
            Test {
                rule: Rule::HasArchive,
                holds: all.has_archive(row.package.as_str(), row.version.as_str())
            },
            Test {
                rule: Rule::IsBare,
                holds: row.archive.as_slice().is_empty()
            },
        ]?)
    }
}

/// What is stored of their needs.
pub(crate) struct Needs;

/// The needs that a manifest names. `None` for a text that isn't a manifest, or that names needs
/// that aren't in form.
pub(crate) fn named(alloc: Global, manifest: &str) -> Result<Option<Vec<Need>>, Fault>
    ensures { IfOk result (λ named. option_map (λ ns. ns.items) named
        ≡ needs.needs_of manifest.now) }
{
    match needs_of(alloc, manifest) {
        Ok(needs) => Ok(Some(needs)),
        Err(Stop::Refused(_)) => Ok(None),
        Err(Stop::Fault(fault)) => Err(fault),
    }
}

// Whether each need that the manifest names is stored.
fn has_needs(alloc: Global, row: &LiveRow, all: &Tables) -> Result<bool, Fault>
    ensures { IfOk result (λ has. has ≡ rules.are_stored (rows_of all.now)
        (row.now.package, row.now.version) (needs.needs_of row.now.manifest)) }
{
    match named(alloc, row.manifest.as_str())? {
        Some(needs) => Ok(has_all(row, needs.as_slice(), all)),
        None => Ok(true),
    }
}

fn has_all(row: &LiveRow, needs: &[Need], all: &Tables) -> bool
    ensures { result ≡ list_all (λ need. rules.has need_is (rows_of all.now).needs
        (row.now.package, (row.now.version, (need.target, need.range)))) needs.now }
{
    needs.iter().all(|need| all.has_need(row.package.as_str(), row.version.as_str(), need))
}
