//! Who needs a version.

ghost use Rattle.std.specs.Prelude.{◌≡◌, IfOk, map};
ghost use Rattle.std.specs.List.{list_any};
ghost use Rattle.std.specs.List.Sorted.{IsSorted};
ghost use Rattle.registry_names.specs.Versions.{precedence};
ghost use Rattle.registry_rules.specs.Withdrawals as definitions;
ghost use Rattle.registry_tables.specs.Contents.{registry_of};
ghost use Rattle.registry_tables.specs.Dependents.{HaveSame, binds_one, dependent_entry, ranges_of};
ghost use Rattle.registry_tables.specs.Inside.{Finds, Knows};
ghost use Rattle.registry_tables.specs.Needs.{HoldsNeeds};
ghost use Rattle.registry_tables.specs.Withdrawals.{ranges_on, version_text};

use crate::needs::{Dependent, load_dependents, load_ranges};
use crate::texts::read_back;
use registry_names::{Fault, Name, Text, Ver};
use registry_ranges::binds_any;
use registry_rules::LiveVersion;
use sqlite::{Alter, Transaction};
use std::alloc::Global;
use std::slice;

/// Whether a live version of another package needs this version: with a text that isn't a range, or
/// with a range that allows it. The ranges of one version are read at a time, up to the first that
/// does.
pub fn is_depended<S: Alter>(
    alloc: Global,
    tx: &mut Transaction<'_, S>,
    name: &Name,
    version: &Ver,
) -> Result<bool, Fault>
    ensures { Finds S.Store tx.old tx.new result
        (λ depended c. HoldsNeeds c → depended
        ≡ definitions.is_depended (registry_of c) name.now version.now) }
{
    is_one_bound(alloc, tx, name, slice::from_ref(version))
}

/// Whether a live version of another package needs one of these versions. Each range is read once for
/// all of them, the ranges of one version at a time, up to the first that does.
pub fn is_any_depended<S: Alter>(
    alloc: Global,
    tx: &mut Transaction<'_, S>,
    name: &Name,
    live: &[LiveVersion],
) -> Result<bool, Fault>
    ensures { Finds S.Store tx.old tx.new result
        (λ depended c. HoldsNeeds c → depended
        ≡ list_any (definitions.is_depended (registry_of c) name.now)
        (definitions.versions_in (map version_text live.now))) }
{
    let versions = in_order(alloc, live)?;
    is_one_bound(alloc, tx, name, &versions)
}

// The versions of the rows, in order.
fn in_order(alloc: Global, live: &[LiveVersion]) -> Result<Vec<Ver>, Fault>
    ensures sorted { IfOk result (λ versions. IsSorted precedence versions.items) }
    ensures same { IfOk result (λ versions. HaveSame versions.items
        (definitions.versions_in (map version_text live.now))) }
{
    let mut versions = versions_of(alloc, live)?;
    versions.sort_unstable();
    Ok(versions)
}

// The versions of the rows.
fn versions_of(alloc: Global, live: &[LiveVersion]) -> Result<Vec<Ver>, Fault>
    ensures { IfOk result (λ versions. versions.items
        ≡ definitions.versions_in (map version_text live.now)) }
{
    let mut versions = Vec::new(alloc);
    for row in live {
        let version = read_back(Ver::parse(alloc, row.version.text()))?;
        versions.push(version)?;
    }
    Ok(versions)
}

// Whether a range in which another package needs this one binds one of the versions, which are in
// order.
fn is_one_bound<S: Alter>(
    alloc: Global,
    tx: &mut Transaction<'_, S>,
    name: &Name,
    versions: &[Ver],
) -> Result<bool, Fault>
    requires sorted { IsSorted precedence versions.now }
    ensures { Finds S.Store tx.old tx.new result
        (λ any c. any ≡ list_any (binds_one versions.now) (ranges_on c name.now)) }
{
    let dependents = load_dependents(alloc, tx, name)?;
    any_binds(alloc, tx, name, &dependents, versions)
}

// The same of the ranges of these versions of other packages.
fn any_binds<S: Alter>(
    alloc: Global,
    tx: &mut Transaction<'_, S>,
    name: &Name,
    dependents: &[Dependent],
    versions: &[Ver],
) -> Result<bool, Fault>
    requires sorted { IsSorted precedence versions.now }
    ensures { Knows S.Store tx.old tx.new result
        (λ any c. any ≡ list_any (λ k. list_any (binds_one versions.now) (ranges_of c name.now k))
        (map dependent_entry dependents.now)) }
{
    for dependent in dependents {
        if dependent_binds(alloc, tx, name, dependent, versions)? {
            return Ok(true);
        }
    }
    Ok(false)
}

// The same of the ranges of one version.
fn dependent_binds<S: Alter>(
    alloc: Global,
    tx: &mut Transaction<'_, S>,
    name: &Name,
    dependent: &Dependent,
    versions: &[Ver],
) -> Result<bool, Fault>
    requires sorted { IsSorted precedence versions.now }
    ensures { Finds S.Store tx.old tx.new result
        (λ any c. any ≡ list_any (binds_one versions.now)
        (ranges_of c name.now (dependent_entry dependent.now))) }
{
    let texts = load_ranges(alloc, tx, name, dependent)?;
    any_text_binds(alloc, &texts, versions)
}

// Whether one of the texts binds one of the versions.
fn any_text_binds(alloc: Global, texts: &[Text], versions: &[Ver]) -> Result<bool, Fault>
    requires sorted { IsSorted precedence versions.now }
    ensures { IfOk result (λ any. any ≡ list_any (binds_one versions.now) texts.now) }
{
    for text in texts {
        if binds_any(alloc, text.as_str(), versions)? {
            return Ok(true);
        }
    }
    Ok(false)
}
