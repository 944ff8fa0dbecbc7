//! What the manifest of a version names, for the needs that are stored of the version.
//!
//! The needs that are stored stand in the order of their versions. So a manifest is read once for all
//! needs of its version, and a need is found in it by halving: what this takes grows hardly faster than
//! what is stored, however much one manifest names.

ghost use Rattle.std.specs.Prelude.{◌≡◌, ◌++◌, ◌∷◌, ◌&&◌, [], IfOk, IfSome, IsTrue, OnOk, map, unwrap_or};
ghost use Rattle.std.specs.List.{flat_map, list_any};
ghost use Rattle.std.specs.List.Sorted.{IsPermutation, IsSortedByKey};
ghost use Rattle.std.proofs.Props.{props};
ghost use Rattle.registry_names.specs.Keys.{pair_cmp, pair_is};
ghost use Rattle.registry_names.specs.Texts as texts;
ghost use Rattle.registry_publish.specs.Needs.{needs_of};
ghost use Rattle.registry_check.specs.Naming.{NamesAll, key_of};
ghost use Rattle.registry_check.specs.Problems as spec;
ghost use Rattle.registry_check.specs.Problems.{broken, problems_of};
ghost use Rattle.registry_check.specs.Rows.{need_entry, rows_of};
ghost use Rattle.registry_check.specs.Rules.{need_tests, test};
ghost use Rattle.registry_check.specs.declared.rule.Rule.TheVariants as rules;

use crate::keys::compare_pair;
use crate::order::{contains, rows_with};
use crate::people::copied;
use crate::problem::{Problem, Thing};
use crate::rule::Rule;
use crate::tables::{LiveRow, NeedRow, Tables};
use crate::versions::named;
use registry_names::{Fault, Text};
use registry_publish::Need;
use std::alloc::Global;

/// What the manifest of a live version names, in the order of targets, and then of ranges.
#[derive(Drop)]
pub(crate) struct Named {
    package: Text,
    version: Text,
    needs: Vec<Need>,
    ghost needs_rise: { IsSortedByKey (λ n. (n.target, n.range)) pair_cmp needs.items } by { Prim.hlevel props },
}

impl Named {
    // What is named of the version that the need is of. Nothing where that doesn't live.
    fn load(alloc: Global, row: &NeedRow, all: &Tables) -> Result<Named, Fault>
        ensures names { IfOk result (λ named. NamesAll (rows_of all.now) (named.package, named.version) named.needs.items) }
        ensures of { IfOk result (λ named. (named.package ≡ row.now.package) × (named.version ≡ row.now.version)) }
    {
        let (package, version) = (row.package.as_str(), row.version.as_str());
        let live = rows_with(&all.versions.live, |live| {
            compare_pair(&live.package, &live.version, package, version)
        });
        let needs = needs_of_rows(alloc, live)?;
        Ok(Named {
            package: copied(alloc, &row.package)?,
            version: copied(alloc, &row.version)?,
            needs: in_order_of_targets(needs),
        })
    }

    // Whether the need is of the version.
    fn is_of(&self, row: &NeedRow) -> bool
        ensures { IsTrue result → (self.now.package ≡ row.now.package) × (self.now.version ≡ row.now.version) }
    {
        is_same(&self.package, &row.package) && is_same(&self.version, &row.version)
    }

    // Whether this target is named with this range.
    fn names(&self, target: &str, range: &str) -> bool
        ensures { result ≡ list_any (λ need. pair_is (key_of need) (target.now, range.now)) self.now.needs.items }
    {
        contains(
            &self.needs,
            |need| compare_pair(&need.target, &need.range, target, range),
        )
    }
}

#[tactic(auto, unfolding(registry_names::specs::Texts::is))]
fn is_same(text: &Text, other: &Text) -> bool
    ensures { result ≡ texts.is text.now other.now }
{
    text == other
}

// What the manifests of these versions name.
fn needs_of_rows(alloc: Global, rows: &[LiveRow]) -> Result<Vec<Need>, Fault>
    ensures { IfOk result (λ named. named.items
        ≡ flat_map (λ r. unwrap_or (needs_of r.manifest) []) rows.now) }
{
    let mut needs = Vec::new(alloc);
    for row in rows {
        push_needs_of(alloc, &mut needs, row)?;
    }
    Ok(needs)
}

fn push_needs_of(alloc: Global, needs: &mut Vec<Need>, row: &LiveRow) -> Result<(), Fault>
    ensures { OnOk result (needs.new.items ≡ needs.old.items
        ++ unwrap_or (needs_of row.now.manifest) []) }
{
    if let Some(mut more) = named(alloc, row.manifest.as_str())? {
        needs.append(&mut more)?;
    }
    Ok(())
}

fn in_order_of_targets(needs: Vec<Need>) -> Vec<Need>
    ensures same { IsPermutation needs.items result.items }
    ensures sorted { IsSortedByKey key_of pair_cmp result.items }
{
    let mut needs = needs;
    needs.sort_unstable_by(|need, other| {
        compare_pair(
            &need.target,
            &need.range,
            other.target.as_str(),
            other.range.as_str(),
        )
    });
    needs
}

/// Adds the needs that are stored and that no manifest of their version names.
pub(crate) fn push_needs(
    alloc: Global,
    problems: &mut Vec<Problem>,
    rows: &[NeedRow],
    all: &Tables,
) -> Result<(), Fault>
    ensures { OnOk result (problems.new.items ≡ problems.old.items
        ++ problems_of spec.need (need_tests (rows_of all.now)) (map need_entry rows.now)) }
{
    let mut last = None;
    for row in rows {
        let named = named_for(alloc, last, row, all)?;
        push_unless_named(alloc, problems, row, &named)?;
        last = Some(named);
    }
    Ok(())
}

// What is named of the version that the need is of: what was loaded last, where that is of it.
fn named_for(
    alloc: Global,
    last: Option<Named>,
    row: &NeedRow,
    all: &Tables,
) -> Result<Named, Fault>
    requires last { IfSome last (λ named. NamesAll (rows_of all.now) (named.package, named.version) named.needs.items) }
    ensures names { IfOk result (λ named. NamesAll (rows_of all.now) (named.package, named.version) named.needs.items) }
    ensures of { IfOk result (λ named. (named.package ≡ row.now.package) × (named.version ≡ row.now.version)) }
{
    match last {
        Some(named) if named.is_of(row) => Ok(named),
        _ => Named::load(alloc, row, all),
    }
}

// Adds the need, unless it is named.
fn push_unless_named(
    alloc: Global,
    problems: &mut Vec<Problem>,
    row: &NeedRow,
    named: &Named,
) -> Result<(), Fault>
    ensures { OnOk result (problems.new.items ≡ problems.old.items
        ++ broken (spec.need (need_entry row.now)) (test rules.IsNamed
        (list_any (λ need. pair_is (key_of need) (row.now.target, row.now.range)) named.now.needs.items) ∷ [])) }
{
    if !named.names(row.target.as_str(), row.range.as_str()) {
        let thing = Thing::Need {
            package: copied(alloc, &row.package)?,
            version: copied(alloc, &row.version)?,
            target: copied(alloc, &row.target)?,
            range: copied(alloc, &row.range)?,
        };
        problems.push(Problem {
            rule: Rule::IsNamed,
            thing,
        })?;
    }
    Ok(())
}
