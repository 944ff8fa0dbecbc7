//! Whether a text binds one of many versions, decided while it is read once.

ghost use Rattle.std.specs.Prelude.{◌≡◌, ◌≢◌, ◌||◌, ◌==◌, ◌∷◌, [], filter, length, not, IfOk, IfErr, OnOk, true};
ghost use Rattle.std.specs.List.{list_all, list_any};
ghost use Rattle.std.specs.List.Sorted.{IsSorted};
ghost use Rattle.registry_names.specs.Versions.{precedence};
ghost use Rattle.registry_ranges.specs.Bounds.{bound_view, bounds_view, comparator_view, has_pre, IsPart};
ghost use Rattle.registry_ranges.specs.Comparators as spec;
ghost use Rattle.registry_ranges.specs.Comparators.{comparators_of_part};
ghost use Rattle.registry_ranges.specs.Many.{IsFromTop, IsToTop, KeepsNear, is_named, with_relation};
ghost use Rattle.registry_ranges.specs.Steps.{part_view};
ghost use Rattle.registry_ranges.specs.Texts as texts;

use crate::binding::is_release;
use crate::bound::{Bound, Bounds, bounds_of};
use crate::comparator::{Comparator, has_numbers};
use crate::reader::{Part, Reader, Step};
use crate::relation::Relation;
use registry_names::{Fault, Ver};
use std::alloc::Global;

/// The three numbers of a comparator that has a prerelease.
#[derive(Clone, Copy)]
struct Numbers {
    major: u64,
    minor: u64,
    patch: u64,
}

// The versions of which a comparator holds, where it holds of all up to one.
fn first_ones<'a>(versions: &'a [Ver], comparator: &Comparator) -> &'a [Ver]
    requires sorted { IsSorted precedence versions.now }
    requires relation { IsToTop (comparator_view comparator.now).relation }
    ensures { result.now
        ≡ filter (λ v. spec.holds v (comparator_view comparator.now)) versions.now }
{
    let count = versions.partition_point(
        |version: &Ver| -> bool
            ensures { result ≡ spec.holds version.now (comparator_view comparator.entry.now) }
        { comparator.holds(version) },
    );
    &versions[..count]
}

// The same where it holds of all from one on.
fn last_ones<'a>(versions: &'a [Ver], comparator: &Comparator) -> &'a [Ver]
    requires sorted { IsSorted precedence versions.now }
    requires relation { IsFromTop (comparator_view comparator.now).relation }
    ensures { result.now
        ≡ filter (λ v. spec.holds v (comparator_view comparator.now)) versions.now }
{
    let count = versions.partition_point(
        |version: &Ver| -> bool
            ensures { result ≡ not (spec.holds version.now (comparator_view comparator.entry.now)) }
        { !comparator.holds(version) },
    );
    &versions[count..]
}

// The versions within a bound that isn't `=`.
fn within_end<'a>(alloc: Global, versions: &'a [Ver], bound: Bound<'_>) -> Result<&'a [Ver], Fault>
    requires sorted { IsSorted precedence versions.now }
    requires pre { has_pre (bound_view bound) ≡ true }
    requires relation { bound.relation ≢ Relation.Equal }
    ensures ok { IfOk result (λ left. left.now
        ≡ filter (λ v. spec.holds v (bound_view bound.entry)) versions.now) }
    ensures err { IfErr result (λ e. e ≡ Fault.Memory) }
{
    let comparator = Comparator::new(alloc, bound)?;
    match bound.relation {
        Relation::Less | Relation::LessEq => Ok(first_ones(versions, &comparator)),
        _ => Ok(last_ones(versions, &comparator)),
    }
}

fn with_relation(bound: Bound<'_>, relation: Relation) -> Bound<'_>
    ensures { bound_view result ≡ with_relation relation (bound_view bound.entry) }
{
    Bound {
        relation,
        major: bound.major,
        minor: bound.minor,
        patch: bound.patch,
        pre: bound.pre,
    }
}

// The versions within a bound: `=` is both `>=` and `<=`.
fn within<'a>(alloc: Global, versions: &'a [Ver], bound: Bound<'_>) -> Result<&'a [Ver], Fault>
    requires sorted { IsSorted precedence versions.now }
    requires pre { has_pre (bound_view bound) ≡ true }
    ensures ok { IfOk result (λ left. left.now
        ≡ filter (λ v. spec.holds v (bound_view bound.entry)) versions.now) }
    ensures err { IfErr result (λ e. e ≡ Fault.Memory) }
{
    match bound.relation {
        Relation::Equal => {
            let from = with_relation(bound, Relation::GreaterEq);
            let to = with_relation(bound, Relation::LessEq);
            let left = within_end(alloc, versions, from)?;
            within_end(alloc, left, to)
        }
        _ => within_end(alloc, versions, bound),
    }
}

// Keeps the numbers of a comparator that has a prerelease.
fn keep_numbers(near: &mut Vec<Numbers>, bound: Bound<'_>) -> Result<(), Fault>
    ensures ok { OnOk result (KeepsNear near.old.items near.new.items (bound_view bound.entry ∷ [])) }
    ensures err { IfErr result (λ e. e ≡ Fault.Memory) }
{
    if !bound.pre.is_empty() {
        near.push(Numbers {
            major: bound.major,
            minor: bound.minor,
            patch: bound.patch,
        })?;
    }
    Ok(())
}

// The versions within one bound or two, whose numbers are kept.
fn within_all<'a>(
    alloc: Global,
    versions: &'a [Ver],
    near: &mut Vec<Numbers>,
    bounds: Bounds<'_>,
) -> Result<&'a [Ver], Fault>
    requires sorted { IsSorted precedence versions.now }
    requires pre { list_all has_pre (bounds_view bounds) ≡ true }
    ensures ok { IfOk result (λ left. left.now
        ≡ filter (λ v. list_all (spec.holds v) (bounds_view bounds.entry)) versions.now) }
    ensures near { OnOk result (KeepsNear near.old.items near.new.items (bounds_view bounds.entry)) }
    ensures err { IfErr result (λ e. e ≡ Fault.Memory) }
{
    let (first, second) = bounds;
    keep_numbers(near, first)?;
    let left = within(alloc, versions, first)?;
    if let Some(second) = second {
        keep_numbers(near, second)?;
        return within(alloc, left, second);
    }
    Ok(left)
}

// The versions of which the comparators of a part hold.
fn within_part<'a>(
    alloc: Global,
    versions: &'a [Ver],
    near: &mut Vec<Numbers>,
    part: Part<'_>,
) -> Result<&'a [Ver], Fault>
    requires sorted { IsSorted precedence versions.now }
    requires part { IsPart (part_view part) }
    ensures ok { IfOk result (λ left. left.now
        ≡ filter (λ v. list_all (spec.holds v) (comparators_of_part (part_view part.entry)))
        versions.now) }
    ensures near { OnOk result (KeepsNear near.old.items near.new.items
        (comparators_of_part (part_view part.entry))) }
    ensures err { IfErr result (λ e. e ≡ Fault.Memory) }
{
    let bounds = bounds_of(part);
    within_all(alloc, versions, near, bounds)
}

fn is_named(near: &[Numbers], version: &Ver) -> bool
    ensures { result ≡ is_named near.now version.now }
{
    near.iter()
        .any(|it| has_numbers(version, it.major, it.minor, it.patch))
}

// Whether a range allows a version of which all its comparators hold.
fn is_allowed(near: &[Numbers], version: &Ver) -> bool
    ensures { result ≡ (length version.now.pre == 0 || is_named near.now version.now) }
{
    is_release(version) || is_named(near, version)
}

fn any_is_allowed(near: &[Numbers], versions: &[Ver]) -> bool
    ensures { result ≡ list_any (λ v. length v.pre == 0 || is_named near.now v) versions.now }
{
    versions.iter().any(|version| is_allowed(near, version))
}

/// Whether the text of a dependency binds one of the versions, which are in order of precedence. The
/// text is read once. Each comparator is searched for among the versions, in as many comparisons as
/// their number has binary digits. Memory is taken for one comparator at a time, and for three
/// numbers of each comparator of a range that has a prerelease.
pub fn binds_any(alloc: Global, text: &str, versions: &[Ver]) -> Result<bool, Fault>
    requires sorted { IsSorted precedence versions.now }
    ensures ok { IfOk result (λ any. any ≡ list_any (texts.binds text.now) versions.now) }
    ensures err { IfErr result (λ e. e ≡ Fault.Memory) }
{
    let mut near = Vec::new(alloc);
    let mut left = versions;
    let mut reader = Reader::new(text.as_bytes());
    'steps: loop {
        match reader.step() {
            Step::Part(part, next) => {
                left = within_part(alloc, left, &mut near, part)?;
                reader = next;
            }
            Step::Or(next) => {
                if any_is_allowed(&near, left) {
                    return Ok(true);
                }
                near.clear();
                left = versions;
                reader = Reader::new(next);
            }
            Step::End => return Ok(any_is_allowed(&near, left)),
            Step::Wrong => return Ok(!versions.is_empty()),
        }
    }
}
