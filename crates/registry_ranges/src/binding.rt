//! What a text says of one version, decided while it is read.

ghost use Rattle.std.specs.Prelude.{◌≡◌, ◌↔◌, ◌⊎◌, ◌&&◌, ◌||◌, ◌==◌, length, IfOk, IfErr, IsTrue, true, false};
ghost use Rattle.std.specs.List.{list_all, list_any};
ghost use Rattle.registry_ranges.specs.Bounds.{bound_view, bounds_view, has_pre, IsPart};
ghost use Rattle.registry_ranges.specs.Comparators as spec;
ghost use Rattle.registry_ranges.specs.Comparators.{comparators_of_part, Allows};
ghost use Rattle.registry_ranges.specs.Grammar.{IsRangeText};
ghost use Rattle.registry_ranges.specs.Steps.{part_view};
ghost use Rattle.registry_ranges.specs.Texts as texts;

use crate::bound::{Bound, Bounds, bounds_of};
use crate::comparator::Comparator;
use crate::reader::{Part, Reader, Step};
use registry_names::{Fault, Ver};
use std::alloc::Global;

/// What comparators say of a version.
#[derive(Clone, Copy)]
struct Verdict {
    /// Whether each of them holds.
    all_hold: bool,
    /// Whether one has a prerelease, and the version's three numbers.
    any_is_near: bool,
}

pub(crate) fn is_release(version: &Ver) -> bool
    ensures { result ≡ (length version.now.pre == 0) }
{
    version.as_semver().pre.is_empty()
}

// What one comparator says. Only one with a prerelease takes memory.
fn verdict_of_bound(alloc: Global, bound: Bound<'_>, version: &Ver) -> Result<Verdict, Fault>
    requires { has_pre (bound_view bound) ≡ true }
    ensures holds { IfOk result (λ v. v.all_hold
        ≡ spec.holds version.now (bound_view bound.entry)) }
    ensures near { IfOk result (λ v. v.any_is_near
        ≡ spec.is_near version.now (bound_view bound.entry)) }
    ensures err { IfErr result (λ e. e ≡ Fault.Memory) }
{
    let comparator = Comparator::new(alloc, bound)?;
    Ok(Verdict {
        all_hold: comparator.holds(version),
        any_is_near: comparator.is_near(version),
    })
}

#[tactic(auto, using(crate::proofs::BindingFacts::ends_of_tests))]
fn verdict_of_bounds(alloc: Global, bounds: Bounds<'_>, version: &Ver) -> Result<Verdict, Fault>
    requires { list_all has_pre (bounds_view bounds) ≡ true }
    ensures holds { IfOk result (λ v. v.all_hold
        ≡ list_all (spec.holds version.now) (bounds_view bounds.entry)) }
    ensures near { IfOk result (λ v. v.any_is_near
        ≡ list_any (spec.is_near version.now) (bounds_view bounds.entry)) }
    ensures err { IfErr result (λ e. e ≡ Fault.Memory) }
{
    let (first, second) = bounds;
    let verdict = verdict_of_bound(alloc, first, version)?;
    if let Some(second) = second {
        let more = verdict_of_bound(alloc, second, version)?;
        return Ok(verdict.join(more));
    }
    Ok(verdict)
}

#[tactic(auto, using(crate::proofs::BoundFacts::pre_facts))]
fn verdict_of_part(alloc: Global, part: Part<'_>, version: &Ver) -> Result<Verdict, Fault>
    requires { IsPart (part_view part) }
    ensures holds { IfOk result (λ v. v.all_hold
        ≡ list_all (spec.holds version.now) (comparators_of_part (part_view part.entry))) }
    ensures near { IfOk result (λ v. v.any_is_near
        ≡ list_any (spec.is_near version.now) (comparators_of_part (part_view part.entry))) }
    ensures err { IfErr result (λ e. e ≡ Fault.Memory) }
{
    let bounds = bounds_of(part);
    verdict_of_bounds(alloc, bounds, version)
}

impl Verdict {
    // What no comparators say.
    fn none() -> Verdict
        ensures holds { result.all_hold ≡ true }
        ensures near { result.any_is_near ≡ false }
    {
        Verdict {
            all_hold: true,
            any_is_near: false,
        }
    }

    // What these comparators and others say together.
    fn join(self, more: Verdict) -> Verdict
        ensures holds { result.all_hold ≡ (self.all_hold && more.all_hold) }
        ensures near { result.any_is_near ≡ (self.any_is_near || more.any_is_near) }
    {
        Verdict {
            all_hold: self.all_hold && more.all_hold,
            any_is_near: self.any_is_near || more.any_is_near,
        }
    }

    // What these comparators and those of a part say together.
    fn with_part(self, alloc: Global, part: Part<'_>, version: &Ver) -> Result<Verdict, Fault>
        requires { IsPart (part_view part) }
        ensures holds { IfOk result (λ v. v.all_hold ≡ (self.all_hold
            && list_all (spec.holds version.now) (comparators_of_part (part_view part.entry)))) }
        ensures near { IfOk result (λ v. v.any_is_near ≡ (self.any_is_near
            || list_any (spec.is_near version.now) (comparators_of_part (part_view part.entry)))) }
        ensures err { IfErr result (λ e. e ≡ Fault.Memory) }
    {
        let more = verdict_of_part(alloc, part, version)?;
        Ok(self.join(more))
    }

    // Whether a range that has these comparators allows the version.
    fn allows(self, version: &Ver) -> bool
        ensures { result ≡ (self.all_hold
            && (length version.now.pre == 0 || self.any_is_near)) }
    {
        self.all_hold && (is_release(version) || self.any_is_near)
    }
}

/// Whether the text of a dependency binds a version: it isn't a range, or is one that allows the
/// version. It answers what [`Range`](crate::range::Range) would, and keeps no range: memory is
/// taken for one comparator at a time, and only for one with a prerelease.
#[tactic(auto, using(crate::proofs::BindingFacts::binding))]
pub fn binds(alloc: Global, text: &str, version: &Ver) -> Result<bool, Fault>
    ensures meaning { IfOk result (λ is.
        IsTrue is ↔ ((¬ IsRangeText text.now) ⊎ Allows text.now version.now)) }
    ensures ok { IfOk result (λ is. is ≡ texts.binds text.now version.now) }
    ensures err { IfErr result (λ e. e ≡ Fault.Memory) }
{
    let mut verdict = Verdict::none();
    let mut reader = Reader::new(text.as_bytes());
    'steps: loop {
        match reader.step() {
            Step::Part(part, next) => {
                verdict = verdict.with_part(alloc, part, version)?;
                reader = next;
            }
            Step::Or(next) => {
                if verdict.allows(version) {
                    return Ok(true);
                }
                verdict = Verdict::none();
                reader = Reader::new(next);
            }
            Step::End => return Ok(verdict.allows(version)),
            Step::Wrong => return Ok(true),
        }
    }
}
