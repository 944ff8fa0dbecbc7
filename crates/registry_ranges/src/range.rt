//! Ranges of versions.

ghost use Rattle.std.specs.Prelude.{◌≡◌, ◌≤◌, ◌↔◌, ◌∷◌, [], length, slice_range, Ok, None, IfOk, IfErr, IfSome, OnOk, true};
ghost use Rattle.std.specs.List.{list_all, list_any};
ghost use Rattle.registry_ranges.specs.Bounds.{bound_view, bounds_view, comparator_view, has_pre, IsPart};
ghost use Rattle.registry_ranges.specs.Comparators as spec;
ghost use Rattle.registry_ranges.specs.Comparators.{HasComparators, Means};
ghost use Rattle.registry_ranges.specs.Grammar.{IsRangeText};
ghost use Rattle.registry_ranges.specs.Values.{IsUnambiguous};
ghost use Rattle.registry_ranges.specs.RangeViews.{Adds, AddsPart, AreEnds, PushesRangeEnd};
ghost use Rattle.registry_ranges.specs.RangeViews.{comparators_view, count_of, ranges_in};
ghost use Rattle.registry_ranges.specs.Steps.{part_view};

use crate::bound::{Bound, Bounds, bounds_of};
use crate::comparator::Comparator;
use crate::range_text::is_range;
use crate::reader::{Part, Reader, Step};
use registry_names::{Fault, Ver};
use std::alloc::Global;
use std::marker::Model;

/// A range of versions, as a dependency states it: which versions it allows. Contracts see its
/// comparators, one list for each of the ranges that `||` separates.
#[derive(Debug, Drop)]
pub struct Range {
    // The comparators of each range, one range after another.
    comparators: Vec<Comparator>,
    // Where each range ends among them.
    ends: Vec<usize>,
}

impl Model for Range {
    ghost use Rattle.std.specs.Prelude.{List};
    ghost use Rattle.registry_ranges.specs.Comparators.{Comparator};

    ghost Value = { List (List Comparator) };

    ghost use Rattle.registry_ranges.specs.RangeViews.{AreEnds, count_of, ranges_view};

    ghost view = { λ r. ranges_view r.ends r.comparators };

    ghost invariant = { λ r. AreEnds 0 r.ends.items (count_of r.comparators.items) };
}

fn push(alloc: Global, comparators: &mut Vec<Comparator>, bound: Bound<'_>) -> Result<(), Fault>
    requires { has_pre (bound_view bound) ≡ true }
    ensures ok { OnOk result (Adds comparators.old comparators.new (bound_view bound.entry ∷ [])) }
    ensures err { IfErr result (λ e. e ≡ Fault.Memory) }
{
    let comparator = Comparator::new(alloc, bound)?;
    comparators.push(comparator)?;
    Ok(())
}

fn push_all(
    alloc: Global,
    comparators: &mut Vec<Comparator>,
    bounds: Bounds<'_>,
) -> Result<(), Fault>
    requires { list_all has_pre (bounds_view bounds) ≡ true }
    ensures ok { OnOk result (Adds comparators.old comparators.new (bounds_view bounds.entry)) }
    ensures err { IfErr result (λ e. e ≡ Fault.Memory) }
{
    let (first, second) = bounds;
    push(alloc, comparators, first)?;
    if let Some(second) = second {
        push(alloc, comparators, second)?;
    }
    Ok(())
}

#[tactic(auto, using(crate::proofs::BoundFacts::pre_facts))]
fn push_part(alloc: Global, comparators: &mut Vec<Comparator>, part: Part<'_>) -> Result<(), Fault>
    requires { IsPart (part_view part) }
    ensures ok { OnOk result (AddsPart comparators.old comparators.new (part_view part.entry)) }
    ensures err { IfErr result (λ e. e ≡ Fault.Memory) }
{
    let bounds = bounds_of(part);
    push_all(alloc, comparators, bounds)
}

// A range ends after all comparators that are kept.
#[tactic(auto, using(crate::proofs::PieceFacts::view_facts))]
fn push_end(ends: &mut Vec<usize>, comparators: &Vec<Comparator>) -> Result<(), Fault>
    ensures ok { OnOk result (PushesRangeEnd ends.old ends.new comparators.now) }
    ensures err { IfErr result (λ e. e ≡ Fault.Memory) }
{
    ends.push(comparators.len())?;
    Ok(())
}

fn all_hold(range: &[Comparator], version: &Ver) -> bool
    ensures { result ≡ list_all (λ c. spec.holds version.now (comparator_view c)) range.now }
{
    range.iter().all(|comparator| comparator.holds(version))
}

fn any_is_near(range: &[Comparator], version: &Ver) -> bool
    ensures { result ≡ list_any (λ c. spec.is_near version.now (comparator_view c)) range.now }
{
    range.iter().any(|comparator| comparator.is_near(version))
}

#[tactic(auto, using(crate::proofs::RangeFacts::tests_of_views))]
fn range_allows(range: &[Comparator], version: &Ver) -> bool
    ensures { result ≡ spec.range_allows version.now (comparators_view range.now) }
{
    all_hold(range, version) && (version.as_semver().pre.is_empty() || any_is_near(range, version))
}

// The range between two places.
#[tactic(auto, using(crate::proofs::PieceFacts::view_facts))]
fn range_at(comparators: &[Comparator], start: usize, end: usize) -> &[Comparator]
    requires { (start ≤ end) × (end ≤ length comparators.now) }
    ensures { comparators_view result.now
        ≡ slice_range (comparators_view comparators.now) start end }
{
    &comparators[start..end]
}

fn set_allows(ends: &[usize], comparators: &[Comparator], version: &Ver) -> bool
    requires { AreEnds 0 ends.now (count_of comparators.now) }
    ensures { result ≡ spec.set_allows version.now (ranges_in ends.now comparators.now) }
{
    let mut start = 0;
    'places: for i in 0..ends.len() {
        let end = ends[i];
        if range_allows(range_at(comparators, start, end), version) {
            return true;
        }
        start = end;
    }
    false
}

impl Range {
    // Reads a range: `None` for a text that isn't one, if the memory lasts until then.
    fn read(alloc: Global, text: &str) -> Result<Option<Range>, Fault>
        ensures found { IfOk result (λ r. IfSome r (HasComparators text.now)) }
        ensures meaning { IfOk result (λ r. IfSome r (Means text.now)) }
        ensures none { result ≡ Ok None → ¬ IsRangeText text.now }
        ensures err { IfErr result (λ e. e ≡ Fault.Memory) }
    {
        let mut comparators = Vec::new(alloc);
        let mut ends = Vec::new(alloc);
        let mut reader = Reader::new(text.as_bytes());
        'steps: loop {
            match reader.step() {
                Step::Part(part, next) => {
                    push_part(alloc, &mut comparators, part)?;
                    reader = next;
                }
                Step::Or(next) => {
                    push_end(&mut ends, &comparators)?;
                    reader = Reader::new(next);
                }
                Step::End => {
                    push_end(&mut ends, &comparators)?;
                    return Ok(Some(Range { comparators, ends }));
                }
                Step::Wrong => return Ok(None),
            }
        }
    }

    /// Reads a range, after the grammar of node-semver. `None` is returned exactly for a text that
    /// isn't one, also when no memory is left.
    #[tactic(auto, using(crate::proofs::RangeFacts::parse_facts))]
    pub fn parse(alloc: Global, text: &str) -> Result<Option<Range>, Fault>
        ensures found { IfOk result (λ r. IfSome r (HasComparators text.now)) }
        ensures meaning { IfOk result (λ r. IfSome r (Means text.now)) }
        ensures none { (result ≡ Ok None) ↔ (¬ IsRangeText text.now) }
        ensures err { IfErr result (λ e. e ≡ Fault.Memory) }
        ensures unambiguous { IsUnambiguous text.now }
    {
        let read = Range::read(alloc, text);
        if read.is_err() && !is_range(text) {
            return Ok(None);
        }
        read
    }

    /// Whether the range allows a version. Takes no memory.
    pub fn allows(&self, version: &Ver) -> bool
        ensures { result ≡ spec.set_allows version.now self.now }
    {
        set_allows(&self.ends, &self.comparators, version)
    }
}
