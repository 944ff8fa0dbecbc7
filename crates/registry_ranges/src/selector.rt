//! Selectors of versions.

ghost use Rattle.std.specs.Prelude.{◌≡◌, ◌↔◌, ◌⊎◌, ◌++◌, ◌∷◌, [], Err, IfOk, IfErr, IsTrue};
ghost use Rattle.registry_ranges.specs.Intervals.{CoverWhat};
ghost use Rattle.registry_ranges.specs.SelectorViews.{conditions_read};
ghost use Rattle.registry_ranges.specs.Selectors as spec;
ghost use Rattle.registry_ranges.specs.Selectors.{HasConditions, IsSelector, SelectsAs};

use crate::condition::question_of;
use crate::interval::Interval;
use crate::intervals::{FEWEST, add, cover, put_in_order};
use crate::reader::{Reader, Step};
use registry_names::{Fault, Refusal, Stop, Ver};
use std::alloc::Global;
use std::marker::Model;

/// A selector of versions, as a deprecation states it: a range set whose ranges have no hyphen
/// form, no tilde, no caret and no operator before a partial version with a wildcard. Contracts
/// see its conditions, one list for each of the ranges that `||` separates.
#[derive(Debug, Drop)]
pub struct Selector {
    // Its conditions, which contracts see, are those of its text.
    text: String,
    // The versions that they select.
    intervals: Vec<Interval>,
}

impl Model for Selector {
    ghost use Rattle.std.specs.Prelude.{List, string_bytes};
    ghost use Rattle.registry_ranges.specs.Selectors.{Condition};

    ghost Value = { List (List Condition) };

    ghost use Rattle.registry_ranges.specs.Intervals.{Ascend, CoverWhat};
    ghost use Rattle.registry_ranges.specs.SelectorViews.{conditions_read};

    ghost view = { λ s. conditions_read (string_bytes s.text) };

    ghost invariant = { λ s. CoverWhat (conditions_read (string_bytes s.text)) s.intervals.items
        × Ascend s.intervals.items };
}

// Whether a text is a selector.
fn is_selector(text: &str) -> bool
    ensures { IsTrue result ↔ IsSelector text.now }
{
    let mut reader = Reader::new(text.as_bytes());
    'steps: loop {
        match reader.step() {
            Step::Part(part, next) => {
                let Some(_) = question_of(part) else {
                    return false;
                };
                reader = next;
            }
            Step::Or(next) => reader = Reader::new(next),
            Step::End => return true,
            Step::Wrong => return false,
        }
    }
}

impl Selector {
    // The selector of a text, whose last range is still apart from the others.
    #[tactic(auto, using(crate::proofs::SelectorFacts::new_facts))]
    fn new(
        alloc: Global,
        text: &str,
        intervals: Vec<Interval>,
        last: Interval,
    ) -> Result<Selector, Fault>
        requires read { HasConditions text.now (conditions_read text.now) }
        requires cover { CoverWhat (conditions_read text.now) (intervals.items ++ last ∷ []) }
        ensures ok { IfOk result (HasConditions text.now) }
        ensures err { IfErr result (λ e. e ≡ Fault.Memory) }
    {
        let text = String::from_str(alloc, text)?;
        let mut intervals = intervals;
        intervals.push(last)?;
        put_in_order(&mut intervals);
        Ok(Selector { text, intervals })
    }

    // Reads a text that is a selector.
    fn read(alloc: Global, text: &str) -> Result<Selector, Fault>
        requires { IsSelector text.now }
        ensures ok { IfOk result (HasConditions text.now) }
        ensures err { IfErr result (λ e. e ≡ Fault.Memory) }
    {
        let mut intervals = Vec::new(alloc);
        let mut limit = FEWEST;
        let mut range = Interval::whole();
        let mut reader = Reader::new(text.as_bytes());
        'steps: loop {
            match reader.step() {
                Step::Part(part, next) => {
                    let Some(question) = question_of(part) else {
                        unreachable!();
                    };
                    let asked = Interval::of(alloc, question)?;
                    range = range.meet(asked);
                    reader = next;
                }
                Step::Or(next) => {
                    limit = add(&mut intervals, limit, range)?;
                    range = Interval::whole();
                    reader = Reader::new(next);
                }
                Step::End => return Selector::new(alloc, text, intervals, range),
                Step::Wrong => unreachable!(),
            }
        }
    }

    /// Reads a selector.
    ///
    /// `BadSelector` is returned exactly for a text that isn't one, and `Memory` only for a
    /// selector, when no memory is left.
    #[tactic(auto, using(crate::proofs::SelectorFacts::parse_facts))]
    pub fn parse(alloc: Global, text: &str) -> Result<Selector, Stop>
        ensures ok { IfOk result (HasConditions text.now) }
        ensures meaning { IfOk result (SelectsAs text.now) }
        ensures refused { (result ≡ Err (Stop.Refused Refusal.BadSelector))
            ↔ (¬ IsSelector text.now) }
        ensures err { IfErr result (λ e. (e ≡ Stop.Fault Fault.Memory)
            ⊎ (e ≡ Stop.Refused Refusal.BadSelector)) }
    {
        if !is_selector(text) {
            return Err(Stop::Refused(Refusal::BadSelector));
        }
        Ok(Selector::read(alloc, text)?)
    }

    /// Whether a version is selected. Takes no memory.
    #[tactic(auto, using(crate::proofs::SelectorFacts::selects_facts))]
    pub fn selects(&self, version: &Ver) -> bool
        ensures { result ≡ spec.set_selects version.now self.now }
    {
        // Reading the text tells the prover that the version's numbers are in bounds.
        let _valid = version.text();
        cover(self.intervals.as_slice(), version)
    }
}
