//! Which texts are ranges.

ghost use Rattle.std.specs.Prelude.{◌≡◌, ◌↔◌, IsTrue};
ghost use Rattle.registry_ranges.specs.Grammar.{IsRangeText};

use crate::reader::{Reader, Step};

/// Whether a text is a range of versions, after the grammar of node-semver.
#[tactic(auto, using(crate::proofs::RangeTextFacts::range_texts))]
pub fn is_range(text: &str) -> bool
    ensures { IsTrue result ↔ IsRangeText text.now }
{
    let mut reader = Reader::new(text.as_bytes());
    'steps: loop {
        match reader.step() {
            Step::Part(_, next) => reader = next,
            Step::Or(next) => reader = Reader::new(next),
            Step::End => return true,
            Step::Wrong => return false,
        }
    }
}
