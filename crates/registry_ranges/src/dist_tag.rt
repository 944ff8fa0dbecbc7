//! Which texts are dist-tags.

ghost use Rattle.std.specs.Prelude.{◌≡◌, ◌↔◌, ◌⊎◌, Err, IfOk, IfErr};
ghost use Rattle.registry_ranges.specs.Grammar.{IsRangeText};
ghost use Rattle.registry_ranges.specs.Tags.{IsNeither, IsTag};

use crate::range_text::is_range;
use registry_names::{Fault, Refusal, Stop, TagText};
use std::alloc::Global;

/// Reads the text of a dist-tag: 1 to 214 characters of a tag that aren't a range of versions. So a
/// request for a package by tag or range has only one meaning.
///
/// `RangeTag` is returned exactly for a range, whatever its characters are, `BadTag` exactly for
/// any other text that doesn't have the characters and the length of a tag, and `Memory` only for a
/// tag, when no memory is left.
pub fn tag(alloc: Global, text: &str) -> Result<TagText, Stop>
    ensures ok { IfOk result (λ t. (t ≡ text.now) × IsTag text.now) }
    ensures range { (result ≡ Err (Stop.Refused Refusal.RangeTag)) ↔ IsRangeText text.now }
    ensures bad { (result ≡ Err (Stop.Refused Refusal.BadTag)) ↔ IsNeither text.now }
    ensures fault { result ≡ Err (Stop.Fault Fault.Memory) → IsTag text.now }
    ensures err { IfErr result (λ e. (e ≡ Stop.Fault Fault.Memory)
        ⊎ ((e ≡ Stop.Refused Refusal.RangeTag) ⊎ (e ≡ Stop.Refused Refusal.BadTag))) }
{
    if is_range(text) {
        return Err(Stop::Refused(Refusal::RangeTag));
    }
    TagText::shape(alloc, text)
}
