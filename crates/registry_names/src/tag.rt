//! The texts of dist-tags.

ghost use Rattle.std.specs.Prelude.{◌≡◌, List, ℕ, string_bytes, bytes_eq, IfOk, IfErr, Some, true, false};
ghost use Rattle.std.specs.List.{list_all};
ghost use Rattle.std.specs.Cmp.Rules.{comparing, hashing};
ghost use Rattle.std.specs.Hash as fed;
ghost use Rattle.std.proofs.Common.{rules};
ghost use Rattle.registry_names.specs.Faults.{IsMemoryOr, IsRefused};
ghost use Rattle.registry_names.specs.Tags as spec;
ghost use Rattle.registry_names.specs.Tags.{is_tag_char};
ghost use Rattle.registry_names.specs.Texts.{text_cmp};

use crate::form::kept_in_form;
use crate::refusal::Refusal;
use crate::stop::Stop;
use std::alloc::Global;
use std::cmp::Ordering;
use std::convert::AsStr;
use std::fmt;
use std::hash::{Hash, Hasher};
use std::marker::Model;

/// The tag that exists while a version lives.
pub const LATEST: &str = "latest";

const LONGEST: usize = 214;

fn is_tag_byte(byte: u8) -> bool
    ensures { result ≡ is_tag_char byte }
{
    byte.is_ascii_alphanumeric() || b"-_.!~*'()".contains(&byte)
}

fn all_tag_bytes(text: &[u8]) -> bool
    ensures { result ≡ list_all is_tag_char text.now }
{
    text.iter().all(|byte| is_tag_byte(*byte))
}

fn is_tag(text: &str) -> bool
    ensures { result ≡ spec.is_tag text.now }
{
    1 <= text.len() && text.len() <= LONGEST && all_tag_bytes(text.as_bytes())
}

/// The text of a dist-tag: 1 to 214 characters of `A-Z a-z 0-9 - _ . ! ~ * ' ( )`, which stand for
/// themselves in a URL. Contracts see its text.
///
/// Whether a text is a range of versions is tested elsewhere, before its characters are.
#[derive(Debug, Drop)]
pub struct TagText {
    text: String,
}

impl Model for TagText {
    ghost Value = { List ℕ };

    ghost view = { λ t. string_bytes t.text };

    ghost invariant = { λ t. spec.is_tag (string_bytes t.text) ≡ true };
}

impl TagText {
    /// Reads a text that has the characters and the length of a tag.
    ///
    /// `BadTag` is returned exactly for a text that doesn't have them, and `Memory` when no memory
    /// is left.
    pub fn shape(alloc: Global, text: &str) -> Result<TagText, Stop>
        ensures ok { IfOk result (λ t. (t ≡ text.now) × (spec.is_tag text.now ≡ true)) }
        ensures err { IfErr result (IsMemoryOr Refusal.BadTag (spec.is_tag text.now ≡ false)) }
        ensures refused { spec.is_tag text.now ≡ false → IsRefused result Refusal.BadTag }
    {
        let text = kept_in_form(alloc, text, is_tag(text), Refusal::BadTag)?;
        Ok(TagText { text })
    }

    /// The text that was read.
    pub fn text(&self) -> &str
        ensures text { result.now ≡ self.now }
        ensures form { spec.is_tag self.now ≡ true }
    {
        self.text.as_str()
    }
}

impl PartialEq for TagText {
    ghost eq = { bytes_eq };

    ghost laws = { Prim.search (comparing, rules) };

    fn eq(&self, other: &TagText) -> bool {
        self.text() == other.text()
    }
}

impl Eq for TagText {
    ghost laws = { Prim.search (comparing, rules) };
}

impl PartialOrd for TagText {
    ghost partial_cmp = { λ x y. Some (text_cmp x y) };

    ghost laws = { Prim.search (comparing, rules) };

    fn partial_cmp(&self, other: &TagText) -> Option<Ordering> {
        Some(self.cmp(other))
    }
}

/// By bytes, as Rust orders texts.
impl Ord for TagText {
    ghost cmp = { text_cmp };

    ghost total = { Prim.search (comparing, rules) };

    ghost matches_partial_cmp = { Prim.search (comparing, rules) };

    ghost matches_eq = { Prim.search (comparing, rules) };

    fn cmp(&self, other: &TagText) -> Ordering {
        self.text().cmp(other.text())
    }
}

/// As its text.
impl Hash for TagText {
    ghost hash_input = { fed.str };

    ghost respects_eq = { Prim.search (hashing, rules) };

    fn hash<H: Hasher>(&self, state: &mut H) {
        self.text().hash(state);
    }
}

impl AsStr for TagText {
    ghost text = { λ text. text };

    fn as_str(&self) -> &str {
        self.text()
    }
}

impl fmt::Display for TagText {
    ghost output = { λ text. Some text };

    fn fmt<W: fmt::Write>(&self, f: &mut fmt::Formatter<W>) -> fmt::Result {
        f.pad(self.text())
    }
}
