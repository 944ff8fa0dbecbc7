//! Messages of deprecation.

ghost use Rattle.std.specs.Prelude.{◌≡◌, List, ℕ, string_bytes, bytes_eq, IfOk, IfErr, Some, true, false};
ghost use Rattle.std.specs.Cmp.Rules.{comparing, hashing};
ghost use Rattle.std.specs.Hash as fed;
ghost use Rattle.std.proofs.Common.{rules};
ghost use Rattle.registry_names.specs.Faults.{IsMemoryOr, IsRefused};
ghost use Rattle.registry_names.specs.Messages.{is_message};
ghost use Rattle.registry_names.specs.Texts.{text_cmp};

use crate::form::kept_in_form;
use crate::refusal::Refusal;
use crate::stop::Stop;
use std::alloc::Global;
use std::cmp::Ordering;
use std::convert::AsStr;
use std::fmt;
use std::hash::{Hash, Hasher};
use std::marker::Model;

const LONGEST: usize = 1024;

/// The message of a deprecation: any text of at most 1,024 bytes. The empty one says that a
/// version isn't deprecated. Contracts see its text.
#[derive(Debug, Drop)]
pub struct Message {
    text: String,
}

impl Model for Message {
    ghost Value = { List ℕ };

    ghost view = { λ m. string_bytes m.text };

    ghost invariant = { λ m. is_message (string_bytes m.text) ≡ true };
}

impl Message {
    /// Reads a message.
    ///
    /// `BadBody` is returned exactly for a longer text, and `Memory` when no memory is left.
    pub fn parse(alloc: Global, text: &str) -> Result<Message, Stop>
        ensures ok { IfOk result (λ m. (m ≡ text.now) × (is_message text.now ≡ true)) }
        ensures err { IfErr result (IsMemoryOr Refusal.BadBody (is_message text.now ≡ false)) }
        ensures refused { is_message text.now ≡ false → IsRefused result Refusal.BadBody }
    {
        let text = kept_in_form(alloc, text, text.len() <= LONGEST, Refusal::BadBody)?;
        Ok(Message { text })
    }

    /// The text that was read.
    pub fn text(&self) -> &str
        ensures text { result.now ≡ self.now }
        ensures form { is_message self.now ≡ true }
    {
        self.text.as_str()
    }
}

impl PartialEq for Message {
    ghost eq = { bytes_eq };

    ghost laws = { Prim.search (comparing, rules) };

    fn eq(&self, other: &Message) -> bool {
        self.text() == other.text()
    }
}

impl Eq for Message {
    ghost laws = { Prim.search (comparing, rules) };
}

impl PartialOrd for Message {
    ghost partial_cmp = { λ x y. Some (text_cmp x y) };

    ghost laws = { Prim.search (comparing, rules) };

    fn partial_cmp(&self, other: &Message) -> Option<Ordering> {
        Some(self.cmp(other))
    }
}

/// By bytes, as Rust orders texts.
impl Ord for Message {
    ghost cmp = { text_cmp };

    ghost total = { Prim.search (comparing, rules) };

    ghost matches_partial_cmp = { Prim.search (comparing, rules) };

    ghost matches_eq = { Prim.search (comparing, rules) };

    fn cmp(&self, other: &Message) -> Ordering {
        self.text().cmp(other.text())
    }
}

/// As its text.
impl Hash for Message {
    ghost hash_input = { fed.str };

    ghost respects_eq = { Prim.search (hashing, rules) };

    fn hash<H: Hasher>(&self, state: &mut H) {
        self.text().hash(state);
    }
}

impl AsStr for Message {
    ghost text = { λ text. text };

    fn as_str(&self) -> &str {
        self.text()
    }
}

impl fmt::Display for Message {
    ghost output = { λ text. Some text };

    fn fmt<W: fmt::Write>(&self, f: &mut fmt::Formatter<W>) -> fmt::Result {
        f.pad(self.text())
    }
}
