//! The names of users, organisations and teams.

ghost use Rattle.std.specs.Prelude.{◌≡◌, List, ℕ, string_bytes, bytes_eq, IfOk, IfErr, Some, slice_index, true, false};
ghost use Rattle.std.specs.List.{list_all};
ghost use Rattle.std.specs.Cmp.Rules.{comparing, hashing};
ghost use Rattle.std.specs.Hash as fed;
ghost use Rattle.std.proofs.Common.{rules};
ghost use Rattle.registry_names.specs.Faults.{IsMemoryOr, IsRefused};
ghost use Rattle.registry_names.specs.Idents as spec;
ghost use Rattle.registry_names.specs.Idents.{is_lower_alphanumeric, is_ident_char};
ghost use Rattle.registry_names.specs.Texts.{text_cmp};

use crate::form::kept_in_form;
use crate::refusal::Refusal;
use crate::stop::Stop;
use std::alloc::Global;
use std::cmp::Ordering;
use std::convert::AsStr;
use std::fmt;
use std::hash::{Hash, Hasher};
use std::marker::Model;

const LONGEST: usize = 64;

pub(crate) fn is_lower_alphanumeric_byte(byte: u8) -> bool
    ensures { result ≡ is_lower_alphanumeric byte }
{
    byte.is_ascii_lowercase() || byte.is_ascii_digit()
}

pub(crate) fn is_ident_byte(byte: u8) -> bool
    ensures { result ≡ is_ident_char byte }
{
    is_lower_alphanumeric_byte(byte) || byte == b'-' || byte == b'_'
}

pub(crate) fn starts_lower_alphanumeric(text: &[u8]) -> bool
    ensures { result ≡ is_lower_alphanumeric (slice_index text.now 0) }
{
    text.first()
        .is_some_and(|byte| is_lower_alphanumeric_byte(*byte))
}

fn all_ident_bytes(text: &[u8]) -> bool
    ensures { result ≡ list_all is_ident_char text.now }
{
    text.iter().all(|byte| is_ident_byte(*byte))
}

pub(crate) fn is_ident(text: &str) -> bool
    ensures { result ≡ spec.is_ident text.now }
{
    text.len() <= LONGEST
        && starts_lower_alphanumeric(text.as_bytes())
        && all_ident_bytes(text.as_bytes())
}

/// The name of a user, an organisation or a team: 1 to 64 characters of `a-z 0-9 - _`, the first
/// a letter or digit. Contracts see its text.
#[derive(Debug, Drop)]
pub struct Ident {
    text: String,
}

impl Model for Ident {
    ghost Value = { List ℕ };

    ghost view = { λ i. string_bytes i.text };

    ghost invariant = { λ i. spec.is_ident (string_bytes i.text) ≡ true };
}

impl Ident {
    /// Reads a name.
    ///
    /// `BadName` is returned exactly for a text that isn't one, and `Memory` when no memory is
    /// left.
    pub fn parse(alloc: Global, text: &str) -> Result<Ident, Stop>
        ensures ok { IfOk result (λ i. (i ≡ text.now) × (spec.is_ident text.now ≡ true)) }
        ensures err { IfErr result (IsMemoryOr Refusal.BadName (spec.is_ident text.now ≡ false)) }
        ensures refused { spec.is_ident text.now ≡ false → IsRefused result Refusal.BadName }
    {
        let text = kept_in_form(alloc, text, is_ident(text), Refusal::BadName)?;
        Ok(Ident { text })
    }

    /// The text that was read.
    pub fn text(&self) -> &str
        ensures text { result.now ≡ self.now }
        ensures form { spec.is_ident self.now ≡ true }
    {
        self.text.as_str()
    }
}

impl PartialEq for Ident {
    ghost eq = { bytes_eq };

    ghost laws = { Prim.search (comparing, rules) };

    fn eq(&self, other: &Ident) -> bool {
        self.text() == other.text()
    }
}

impl Eq for Ident {
    ghost laws = { Prim.search (comparing, rules) };
}

impl PartialOrd for Ident {
    ghost partial_cmp = { λ x y. Some (text_cmp x y) };

    ghost laws = { Prim.search (comparing, rules) };

    fn partial_cmp(&self, other: &Ident) -> Option<Ordering> {
        Some(self.cmp(other))
    }
}

/// By bytes, as Rust orders texts.
impl Ord for Ident {
    ghost cmp = { text_cmp };

    ghost total = { Prim.search (comparing, rules) };

    ghost matches_partial_cmp = { Prim.search (comparing, rules) };

    ghost matches_eq = { Prim.search (comparing, rules) };

    fn cmp(&self, other: &Ident) -> Ordering {
        self.text().cmp(other.text())
    }
}

/// As its text.
impl Hash for Ident {
    ghost hash_input = { fed.str };

    ghost respects_eq = { Prim.search (hashing, rules) };

    fn hash<H: Hasher>(&self, state: &mut H) {
        self.text().hash(state);
    }
}

impl AsStr for Ident {
    ghost text = { λ text. text };

    fn as_str(&self) -> &str {
        self.text()
    }
}

impl fmt::Display for Ident {
    ghost output = { λ text. Some text };

    fn fmt<W: fmt::Write>(&self, f: &mut fmt::Formatter<W>) -> fmt::Result {
        f.pad(self.text())
    }
}
