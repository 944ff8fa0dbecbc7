//! The names of packages.

ghost use Rattle.std.specs.Prelude.{◌≡◌, List, ℕ, string_bytes, Option, option_map, slice_index, IfOk, IfErr, MatchOption, Some};
ghost use Rattle.std.specs.List.{list_all};
ghost use Rattle.std.specs.Str.{bytes_eq};
ghost use Rattle.std.specs.Cmp.Rules.{comparing, hashing};
ghost use Rattle.std.specs.Hash as fed;
ghost use Rattle.std.proofs.Common.{rules};
ghost use Rattle.registry_names.specs.Faults.{IsMemoryOr, IsRefused};
ghost use Rattle.registry_names.specs.Names as spec;
ghost use Rattle.registry_names.specs.Names.{is_name_char, is_scoped_start, scope_of, IsNameOf, IsName};
ghost use Rattle.registry_names.specs.Texts.{text_cmp};

use crate::form::kept_in_form;
use crate::ident::{
    is_ident, is_ident_byte, is_lower_alphanumeric_byte, starts_lower_alphanumeric,
};
use crate::refusal::Refusal;
use crate::stop::Stop;
use std::alloc::Global;
use std::cmp::Ordering;
use std::convert::AsStr;
use std::fmt;
use std::hash::{Hash, Hasher};
use std::marker::Model;

const LONGEST: usize = 214;

fn is_name_byte(byte: u8) -> bool
    ensures { result ≡ is_name_char byte }
{
    is_ident_byte(byte) || byte == b'.'
}

fn all_name_bytes(text: &[u8]) -> bool
    ensures { result ≡ list_all is_name_char text.now }
{
    text.iter().all(|byte| is_name_byte(*byte))
}

fn is_same(text: &str, other: &str) -> bool
    ensures { result ≡ bytes_eq text.now other.now }
{
    text == other
}

fn is_plain_part(text: &str) -> bool
    ensures { result ≡ spec.is_plain_part text.now }
{
    starts_lower_alphanumeric(text.as_bytes())
        && all_name_bytes(text.as_bytes())
        && !is_same(text, "node_modules")
        && !is_same(text, "favicon.ico")
}

fn is_scoped_start_byte(byte: u8) -> bool
    ensures { result ≡ is_scoped_start byte }
{
    is_lower_alphanumeric_byte(byte) || byte == b'_' || byte == b'.'
}

fn starts_scoped(text: &[u8]) -> bool
    ensures { result ≡ is_scoped_start (slice_index text.now 0) }
{
    text.first().is_some_and(|byte| is_scoped_start_byte(*byte))
}

fn is_scoped_part(text: &str) -> bool
    ensures { result ≡ spec.is_scoped_part text.now }
{
    starts_scoped(text.as_bytes())
        && all_name_bytes(text.as_bytes())
        && !is_same(text, ".")
        && !is_same(text, "..")
}

// The scope, if any, and the part of a name.
fn parts(text: &str) -> Option<(Option<&str>, &str)>
    ensures { MatchOption result (¬ IsName text.now)
        (λ p. IsNameOf text.now (option_map (λ s. s.now) p.0) p.1.now) }
{
    if text.len() > LONGEST {
        return None;
    }
    let Some(rest) = text.strip_prefix('@') else {
        return if is_plain_part(text) {
            Some((None, text))
        } else {
            None
        };
    };
    let (scope, part) = rest.split_once('/')?;
    if is_ident(scope) && is_scoped_part(part) {
        Some((Some(scope), part))
    } else {
        None
    }
}

/// The name of a package, as npm has it: `part`, or `@scope/part`, of at most 214 characters.
///
/// A part has characters of `a-z 0-9 - _ .`. Without a scope it begins with a letter or digit,
/// and is neither `node_modules` nor `favicon.ico`; with one it may begin with `_` or `.` too, and
/// is neither `.` nor `..`. A scope is the name of an organisation ([`Ident`](crate::Ident)).
/// Contracts see its text.
#[derive(Debug, Drop)]
pub struct Name {
    text: String,
}

impl Model for Name {
    ghost Value = { List ℕ };

    ghost view = { λ n. string_bytes n.text };

    ghost invariant = { λ n. IsName (string_bytes n.text) };
}

impl Name {
    /// Reads a name.
    ///
    /// `BadName` is returned exactly for a text that isn't one, and `Memory` when no memory is
    /// left.
    pub fn parse(alloc: Global, text: &str) -> Result<Name, Stop>
        ensures ok { IfOk result (λ n. (n ≡ text.now) × IsName text.now) }
        ensures err { IfErr result (IsMemoryOr Refusal.BadName (¬ IsName text.now)) }
        ensures refused { (¬ IsName text.now) → IsRefused result Refusal.BadName }
    {
        let text = kept_in_form(alloc, text, parts(text).is_some(), Refusal::BadName)?;
        Ok(Name { text })
    }

    /// The text that was read.
    pub fn text(&self) -> &str
        ensures text { result.now ≡ self.now }
        ensures form { IsName self.now }
    {
        self.text.as_str()
    }

    /// The scope without its `@`, which is an organisation's name. `None` where the name has no
    /// scope.
    pub fn scope(&self) -> Option<&str>
        ensures scope { option_map (λ s. s.now) result ≡ scope_of self.now }
        ensures form { (p : List ℕ) × IsNameOf self.now (option_map (λ s. s.now) result) p }
    {
        match parts(self.text.as_str()) {
            Some((scope, _)) => scope,
            None => None,
        }
    }

    /// The part after the scope, which is the whole name where there is no scope.
    pub fn part(&self) -> &str
        ensures { (s : Option (List ℕ)) × IsNameOf self.now s result.now }
    {
        match parts(self.text.as_str()) {
            Some((_, part)) => part,
            None => unreachable!(),
        }
    }
}

impl PartialEq for Name {
    ghost eq = { bytes_eq };

    ghost laws = { Prim.search (comparing, rules) };

    fn eq(&self, other: &Name) -> bool {
        self.text() == other.text()
    }
}

impl Eq for Name {
    ghost laws = { Prim.search (comparing, rules) };
}

impl PartialOrd for Name {
    ghost partial_cmp = { λ x y. Some (text_cmp x y) };

    ghost laws = { Prim.search (comparing, rules) };

    fn partial_cmp(&self, other: &Name) -> Option<Ordering> {
        Some(self.cmp(other))
    }
}

/// By bytes, as Rust orders texts.
impl Ord for Name {
    ghost cmp = { text_cmp };

    ghost total = { Prim.search (comparing, rules) };

    ghost matches_partial_cmp = { Prim.search (comparing, rules) };

    ghost matches_eq = { Prim.search (comparing, rules) };

    fn cmp(&self, other: &Name) -> Ordering {
        self.text().cmp(other.text())
    }
}

/// As its text.
impl Hash for Name {
    ghost hash_input = { fed.str };

    ghost respects_eq = { Prim.search (hashing, rules) };

    fn hash<H: Hasher>(&self, state: &mut H) {
        self.text().hash(state);
    }
}

impl AsStr for Name {
    ghost text = { λ text. text };

    fn as_str(&self) -> &str {
        self.text()
    }
}

impl fmt::Display for Name {
    ghost output = { λ text. Some text };

    fn fmt<W: fmt::Write>(&self, f: &mut fmt::Formatter<W>) -> fmt::Result {
        f.pad(self.text())
    }
}
