//! The keys of the rows that are looked for, and how they compare.

ghost use Rattle.std.specs.Prelude.{◌≡◌, ℤ, IfOk, map};
ghost use Rattle.std.specs.List.{list_any};
ghost use Rattle.std.specs.List.Sorted.{IsSortedByKey};
ghost use Rattle.std.specs.Ordering.{int_cmp, int_eq};
ghost use Rattle.registry_names.specs.Keys.{Pair, pair_cmp};
ghost use Rattle.registry_names.specs.Texts.{Text as Bytes, text_cmp};
ghost use Rattle.registry_rows.specs.TextKeys.{texts_cmp};
ghost use Rattle.registry_check.specs.Rows.{NeedKey, need_entry};

use crate::order::Keyed;
use crate::tables::{ArchiveRow, HeldRow, LiveRow, NeedRow, TagRow};
use registry_access::{MaintainerRow, MemberRow, PackageRow, TeamRow};
use registry_names::{Fault, Text};
use std::alloc::Global;
use std::cmp::Ordering;

/// How the text compares with the one that is asked, by bytes.
#[tactic(auto, unfolding(registry_names::specs::Texts::text_cmp))]
pub(crate) fn compare(text: &Text, asked: &str) -> Ordering
    ensures { result ≡ text_cmp text.now asked.now }
{
    text.as_str().cmp(asked)
}

/// How the pair of texts compares with the one that is asked.
#[tactic(auto, unfolding(registry_names::specs::Keys::by_first))]
pub(crate) fn compare_pair(first: &Text, second: &Text, asked: &str, more: &str) -> Ordering
    ensures { result ≡ pair_cmp (first.now, second.now) (asked.now, more.now) }
{
    match compare(first, asked) {
        Ordering::Equal => compare(second, more),
        other => other,
    }
}

/// How the key of the row compares with these texts.
#[tactic(auto, unfolding(registry_names::specs::Keys::by_first))]
pub(crate) fn compare_need(
    row: &NeedRow,
    name: &str,
    version: &str,
    target: &str,
    range: &str,
) -> Ordering
    ensures { result ≡ texts_cmp 3 (need_entry row.now).0
        (name.now, (version.now, (target.now, range.now))) }
{
    match compare(&row.package, name) {
        Ordering::Equal => compare_needed(row, version, target, range),
        other => other,
    }
}

#[tactic(auto, unfolding(registry_names::specs::Keys::by_first))]
fn compare_needed(row: &NeedRow, version: &str, target: &str, range: &str) -> Ordering
    ensures { result ≡ texts_cmp 2 (row.now.version, (row.now.target, row.now.range))
        (version.now, (target.now, range.now)) }
{
    match compare(&row.version, version) {
        Ordering::Equal => compare_pair(&row.target, &row.range, target, range),
        other => other,
    }
}

impl Keyed for Text {
    ghost Key = { Bytes };

    ghost key = { λ row. row };

    ghost cmp = { text_cmp };

    fn compare(&self, other: &Text) -> Ordering {
        compare(self, other.as_str())
    }
}

impl Keyed for MemberRow {
    ghost Key = { Pair };

    ghost key = { λ row. (row.organisation, row.user) };

    ghost cmp = { pair_cmp };

    fn compare(&self, other: &MemberRow) -> Ordering {
        let (organisation, user) = (other.organisation.as_str(), other.user.as_str());
        compare_pair(&self.organisation, &self.user, organisation, user)
    }
}

impl Keyed for TeamRow {
    ghost Key = { Pair };

    ghost key = { λ row. (row.organisation, row.team) };

    ghost cmp = { pair_cmp };

    fn compare(&self, other: &TeamRow) -> Ordering {
        let (organisation, team) = (other.organisation.as_str(), other.team.as_str());
        compare_pair(&self.organisation, &self.team, organisation, team)
    }
}

impl Keyed for PackageRow {
    ghost Key = { Bytes };

    ghost key = { λ row. row.package };

    ghost cmp = { text_cmp };

    fn compare(&self, other: &PackageRow) -> Ordering {
        compare(&self.package, other.package.as_str())
    }
}

impl Keyed for MaintainerRow {
    ghost Key = { Pair };

    ghost key = { λ row. (row.package, row.user) };

    ghost cmp = { pair_cmp };

    fn compare(&self, other: &MaintainerRow) -> Ordering {
        let (package, user) = (other.package.as_str(), other.user.as_str());
        compare_pair(&self.package, &self.user, package, user)
    }
}

impl Keyed for LiveRow {
    ghost Key = { Pair };

    ghost key = { λ row. (row.package, row.version) };

    ghost cmp = { pair_cmp };

    fn compare(&self, other: &LiveRow) -> Ordering {
        let (package, version) = (other.package.as_str(), other.version.as_str());
        compare_pair(&self.package, &self.version, package, version)
    }
}

impl Keyed for NeedRow {
    ghost Key = { NeedKey };

    ghost key = { λ row. (need_entry row).0 };

    ghost cmp = { texts_cmp 3 };

    fn compare(&self, other: &NeedRow) -> Ordering {
        let (package, version) = (other.package.as_str(), other.version.as_str());
        compare_need(
            self,
            package,
            version,
            other.target.as_str(),
            other.range.as_str(),
        )
    }
}

impl Keyed for HeldRow {
    ghost Key = { Pair };

    ghost key = { λ row. (row.package, row.version) };

    ghost cmp = { pair_cmp };

    fn compare(&self, other: &HeldRow) -> Ordering {
        let (package, version) = (other.package.as_str(), other.version.as_str());
        compare_pair(&self.package, &self.version, package, version)
    }
}

impl Keyed for ArchiveRow {
    ghost Key = { ℤ };

    ghost key = { λ row. row.number };

    ghost cmp = { int_cmp };

    fn compare(&self, other: &ArchiveRow) -> Ordering {
        self.number.cmp(&other.number)
    }
}

impl Keyed for TagRow {
    ghost Key = { Pair };

    ghost key = { λ row. (row.package, row.tag) };

    ghost cmp = { pair_cmp };

    fn compare(&self, other: &TagRow) -> Ordering {
        let (package, tag) = (other.package.as_str(), other.tag.as_str());
        compare_pair(&self.package, &self.tag, package, tag)
    }
}

/// The numbers of the archives that versions have, from the lowest.
pub(crate) fn held_numbers(alloc: Global, held: &[HeldRow]) -> Result<Vec<i64>, Fault>
    ensures sorted { IfOk result (λ numbers. IsSortedByKey (λ n. n) int_cmp numbers.items) }
    ensures held { IfOk result (λ numbers. (n : ℤ) → list_any (λ m. int_eq m n) numbers.items
        ≡ list_any (λ r. int_eq r.archive n) held.now) }
{
    let mut numbers = numbers_of(alloc, held)?;
    numbers.sort_unstable();
    Ok(numbers)
}

fn numbers_of(alloc: Global, held: &[HeldRow]) -> Result<Vec<i64>, Fault>
    ensures { IfOk result (λ numbers. numbers.items ≡ map (λ r. r.archive) held.now) }
{
    let mut numbers = Vec::new(alloc);
    for row in held {
        numbers.push(row.archive)?;
    }
    Ok(numbers)
}
