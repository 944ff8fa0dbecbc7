//! Whether some row is there.
//!
//! A row is found by halving. Where less than a whole key is asked, as the owners of an organisation,
//! the rows that begin so stand together. Which numbers of archives are held is found in a list of
//! these numbers of its own.

ghost use Rattle.std.specs.Prelude.{◌≡◌, Some, option_map};
ghost use Rattle.std.specs.List.{list_any};
ghost use Rattle.std.specs.Ordering.{int_eq};
ghost use Rattle.registry_access.specs.Levels as levels;
ghost use Rattle.registry_names.specs.Keys.{pair_is};
ghost use Rattle.registry_names.specs.Texts as texts;
ghost use Rattle.registry_check.specs.FormRules as forms;
ghost use Rattle.registry_check.specs.Rows.{rows_of};
ghost use Rattle.registry_check.specs.Rules as spec;
ghost use Rattle.registry_check.specs.Rules.{has, need_is};

use crate::keys::{compare, compare_need, compare_pair};
use crate::order::{contains, first_with, rows_with};
use crate::tables::{ArchiveRow, HeldRow, Tables};
use registry_access::{MemberRow, Role};
use registry_names::Text;
use registry_publish::Need;

fn is_owner(role: Role) -> bool
    ensures { result ≡ levels.is_owner (Some role) }
{
    matches!(role, Role::Owner)
}

pub(crate) fn is_number(number: i64, other: i64) -> bool
    ensures { result ≡ int_eq number other }
{
    number == other
}

// Whether one of these members is an owner.
fn any_owner(rows: &[MemberRow]) -> bool
    ensures { result ≡ list_any (λ r. levels.is_owner (Some r.role)) rows.now }
{
    rows.iter().any(|row| is_owner(row.role))
}

fn archive_in(row: Option<&HeldRow>) -> Option<i64>
    ensures { result ≡ option_map (λ row. row.now.archive) row.entry }
{
    row.map(|row| row.archive)
}

fn integrity_in(row: Option<&ArchiveRow>) -> Option<&Text>
    ensures { option_map (λ text. text.now) result
        ≡ option_map (λ row. row.now.integrity) row.entry }
{
    row.map(|row| &row.integrity)
}

impl Tables {
    pub(crate) fn has_user(&self, user: &str) -> bool
        ensures { result ≡ has texts.is (rows_of self.now).users user.now }
    {
        contains(&self.accounts.users, |row| compare(row, user))
    }

    pub(crate) fn has_organisation(&self, organisation: &str) -> bool
        ensures { result ≡ has texts.is (rows_of self.now).organisations organisation.now }
    {
        contains(
            &self.accounts.organisations,
            |row| compare(row, organisation),
        )
    }

    pub(crate) fn has_owner(&self, organisation: &str) -> bool
        ensures { result ≡ spec.has_owner (rows_of self.now) organisation.now }
    {
        any_owner(rows_with(
            &self.groups.members,
            |row| compare(&row.organisation, organisation),
        ))
    }

    pub(crate) fn is_member(&self, organisation: &str, user: &str) -> bool
        ensures { result ≡ has pair_is (rows_of self.now).members (organisation.now, user.now) }
    {
        contains(&self.groups.members, |row| {
            compare_pair(&row.organisation, &row.user, organisation, user)
        })
    }

    pub(crate) fn has_team(&self, organisation: &str, team: &str) -> bool
        ensures { result ≡ has pair_is (rows_of self.now).teams (organisation.now, team.now) }
    {
        contains(&self.groups.teams, |row| {
            compare_pair(&row.organisation, &row.team, organisation, team)
        })
    }

    pub(crate) fn has_package(&self, name: &str) -> bool
        ensures { result ≡ has texts.is (rows_of self.now).packages name.now }
    {
        contains(&self.packages.published, |row| compare(&row.package, name))
    }

    pub(crate) fn has_maintainer(&self, name: &str) -> bool
        ensures { result ≡ spec.has_maintainer (rows_of self.now) name.now }
    {
        contains(
            &self.packages.maintainers,
            |row| compare(&row.package, name),
        )
    }

    pub(crate) fn lives(&self, name: &str, version: &str) -> bool
        ensures { result ≡ has pair_is (rows_of self.now).live (name.now, version.now) }
    {
        contains(&self.versions.live, |row| {
            compare_pair(&row.package, &row.version, name, version)
        })
    }

    pub(crate) fn has_archive(&self, name: &str, version: &str) -> bool
        ensures { result ≡ has pair_is (rows_of self.now).held (name.now, version.now) }
    {
        contains(&self.versions.held, |row| {
            compare_pair(&row.package, &row.version, name, version)
        })
    }

    pub(crate) fn is_held(&self, number: i64) -> bool
        ensures { result ≡ spec.is_held (rows_of self.now) number }
    {
        contains(&self.versions.numbers, |held| held.cmp(&number))
    }

    pub(crate) fn is_stored(&self, number: i64) -> bool
        ensures { result ≡ has int_eq (rows_of self.now).archives number }
    {
        contains(&self.versions.archives, |row| row.number.cmp(&number))
    }

    pub(crate) fn has_need(&self, name: &str, version: &str, need: &Need) -> bool
        ensures { result ≡ has need_is (rows_of self.now).needs
            (name.now, (version.now, (need.now.target, need.now.range))) }
    {
        let (target, range) = (need.target.as_str(), need.range.as_str());
        contains(
            &self.versions.needs,
            |row| compare_need(row, name, version, target, range),
        )
    }

    pub(crate) fn has_tag(&self, name: &str, tag: &str) -> bool
        ensures { result ≡ has pair_is (rows_of self.now).tags (name.now, tag.now) }
    {
        contains(
            &self.marks.tags,
            |row| compare_pair(&row.package, &row.tag, name, tag),
        )
    }

    /// Whether a version of the package lives.
    pub(crate) fn has_live(&self, name: &str) -> bool
        ensures { result ≡ forms.has_live (rows_of self.now) name.now }
    {
        contains(&self.versions.live, |row| compare(&row.package, name))
    }

    // The number of the archive that the version has.
    fn held_number(&self, name: &str, version: &str) -> Option<i64>
        ensures { result ≡ forms.held_number (rows_of self.now) (name.now, version.now) }
    {
        archive_in(first_with(&self.versions.held, |row| {
            compare_pair(&row.package, &row.version, name, version)
        }))
    }

    // The integrity that is stored with the archive of this number.
    fn integrity_under(&self, number: i64) -> Option<&Text>
        ensures { option_map (λ t. t.now) result
            ≡ forms.integrity_under (rows_of self.now) number }
    {
        integrity_in(first_with(&self.versions.archives, |row| row.number.cmp(&number)))
    }

    /// The integrity that is stored with the archive that the version has.
    pub(crate) fn held_integrity(&self, name: &str, version: &str) -> Option<&Text>
        ensures { option_map (λ t. t.now) result
            ≡ forms.held_integrity (rows_of self.now) (name.now, version.now) }
    {
        let number = self.held_number(name, version)?;
        self.integrity_under(number)
    }
}
