//! Searches in lists of rows.

ghost use Rattle.std.specs.Prelude.{◌≡◌, ◌&&◌, find, option_map};
ghost use Rattle.std.specs.List.{list_any};
ghost use Rattle.registry_names.specs.Texts as spec;

use crate::grant::Grant;
use crate::role::Role;
use crate::rows::{GrantRow, MaintainerRow, MemberRow, PackageRow};
use registry_names::{Status, Text};

#[tactic(auto, unfolding(registry_names::specs::Texts::is))]
pub(crate) fn is(stored: &Text, asked: &str) -> bool
    ensures { result ≡ spec.is stored.now asked.now }
{
    stored.as_str() == asked
}

pub(crate) fn has_text(rows: &[Text], text: &str) -> bool
    ensures { result ≡ list_any (λ r. spec.is r text.now) rows.now }
{
    rows.iter().any(|row| is(row, text))
}

pub(crate) fn status_of(rows: &[PackageRow], name: &str) -> Option<Status>
    ensures { result
        ≡ option_map (λ r. r.status) (find (λ r. spec.is r.package name.now) rows.now) }
{
    rows.iter()
        .find(|row| is(&row.package, name))
        .map(|row| row.status)
}

pub(crate) fn role_of(rows: &[MemberRow], organisation: &str, user: &str) -> Option<Role>
    ensures { result ≡ option_map (λ r. r.role)
        (find (λ r. spec.is r.organisation organisation.now && spec.is r.user user.now) rows.now) }
{
    rows.iter()
        .find(|row| is(&row.organisation, organisation) && is(&row.user, user))
        .map(|row| row.role)
}

pub(crate) fn has_maintainer(rows: &[MaintainerRow], name: &str, user: &str) -> bool
    ensures { result
        ≡ list_any (λ r. spec.is r.package name.now && spec.is r.user user.now) rows.now }
{
    rows.iter()
        .any(|row| is(&row.package, name) && is(&row.user, user))
}

pub(crate) fn grant_of(
    rows: &[GrantRow],
    organisation: &str,
    team: &str,
    name: &str,
) -> Option<Grant>
    ensures { result ≡ option_map (λ r. r.grant)
        (find (λ r. spec.is r.organisation organisation.now
        && (spec.is r.team team.now && spec.is r.package name.now)) rows.now) }
{
    rows.iter()
        .find(|row| {
            is(&row.organisation, organisation) && is(&row.team, team) && is(&row.package, name)
        })
        .map(|row| row.grant)
}
