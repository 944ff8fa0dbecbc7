//! What rows say of a caller.

ghost use Rattle.std.specs.Prelude.{◌≡◌, ◌&&◌, is_some};
ghost use Rattle.std.specs.List.{list_any};
ghost use Rattle.registry_names.specs.Maps.{at};
ghost use Rattle.registry_names.specs.Texts as texts;
ghost use Rattle.registry_access.specs.Callers as spec;
ghost use Rattle.registry_access.specs.Callers.{granted, team_granted};
ghost use Rattle.registry_access.specs.Levels.{greatest_grant};
ghost use Rattle.registry_access.specs.RowMaps.{state_of};

use crate::caller::Caller;
use crate::grant::Grant;
use crate::role::Role;
use crate::rows::{AccessRows, TeamMemberRow};
use crate::search::{grant_of, has_maintainer, has_text, is, role_of, status_of};
use registry_names::Status;

fn grants(granted: Option<Grant>, grant: Grant) -> bool
    ensures { result ≡ spec.grants granted grant }
{
    granted == Some(grant)
}

impl AccessRows {
    pub(crate) fn has_organisation(&self, organisation: &str) -> bool
        ensures { result ≡ is_some (at (state_of self.now).organisations organisation.now) }
    {
        has_text(&self.organisations, organisation)
    }

    pub(crate) fn status(&self, name: &str) -> Option<Status>
        ensures { result ≡ at (state_of self.now).statuses name.now }
    {
        status_of(&self.packages, name)
    }

    /// The caller's role in the organisation, if they are a member.
    pub(crate) fn role_of(&self, caller: &Caller, organisation: &str) -> Option<Role>
        ensures { result ≡ spec.role_of (state_of self.now) caller.now organisation.now }
    {
        match caller {
            Caller::User(user) => role_of(&self.members, organisation, user.text()),
            Caller::Operator | Caller::Anonymous => None,
        }
    }

    pub(crate) fn is_maintainer(&self, caller: &Caller, name: &str) -> bool
        ensures { result ≡ spec.is_maintainer (state_of self.now) caller.now name.now }
    {
        match caller {
            Caller::User(user) => has_maintainer(&self.maintainers, name, user.text()),
            Caller::Operator | Caller::Anonymous => false,
        }
    }

    // What the team of a row is granted on the package.
    fn team_grant(&self, team: &TeamMemberRow, name: &str) -> Option<Grant>
        ensures { result ≡ at (state_of self.now).grants
            (team.now.organisation, (team.now.team, name.now)) }
    {
        grant_of(
            &self.grants,
            team.organisation.as_str(),
            team.team.as_str(),
            name,
        )
    }

    // Whether a team that the user is in has this grant on the package.
    fn is_granted(&self, user: &str, name: &str, grant: Grant) -> bool
        ensures { result ≡ list_any (λ r. texts.is r.user user.now
            && spec.grants
            (at (state_of self.now).grants (r.organisation, (r.team, name.now))) grant)
            self.now.team_members.items }
    {
        self.team_members.iter().any(|row| is(&row.user, user)
            && grants(self.team_grant(row, name), grant))
    }

    // The greatest of what the user's teams are granted on the package.
    fn user_grant(&self, user: &str, name: &str) -> Option<Grant>
        ensures { result ≡ greatest_grant (team_granted (state_of self.now) user.now name.now) }
    {
        if self.is_granted(user, name, Grant::ReadWrite) {
            Some(Grant::ReadWrite)
        } else if self.is_granted(user, name, Grant::ReadOnly) {
            Some(Grant::ReadOnly)
        } else {
            None
        }
    }

    /// The greatest of what the caller's teams are granted on the package.
    pub(crate) fn greatest_grant(&self, caller: &Caller, name: &str) -> Option<Grant>
        ensures { result ≡ greatest_grant (granted (state_of self.now) caller.now name.now) }
    {
        match caller {
            Caller::User(user) => self.user_grant(user.text(), name),
            Caller::Operator | Caller::Anonymous => None,
        }
    }
}
