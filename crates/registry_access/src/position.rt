//! What a caller is to a package, and the level that follows from it.

ghost use Rattle.std.specs.Prelude.{◌≡◌};
ghost use Rattle.registry_access.specs.Levels as levels;
ghost use Rattle.registry_access.specs.Levels.{greatest_grant};
ghost use Rattle.registry_access.specs.Positions.{level_at, position_in};
ghost use Rattle.registry_access.specs.RowMaps.{state_of};
ghost use Rattle.registry_access.specs.Standings.{is_listed, position_of};

use crate::caller::Caller;
use crate::grant::Grant;
use crate::levels::Level;
use crate::role::Role;
use crate::rows::AccessRows;
use crate::standing::Standing;
use registry_names::{Name, Status};

/// All that decides about one caller and one package.
#[derive(Clone, Copy)]
pub(crate) struct Position {
    /// Whether the organisation of the package's scope is there.
    pub organisation: bool,
    /// The caller's role in that organisation.
    pub role: Option<Role>,
    pub status: Option<Status>,
    pub maintainer: bool,
    /// The greatest of what the caller's teams are granted, if they are granted anything.
    pub grant: Option<Grant>,
}

pub(crate) fn is_owner_or_admin(role: Option<Role>) -> bool
    ensures { result ≡ levels.is_owner_or_admin role }
{
    matches!(role, Some(Role::Owner | Role::Admin))
}

// The level that is granted, if anything is.
fn level_granted(grant: Option<Grant>) -> Level
    ensures { result ≡ levels.level_granted grant }
{
    match grant {
        None => Level::Nothing,
        Some(Grant::ReadOnly) => Level::Read,
        Some(Grant::ReadWrite) => Level::Write,
    }
}

// The granted level, or the one that the status opens to everybody where that is greater.
fn opened(status: Status, granted: Level) -> Level
    ensures { result ≡ levels.larger (levels.open_level status) granted }
{
    match (status, granted) {
        (Status::Public, Level::Nothing) => Level::Read,
        _ => granted,
    }
}

fn is_listed(grants: &[Grant], grant: Grant) -> bool
    ensures { result ≡ is_listed grants.now grant }
{
    grants.contains(&grant)
}

fn greatest_listed(grants: &[Grant]) -> Option<Grant>
    ensures { result ≡ greatest_grant (is_listed grants.now) }
{
    if is_listed(grants, Grant::ReadWrite) {
        Some(Grant::ReadWrite)
    } else if is_listed(grants, Grant::ReadOnly) {
        Some(Grant::ReadOnly)
    } else {
        None
    }
}

impl Position {
    /// What the rows say of a caller and a package.
    pub(crate) fn in_rows(rows: &AccessRows, caller: &Caller, name: &Name) -> Position
        ensures { result ≡ position_in (state_of rows.now) caller.now name.now }
    {
        let text = name.text();
        let scope = name.scope();
        Position {
            organisation: scope.is_some_and(|scope| rows.has_organisation(scope)),
            role: scope.and_then(|scope| rows.role_of(caller, scope)),
            status: rows.status(text),
            maintainer: rows.is_maintainer(caller, text),
            grant: rows.greatest_grant(caller, text),
        }
    }

    /// What a standing says. It says more than what everybody has only of a user.
    pub(crate) fn in_standing(standing: &Standing, caller: &Caller) -> Position
        ensures { result ≡ position_of standing.now caller.now }
    {
        let (organisation, status) = (standing.organisation, standing.status);
        match caller {
            Caller::User(_) => Position {
                organisation,
                role: standing.role,
                status,
                maintainer: standing.maintainer,
                grant: greatest_listed(&standing.grants),
            },
            Caller::Operator | Caller::Anonymous => Position {
                organisation,
                role: None,
                status,
                maintainer: false,
                grant: None,
            },
        }
    }

    /// The caller's level on the package.
    pub(crate) fn level(self) -> Level
        ensures { result ≡ level_at self }
    {
        match self.status {
            None => Level::Nothing,
            Some(_) if is_owner_or_admin(self.role) || self.maintainer => Level::Write,
            Some(status) => opened(status, level_granted(self.grant)),
        }
    }
}
