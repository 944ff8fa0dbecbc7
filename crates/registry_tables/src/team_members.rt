//! The table `team_members`: the members of every team. A member of a team is a member of its
//! organisation.

ghost use Rattle.std.specs.Prelude.{⊤, ◌≡◌, is_some};
ghost use Rattle.registry_names.specs.Maps.{at, erase, put};
ghost use Rattle.registry_tables.specs.Changes.{IsFree};
ghost use Rattle.registry_tables.specs.Inside.{Finds, Makes};
ghost use Rattle.registry_tables.specs.Teams.{users_of};

use crate::queries::{has, texts};
use registry_names::{Fault, Ident, Text};
use registry_rows::write;
use sqlite::{Alter, Transaction, params};
use std::alloc::Global;

/// Whether the user is in this team of the organisation.
pub fn is_in_team<S: Alter>(
    tx: &mut Transaction<'_, S>,
    organisation: &Ident,
    team: &Ident,
    user: &Ident,
) -> Result<bool, Fault>
    ensures { Finds S.Store tx.old tx.new result
        (λ is c. is ≡ is_some (at c.team_members (organisation.now, (team.now, user.now)))) }
{
    has(
        tx,
        "SELECT user FROM team_members WHERE org = ?1 AND team = ?2 AND user = ?3",
        params![organisation.text(), team.text(), user.text()],
    )
}

/// Puts a user in a team. A user who is in it already is a fault, and so is a team that isn't
/// there, or a user who isn't a member of the organisation.
pub(crate) fn put_team_member<S: Alter>(
    tx: &mut Transaction<'_, S>,
    organisation: &str,
    team: &str,
    user: &str,
) -> Result<(), Fault>
    ensures { Makes S.Store tx.old tx.new result
        (λ _ c. IsFree c.team_members (organisation.now, (team.now, user.now)))
        (λ c. record c {
          team_members = put c.team_members (organisation.now, (team.now, user.now))
              tt;
        }) }
{
    write(
        tx,
        "INSERT INTO team_members VALUES (?1, ?2, ?3)",
        params![organisation, team, user],
    )
}

/// Takes a user out of a team, if they are in it.
pub(crate) fn drop_team_member<S: Alter>(
    tx: &mut Transaction<'_, S>,
    organisation: &str,
    team: &str,
    user: &str,
) -> Result<(), Fault>
    ensures { Makes S.Store tx.old tx.new result
        (λ _ _. ⊤)
        (λ c. record c {
          team_members = erase c.team_members
              (organisation.now, (team.now, user.now));
        }) }
{
    write(
        tx,
        "DELETE FROM team_members WHERE org = ?1 AND team = ?2 AND user = ?3",
        params![organisation, team, user],
    )
}

/// The users in a team of an organisation, in byte order.
pub fn load_team_users<S: Alter>(
    alloc: Global,
    tx: &mut Transaction<'_, S>,
    organisation: &Ident,
    team: &Ident,
) -> Result<Vec<Text>, Fault>
    ensures { Finds S.Store tx.old tx.new result
        (λ users c. users.items ≡ users_of c organisation.now team.now) }
{
    texts(
        alloc,
        tx,
        "SELECT user FROM team_members WHERE org = ?1 AND team = ?2 ORDER BY user",
        params![organisation.text(), team.text()],
    )
}
