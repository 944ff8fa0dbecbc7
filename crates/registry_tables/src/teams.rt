//! The table `teams`: the teams of every organisation.

ghost use Rattle.std.specs.Prelude.{⊤, ◌≡◌, is_some};
ghost use Rattle.registry_names.specs.Maps.{at, keys, of, put};
ghost use Rattle.registry_tables.specs.Changes.{IsFree};
ghost use Rattle.registry_tables.specs.Inside.{Finds, Makes};
ghost use Rattle.registry_tables.specs.Teams.{without_team};

use crate::queries::{has, texts};
use registry_names::{Fault, Ident, Text};
use registry_rows::write;
use sqlite::{Alter, Transaction, params};
use std::alloc::Global;

/// Whether the organisation has this team.
pub fn has_team<S: Alter>(
    tx: &mut Transaction<'_, S>,
    organisation: &Ident,
    team: &Ident,
) -> Result<bool, Fault>
    ensures { Finds S.Store tx.old tx.new result
        (λ has c. has ≡ is_some (at c.teams (organisation.now, team.now))) }
{
    has(
        tx,
        "SELECT team FROM teams WHERE org = ?1 AND team = ?2",
        params![organisation.text(), team.text()],
    )
}

/// The teams of an organisation, in byte order.
pub fn load_teams<S: Alter>(
    alloc: Global,
    tx: &mut Transaction<'_, S>,
    organisation: &Ident,
) -> Result<Vec<Text>, Fault>
    ensures { Finds S.Store tx.old tx.new result
        (λ teams c. teams.items ≡ keys (of c.teams organisation.now)) }
{
    texts(
        alloc,
        tx,
        "SELECT team FROM teams WHERE org = ?1 ORDER BY team",
        params![organisation.text()],
    )
}

/// Adds a team without members to an organisation. A team of its name is a fault, and so is an
/// organisation that isn't there.
pub(crate) fn add_team<S: Alter>(
    tx: &mut Transaction<'_, S>,
    organisation: &str,
    team: &str,
) -> Result<(), Fault>
    ensures { Makes S.Store tx.old tx.new result
        (λ _ c. IsFree c.teams (organisation.now, team.now))
        (λ c. record c { teams = put c.teams (organisation.now, team.now) tt }) }
{
    write(
        tx,
        "INSERT INTO teams VALUES (?1, ?2)",
        params![organisation, team],
    )
}

/// Drops a team of an organisation, if it is there, with its members and its grants.
pub(crate) fn drop_team<S: Alter>(
    tx: &mut Transaction<'_, S>,
    organisation: &str,
    team: &str,
) -> Result<(), Fault>
    ensures { Makes S.Store tx.old tx.new result
        (λ _ _. ⊤)
        (without_team organisation.now team.now) }
{
    write(
        tx,
        "DELETE FROM teams WHERE org = ?1 AND team = ?2",
        params![organisation, team],
    )
}
