//! The packages of a team.

ghost use Rattle.std.specs.Prelude.{◌≡◌, map};
ghost use Rattle.registry_access.specs.Levels as levels;
ghost use Rattle.registry_access.specs.Positions.{level_in};
ghost use Rattle.registry_tables.specs.Contents.{access_of};
ghost use Rattle.registry_tables.specs.Inside.{Finds, Knows};
ghost use Rattle.registry_tables.specs.Teams.{AreTeamsSound, granted_entry, grants_read, readable};

use crate::grants::load_team_grants;
use crate::standing::load_standing;
use crate::texts::read_back;
use registry_access::{Ask, Caller, allowed_by};
use registry_names::{Fault, Ident, Name, Text};
use registry_packument::Granted;
use sqlite::{Alter, Transaction};
use std::alloc::Global;

/// What a team is granted, in byte order of the packages: only of those that the caller reads.
pub fn load_team_packages<S: Alter>(
    alloc: Global,
    tx: &mut Transaction<'_, S>,
    caller: &Caller,
    organisation: &Ident,
    team: &Ident,
) -> Result<Vec<Granted>, Fault>
    ensures { Finds S.Store tx.old tx.new result
        (λ granted c. AreTeamsSound c → map granted_entry granted.items
        ≡ grants_read c caller.now organisation.now team.now) }
{
    let granted = load_team_grants(alloc, tx, organisation, team)?;
    read_by(alloc, tx, caller, granted)
}

// The grants on packages that the caller reads.
fn read_by<S: Alter>(
    alloc: Global,
    tx: &mut Transaction<'_, S>,
    caller: &Caller,
    granted: Vec<Granted>,
) -> Result<Vec<Granted>, Fault>
    ensures { Knows S.Store tx.old tx.new result
        (λ read c. AreTeamsSound c → map granted_entry read.items
        ≡ readable c caller.now (map granted_entry granted.items)) }
{
    let mut read = Vec::new(alloc);
    for row in granted {
        if is_read(alloc, tx, caller, &row.name)? {
            read.push(row)?;
        }
    }
    Ok(read)
}

// Whether the caller reads the package.
fn is_read<S: Alter>(
    alloc: Global,
    tx: &mut Transaction<'_, S>,
    caller: &Caller,
    name: &Text,
) -> Result<bool, Fault>
    ensures { Finds S.Store tx.old tx.new result
        (λ is c. AreTeamsSound c → is ≡ levels.reads (level_in (access_of c) caller.now name.now)) }
{
    let name = read_back(Name::parse(alloc, name.as_str()))?;
    let ask = Ask::Read(&name);
    let standing = load_standing(alloc, tx, caller, &name, &ask)?;
    Ok(allowed_by(&standing, caller, &ask).is_ok())
}
