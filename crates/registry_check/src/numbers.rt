//! The numbers that columns have, before the registry reads them as something.

ghost use Rattle.std.specs.Prelude.{ℤ};
ghost use Rattle.registry_names.specs.Keys.{Pair, Triple};
ghost use Rattle.registry_names.specs.Texts.{Text as Bytes};
ghost use Rattle.registry_check.specs.FormRules.{level_forms, moment_forms, role_forms, status_forms};
ghost use Rattle.registry_check.specs.Problems as spec;
ghost use Rattle.registry_check.specs.Rows.{level_entry, moment_entry, role_entry, status_entry};
ghost use Rattle.registry_check.specs.Spelled.{level_spelled, role_spelled, status_spelled};

use crate::checked::Checked;
use crate::forms::{is_level, is_moment, is_role, is_status};
use crate::people::copied;
use crate::problem::{Test, Thing};
use crate::rule::Rule;
use crate::tables::{LevelRow, MomentRow, RoleRow, StatusRow, Tables};
use registry_names::{Fault, Text};
use registry_rows::RowKind;
use sqlite::{Error, Row};
use std::alloc::Global;

/// The numbers of roles.
pub(crate) struct Roles;

impl Checked for Roles {
    type Row = RoleRow;

    ghost Entry = { Pair × ℤ };

    ghost entry = { role_entry };

    ghost about = { spec.role };

    ghost tried = { role_forms };

    fn thing(alloc: Global, row: &RoleRow) -> Result<Thing, Fault> {
        Ok(Thing::Member {
            organisation: copied(alloc, &row.organisation)?,
            user: copied(alloc, &row.user)?,
        })
    }

    fn tests(alloc: Global, row: &RoleRow, _all: &Tables) -> Result<Vec<Test>, Fault> {
        Ok(vec![in alloc;
            Test {
                rule: Rule::HasRole,
                holds: is_role(row.role)
            },
        ]?)
    }
}

impl RowKind for Roles {
    type Value = RoleRow;

    ghost Seen = { Pair × ℤ };

    ghost seen = { role_entry };

    ghost spelled = { role_spelled };

    fn read(row: &Row) -> Result<RoleRow, Error> {
        let organisation: String = row.get(0)?;
        let user: String = row.get(1)?;
        let role = row.get(2)?;
        Ok(RoleRow {
            organisation: Text::from(organisation),
            user: Text::from(user),
            role,
        })
    }
}

/// The numbers of statuses.
pub(crate) struct Statuses;

impl Checked for Statuses {
    type Row = StatusRow;

    ghost Entry = { Bytes × ℤ };

    ghost entry = { status_entry };

    ghost about = { spec.status };

    ghost tried = { status_forms };

    fn thing(alloc: Global, row: &StatusRow) -> Result<Thing, Fault> {
        Ok(Thing::Package {
            package: copied(alloc, &row.package)?,
        })
    }

    fn tests(alloc: Global, row: &StatusRow, _all: &Tables) -> Result<Vec<Test>, Fault> {
        Ok(vec![in alloc;
            Test {
                rule: Rule::HasStatus,
                holds: is_status(row.status)
            },
        ]?)
    }
}

impl RowKind for Statuses {
    type Value = StatusRow;

    ghost Seen = { Bytes × ℤ };

    ghost seen = { status_entry };

    ghost spelled = { status_spelled };

    fn read(row: &Row) -> Result<StatusRow, Error> {
        let package: String = row.get(0)?;
        let status = row.get(1)?;
        Ok(StatusRow {
            package: Text::from(package),
            status,
        })
    }
}

/// The numbers of what is granted.
pub(crate) struct Levels;

impl Checked for Levels {
    type Row = LevelRow;

    ghost Entry = { Triple × ℤ };

    ghost entry = { level_entry };

    ghost about = { spec.level };

    ghost tried = { level_forms };

    fn thing(alloc: Global, row: &LevelRow) -> Result<Thing, Fault> {
        Ok(Thing::Grant {
            organisation: copied(alloc, &row.organisation)?,
            team: copied(alloc, &row.team)?,
            package: copied(alloc, &row.package)?,
        })
    }

    fn tests(alloc: Global, row: &LevelRow, _all: &Tables) -> Result<Vec<Test>, Fault> {
        Ok(vec![in alloc;
            Test {
                rule: Rule::HasLevel,
                holds: is_level(row.level)
            },
        ]?)
    }
}

impl RowKind for Levels {
    type Value = LevelRow;

    ghost Seen = { Triple × ℤ };

    ghost seen = { level_entry };

    ghost spelled = { level_spelled };

    fn read(row: &Row) -> Result<LevelRow, Error> {
        let organisation: String = row.get(0)?;
        let team: String = row.get(1)?;
        let package: String = row.get(2)?;
        let level = row.get(3)?;
        Ok(LevelRow {
            organisation: Text::from(organisation),
            team: Text::from(team),
            package: Text::from(package),
            level,
        })
    }
}

/// When live versions were published.
pub(crate) struct Moments;

impl Checked for Moments {
    type Row = MomentRow;

    ghost Entry = { Pair × ℤ };

    ghost entry = { moment_entry };

    ghost about = { spec.moment };

    ghost tried = { moment_forms };

    fn thing(alloc: Global, row: &MomentRow) -> Result<Thing, Fault> {
        Ok(Thing::Version {
            package: copied(alloc, &row.package)?,
            version: copied(alloc, &row.version)?,
        })
    }

    fn tests(alloc: Global, row: &MomentRow, _all: &Tables) -> Result<Vec<Test>, Fault> {
        Ok(vec![in alloc;
            Test {
                rule: Rule::HasMoment,
                holds: is_moment(row.published)
            },
        ]?)
    }
}

impl RowKind for Moments {
    type Value = MomentRow;

    ghost Seen = { Pair × ℤ };

    ghost seen = { moment_entry };

    ghost spelled = { role_spelled };

    fn read(row: &Row) -> Result<MomentRow, Error> {
        let package: String = row.get(0)?;
        let version: String = row.get(1)?;
        let published = row.get(2)?;
        Ok(MomentRow {
            package: Text::from(package),
            version: Text::from(version),
            published,
        })
    }
}
