//! Packages, and who may do what with them.

ghost use Rattle.std.specs.Prelude.{◌≡◌, ◌||◌, not, is_none};
ghost use Rattle.registry_access.specs.RowMaps.{grant_entry, maintainer_entry, package_entry};
ghost use Rattle.registry_access.specs.declared.grant.Grant.{Grant};
ghost use Rattle.registry_names.specs.Keys.{Pair, Triple};
ghost use Rattle.registry_names.specs.Names.{scope_of};
ghost use Rattle.registry_names.specs.Texts.{Text as Bytes};
ghost use Rattle.registry_names.specs.declared.status.Status.{Status as Shown};
ghost use Rattle.registry_check.specs.Problems as spec;
ghost use Rattle.registry_check.specs.Rows.{rows_of};
ghost use Rattle.registry_check.specs.Rules as rules;
ghost use Rattle.registry_check.specs.Rules.{grant_tests, maintainer_tests, package_tests};

use crate::checked::Checked;
use crate::people::copied;
use crate::problem::{Test, Thing};
use crate::rule::Rule;
use crate::scope::{is_in_scope, is_unscoped};
use crate::tables::Tables;
use registry_access::{GrantRow, MaintainerRow, PackageRow};
use registry_names::{Fault, Status};
use std::alloc::Global;

/// Packages that were published.
pub(crate) struct Published;

impl Checked for Published {
    type Row = PackageRow;

    ghost Entry = { Bytes × Shown };

    ghost entry = { package_entry };

    ghost about = { spec.package_of };

    ghost tried = { package_tests };

    fn thing(alloc: Global, row: &PackageRow) -> Result<Thing, Fault> {
        Ok(Thing::Package {
            package: copied(alloc, &row.package)?,
        })
    }

    fn tests(alloc: Global, row: &PackageRow, all: &Tables) -> Result<Vec<Test>, Fault> {
        Ok(vec![in alloc;
            Test {
                rule: Rule::IsPublic,
                holds: is_scoped_or_public(row)
            },
            Test {
                rule: Rule::HasMaintainer,
                holds: is_scoped_or_maintained(row, all)
            },
        ]?)
    }
}

fn is_scoped_or_public(row: &PackageRow) -> bool
    ensures { result ≡ (not (is_none (scope_of row.now.package)) || rules.is_public row.now.status) }
{
    !is_unscoped(row.package.as_str()) || is_public(row.status)
}

fn is_public(status: Status) -> bool
    ensures { result ≡ rules.is_public status }
{
    matches!(status, Status::Public)
}

fn is_scoped_or_maintained(row: &PackageRow, all: &Tables) -> bool
    ensures { result ≡ (not (is_none (scope_of row.now.package))
        || rules.has_maintainer (rows_of all.now) row.now.package) }
{
    !is_unscoped(row.package.as_str()) || all.has_maintainer(row.package.as_str())
}

/// What teams are granted on packages.
pub(crate) struct Grants;

impl Checked for Grants {
    type Row = GrantRow;

    ghost Entry = { Triple × Grant };

    ghost entry = { grant_entry };

    ghost about = { spec.grant };

    ghost tried = { grant_tests };

    fn thing(alloc: Global, row: &GrantRow) -> Result<Thing, Fault> {
        Ok(Thing::Grant {
            organisation: copied(alloc, &row.organisation)?,
            team: copied(alloc, &row.team)?,
            package: copied(alloc, &row.package)?,
        })
    }

    fn tests(alloc: Global, row: &GrantRow, all: &Tables) -> Result<Vec<Test>, Fault> {
        Ok(vec![in alloc;
            Test {
                rule: Rule::HasTeam,
                holds: all.has_team(row.organisation.as_str(), row.team.as_str())
            },
            Test {
                rule: Rule::HasPackage,
                holds: all.has_package(row.package.as_str())
            },
            Test {
                rule: Rule::IsInScope,
                holds: is_in_scope(row.organisation.as_str(), row.package.as_str())
            },
        ]?)
    }
}

/// Maintainers of packages.
pub(crate) struct Maintainers;

impl Checked for Maintainers {
    type Row = MaintainerRow;

    ghost Entry = { Pair × Unit {0} };

    ghost entry = { maintainer_entry };

    ghost about = { spec.maintainer };

    ghost tried = { maintainer_tests };

    fn thing(alloc: Global, row: &MaintainerRow) -> Result<Thing, Fault> {
        Ok(Thing::Maintainer {
            package: copied(alloc, &row.package)?,
            user: copied(alloc, &row.user)?,
        })
    }

    fn tests(alloc: Global, row: &MaintainerRow, all: &Tables) -> Result<Vec<Test>, Fault> {
        Ok(vec![in alloc;
            Test {
                rule: Rule::HasPackage,
                holds: all.has_package(row.package.as_str())
            },
            Test {
                rule: Rule::HasUser,
                holds: all.has_user(row.user.as_str())
            },
        ]?)
    }
}
