//! The names of users, organisations, teams and packages, and the digests of tokens.

ghost use Rattle.std.specs.Prelude.{◌≡◌, ◌||◌, not};
ghost use Rattle.registry_access.specs.RowMaps.{maintainer_entry, organisation_entry, package_entry, team_entry};
ghost use Rattle.registry_names.specs.Keys.{Pair, pair_is};
ghost use Rattle.registry_names.specs.Names.{scope_of};
ghost use Rattle.registry_names.specs.Tags.{latest};
ghost use Rattle.registry_names.specs.Texts.{Text as Bytes};
ghost use Rattle.registry_names.specs.declared.status.Status.{Status as Shown};
ghost use Rattle.registry_check.specs.FormRules as rules;
ghost use Rattle.registry_check.specs.FormRules.{maintainer_forms, organisation_forms, package_forms, team_forms, token_forms, user_forms};
ghost use Rattle.registry_check.specs.Problems as spec;
ghost use Rattle.registry_check.specs.Rows.{rows_of, token_entry, user_entry};
ghost use Rattle.registry_check.specs.Rules.{has};

use crate::checked::Checked;
use crate::forms::{is_ident, is_name};
use crate::people::copied;
use crate::problem::{Test, Thing};
use crate::rule::Rule;
use crate::scope::{is_unscoped, scope};
use crate::tables::{Tables, TokenRow};
use registry_access::{MaintainerRow, PackageRow, TeamRow};
use registry_names::{Blob, Fault, LATEST, Text};
use std::alloc::Global;

const DIGEST: usize = 32;

/// The names of users.
pub(crate) struct UserForms;

impl Checked for UserForms {
    type Row = Text;

    ghost Entry = { Bytes × Unit {0} };

    ghost entry = { user_entry };

    ghost about = { spec.user };

    ghost tried = { user_forms };

    fn thing(alloc: Global, row: &Text) -> Result<Thing, Fault> {
        Ok(Thing::User {
            user: copied(alloc, row)?,
        })
    }

    fn tests(alloc: Global, row: &Text, all: &Tables) -> Result<Vec<Test>, Fault> {
        let is_spelled = is_ident(alloc, row.as_str())?;
        Ok(vec![in alloc;
            Test {
                rule: Rule::IsSpelled,
                holds: is_spelled
            },
        ]?)
    }
}

/// The digests of tokens.
pub(crate) struct TokenForms;

impl Checked for TokenForms {
    type Row = TokenRow;

    ghost Entry = { Bytes × Bytes };

    ghost entry = { token_entry };

    ghost about = { spec.token };

    ghost tried = { token_forms };

    fn thing(alloc: Global, row: &TokenRow) -> Result<Thing, Fault> {
        Ok(Thing::Token {
            digest: Blob::from_slice(alloc, row.digest.as_slice())?,
        })
    }

    fn tests(alloc: Global, row: &TokenRow, _all: &Tables) -> Result<Vec<Test>, Fault> {
        Ok(vec![in alloc;
            Test {
                rule: Rule::HasDigest,
                holds: row.digest.as_slice().len() == DIGEST
            },
        ]?)
    }
}

/// The names of organisations.
pub(crate) struct OrganisationForms;

impl Checked for OrganisationForms {
    type Row = Text;

    ghost Entry = { Bytes × Unit {0} };

    ghost entry = { organisation_entry };

    ghost about = { spec.organisation };

    ghost tried = { organisation_forms };

    fn thing(alloc: Global, row: &Text) -> Result<Thing, Fault> {
        Ok(Thing::Organisation {
            organisation: copied(alloc, row)?,
        })
    }

    fn tests(alloc: Global, row: &Text, all: &Tables) -> Result<Vec<Test>, Fault> {
        let is_spelled = is_ident(alloc, row.as_str())?;
        Ok(vec![in alloc;
            Test {
                rule: Rule::IsSpelled,
                holds: is_spelled
            },
        ]?)
    }
}

/// The names of teams.
pub(crate) struct TeamForms;

impl Checked for TeamForms {
    type Row = TeamRow;

    ghost Entry = { Pair × Unit {0} };

    ghost entry = { team_entry };

    ghost about = { spec.team };

    ghost tried = { team_forms };

    fn thing(alloc: Global, row: &TeamRow) -> Result<Thing, Fault> {
        Ok(Thing::Team {
            organisation: copied(alloc, &row.organisation)?,
            team: copied(alloc, &row.team)?,
        })
    }

    fn tests(alloc: Global, row: &TeamRow, all: &Tables) -> Result<Vec<Test>, Fault> {
        let is_spelled = is_ident(alloc, row.team.as_str())?;
        Ok(vec![in alloc;
            Test {
                rule: Rule::IsSpelled,
                holds: is_spelled
            },
        ]?)
    }
}

/// The names of packages, their scopes and their tag `latest`.
pub(crate) struct PackageForms;

impl Checked for PackageForms {
    type Row = PackageRow;

    ghost Entry = { Bytes × Shown };

    ghost entry = { package_entry };

    ghost about = { spec.package_of };

    ghost tried = { package_forms };

    fn thing(alloc: Global, row: &PackageRow) -> Result<Thing, Fault> {
        Ok(Thing::Package {
            package: copied(alloc, &row.package)?,
        })
    }

    fn tests(alloc: Global, row: &PackageRow, all: &Tables) -> Result<Vec<Test>, Fault> {
        let is_spelled = is_name(alloc, row.package.as_str())?;
        Ok(vec![in alloc;
            Test {
                rule: Rule::IsSpelled,
                holds: is_spelled
            },
            Test {
                rule: Rule::HasScope,
                holds: has_scope(row.package.as_str(), all)
            },
            Test {
                rule: Rule::HasLatest,
                holds: has_latest(row.package.as_str(), all)
            },
        ]?)
    }
}

// Whether the organisation of the scope is there, where the name has one.
fn has_scope(name: &str, all: &Tables) -> bool
    ensures { result ≡ rules.has_scope_of (rows_of all.now) (scope_of name.now) }
{
    match scope(name) {
        Some(organisation) => all.has_organisation(organisation),
        None => true,
    }
}

// Whether the package has the tag `latest`, where a version lives.
fn has_latest(name: &str, all: &Tables) -> bool
    ensures { result ≡ (not (rules.has_live (rows_of all.now) name.now)
        || has pair_is (rows_of all.now).tags (name.now, latest)) }
{
    !all.has_live(name) || all.has_tag(name, LATEST)
}

/// Maintainers, of packages without a scope alone.
pub(crate) struct MaintainerForms;

impl Checked for MaintainerForms {
    type Row = MaintainerRow;

    ghost Entry = { Pair × Unit {0} };

    ghost entry = { maintainer_entry };

    ghost about = { spec.maintainer };

    ghost tried = { maintainer_forms };

    fn thing(alloc: Global, row: &MaintainerRow) -> Result<Thing, Fault> {
        Ok(Thing::Maintainer {
            package: copied(alloc, &row.package)?,
            user: copied(alloc, &row.user)?,
        })
    }

    fn tests(alloc: Global, row: &MaintainerRow, _all: &Tables) -> Result<Vec<Test>, Fault> {
        Ok(vec![in alloc;
            Test {
                rule: Rule::IsUnscoped,
                holds: is_unscoped(row.package.as_str())
            },
        ]?)
    }
}
