//! Users, tokens, organisations and teams, and who is in them.

ghost use Rattle.std.specs.Prelude.{◌≡◌, IfOk};
ghost use Rattle.registry_access.specs.RowMaps.{member_entry, organisation_entry, team_entry, team_member_entry};
ghost use Rattle.registry_access.specs.declared.role.Role.{Role};
ghost use Rattle.registry_names.specs.Keys.{Pair, Triple};
ghost use Rattle.registry_names.specs.Texts.{Text as Bytes};
ghost use Rattle.registry_check.specs.Problems as spec;
ghost use Rattle.registry_check.specs.Rows.{token_entry};
ghost use Rattle.registry_check.specs.Rules.{member_tests, organisation_tests, team_member_tests, team_tests, token_tests};

use crate::checked::Checked;
use crate::problem::{Test, Thing};
use crate::rule::Rule;
use crate::tables::{Tables, TokenRow};
use registry_access::{MemberRow, TeamMemberRow, TeamRow};
use registry_names::{Blob, Fault, Text};
use std::alloc::Global;

const DEVELOPERS: &str = "developers";

/// Users.
pub(crate) struct Users;

/// Tokens.
pub(crate) struct Tokens;

impl Checked for Tokens {
    type Row = TokenRow;

    ghost Entry = { Bytes × Bytes };

    ghost entry = { token_entry };

    ghost about = { spec.token };

    ghost tried = { token_tests };

    fn thing(alloc: Global, row: &TokenRow) -> Result<Thing, Fault> {
        Ok(Thing::Token {
            digest: Blob::from_slice(alloc, row.digest.as_slice())?,
        })
    }

    fn tests(alloc: Global, row: &TokenRow, all: &Tables) -> Result<Vec<Test>, Fault> {
        Ok(vec![in alloc;
            Test {
                rule: Rule::HasUser,
                holds: all.has_user(row.user.as_str())
            },
        ]?)
    }
}

/// Organisations.
pub(crate) struct Organisations;

impl Checked for Organisations {
    type Row = Text;

    ghost Entry = { Bytes × Unit {0} };

    ghost entry = { organisation_entry };

    ghost about = { spec.organisation };

    ghost tried = { organisation_tests };

    fn thing(alloc: Global, row: &Text) -> Result<Thing, Fault> {
        Ok(Thing::Organisation {
            organisation: copied(alloc, row)?,
        })
    }

    fn tests(alloc: Global, row: &Text, all: &Tables) -> Result<Vec<Test>, Fault> {
        Ok(vec![in alloc;
            Test {
                rule: Rule::HasOwner,
                holds: all.has_owner(row.as_str())
            },
            Test {
                rule: Rule::HasFirstTeam,
                holds: all.has_team(row.as_str(), DEVELOPERS)
            },
        ]?)
    }
}

/// Members of organisations.
pub(crate) struct Members;

impl Checked for Members {
    type Row = MemberRow;

    ghost Entry = { Pair × Role };

    ghost entry = { member_entry };

    ghost about = { spec.member };

    ghost tried = { member_tests };

    fn thing(alloc: Global, row: &MemberRow) -> Result<Thing, Fault> {
        Ok(Thing::Member {
            organisation: copied(alloc, &row.organisation)?,
            user: copied(alloc, &row.user)?,
        })
    }

    fn tests(alloc: Global, row: &MemberRow, all: &Tables) -> Result<Vec<Test>, Fault> {
        Ok(vec![in alloc;
            Test {
                rule: Rule::HasOrganisation,
                holds: all.has_organisation(row.organisation.as_str())
            },
            Test {
                rule: Rule::HasUser,
                holds: all.has_user(row.user.as_str())
            },
        ]?)
    }
}

/// Teams of organisations.
pub(crate) struct Teams;

impl Checked for Teams {
    type Row = TeamRow;

    ghost Entry = { Pair × Unit {0} };

    ghost entry = { team_entry };

    ghost about = { spec.team };

    ghost tried = { team_tests };

    fn thing(alloc: Global, row: &TeamRow) -> Result<Thing, Fault> {
        Ok(Thing::Team {
            organisation: copied(alloc, &row.organisation)?,
            team: copied(alloc, &row.team)?,
        })
    }

    fn tests(alloc: Global, row: &TeamRow, all: &Tables) -> Result<Vec<Test>, Fault> {
        Ok(vec![in alloc;
            Test {
                rule: Rule::HasOrganisation,
                holds: all.has_organisation(row.organisation.as_str())
            },
        ]?)
    }
}

/// Who is in which team.
pub(crate) struct TeamMembers;

impl Checked for TeamMembers {
    type Row = TeamMemberRow;

    ghost Entry = { Triple × Unit {0} };

    ghost entry = { team_member_entry };

    ghost about = { spec.team_member };

    ghost tried = { team_member_tests };

    fn thing(alloc: Global, row: &TeamMemberRow) -> Result<Thing, Fault> {
        Ok(Thing::TeamMember {
            organisation: copied(alloc, &row.organisation)?,
            team: copied(alloc, &row.team)?,
            user: copied(alloc, &row.user)?,
        })
    }

    fn tests(alloc: Global, row: &TeamMemberRow, all: &Tables) -> Result<Vec<Test>, Fault> {
        Ok(vec![in alloc;
            Test {
                rule: Rule::HasTeam,
                holds: all.has_team(row.organisation.as_str(), row.team.as_str())
            },
            Test {
                rule: Rule::IsMember,
                holds: all.is_member(row.organisation.as_str(), row.user.as_str())
            },
        ]?)
    }
}

/// A copy of the text.
pub(crate) fn copied(alloc: Global, text: &Text) -> Result<Text, Fault>
    ensures { IfOk result (λ copy. copy ≡ text.now) }
{
    Ok(Text::from_str(alloc, text.as_str())?)
}
