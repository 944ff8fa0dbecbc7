//! Rows as they are loaded from the registry's tables.

use crate::grant::Grant;
use crate::role::Role;
use registry_names::{Status, Text};

/// A user is a member of an organisation. Its key is organisation and user.
#[derive(Drop)]
pub struct MemberRow {
    /// The organisation's name.
    pub organisation: Text,
    /// The member's name.
    pub user: Text,
    /// What they are in it.
    pub role: Role,
}

/// An organisation has a team. The whole row is its key.
#[derive(Drop)]
pub struct TeamRow {
    /// The organisation's name.
    pub organisation: Text,
    /// The team's name, which other organisations may have too.
    pub team: Text,
}

/// A user is in a team of an organisation. The whole row is its key.
#[derive(Drop)]
pub struct TeamMemberRow {
    /// The organisation's name.
    pub organisation: Text,
    /// The team's name.
    pub team: Text,
    /// The name of the user in it.
    pub user: Text,
}

/// A team of an organisation is granted something on a package. Its key is all but the grant.
#[derive(Drop)]
pub struct GrantRow {
    /// The organisation's name.
    pub organisation: Text,
    /// The team's name.
    pub team: Text,
    /// The package's name.
    pub package: Text,
    /// What the team is granted.
    pub grant: Grant,
}

/// A package is published, or once was. Its key is the package.
#[derive(Drop)]
pub struct PackageRow {
    /// The package's name.
    pub package: Text,
    /// Who may read it.
    pub status: Status,
}

/// A user is a maintainer of a package. The whole row is its key.
#[derive(Drop)]
pub struct MaintainerRow {
    /// The package's name.
    pub package: Text,
    /// The maintainer's name.
    pub user: Text,
}

/// Rows of the registry's tables, all of them or those that an ask concerns. Where a key occurs
/// twice in a list, its first row counts.
pub struct AccessRows {
    /// The names of the organisations.
    pub organisations: Vec<Text>,
    /// The members of organisations.
    pub members: Vec<MemberRow>,
    /// The teams of organisations.
    pub teams: Vec<TeamRow>,
    /// The members of teams.
    pub team_members: Vec<TeamMemberRow>,
    /// What teams are granted on packages.
    pub grants: Vec<GrantRow>,
    /// The packages that were ever published.
    pub packages: Vec<PackageRow>,
    /// The maintainers of packages.
    pub maintainers: Vec<MaintainerRow>,
}

// Written out, so that dropping the rows is one call, not one for each table.
impl Drop for AccessRows {
    fn drop(self) {
        let AccessRows {
            organisations: _,
            members: _,
            teams: _,
            team_members: _,
            grants: _,
            packages: _,
            maintainers: _,
        } = self;
    }
}
