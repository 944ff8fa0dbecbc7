//! What is asked for.

use registry_names::{Ident, Name};

/// What a caller asks to be allowed.
#[derive(Clone, Copy)]
pub enum Ask<'a> {
    /// To manage users, tokens and organisations.
    Operate,
    /// To manage the members of an organisation.
    OrgMembers(&'a Ident),
    /// To manage the teams of an organisation, and what they are granted.
    OrgTeams(&'a Ident),
    /// To publish a version of a package, the first one or a further one.
    Publish(&'a Name),
    /// To change a package otherwise: its status, its tags, its deprecations; or to withdraw a
    /// version.
    Write(&'a Name),
    /// To manage the maintainers of a package.
    Owners(&'a Name),
    /// To see a package.
    Read(&'a Name),
    /// To see the members and the teams of an organisation.
    OrgRead(&'a Ident),
}
