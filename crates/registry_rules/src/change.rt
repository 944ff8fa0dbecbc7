//! What a decision changes.

use registry_access::{Grant, Role};
use registry_names::{Ident, Message, Moment, Name, Status, Ver};
use registry_publish::{PublishForm, TokenDigest};

/// Changes, which are made in their order.
pub type Changes<'a> = Vec<Change<'a>>;

/// One change to what the registry holds. It says all that it does, and borrows what it says of
/// the request, of the caller, or of the facts.
#[derive(Clone, Copy)]
pub enum Change<'a> {
    /// There is this user.
    AddUser {
        /// The user.
        user: &'a Ident,
    },
    /// There is this token.
    AddToken {
        /// The token's digest.
        digest: &'a TokenDigest,
        /// Whose it is.
        user: &'a Ident,
    },
    /// The token is gone, and names nobody.
    DropToken {
        /// The token's digest.
        digest: &'a TokenDigest,
    },
    /// There is this organisation.
    AddOrg {
        /// The organisation.
        organisation: &'a str,
    },
    /// The user is a member of the organisation, in this role.
    PutMember {
        /// The organisation.
        organisation: &'a str,
        /// The user.
        user: &'a Ident,
        /// What they are in it.
        role: Role,
    },
    /// The user isn't a member of the organisation, and is in none of its teams.
    DropMember {
        /// The organisation.
        organisation: &'a str,
        /// The user.
        user: &'a Ident,
    },
    /// The organisation has this team.
    AddTeam {
        /// The organisation.
        organisation: &'a str,
        /// The team.
        team: &'a str,
    },
    /// The user is in the team of the organisation.
    PutTeamMember {
        /// The organisation.
        organisation: &'a str,
        /// The team.
        team: &'a str,
        /// The user.
        user: &'a Ident,
    },
    /// The user isn't in the team of the organisation.
    DropTeamMember {
        /// The organisation.
        organisation: &'a str,
        /// The team.
        team: &'a str,
        /// The user.
        user: &'a Ident,
    },
    /// The organisation no longer has this team: nobody is in it, and it is granted nothing.
    DropTeam {
        /// The organisation.
        organisation: &'a str,
        /// The team.
        team: &'a str,
    },
    /// The team of the organisation is granted this on the package, and nothing else on it.
    PutGrant {
        /// The organisation.
        organisation: &'a str,
        /// The team.
        team: &'a str,
        /// The package.
        package: &'a Name,
        /// What the team is granted.
        grant: Grant,
    },
    /// The team is granted nothing on the package.
    DropGrant {
        /// The organisation.
        organisation: &'a str,
        /// The team.
        team: &'a str,
        /// The package.
        package: &'a Name,
    },
    /// The user is a maintainer of the package.
    PutOwner {
        /// The package.
        package: &'a Name,
        /// The user.
        user: &'a Ident,
    },
    /// The user isn't a maintainer of the package.
    DropOwner {
        /// The package.
        package: &'a Name,
        /// The user.
        user: &'a Ident,
    },
    /// The package has this status.
    PutStatus {
        /// The package.
        package: &'a Name,
        /// Who may read it.
        status: Status,
    },
    /// The version of a form lives, with its manifest and its archive, and isn't deprecated.
    AddVersion {
        /// What is published.
        form: &'a PublishForm,
        /// When it is published.
        at: &'a Moment,
    },
    /// The version no longer lives, and is never published again.
    RetireVersion {
        /// The package.
        package: &'a Name,
        /// The version.
        version: &'a Ver,
        /// When it was published.
        published: &'a Moment,
        /// When it is withdrawn.
        withdrawn: &'a Moment,
    },
    /// The live version has this message of deprecation, or none where it is empty.
    PutDeprecation {
        /// The package.
        package: &'a Name,
        /// The version.
        version: &'a Ver,
        /// The message.
        message: &'a Message,
    },
    /// The tag names the version.
    PutTag {
        /// The package.
        package: &'a Name,
        /// The tag.
        tag: &'a str,
        /// The version that it is to name.
        version: &'a Ver,
    },
    /// The tag is gone.
    DropTag {
        /// The package.
        package: &'a Name,
        /// The tag.
        tag: &'a str,
    },
}
