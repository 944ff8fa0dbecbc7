//! What can be asked of the registry.

use registry_access::{Grant, Role};
use registry_names::{Ident, Message, Moment, Name, Status, TagText, Ver};
use registry_publish::{PublishForm, TokenDigest};
use registry_ranges::Selector;

/// One thing that is asked of the registry.
pub struct Request {
    /// When it is asked.
    pub at: Moment,
    /// What the caller shows of themselves.
    pub who: Credential,
    /// What they ask.
    pub what: Action,
}

// Written out, so that dropping a request is one call, not one for each part.
impl Drop for Request {
    fn drop(self) {
        let Request {
            at: _,
            who: _,
            what: _,
        } = self;
    }
}

/// What a caller shows of themselves.
#[derive(Debug, Drop)]
pub enum Credential {
    /// That they run the registry.
    Operator,
    /// That they are this user.
    User(Ident),
    /// The token of a user, of which nothing is kept but its digest.
    Token(TokenDigest),
    /// Nothing.
    Anonymous,
}

/// A command, which may change the registry, or a query, which doesn't.
pub enum Action {
    /// The operator's command to add a user.
    UserAdd {
        /// The user's name.
        user: Ident,
    },
    /// The operator's command to add a token of a user.
    TokenAdd {
        /// The user's name.
        user: Ident,
        /// The token's digest.
        digest: TokenDigest,
    },
    /// The command of the operator, or of the user whose token it is, to end a token. From then on
    /// it names nobody, until it is added again.
    TokenRemove {
        /// The token's digest.
        digest: TokenDigest,
    },
    /// The operator's command to end all tokens of a user.
    TokensRemove {
        /// The user's name.
        user: Ident,
    },
    /// The operator's command to create an organisation, with its first owner and its team
    /// `developers`.
    OrgCreate {
        /// The organisation's name.
        organisation: Ident,
        /// The owner's name.
        owner: Ident,
    },
    /// An owner's command to give a user a role in an organisation, whether they are a member
    /// already or become one.
    OrgSet {
        /// The organisation's name.
        organisation: Ident,
        /// The user's name.
        user: Ident,
        /// What they are to be in it.
        role: Role,
    },
    /// An owner's command to remove a member from an organisation and from its teams.
    OrgRemove {
        /// The organisation's name.
        organisation: Ident,
        /// The member's name.
        user: Ident,
    },
    /// An owner's or admin's command to create a team of an organisation, with nobody in it.
    TeamCreate {
        /// The organisation's name.
        organisation: Ident,
        /// The team's name.
        team: Ident,
    },
    /// An owner's or admin's command to destroy a team other than `developers`, with all that it is
    /// granted.
    TeamDestroy {
        /// The organisation's name.
        organisation: Ident,
        /// The team's name.
        team: Ident,
    },
    /// An owner's or admin's command to put a member of an organisation into one of its teams,
    /// whether they are in it already or not.
    TeamAdd {
        /// The organisation's name.
        organisation: Ident,
        /// The team's name.
        team: Ident,
        /// The member's name.
        user: Ident,
    },
    /// An owner's or admin's command to take a member out of a team.
    TeamRemove {
        /// The organisation's name.
        organisation: Ident,
        /// The team's name.
        team: Ident,
        /// The member's name.
        user: Ident,
    },
    /// An owner's or admin's command to grant a team something on a package of the scope, in place
    /// of what it was granted on it before.
    Grant {
        /// The organisation's name.
        organisation: Ident,
        /// The team's name.
        team: Ident,
        /// The package's name.
        package: Name,
        /// What the team is granted.
        grant: Grant,
    },
    /// An owner's or admin's command to take from a team what it is granted on a package.
    Revoke {
        /// The organisation's name.
        organisation: Ident,
        /// The team's name.
        team: Ident,
        /// The package's name.
        package: Name,
    },
    /// The command to say who may read a package. A package without a scope is always public.
    SetAccess {
        /// The package's name.
        package: Name,
        /// Who is to read it.
        status: Status,
    },
    /// A maintainer's command to make a user a maintainer of a package, whether they are one
    /// already or not.
    OwnerAdd {
        /// The package's name.
        package: Name,
        /// The user's name.
        user: Ident,
    },
    /// A maintainer's command to remove a maintainer of a package, who may be themselves. The last
    /// one stays.
    OwnerRemove {
        /// The package's name.
        package: Name,
        /// The maintainer's name.
        user: Ident,
    },
    /// The command to publish a version of a package, for the first time or not.
    Publish {
        /// The version, with all that is published of it.
        form: PublishForm,
    },
    /// The command to let a tag name a live version, whether it names another or isn't there yet.
    TagSet {
        /// The package's name.
        package: Name,
        /// The tag, which may be `latest`.
        tag: TagText,
        /// The version that it is to name.
        version: Ver,
    },
    /// The command to remove a tag other than `latest`.
    TagRemove {
        /// The package's name.
        package: Name,
        /// The tag.
        tag: TagText,
    },
    /// The command to withdraw a live version, which is never published again. It is accepted for
    /// three days after the publish, and while no live version of another package needs the
    /// version.
    Withdraw {
        /// The package's name.
        package: Name,
        /// The version that is to be withdrawn.
        version: Ver,
    },
    /// The command to withdraw all live versions of a package, or none: where the withdrawal of one
    /// of them would be refused, nothing is changed.
    WithdrawAll {
        /// The package's name.
        package: Name,
    },
    /// The command to deprecate the live versions that a selector selects, prereleases included,
    /// or, by the empty message, to take that back. Versions that are published later aren't
    /// touched.
    Deprecate {
        /// The package's name.
        package: Name,
        /// Which versions it is about.
        selector: Selector,
        /// What is to be said of them.
        message: Message,
    },
    /// The query for the packument of a package: its tags, and its live versions with their
    /// documents.
    Packument {
        /// The package's name.
        package: Name,
    },
    /// The query for what an install reads of the packument: the abbreviated one.
    AbbreviatedPackument {
        /// The package's name.
        package: Name,
    },
    /// The query for the packument as npm reads it: the full one, and before its first member its
    /// revision and the maintainers.
    RevisedPackument {
        /// The package's name.
        package: Name,
    },
    /// The query for the document of a live version: its manifest, with `deprecated` in it if it is
    /// deprecated.
    VersionDoc {
        /// The package's name.
        package: Name,
        /// The version.
        version: Asked,
    },
    /// The query for the archive of a live version.
    Archive {
        /// The package's name.
        package: Name,
        /// The version.
        version: Ver,
    },
    /// The query for the tags of a package, each with the version that it names.
    Tags {
        /// The package's name.
        package: Name,
    },
    /// A member's query for the members of an organisation, each with their role.
    Members {
        /// The organisation's name.
        organisation: Ident,
    },
    /// A member's query for the teams of an organisation.
    Teams {
        /// The organisation's name.
        organisation: Ident,
    },
    /// A member's query for the members of a team.
    TeamMembers {
        /// The organisation's name.
        organisation: Ident,
        /// The team's name.
        team: Ident,
    },
    /// A member's query for what a team is granted, on packages that they read.
    TeamPackages {
        /// The organisation's name.
        organisation: Ident,
        /// The team's name.
        team: Ident,
    },
    /// A user's query for their own name.
    WhoAmI,
    /// The query for the maintainers of a package.
    Maintainers {
        /// The package's name.
        package: Name,
    },
    /// The query for the packages of an organisation's scope that the caller reads, each with what
    /// they may do with it.
    OrgPackages {
        /// The organisation's name.
        organisation: Ident,
    },
    /// A user's query for their own packages, each with what they may do with it: those without a
    /// scope that they maintain, and those that they read in the organisations they are a member of.
    MyPackages,
    /// The operator's query for all users, each with the number of their tokens.
    Users,
    /// The operator's query for all organisations.
    Organisations,
    /// The operator's query for all packages that were ever published, each with its status and
    /// the version that `latest` names.
    Packages,
}

// Written out, so that dropping an action is one call wherever a function is left.
impl Drop for Action {
    fn drop(self) {
        match self {
            Action::UserAdd { user: _ } => {}
            Action::TokenAdd { user: _, digest: _ } => {}
            Action::TokenRemove { digest: _ } => {}
            Action::TokensRemove { user: _ } => {}
            Action::OrgCreate {
                organisation: _,
                owner: _,
            } => {}
            Action::OrgSet {
                organisation: _,
                user: _,
                role: _,
            } => {}
            Action::OrgRemove {
                organisation: _,
                user: _,
            } => {}
            Action::TeamCreate {
                organisation: _,
                team: _,
            } => {}
            Action::TeamDestroy {
                organisation: _,
                team: _,
            } => {}
            Action::TeamAdd {
                organisation: _,
                team: _,
                user: _,
            } => {}
            Action::TeamRemove {
                organisation: _,
                team: _,
                user: _,
            } => {}
            Action::Grant {
                organisation: _,
                team: _,
                package: _,
                grant: _,
            } => {}
            Action::Revoke {
                organisation: _,
                team: _,
                package: _,
            } => {}
            Action::SetAccess {
                package: _,
                status: _,
            } => {}
            Action::OwnerAdd {
                package: _,
                user: _,
            } => {}
            Action::OwnerRemove {
                package: _,
                user: _,
            } => {}
            Action::Publish { form: _ } => {}
            Action::TagSet {
                package: _,
                tag: _,
                version: _,
            } => {}
            Action::TagRemove { package: _, tag: _ } => {}
            Action::Withdraw {
                package: _,
                version: _,
            } => {}
            Action::WithdrawAll { package: _ } => {}
            Action::Deprecate {
                package: _,
                selector: _,
                message: _,
            } => {}
            Action::Packument { package: _ } => {}
            Action::AbbreviatedPackument { package: _ } => {}
            Action::RevisedPackument { package: _ } => {}
            Action::VersionDoc {
                package: _,
                version: _,
            } => {}
            Action::Archive {
                package: _,
                version: _,
            } => {}
            Action::Tags { package: _ } => {}
            Action::Members { organisation: _ } => {}
            Action::Teams { organisation: _ } => {}
            Action::TeamMembers {
                organisation: _,
                team: _,
            } => {}
            Action::TeamPackages {
                organisation: _,
                team: _,
            } => {}
            Action::WhoAmI => {}
            Action::Maintainers { package: _ } => {}
            Action::OrgPackages { organisation: _ } => {}
            Action::MyPackages => {}
            Action::Users => {}
            Action::Organisations => {}
            Action::Packages => {}
        }
    }
}

/// Which version of a package is asked for.
#[derive(Drop)]
pub enum Asked {
    /// This one.
    Exact(Ver),
    /// The one that the tag `latest` names.
    Latest,
}
