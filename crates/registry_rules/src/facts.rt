//! The facts that a decision rests on.

use registry_access::{AccessRows, Caller, Role, Standing};
use registry_names::{Ident, Moment, Text, Ver};
use registry_publish::TokenDigest;

/// What the registry holds of a request: who asks, and what exists of what they ask for.
pub struct Facts {
    /// Who asks. `None` where the credential names nobody.
    pub caller: Option<Caller>,
    /// What exists of it.
    pub about: About,
}

// Written out, so that dropping facts is one call, not one for each part.
impl Drop for Facts {
    fn drop(self) {
        let Facts {
            caller: _,
            about: _,
        } = self;
    }
}

/// What the registry holds of what an action is about: for each subject, what decides the actions
/// about it and what their changes need. Rows and standings are what the policy asks for: rows of the
/// organisation, and of the caller's membership in it; the standing of the caller to the package.
#[derive(Drop)]
pub enum About {
    /// Of a user who is to be added.
    UserAdd {
        /// Whether they are there already.
        exists: bool,
    },
    /// Of a token that is to be added.
    TokenAdd {
        /// Whether its user is there.
        user_exists: bool,
        /// Whether the token is there already.
        exists: bool,
    },
    /// Of a token that is to end.
    TokenRemove {
        /// Whose it is, if it is there.
        user: Option<Ident>,
    },
    /// Of a user whose tokens are to end.
    TokensRemove {
        /// Whether the user is there.
        user_exists: bool,
        /// The digests of their tokens, in byte order.
        digests: Vec<TokenDigest>,
    },
    /// Of an organisation that is to be created.
    OrgCreate {
        /// Whether its owner is there.
        owner_exists: bool,
        /// Whether the organisation is there already.
        exists: bool,
    },
    /// Of an organisation, and a user who is a member of it, or is to be one.
    Member {
        /// The organisation, and the caller in it.
        rows: AccessRows,
        /// Whether the user is there.
        user_exists: bool,
        /// What they are in the organisation, if they are a member of it.
        role: Option<Role>,
        /// Whether another member of it is an owner.
        other_owner: bool,
    },
    /// Of a team.
    Team {
        /// The organisation, and the caller in it.
        rows: AccessRows,
        /// Whether the team is there.
        exists: bool,
    },
    /// Of a team, and a user who is in it, or is to be.
    TeamMember {
        /// The organisation, and the caller in it.
        rows: AccessRows,
        /// Whether the team is there.
        team_exists: bool,
        /// Whether the user is a member of the organisation.
        is_member: bool,
        /// Whether they are in the team.
        is_in_team: bool,
    },
    /// Of what a team is granted on a package, or is to be.
    Grant {
        /// The organisation, and the caller in it.
        rows: AccessRows,
        /// Whether the team is there.
        team_exists: bool,
        /// Whether the package was ever published.
        is_published: bool,
        /// Whether the team is granted something on it.
        stands: bool,
    },
    /// Of a package, where the rights of the caller alone decide.
    Rights {
        /// The caller and the package.
        standing: Standing,
    },
    /// Of a user who is to be a maintainer.
    OwnerAdd {
        /// The caller and the package.
        standing: Standing,
        /// Whether the user is there.
        user_exists: bool,
        /// Whether they are a maintainer already.
        is_maintainer: bool,
    },
    /// Of a maintainer who is to be removed.
    OwnerRemove {
        /// The caller and the package.
        standing: Standing,
        /// Whether the user is a maintainer.
        is_maintainer: bool,
        /// Whether another user is.
        other_maintainer: bool,
    },
    /// Of a query about an organisation.
    Organisation {
        /// The organisation, and the caller in it.
        rows: AccessRows,
    },
    /// Of an action of nobody, or of one that is decided by who asks alone: nothing is asked about
    /// it.
    Nothing,
    /// Of a publish.
    Publish(PublishFacts),
    /// Of a tag that is to name a version.
    TagSet {
        /// The caller and the package.
        standing: Standing,
        /// Whether the version lives.
        version_lives: bool,
    },
    /// Of a tag that is to be removed.
    TagRemove {
        /// The caller and the package.
        standing: Standing,
        /// Whether the tag exists.
        tag_stands: bool,
    },
    /// Of a version that is to be withdrawn.
    Withdraw {
        /// The caller and the package.
        standing: Standing,
        /// When it was published, if it lives.
        published: Option<Moment>,
        /// Whether a live version of another package needs it.
        depended: bool,
        /// The tags that name it, in byte order.
        tags: Vec<Text>,
        /// The live versions of the package, in byte order of their texts.
        live: Vec<Ver>,
    },
    /// Of a package of which all live versions are to be withdrawn.
    WithdrawAll {
        /// The caller and the package.
        standing: Standing,
        /// Whether a live version of another package needs one of them.
        depended: bool,
        /// The tags of the package, in byte order.
        tags: Vec<Text>,
        /// The live versions, in byte order of their texts.
        live: Vec<LiveVersion>,
    },
    /// Of versions that are to be deprecated.
    Deprecate {
        /// The caller and the package.
        standing: Standing,
        /// The live versions of the package, in byte order of their texts.
        live: Vec<Ver>,
    },
    /// Of a query about one version.
    Version {
        /// The caller and the package.
        standing: Standing,
        /// Whether it lives.
        lives: bool,
    },
    /// Of a query about a package.
    Package {
        /// The caller and the package.
        standing: Standing,
        /// Whether a version of it lives.
        lives: bool,
    },
}

/// A live version.
#[derive(Drop)]
pub struct LiveVersion {
    /// The version.
    pub version: Ver,
    /// When it was published.
    pub published: Moment,
}

/// What decides a publish.
#[derive(Drop)]
pub struct PublishFacts {
    /// The caller and the package.
    pub standing: Standing,
    /// Whether the version that is published lives already.
    pub version_lives: bool,
    /// Whether the version was withdrawn.
    pub version_spent: bool,
    /// Whether the tag `latest` exists, or is the tag under which the version is published.
    pub latest_stands: bool,
    /// When a version of the package was withdrawn last, if none lives and one ever was.
    pub gone_since: Option<Moment>,
}
