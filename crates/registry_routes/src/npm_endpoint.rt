//! What a route of npm's asks for.

/// What a route of npm's own asks for, without its values.
#[derive(Clone, Copy, Debug, PartialEq, Eq)]
pub enum NpmEndpoint {
    /// The packument of a package, with its revision and its maintainers. Value: its name.
    Packument,
    /// To put back the whole document of a package, changed. Value: its name. The body has the
    /// document.
    Document,
    /// The same under a revision. Values: the package's name, and the revision.
    Revised,
    /// To withdraw all versions of a package. Values: its name, and the revision.
    Unpublish,
    /// To delete the file of an archive. Values: the package's name, the archive's file name, and
    /// the revision.
    FileDrop,
    /// The same, where the file's name has a scope. Values: the package's name, the scope, and the
    /// rest of the file's name.
    ScopedFileDrop,
    /// Whether anybody may read a package. Value: its name.
    Visibility,
    /// To set who may read a package. Value: its name. The body has the status.
    SetAccess,
    /// The users that read or write a package. Value: its name.
    Collaborators,
    /// The packages of an organisation. Value: its name.
    OrgPackages,
    /// The packages of a user. Value: the user's name.
    UserPackages,
    /// The members of an organisation. Value: its name.
    Members,
    /// To give a user a role in an organisation. Value: its name. The body has the user's name and
    /// the role.
    OrgSet,
    /// To remove a member. Value: the organisation's name. The body has the user's.
    OrgRemove,
    /// The teams of an organisation. Value: its name.
    Teams,
    /// To create a team. Value: the organisation's name. The body has the team's.
    TeamCreate,
    /// The members of a team. Values: the organisation's name, and the team's.
    TeamMembers,
    /// To put a user into a team. Values: the organisation's name, and the team's. The body has the
    /// user's.
    TeamAdd,
    /// To take a user out of a team. Values: the organisation's name, and the team's. The body has
    /// the user's.
    TeamRemove,
    /// What a team is granted. Values: the organisation's name, and the team's.
    TeamPackages,
    /// To grant a team a package. Values: the organisation's name, and the team's. The body has the
    /// package's and the grant.
    Grant,
    /// To revoke a grant. Values: the organisation's name, and the team's. The body has the
    /// package's.
    Revoke,
    /// The name of the caller.
    WhoAmI,
    /// The profile of the caller.
    Profile,
    /// The document of a user. Value: `org.couchdb.user:` and the user's name.
    User,
    /// To end a token. Value: the token.
    Logout,
    /// Whether the registry answers.
    Ping,
    /// What this registry doesn't do for npm: to log in, to change a user, and to make or end
    /// tokens by their keys.
    NotServed,
}
