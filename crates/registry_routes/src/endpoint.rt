//! What a route asks for.

/// What a route asks for: a command or a query of the registry, without its values.
#[derive(Clone, Copy, Debug, PartialEq, Eq)]
pub enum Endpoint {
    /// The packument of a package. Value: its name.
    Packument,
    /// To publish a version. Value: the package's name. The body has the rest.
    Publish,
    /// The document of a version. Values: the package's name, and a version or `latest`.
    VersionDoc,
    /// The archive of a version. Values: the package's name, and the archive's file name.
    Archive,
    /// The tags of a package. Value: its name.
    Tags,
    /// To let a tag name a version. Values: the package's name, and the tag. The body has the
    /// version.
    TagSet,
    /// To remove a tag. Values: the package's name, and the tag.
    TagRemove,
    /// To set who may read a package. Value: its name. The body has the status.
    SetAccess,
    /// To make a user a maintainer. Values: the package's name, and the user's.
    OwnerAdd,
    /// To remove a maintainer. Values: the package's name, and the user's.
    OwnerRemove,
    /// To deprecate versions. Value: the package's name. The body has the selector and the message.
    Deprecate,
    /// To withdraw a version. Values: the package's name, and the version.
    Withdraw,
    /// The members of an organisation. Value: its name.
    Members,
    /// To give a user a role in an organisation. Values: its name, and the user's. The body has the
    /// role.
    OrgSet,
    /// To remove a member. Values: the organisation's name, and the user's.
    OrgRemove,
    /// The teams of an organisation. Value: its name.
    Teams,
    /// The members of a team. Values: the organisation's name, and the team's.
    TeamMembers,
    /// To create a team. Values: the organisation's name, and the team's.
    TeamCreate,
    /// To destroy a team. Values: the organisation's name, and the team's.
    TeamDestroy,
    /// To put a user into a team. Values: the names of the organisation, the team and the user.
    TeamAdd,
    /// To take a user out of a team. Values: the names of the organisation, the team and the user.
    TeamRemove,
    /// What a team is granted. Values: the organisation's name, and the team's.
    TeamPackages,
    /// To grant a team a package. Values: the names of the organisation, the team and the package.
    /// The body has the grant.
    Grant,
    /// To revoke a grant. Values: the names of the organisation, the team and the package.
    Revoke,
}
