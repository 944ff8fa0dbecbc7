//! What one caller is to one package.

use crate::grant::Grant;
use crate::role::Role;
use registry_names::Status;

/// What one caller is to one package. Where a public package is to be seen, its status alone counts.
#[derive(Drop)]
pub struct Standing {
    /// Whether the organisation of the package's scope is there. It is false for a package without
    /// a scope.
    pub organisation: bool,
    /// The caller's role in that organisation, if they are a member of it.
    pub role: Option<Role>,
    /// The package's status. `None` where it was never published.
    pub status: Option<Status>,
    /// Whether the caller is a maintainer of the package. It means nothing for an owner or admin,
    /// whose role alone lets them write, except where somebody asks about the maintainers.
    pub maintainer: bool,
    /// What the caller's teams are granted on the package, in any order. It means nothing for an
    /// owner or admin, and for a maintainer.
    pub grants: Vec<Grant>,
}
