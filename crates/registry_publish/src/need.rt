//! A dependency.

use registry_names::Text;

/// What a version depends on: a package, and the versions of it that will do.
#[derive(Debug, PartialEq, Eq, Drop)]
pub struct Need {
    /// The package, as the manifest names it.
    pub target: Text,
    /// The versions, such as `^1.0.0`. Usually a range, but npm has other texts too, such as a tag.
    pub range: Text,
}
