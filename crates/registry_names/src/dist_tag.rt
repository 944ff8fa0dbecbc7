//! Dist-tags.

use crate::text::Text;

/// A dist-tag of a package, and the version that it names.
#[derive(Debug, PartialEq, Eq, Drop)]
pub struct DistTag {
    /// The tag, such as `latest`.
    pub tag: Text,
    /// The version, such as `1.0.0`.
    pub version: Text,
}
