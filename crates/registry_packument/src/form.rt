//! The two forms of a packument.

/// The form of a packument, by npm's description of package metadata.
#[derive(Clone, Copy, Debug, PartialEq, Eq)]
pub enum PackForm {
    /// All of it: whole documents of versions, and the moments of their publication.
    Full,
    /// What an install reads.
    Abbreviated,
}
