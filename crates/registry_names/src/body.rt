//! The size of a body.

/// The most bytes of a body that is read: 4 MiB.
pub const BODY_LIMIT: usize = 4_194_304;
