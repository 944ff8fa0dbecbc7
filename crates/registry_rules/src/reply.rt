//! What the registry answers.

use registry_cache::{SharedBlob, SharedText};
use registry_names::Refusal;

/// The answer to a request.
#[derive(Debug, PartialEq, Eq, Drop)]
pub enum Reply {
    /// The version was published.
    Created,
    /// The command was done.
    Done,
    /// This many versions were deprecated, or are no longer deprecated; or this many tokens ended.
    Count(u64),
    /// A document in JSON (RFC 8259), which other replies may share.
    Doc(SharedText),
    /// The bytes of an archive, which other replies may share.
    Bytes(SharedBlob),
    /// The request is refused, and nothing has changed.
    Refused(Refusal),
}
