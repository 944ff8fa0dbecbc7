//! Texts and bytes that are made once and handed out often, and a cache of them that is bounded in
//! bytes.
//!
//! What is shared has many owners, and none of them copies it. A cache keeps texts, or bytes of any
//! kind, by name. Under a name it has what was last put there, unless that was forgotten since. An
//! entry counts for its bytes, those of its name and a fixed number more. Where a new one has no
//! room, those that were asked for least recently go. One entry may be larger than the limit: it is
//! kept beside the others, in place of the last one that was as large.
#![tactic(auto)]

mod cache;
mod content_digest;
pub mod laws;
mod named;
mod shared;
mod shared_blob;
mod shared_text;

pub use crate::cache::{BlobCache, ENTRY_COST, SharedCache, TextCache};
pub use crate::content_digest::ContentDigest;
pub use crate::shared::Shared;
pub use crate::shared_blob::SharedBlob;
pub use crate::shared_text::SharedText;
