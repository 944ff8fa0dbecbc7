//! The messages that a document gives.

use registry_names::Text;

/// A version, and the message that a document gives to it.
#[derive(Debug, Drop)]
pub(crate) struct News {
    pub(crate) version: Text,
    pub(crate) message: Text,
}
