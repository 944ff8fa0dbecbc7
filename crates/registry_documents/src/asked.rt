//! What a document asks for.

use registry_names::Text;

/// What a document asks for: at most one command.
#[derive(Debug, Drop)]
pub enum Asked {
    /// Nothing: the document says what is there.
    AlreadySo,
    /// Some versions get a message.
    Deprecation {
        /// The versions, each whole, with ` || ` between them; or `*`, where all versions of the
        /// packument have the message then.
        selector: Text,
        /// The message, which is empty where they are no longer to be deprecated. It isn't tested:
        /// it may be too long for one.
        message: Text,
    },
    /// A version is withdrawn.
    Withdrawal {
        /// A version of the packument.
        version: Text,
    },
    /// A maintainer is added.
    OwnerAdd {
        /// The name, which isn't tested: it may be no user's.
        user: Text,
    },
    /// A maintainer is removed.
    OwnerRemove {
        /// The name of a present maintainer.
        user: Text,
    },
}
