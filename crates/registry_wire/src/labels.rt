//! What a response says of its document to those who keep it.

ghost use Rattle.std.specs.Prelude.{◌≡◌};
ghost use Rattle.registry_wire.specs.Responses.{no_labels};

use crate::entity_tag::EntityTag;

/// How long a document may be used by those who keep it (RFC 9111, and RFC 8246 for `immutable`).
#[derive(Clone, Copy, Debug, PartialEq, Eq)]
pub enum Caching {
    /// Nothing is said.
    Unsaid,
    /// Only once the registry said that it is unchanged: `no-cache`.
    Checked,
    /// A year, by who asked for it alone: `private, max-age=31536000, immutable`.
    Kept,
    /// A year, by anybody: `public, max-age=31536000, immutable`.
    Shared,
}

/// Which form of its document a response has, where the field `accept` of the request chooses it
/// (RFC 9110, 12.5.1).
#[derive(Clone, Copy, Debug, PartialEq, Eq)]
pub enum DocumentForm {
    /// The document has one form, so nothing was chosen.
    Only,
    /// The full one was chosen. The response says that it depends on the field: `vary: accept`.
    Full,
    /// The abbreviated one was chosen, of the type `application/vnd.npm.install-v1+json`. The
    /// response says that it depends on the field: `vary: accept`.
    Abbreviated,
}

/// What a response says of its document to those who keep it.
#[derive(Drop)]
pub struct Labels {
    /// The document's entity tag (RFC 9110, 8.8.3), if it has one. Who labels has to give the documents
    /// that one address ever has different tags.
    pub tag: Option<EntityTag>,
    pub caching: Caching,
    pub form: DocumentForm,
}

impl Labels {
    /// Nothing is said.
    pub fn none() -> Labels
        ensures { result ≡ no_labels }
    {
        Labels {
            tag: None,
            caching: Caching::Unsaid,
            form: DocumentForm::Only,
        }
    }
}
