//! The callers.

use registry_names::Ident;

/// A caller, whom the registry knows by the credential that came with a request. A
/// credential that names nobody gives no caller.
#[derive(Drop)]
pub enum Caller {
    /// The operator, who runs the registry. They manage its users, tokens and organisations, and
    /// otherwise have what everybody has.
    Operator,
    /// A user.
    User(Ident),
    /// Somebody without a credential.
    Anonymous,
}
