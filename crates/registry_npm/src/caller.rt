//! Who asks over HTTP.

ghost use Rattle.std.specs.Prelude.{◌≡◌};
ghost use Rattle.registry_npm.specs.Callers as spec;
ghost use Rattle.registry_npm.specs.Leading as leading;

use registry_names::{Moment, Refusal, Stop};
use registry_publish::TokenDigest;
use registry_routes::bearer_token;
use registry_rules::{Action, Credential, Request};
use registry_wire::FieldValue;

const NO_CALLER: Stop = Stop::Refused(Refusal::NoCaller);

/// What a caller shows over HTTP: a token, of which nothing is kept but its digest, or nothing. A
/// credential is made of it for each request of a turn.
#[derive(Drop)]
pub(crate) enum Caller {
    Token(TokenDigest),
    Nobody,
}

/// What the caller shows of themselves, as [`credential`](registry_service::credential) reads it.
pub(crate) fn caller_of(authorization: &FieldValue) -> Result<Caller, Stop>
    ensures { spec.reads_who authorization.now result }
{
    match authorization {
        FieldValue::Absent => Ok(Caller::Nobody),
        FieldValue::Once(value) => bearer(value.as_slice()),
        FieldValue::Repeated => Err(NO_CALLER),
    }
}

fn bearer(value: &[u8]) -> Result<Caller, Stop>
    ensures { spec.reads_bearing value.now result }
{
    let Some(token) = bearer_token(value) else {
        return Err(NO_CALLER);
    };
    match TokenDigest::of(token) {
        Some(digest) => Ok(Caller::Token(digest)),
        None => Err(NO_CALLER),
    }
}

/// The credential of the caller.
pub(crate) fn credential(who: &Caller) -> Credential
    ensures { result ≡ spec.who_of who.now }
{
    match who {
        Caller::Token(digest) => Credential::Token(*digest),
        Caller::Nobody => Credential::Anonymous,
    }
}

/// A request of the caller.
pub(crate) fn request(at: Moment, who: &Caller, what: Action) -> Request
    ensures { result ≡ leading.request at (spec.who_of who.now) what }
{
    Request {
        at,
        who: credential(who),
        what,
    }
}
