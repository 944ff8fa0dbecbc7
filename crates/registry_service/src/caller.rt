//! Who asks.

ghost use Rattle.registry_service.specs.Callers as spec;

use registry_names::{Refusal, Stop};
use registry_publish::TokenDigest;
use registry_routes::bearer_token;
use registry_rules::Credential;
use registry_wire::FieldValue;

const NO_CALLER: Stop = Stop::Refused(Refusal::NoCaller);

/// What the caller shows of themselves: nothing, or the token that their authorization bears. Any
/// other authorization is `NoCaller`.
pub fn credential(authorization: &FieldValue) -> Result<Credential, Stop>
    ensures { spec.reads_caller authorization.now result }
{
    match authorization {
        FieldValue::Absent => Ok(Credential::Anonymous),
        FieldValue::Once(value) => bearer(value.as_slice()),
        FieldValue::Repeated => Err(NO_CALLER),
    }
}

fn bearer(value: &[u8]) -> Result<Credential, Stop>
    ensures { spec.reads_bearer value.now result }
{
    let Some(token) = bearer_token(value) else {
        return Err(NO_CALLER);
    };
    match TokenDigest::of(token) {
        Some(digest) => Ok(Credential::Token(digest)),
        None => Err(NO_CALLER),
    }
}
