//! The status that a publish body asks for.

ghost use Rattle.std.specs.Prelude.{◌≡◌};
ghost use Rattle.serde_json.specs.View.{view};
ghost use Rattle.registry_publish.specs.Access as spec;

use registry_names::Status;
use serde_json::Value;

fn status_in(value: &Value) -> Option<Option<Status>>
    ensures { result ≡ spec.status_in (view value.now) }
{
    match value {
        Value::Null => Some(None),
        Value::String(text) => Status::parse(text.as_str()).map(Some),
        _ => None,
    }
}

// The status, if any, that `access` names. `None` where it isn't in form.
pub(crate) fn access_at(value: &Value) -> Option<Option<Status>>
    ensures { result ≡ spec.access_at (view value.now) }
{
    match value.get("access") {
        Some(access) => status_in(access),
        None => Some(None),
    }
}
