//! Members of a JSON value.

ghost use Rattle.std.specs.Prelude.{◌≡◌, option_map, is_some};
ghost use Rattle.serde_json.specs.Find.{get};
ghost use Rattle.serde_json.specs.View.{view};
ghost use Rattle.registry_publish.specs.Members as spec;

use serde_json::Value;

pub(crate) fn is_text(value: &Value, text: &str) -> bool
    ensures { result ≡ spec.is_text text.now (view value.now) }
{
    match value.as_str() {
        Some(found) => found == text,
        None => false,
    }
}

pub(crate) fn has_member(value: &Value, key: &str) -> bool
    ensures { result ≡ is_some (get key.now (view value.now)) }
{
    value.get(key).is_some()
}

pub(crate) fn text_at<'v>(value: &'v Value, key: &str) -> Option<&'v str>
    ensures { option_map (λ t. t.now) result ≡ spec.text_at key.now (view value.now) }
{
    value.get(key).and_then(Value::as_str)
}

pub(crate) fn has_text(value: &Value, key: &str, text: &str) -> bool
    ensures { result ≡ spec.has_text key.now text.now (view value.now) }
{
    match text_at(value, key) {
        Some(found) => found == text,
        None => false,
    }
}

// The name and the value of an object's one member.
fn sole(value: &Value) -> Option<(&str, &Value)>
    ensures { option_map (λ m. (m.0.now, view m.1.now)) result ≡ spec.sole (view value.now) }
{
    let members = value.as_object()?;
    if members.len() != 1 {
        return None;
    }
    match members.first_key_value() {
        Some((name, member)) => Some((name.as_str(), member)),
        None => None,
    }
}

pub(crate) fn sole_at<'v>(value: &'v Value, key: &str) -> Option<(&'v str, &'v Value)>
    ensures { option_map (λ m. (m.0.now, view m.1.now)) result
        ≡ spec.sole_at key.now (view value.now) }
{
    sole(value.get(key)?)
}
