//! When two JSON values are the same.

ghost use Rattle.std.specs.Prelude.{◌≡◌, ◌||◌, Some, false, bytes_eq, option_map, unwrap_or};
ghost use Rattle.serde_json.specs.Find.{as_bool, as_number, as_str, get};
ghost use Rattle.serde_json.specs.View.{view, number_view, items_view, members_view};
ghost use Rattle.registry_documents.specs.Parts as parts;
ghost use Rattle.registry_documents.specs.Values as spec;
ghost use Rattle.registry_documents.specs.Values.{both, same_flag};

use serde_json::{Map, Number, Value};

/// An object, by the members of it that aren't compared as all others are.
#[derive(Clone, Copy)]
pub(crate) enum Part {
    /// None.
    Any,
    /// A document of a whole package: the revision, and what is compared by itself.
    Package,
    /// A document of maintainers: the revision, and these.
    Maintainers,
    /// A manifest: its message, and `dist`.
    Manifest,
    /// `dist` of a manifest: the address of the archive.
    Dist,
}

pub(crate) fn is(text: &str, other: &str) -> bool
    ensures { result ≡ bytes_eq text.now other.now }
{
    text == other
}

// Whether a member of a document of a whole package is compared by itself, or not at all.
fn is_apart_in_package(key: &str) -> bool
    ensures { result ≡ parts.is_apart Part.Package key.now }
{
    is(key, "_rev")
        || is(key, "dist-tags")
        || is(key, "maintainers")
        || is(key, "time")
        || is(key, "versions")
}

fn is_apart(part: Part, key: &str) -> bool
    ensures { result ≡ parts.is_apart part key.now }
{
    match part {
        Part::Any => false,
        Part::Package => is_apart_in_package(key),
        Part::Maintainers => is(key, "_rev") || is(key, "maintainers"),
        Part::Manifest => is(key, "deprecated") || is(key, "dist"),
        Part::Dist => is(key, "tarball"),
    }
}

fn same_number(number: &Number, other: &Number) -> bool
    ensures { result ≡ spec.same_number (number_view number.now) (number_view other.now) }
{
    match (number.as_i128(), other.as_i128()) {
        (Some(number), Some(other)) => number == other,
        _ => false,
    }
}

fn is_number(number: &Number, value: &Value) -> bool
    ensures { result ≡ both spec.same_number (Some (number_view number.now)) (as_number (view value.now)) }
{
    match value.as_number() {
        Some(other) => same_number(number, other),
        None => false,
    }
}

fn is_flag(flag: bool, value: &Value) -> bool
    ensures { result ≡ both same_flag (Some flag) (as_bool (view value.now)) }
{
    match value.as_bool() {
        Some(other) => if flag { other } else { !other },
        None => false,
    }
}

fn is_text(text: &str, value: &Value) -> bool
    ensures { result ≡ both bytes_eq (Some text.now) (as_str (view value.now)) }
{
    match value.as_str() {
        Some(other) => text == other,
        None => false,
    }
}

// Whether a key is one of the value's, or apart.
fn is_key(part: Part, other: &Value, key: &str) -> bool
    ensures { result ≡ spec.is_key part (view other.now) key.now }
{
    is_apart(part, key) || other.get(key).is_some()
}

/// Whether each key, but those apart, is a key of the value.
pub(crate) fn keys_in(part: Part, members: &Map<String, Value>, other: &Value) -> bool
    ensures { result ≡ spec.keys_in part (members_view members.now.entries) (view other.now) }
{
    for (key, _value) in members.iter() {
        if !is_key(part, other, key.as_str()) {
            return false;
        }
    }
    true
}

/// Whether two values are the same: arrays with the same items in their order, objects with the same
/// members, and the same integers of 64 bits. No other number is the same as one.
#[cycle(same)]
pub(crate) fn same(one: &Value, other: &Value) -> bool
    ensures { result ≡ spec.same (view one.now) (view other.now) }
{
    match one {
        Value::Null => other.is_null(),
        Value::Bool(flag) => is_flag(*flag, other),
        Value::Number(number) => is_number(number, other),
        Value::String(text) => is_text(text.as_str(), other),
        Value::Array(items) => match other.as_array() {
            Some(others) => items_same(items, others),
            None => false,
        },
        Value::Object(members) => match other.as_object() {
            Some(others) => members_in(Part::Any, members, other)
                && keys_in(Part::Any, others, one),
            None => false,
        },
    }
}

#[cycle(same)]
fn items_same(items: &Vec<Value>, others: &Vec<Value>) -> bool
    ensures { result
        ≡ spec.items_same (items_view items.now.items) (items_view others.now.items) }
{
    if items.len() != others.len() {
        return false;
    }
    for i in 0..items.len() {
        if !same(&items[i], &others[i]) {
            return false;
        }
    }
    true
}

// Whether the value is there, and the same.
#[cycle(same)]
pub(crate) fn is_there(value: &Value, found: Option<&Value>) -> bool
    ensures { result ≡ unwrap_or (option_map (spec.same (view value.now))
        (option_map (λ v. view v.now) found.entry)) false }
{
    match found {
        Some(other) => same(value, other),
        None => false,
    }
}

// Whether a member is one of the value's, or apart.
#[cycle(same)]
fn is_member(value: &Value, part: Part, other: &Value, key: &str) -> bool
    ensures { result ≡ (parts.is_apart part key.now
        || unwrap_or (option_map (spec.same (view value.now)) (get key.now (view other.now))) false) }
{
    is_apart(part, key) || is_there(value, other.get(key))
}

// Whether each member, but those apart, is a member of the value.
#[cycle(same)]
pub(crate) fn members_in(part: Part, members: &Map<String, Value>, other: &Value) -> bool
    ensures { result ≡ spec.members_in part (members_view members.now.entries) (view other.now) }
{
    for (key, value) in members.iter() {
        if !is_member(value, part, other, key.as_str()) {
            return false;
        }
    }
    true
}

/// Whether both are objects, and the same but for the members apart.
pub(crate) fn same_but(part: Part, one: &Value, other: &Value) -> bool
    ensures { result ≡ spec.same_but part (view one.now) (view other.now) }
{
    match (one.as_object(), other.as_object()) {
        (Some(members), Some(others)) => members_in(part, members, other)
            && keys_in(part, others, one),
        _ => false,
    }
}

/// Whether both are there and the same, or neither is there.
pub(crate) fn same_found(one: Option<&Value>, other: Option<&Value>) -> bool
    ensures { result ≡ spec.same_found (option_map (λ v. view v.now) one.entry)
        (option_map (λ v. view v.now) other.entry) }
{
    match one {
        Some(value) => is_there(value, other),
        None => other.is_none(),
    }
}

/// What is under the second key of what is under the first one.
pub(crate) fn within<'v>(value: &'v Value, key: &str, inner: &str) -> Option<&'v Value>
    ensures { option_map (λ v. view v.now) result ≡ spec.within key.now inner.now (view value.now) }
{
    value.get(key)?.get(inner)
}
