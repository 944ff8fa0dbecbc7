//! The maintainers that a document names.

ghost use Rattle.std.specs.Prelude.{◌≡◌, ◌++◌, [], bytes_eq, codes, IfOk, OnOk, option_map, option_and_then};
ghost use Rattle.std.specs.List.{list_any};
ghost use Rattle.serde_json.specs.Find.{get, as_str};
ghost use Rattle.serde_json.specs.View.{view, items_view};
ghost use Rattle.registry_documents.specs.Differences as differences;
ghost use Rattle.registry_documents.specs.Documents as spec;

use crate::value::is;
use registry_names::Text;
use serde_json::Value;
use std::alloc::{AllocError, Global};

// The text under `name`.
fn name_of(value: &Value) -> Option<&str>
    ensures { option_map (λ t. t.now) result
        ≡ option_and_then as_str (get (codes "name") (view value.now)) }
{
    value.get("name").and_then(Value::as_str)
}

// The name of each item. `None` where one has no text for it.
fn names_of(alloc: Global, items: &Vec<Value>) -> Result<Option<Vec<Text>>, AllocError>
    ensures { IfOk result (λ names. option_map (λ ns. ns.items) names
        ≡ spec.names_of (items_view items.now.items)) }
{
    let mut names = Vec::new(alloc);
    for item in items {
        let Some(name) = name_of(item) else {
            return Ok(None);
        };
        names.push(Text::from_str(alloc, name)?)?;
    }
    Ok(Some(names))
}

/// The names of a document's maintainers, of whom it has none where it doesn't say them. `None`
/// where what it says isn't an array of objects with names.
pub(crate) fn names_in(alloc: Global, value: &Value) -> Result<Option<Vec<Text>>, AllocError>
    ensures { IfOk result (λ names. option_map (λ ns. ns.items) names
        ≡ spec.names_in (view value.now)) }
{
    let Some(maintainers) = value.get("maintainers") else {
        return Ok(Some(Vec::new(alloc)));
    };
    match maintainers.as_array() {
        Some(items) => names_of(alloc, items),
        None => Ok(None),
    }
}

fn is_among(names: &[Text], name: &Text) -> bool
    ensures { result ≡ list_any (λ m. bytes_eq m name.now) names.now }
{
    names.iter().any(|other| is(other.as_str(), name.as_str()))
}

// Adds a name that isn't among the others.
fn push_beside(
    alloc: Global,
    more: &mut Vec<Text>,
    others: &[Text],
    name: &Text,
) -> Result<(), AllocError>
    ensures { OnOk result (more.new.items
        ≡ more.old.items ++ differences.with_beside others.now name.now []) }
{
    if !is_among(others, name) {
        more.push(Text::from_str(alloc, name.as_str())?)?;
    }
    Ok(())
}

/// The names that aren't among the others.
pub(crate) fn besides(
    alloc: Global,
    others: &[Text],
    names: &[Text],
) -> Result<Vec<Text>, AllocError>
    ensures { IfOk result (λ more. more.items ≡ differences.besides others.now names.now) }
{
    let mut more = Vec::new(alloc);
    for name in names {
        push_beside(alloc, &mut more, others, name)?;
    }
    Ok(more)
}

/// Whether nobody is named who isn't a maintainer, and nobody is left out.
pub(crate) fn same_names(
    alloc: Global,
    maintainers: &[Text],
    names: &[Text],
) -> Result<bool, AllocError>
    ensures { IfOk result (λ b. b ≡ differences.same_names maintainers.now names.now) }
{
    let more = besides(alloc, maintainers, names)?;
    let less = besides(alloc, names, maintainers)?;
    Ok(more.is_empty() && less.is_empty())
}
