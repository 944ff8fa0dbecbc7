//! What a document of maintainers asks for.

ghost use Rattle.std.specs.Prelude.{◌≡◌, IfOk};
ghost use Rattle.serde_json.specs.View.{view, members_view};
ghost use Rattle.registry_documents.specs.Values.{all_members};
ghost use Rattle.registry_documents.specs.Differences as spec;

use crate::asked::Asked;
use crate::document::has;
use crate::names::{besides, names_in, same_names};
use crate::value::{Part, is, members_in};
use registry_names::Text;
use serde_json::{Map, Value};
use std::alloc::{AllocError, Global};

// Whether the present document says all that the document says of anything but the revision and the
// maintainers.
fn says_no_other(wanted: &Value, present: &Value) -> bool
    ensures { result ≡ spec.says_no_other (view wanted.now) (view present.now) }
{
    match wanted.as_object() {
        Some(members) => members_in(Part::Maintainers, members, present),
        None => false,
    }
}

// What is asked for where the first are added, and the second are left out.
fn owners_asked(alloc: Global, more: &[Text], less: &[Text]) -> Result<Option<Asked>, AllocError>
    ensures { IfOk result (λ asked. asked ≡ spec.owners_asked more.now less.now) }
{
    if more.len() + less.len() > 1 {
        return Ok(None);
    }
    if let Some(user) = more.first() {
        let user = Text::from_str(alloc, user.as_str())?;
        return Ok(Some(Asked::OwnerAdd { user }));
    }
    if let Some(user) = less.first() {
        let user = Text::from_str(alloc, user.as_str())?;
        return Ok(Some(Asked::OwnerRemove { user }));
    }
    Ok(Some(Asked::AlreadySo))
}

/// What a document of maintainers asks for, if that is one thing. `names` are those that it names,
/// and `maintainers` those that there are.
pub(crate) fn asked_of_owners(
    alloc: Global,
    wanted: &Value,
    present: &Value,
    maintainers: &[Text],
    names: &[Text],
) -> Result<Option<Asked>, AllocError>
    ensures { IfOk result (λ asked. asked ≡ spec.asked_of_owners
        (view wanted.now) (view present.now) maintainers.now names.now) }
{
    if !says_no_other(wanted, present) {
        return Ok(None);
    }
    let more = besides(alloc, maintainers, names)?;
    let less = besides(alloc, names, maintainers)?;
    owners_asked(alloc, &more, &less)
}

fn is_owners_key(key: &str, value: &Value) -> bool
    ensures { result ≡ spec.is_owners_key key.now (view value.now) }
{
    is(key, "_id") || is(key, "_rev") || is(key, "maintainers")
}

fn are_owners_keys(members: &Map<String, Value>) -> bool
    ensures { result ≡ all_members spec.is_owners_key (members_view members.now.entries) }
{
    for (key, value) in members.iter() {
        if !is_owners_key(key.as_str(), value) {
            return false;
        }
    }
    true
}

// Whether the document says nothing but maintainers.
fn says_owners_alone(wanted: &Value) -> bool
    ensures { result ≡ spec.says_owners_alone (view wanted.now) }
{
    match wanted.as_object() {
        Some(members) => are_owners_keys(members),
        None => false,
    }
}

fn names_owners(alloc: Global, wanted: &Value, maintainers: &[Text]) -> Result<bool, AllocError>
    ensures { IfOk result (λ b. b ≡ spec.names_owners (view wanted.now) maintainers.now) }
{
    match names_in(alloc, wanted)? {
        Some(names) => same_names(alloc, maintainers, &names),
        None => Ok(false),
    }
}

/// Whether a document says that there are the maintainers who are there, and nothing else.
pub(crate) fn repeats_owners(
    alloc: Global,
    wanted: &Value,
    maintainers: &[Text],
) -> Result<bool, AllocError>
    ensures { IfOk result (λ b. b ≡ spec.repeats_owners (view wanted.now) maintainers.now) }
{
    if !has(wanted, "maintainers") || !says_owners_alone(wanted) {
        return Ok(false);
    }
    names_owners(alloc, wanted, maintainers)
}
