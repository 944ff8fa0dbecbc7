//! The documents of versions.

ghost use Rattle.std.specs.Prelude.{◌≡◌, ◌<◌, Some, string_bytes, IfOk, IfErr, OnOk, option_map, bytes_eq, position};
ghost use Rattle.std.specs.Ordering.{is_lt};
ghost use Rattle.json.specs.Json.{string, document};
ghost use Rattle.json.specs.Print.{print};
ghost use Rattle.json.specs.Tree.{json_tokens, HasNumbers, MembersHaveNumbers};
ghost use Rattle.json.specs.Value.{value_view, members_view};
ghost use Rattle.registry_names.specs.Texts.{text_cmp};
ghost use Rattle.registry_packument.specs.Documents.{manifest_members, members_in, written_members, members_without, placed, with_message, deprecated_text, document_text};
ghost use Rattle.registry_packument.specs.Documents as documents;
ghost use Rattle.registry_packument.specs.Abbreviated as forms;
ghost use Rattle.registry_packument.specs.Writing.{IsFaultOf};

use crate::abbreviated::abbreviated;
use crate::form::PackForm;
use crate::manifest::is_manifest;
use json::{Error, Scratch, Value, to_vec};
use registry_names::{Fault, Text};
use std::alloc::{AllocError, Global};

const DEPRECATED: &str = "deprecated";

/// A member of an object: its key and its value.
pub(crate) type Member<'a> = (&'a str, Value<'a>);

fn parsed<'a>(alloc: Global, text: &'a str, scratch: &'a mut Scratch) -> Result<Value<'a>, Fault>
    ensures ok { IfOk result (λ value. document text.now ≡ Some (value_view value)) }
    ensures numbers { IfOk result (λ value. HasNumbers (value_view value)) }
    ensures err { IfErr result (IsFaultOf (document text.now)) }
{
    Value::parse(alloc, text, scratch).map_err(|error| match error {
        Error::OutOfMemory => Fault::Memory,
        _ => Fault::Database,
    })
}

fn members_in(value: Value<'_>) -> Option<Vec<Member<'_>>>
    ensures { option_map (λ members. members_view members.items) result
        ≡ members_in (value_view value.entry) }
{
    match value {
        Value::Object(members) => Some(members),
        _other => None,
    }
}

/// The members of a manifest, as they are written.
pub(crate) fn members_of<'a>(
    alloc: Global,
    manifest: &'a str,
    scratch: &'a mut Scratch,
) -> Result<Vec<Member<'a>>, Fault>
    ensures ok { IfOk result (λ members.
        members_view members.items ≡ written_members manifest.now) }
    ensures numbers { IfOk result (λ members.
        MembersHaveNumbers (members_view members.items)) }
    ensures err { IfErr result (IsFaultOf (manifest_members manifest.now)) }
{
    let value = parsed(alloc, manifest, scratch)?;
    members_in(value).ok_or(Fault::Database)
}

pub(crate) fn is_same(text: &str, other: &str) -> bool
    ensures { result ≡ bytes_eq text.now other.now }
{
    text == other
}

fn is_below(text: &str, other: &str) -> bool
    ensures { result ≡ is_lt (text_cmp text.now other.now) }
{
    text < other
}

// How many members come before the first whose key is greater, if there is one.
fn place_before_greater(members: &[Member<'_>], key: &str) -> Option<usize>
    ensures { result ≡ position (λ member. is_lt (text_cmp key.now member.0.now)) members.now }
{
    members.iter().position(|member| is_below(key, member.0))
}

/// Puts a member in its place by key.
pub(crate) fn place<'a>(
    members: &mut Vec<Member<'a>>,
    key: &'a str,
    value: Value<'a>,
) -> Result<(), AllocError>
    ensures { OnOk result (members_view members.new.items
        ≡ placed key.now (value_view value.entry) (members_view members.old.items)) }
{
    let place = place_before_greater(members, key).unwrap_or(members.len());
    members.insert(place, (key, value))?;
    Ok(())
}

// Puts a text in its place by key, instead of what was under it.
fn put_text<'a>(
    members: &mut Vec<Member<'a>>,
    key: &'a str,
    text: &'a str,
) -> Result<(), AllocError>
    ensures { OnOk result (members_view members.new.items
        ≡ placed key.now (string text.now) (members_without key.now (members_view members.old.items))) }
{
    members.retain(|member| !is_same(member.0, key));
    place(members, key, Value::String(text))
}

/// The compact text of a value.
pub(crate) fn text_of(alloc: Global, value: &Value<'_>) -> Result<String, AllocError>
    requires { HasNumbers (value_view value.now) }
    ensures { IfOk result (λ text. string_bytes text ≡ print (json_tokens (value_view value.now))) }
{
    Ok(String::from_utf8(to_vec(alloc, value)?).unwrap())
}

/// Puts the message in, where there is one.
pub(crate) fn put_message<'a>(
    members: &mut Vec<Member<'a>>,
    message: &'a str,
) -> Result<(), AllocError>
    ensures { OnOk result (members_view members.new.items
        ≡ with_message message.now (members_view members.old.items)) }
{
    if message.is_empty() {
        return Ok(());
    }
    put_text(members, DEPRECATED, message)
}

// The manifest with the message put in.
fn deprecated(alloc: Global, manifest: &str, message: &str) -> Result<String, Fault>
    ensures ok { IfOk result (λ text.
        string_bytes text ≡ deprecated_text manifest.now message.now) }
    ensures err { IfErr result (IsFaultOf (manifest_members manifest.now)) }
{
    let mut scratch = Scratch::new(alloc);
    let mut members = members_of(alloc, manifest, &mut scratch)?;
    put_text(&mut members, DEPRECATED, message)?;
    Ok(text_of(alloc, &Value::Object(members))?)
}

// The document of a version whose manifest is known to be one. Where the message is empty it is the
// manifest, which isn't read.
fn documented(alloc: Global, manifest: Text, message: &str) -> Result<Text, Fault>
    ensures ok { IfOk result (λ text. text ≡ documents.documented manifest message.now) }
    ensures err { IfErr result (IsFaultOf (manifest_members manifest)) }
{
    if message.is_empty() {
        return Ok(manifest);
    }
    let text = deprecated(alloc, manifest.as_str(), message)?;
    Ok(Text::from(text))
}

/// The same in a packument of this form.
pub(crate) fn documented_in(
    alloc: Global,
    form: PackForm,
    manifest: Text,
    message: &str,
) -> Result<Text, Fault>
    ensures ok { IfOk result (λ text. text ≡ forms.documented_in form manifest message.now) }
    ensures err { IfErr result (IsFaultOf (manifest_members manifest)) }
{
    match form {
        PackForm::Full => documented(alloc, manifest, message),
        PackForm::Abbreviated => {
            let text = abbreviated(alloc, manifest.as_str(), message)?;
            Ok(Text::from(text))
        }
    }
}

/// The document of a version in a packument of this form, made from its manifest: the manifest
/// itself where the form is the full one and the message is empty.
pub(crate) fn document_in(
    alloc: Global,
    form: PackForm,
    manifest: Text,
    message: &str,
) -> Result<Text, Fault>
    ensures ok { IfOk result (λ text.
        forms.document_in form manifest message.now ≡ Some text) }
    ensures err { IfErr result (IsFaultOf (forms.document_in form manifest message.now)) }
{
    if !is_manifest(alloc, manifest.as_str())? {
        return Err(Fault::Database);
    }
    documented_in(alloc, form, manifest, message)
}

/// The document of a version: the manifest itself where the message is empty; otherwise the
/// manifest as it is written, without spaces, with the member `deprecated`, whose value is the
/// message, in its place by key and instead of what was under it.
///
/// A manifest is the compact JSON of an object, and so is its document then. In any other text that
/// `serde_json` reads into an object, the members and the numbers stay as they are written.
/// `Database` is returned exactly where `serde_json` doesn't read the text into an object, and
/// `Memory` when no memory is left.
pub fn version_text(alloc: Global, manifest: &str, message: &str) -> Result<Text, Fault>
    ensures ok { IfOk result (λ text. document_text manifest.now message.now ≡ Some text) }
    ensures err { IfErr result (IsFaultOf (manifest_members manifest.now)) }
{
    let manifest = Text::from_str(alloc, manifest)?;
    document_in(alloc, PackForm::Full, manifest, message)
}
