//! The versions of a document, beside those that there are.

ghost use Rattle.std.specs.Prelude.{◌≡◌, ◌++◌, [], codes, IfOk, OnOk, option_map, option_and_then};
ghost use Rattle.serde_json.specs.View.{view, members_view};
ghost use Rattle.registry_documents.specs.Differences as spec;
ghost use Rattle.registry_documents.specs.Differences.{with_news};
ghost use Rattle.registry_documents.specs.Documents as documents;
ghost use Rattle.registry_documents.specs.Values as values;

use crate::news::News;
use crate::value::{Part, is, keys_in, same, same_but, same_found, within};
use registry_names::Text;
use serde_json::{Map, Value};
use std::alloc::{AllocError, Global};

// The message of a manifest, which is empty where nothing is deprecated. `None` where it isn't a
// text.
fn message_of(manifest: &Value) -> Option<&str>
    ensures { option_map (λ t. t.now) result ≡ spec.message_of (view manifest.now) }
{
    match manifest.get("deprecated") {
        Some(message) => message.as_str(),
        None => Some(""),
    }
}

// Whether both are missing, or the same but for the address of the archive.
fn same_dist(one: Option<&Value>, other: Option<&Value>) -> bool
    ensures { result ≡ spec.same_dist (option_map (λ v. view v.now) one.entry)
        (option_map (λ v. view v.now) other.entry) }
{
    match (one, other) {
        (Some(one), Some(other)) => same_but(Part::Dist, one, other) || same(one, other),
        (None, None) => true,
        _ => false,
    }
}

// Whether the manifests are the same but for the message and the address of the archive.
fn same_manifest(one: &Value, other: &Value) -> bool
    ensures { result ≡ spec.same_manifest (view one.now) (view other.now) }
{
    same_but(Part::Manifest, one, other) && same_dist(one.get("dist"), other.get("dist"))
}

// Whether both documents say the same of a version with these manifests, but for the message.
fn same_version(
    wanted: &Value,
    present: &Value,
    version: &str,
    manifest: &Value,
    stored: &Value,
) -> bool
    ensures { result ≡ spec.same_version (view wanted.now) (view present.now) version.now
        (view manifest.now) (view stored.now) }
{
    same_manifest(manifest, stored)
        && message_of(manifest).is_some()
        && message_of(stored).is_some()
        && same_found(
            within(wanted, "time", version),
            within(present, "time", version),
        )
}

// Whether the document lacks a version, or says the same of it but for its message.
fn is_same(wanted: &Value, present: &Value, version: &str, stored: &Value) -> bool
    ensures { result ≡ spec.is_same (view wanted.now) (view present.now) version.now
        (view stored.now) }
{
    match within(wanted, "versions", version) {
        Some(manifest) => same_version(wanted, present, version, manifest, stored),
        None => true,
    }
}

/// Whether of these versions each that the document has is the same but for its message.
pub(crate) fn are_same(wanted: &Value, present: &Value, versions: &Map<String, Value>) -> bool
    ensures { result ≡ spec.are_same (view wanted.now) (view present.now)
        (members_view versions.now.entries) }
{
    for (version, stored) in versions.iter() {
        if !is_same(wanted, present, version.as_str(), stored) {
            return false;
        }
    }
    true
}

// Adds a version that the document lacks.
fn push_lost(
    alloc: Global,
    gone: &mut Vec<Text>,
    wanted: &Value,
    version: &str,
) -> Result<(), AllocError>
    ensures { OnOk result (gone.new.items
        ≡ gone.old.items ++ spec.with_lost (view wanted.now) version.now []) }
{
    if within(wanted, "versions", version).is_none() {
        gone.push(Text::from_str(alloc, version)?)?;
    }
    Ok(())
}

/// The versions that the document lacks.
pub(crate) fn lost(
    alloc: Global,
    wanted: &Value,
    versions: &Map<String, Value>,
) -> Result<Vec<Text>, AllocError>
    ensures { IfOk result (λ gone. gone.items
        ≡ spec.lost (view wanted.now) (members_view versions.now.entries)) }
{
    let mut gone = Vec::new(alloc);
    for (version, _stored) in versions.iter() {
        push_lost(alloc, &mut gone, wanted, version.as_str())?;
    }
    Ok(gone)
}

// The message that the document gives to the version.
fn message_in<'v>(wanted: &'v Value, version: &str) -> Option<&'v str>
    ensures { option_map (λ t. t.now) result
        ≡ option_and_then spec.message_of (values.within (codes "versions") version.now (view wanted.now)) }
{
    message_of(within(wanted, "versions", version)?)
}

// Whether the document gives a message to the version.
fn is_said(wanted: &Value, message: &str, version: &str) -> bool
    ensures { result ≡ spec.is_said (view wanted.now) message.now version.now }
{
    match message_in(wanted, version) {
        Some(said) => is(said, message),
        None => false,
    }
}

/// Whether the document gives a message to all versions.
pub(crate) fn all_say(wanted: &Value, message: &str, versions: &Map<String, Value>) -> bool
    ensures { result ≡ spec.all_say (view wanted.now) message.now
        (members_view versions.now.entries) }
{
    for (version, _stored) in versions.iter() {
        if !is_said(wanted, message, version.as_str()) {
            return false;
        }
    }
    true
}

// Adds the version where its message isn't the present one.
fn push_news(
    alloc: Global,
    news: &mut Vec<News>,
    version: &str,
    message: Option<&str>,
    stored: Option<&str>,
) -> Result<(), AllocError>
    ensures { OnOk result (news.new.items ≡ news.old.items ++ with_news version.now
        (option_map (λ t. t.now) message.entry) (option_map (λ t. t.now) stored.entry) []) }
{
    if let (Some(message), Some(stored)) = (message, stored) {
        if !is(message, stored) {
            let version = Text::from_str(alloc, version)?;
            let message = Text::from_str(alloc, message)?;
            news.push(News { version, message })?;
        }
    }
    Ok(())
}

/// The versions to which the document gives another message.
pub(crate) fn news(
    alloc: Global,
    wanted: &Value,
    versions: &Map<String, Value>,
) -> Result<Vec<News>, AllocError>
    ensures { IfOk result (λ news. news.items
        ≡ spec.news (view wanted.now) (members_view versions.now.entries)) }
{
    let mut news = Vec::new(alloc);
    for (version, stored) in versions.iter() {
        let message = message_in(wanted, version.as_str());
        push_news(
            alloc,
            &mut news,
            version.as_str(),
            message,
            message_of(stored),
        )?;
    }
    Ok(news)
}

/// Whether the document has no version that the present one lacks.
pub(crate) fn adds_none(wanted: &Value, present: &Value) -> bool
    ensures { result ≡ spec.adds_none (view wanted.now) (view present.now) }
{
    match (versions_in(wanted), present.get("versions")) {
        (Some(versions), Some(stored)) => keys_in(Part::Any, versions, stored),
        _ => false,
    }
}

/// The members of `versions`, if that is an object.
pub(crate) fn versions_in(value: &Value) -> Option<&Map<String, Value>>
    ensures { option_map (λ m. members_view m.now.entries) result
        ≡ documents.versions_in (view value.now) }
{
    value.get("versions")?.as_object()
}
