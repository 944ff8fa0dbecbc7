//! The tags that a withdrawal leaves.

ghost use Rattle.std.specs.Prelude.{◌≡◌, true, Some, IfOk, IfErr, option_map};
ghost use Rattle.std.specs.Ordering.{is_gt};
ghost use Rattle.serde_json.specs.View.{view, members_view};
ghost use Rattle.registry_names.specs.Precedence.{text_precedence};
ghost use Rattle.registry_names.specs.Versions.{IsVersion, IsVersionOf, text_of_version};
ghost use Rattle.registry_documents.specs.Differences as differences;
ghost use Rattle.registry_documents.specs.Tags as spec;
ghost use Rattle.registry_documents.specs.Tags.{AreVersions, FaultsReading};

use crate::value::{Part, is, is_there, keys_in};
use registry_names::{Fault, LATEST, Stop, Ver};
use serde_json::{Map, Value};
use std::alloc::Global;

// A key of `versions`, read.
fn version_of(alloc: Global, text: &str) -> Result<Ver, Fault>
    ensures ok { IfOk result (λ v. IsVersionOf text.now v) }
    ensures err { IfErr result (FaultsReading (IsVersion text.now)) }
{
    match Ver::parse(alloc, text) {
        Ok(version) => Ok(version),
        Err(Stop::Fault(fault)) => Err(fault),
        Err(Stop::Refused(_)) => Err(Fault::Database),
    }
}

// Whether a version is above another.
fn is_above(alloc: Global, text: &str, other: &Ver) -> Result<bool, Fault>
    ensures ok { IfOk result (λ b. b
        ≡ is_gt (text_precedence text.now (text_of_version other.now))) }
    ensures err { IfErr result (FaultsReading (IsVersion text.now)) }
{
    // Reading a value tells the prover what its type promises.
    other.text();
    Ok(version_of(alloc, text)?.cmp(other).is_gt())
}

// Whether a version is the one that is left out, or not above another.
fn is_below(alloc: Global, without: &str, other: &Ver, text: &str) -> Result<bool, Fault>
    ensures ok { IfOk result (λ b. b
        ≡ spec.is_below without.now (text_of_version other.now) text.now) }
    ensures err { IfErr result (FaultsReading (IsVersion text.now)) }
{
    if is(text, without) {
        return Ok(true);
    }
    Ok(!is_above(alloc, text, other)?)
}

// Whether none of the versions but one is above another.
fn is_top(
    alloc: Global,
    without: &str,
    other: &Ver,
    versions: &Map<String, Value>,
) -> Result<bool, Fault>
    ensures ok { IfOk result (λ b. b ≡ spec.is_top without.now (text_of_version other.now)
        (members_view versions.now.entries)) }
    ensures err { IfErr result (FaultsReading (AreVersions (members_view versions.now.entries))) }
{
    for (version, _stored) in versions.iter() {
        if !is_below(alloc, without, other, version.as_str())? {
            return Ok(false);
        }
    }
    Ok(true)
}

// Whether a text is the greatest of the versions but one.
fn is_greatest_but(
    alloc: Global,
    without: &str,
    versions: &Map<String, Value>,
    text: &str,
) -> Result<bool, Fault>
    ensures ok { IfOk result (λ b. b ≡ spec.is_greatest_but without.now
        (members_view versions.now.entries) text.now) }
    ensures err { IfErr result (FaultsReading (AreVersions (members_view versions.now.entries))) }
{
    if is(text, without) || !has_version(versions, text) {
        return Ok(false);
    }
    let version = version_of(alloc, text)?;
    is_top(alloc, without, &version, versions)
}

fn has_version(versions: &Map<String, Value>, text: &str) -> bool
    ensures { result ≡ spec.is_version_of (members_view versions.now.entries) text.now }
{
    for (version, _stored) in versions.iter() {
        if is(version.as_str(), text) {
            return true;
        }
    }
    false
}

// Whether no version but one is there.
fn is_sole(without: &str, versions: &Map<String, Value>) -> bool
    ensures { result ≡ spec.is_sole without.now (members_view versions.now.entries) }
{
    for (version, _stored) in versions.iter() {
        if !is(version.as_str(), without) {
            return false;
        }
    }
    true
}

// Whether `latest` names the greatest of the versions but one, and nothing where there is no other.
fn is_moved(
    alloc: Global,
    without: &str,
    versions: &Map<String, Value>,
    named: Option<&Value>,
) -> Result<bool, Fault>
    ensures ok { IfOk result (λ b. b ≡ spec.is_moved without.now
        (members_view versions.now.entries) (option_map (λ v. view v.now) named.entry)) }
    ensures err { IfErr result (FaultsReading (AreVersions (members_view versions.now.entries))) }
{
    let Some(named) = named else {
        return Ok(is_sole(without, versions));
    };
    match named.as_str() {
        Some(text) => is_greatest_but(alloc, without, versions, text),
        None => Ok(false),
    }
}

fn names(version: &str, value: &Value) -> bool
    ensures { result ≡ spec.names version.now (view value.now) }
{
    match value.as_str() {
        Some(text) => is(text, version),
        None => false,
    }
}

// Whether a tag names what it is to name once a version is withdrawn.
fn is_left(
    alloc: Global,
    without: &str,
    versions: &Map<String, Value>,
    tag: &str,
    stored: &Value,
    named: Option<&Value>,
) -> Result<bool, Fault>
    ensures ok { IfOk result (λ b. b ≡ spec.is_left without.now
        (members_view versions.now.entries) tag.now (view stored.now)
        (option_map (λ v. view v.now) named.entry)) }
    ensures err { IfErr result (FaultsReading (AreVersions (members_view versions.now.entries))) }
{
    if !names(without, stored) {
        return Ok(is_there(stored, named));
    }
    if is(tag, LATEST) {
        return is_moved(alloc, without, versions, named);
    }
    Ok(named.is_none())
}

// Whether each tag names what it is to name.
fn are_left(
    alloc: Global,
    without: &str,
    versions: &Map<String, Value>,
    stored: &Map<String, Value>,
    tags: &Value,
) -> Result<bool, Fault>
    ensures ok { IfOk result (λ b. b ≡ spec.are_left without.now
        (members_view versions.now.entries) (members_view stored.now.entries) (view tags.now)) }
    ensures err { IfErr result (FaultsReading (AreVersions (members_view versions.now.entries))) }
{
    for (tag, value) in stored.iter() {
        let named = tags.get(tag.as_str());
        if !is_left(alloc, without, versions, tag.as_str(), value, named)? {
            return Ok(false);
        }
    }
    Ok(true)
}

fn tags_without(
    alloc: Global,
    without: &str,
    versions: &Map<String, Value>,
    tags: &Value,
    stored: &Value,
) -> Result<bool, Fault>
    ensures ok { IfOk result (λ b. b ≡ differences.tags_without without.now
        (members_view versions.now.entries) (view tags.now) (view stored.now)) }
    ensures err { IfErr result (FaultsReading (AreVersions (members_view versions.now.entries))) }
{
    match (tags.as_object(), stored.as_object()) {
        (Some(members), Some(others)) => {
            if !keys_in(Part::Any, members, stored) {
                return Ok(false);
            }
            are_left(alloc, without, versions, others, tags)
        }
        _ => Ok(false),
    }
}

/// Whether the tags of a document are those that there are, as the withdrawal of a version leaves
/// them.
pub(crate) fn has_tags_without(
    alloc: Global,
    without: &str,
    versions: &Map<String, Value>,
    wanted: &Value,
    present: &Value,
) -> Result<bool, Fault>
    ensures ok { IfOk result (λ b. b ≡ differences.has_tags_without without.now
        (members_view versions.now.entries) (view wanted.now) (view present.now)) }
    ensures err { IfErr result (FaultsReading (AreVersions (members_view versions.now.entries))) }
{
    match (wanted.get("dist-tags"), present.get("dist-tags")) {
        (Some(tags), Some(stored)) => tags_without(alloc, without, versions, tags, stored),
        _ => Ok(false),
    }
}
