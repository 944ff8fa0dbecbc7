//! What a document of a whole package asks for.

ghost use Rattle.std.specs.Prelude.{◌≡◌, ◌++◌, bytes_eq, codes, string_bytes, IfOk, IfErr, OnOk};
ghost use Rattle.std.specs.List.{list_all};
ghost use Rattle.serde_json.specs.View.{view, members_view};
ghost use Rattle.registry_documents.specs.Differences as spec;
ghost use Rattle.registry_documents.specs.Tags.{AreVersions, FaultsReading};

use crate::asked::Asked;
use crate::names::same_names;
use crate::news::News;
use crate::tags::has_tags_without;
use crate::value::{Part, is, same_but, same_found, within};
use crate::versions::{adds_none, all_say, are_same, lost, news};
use registry_names::{Fault, Text};
use serde_json::{Map, Value};
use std::alloc::{AllocError, Global};

// Whether the document says what there is, beside tags, messages and missing versions.
fn says_the_same(
    wanted: &Value,
    present: &Value,
    versions: &Map<String, Value>,
    same_names: bool,
) -> bool
    ensures { result ≡ spec.says_the_same (view wanted.now) (view present.now)
        (members_view versions.now.entries) same_names }
{
    same_but(Part::Package, wanted, present)
        && same_found(
            within(wanted, "time", "created"),
            within(present, "time", "created"),
        )
        && adds_none(wanted, present)
        && are_same(wanted, present, versions)
        && same_names
}

fn same_tags(wanted: &Value, present: &Value) -> bool
    ensures { result ≡ spec.same_tags (view wanted.now) (view present.now) }
{
    same_found(wanted.get("dist-tags"), present.get("dist-tags"))
}

// The versions, as a selector says them.
fn union(alloc: Global, first: &News, others: &[News]) -> Result<Text, AllocError>
    ensures { IfOk result (λ text. text ≡ spec.union first.now others.now) }
{
    let mut out = String::from_str(alloc, first.version.as_str())?;
    for other in others {
        push_version(&mut out, other.version.as_str())?;
    }
    Ok(Text::from(out))
}

fn push_version(out: &mut String, version: &str) -> Result<(), AllocError>
    ensures { OnOk result (string_bytes out.new
        ≡ string_bytes out.old ++ (codes " || " ++ version.now)) }
{
    out.push_str(" || ")?;
    out.push_str(version)
}

// Whether all of them have this message.
fn have_message(news: &[News], message: &str) -> bool
    ensures { result ≡ list_all (λ m. bytes_eq m.message message.now) news.now }
{
    news.iter().all(|other| is(other.message.as_str(), message))
}

// A selector of all versions, or of these.
fn selector(alloc: Global, all: bool, first: &News, others: &[News]) -> Result<Text, AllocError>
    ensures { IfOk result (λ text. text ≡ spec.selector_of all first.now others.now) }
{
    if all {
        return Text::from_str(alloc, "*");
    }
    union(alloc, first, others)
}

// What is asked for where these have other messages, and all versions have the first of them, or not.
fn message_asked(
    alloc: Global,
    all: bool,
    first: &News,
    others: &[News],
) -> Result<Option<Asked>, AllocError>
    ensures { IfOk result (λ asked. asked ≡ spec.message_asked all first.now others.now) }
{
    if !have_message(others, first.message.as_str()) {
        return Ok(None);
    }
    let selector = selector(alloc, all, first, others)?;
    let message = Text::from_str(alloc, first.message.as_str())?;
    Ok(Some(Asked::Deprecation { selector, message }))
}

// What is asked for where no version is missing, and these have other messages.
fn messages_asked(
    alloc: Global,
    wanted: &Value,
    present: &Value,
    versions: &Map<String, Value>,
    news: &[News],
) -> Result<Option<Asked>, AllocError>
    ensures { IfOk result (λ asked. asked ≡ spec.messages_asked
        (view wanted.now) (view present.now) (members_view versions.now.entries) news.now) }
{
    if !same_tags(wanted, present) {
        return Ok(None);
    }
    let Some((first, others)) = news.split_first() else {
        return Ok(Some(Asked::AlreadySo));
    };
    let all = all_say(wanted, first.message.as_str(), versions);
    message_asked(alloc, all, first, others)
}

// What is asked for where this version is missing.
fn withdrawal_asked(
    alloc: Global,
    wanted: &Value,
    present: &Value,
    versions: &Map<String, Value>,
    version: &Text,
) -> Result<Option<Asked>, Fault>
    ensures ok { IfOk result (λ asked. asked ≡ spec.withdrawal_asked (view wanted.now)
        (view present.now) (members_view versions.now.entries) version.now) }
    ensures err { IfErr result (FaultsReading (AreVersions (members_view versions.now.entries))) }
{
    if !has_tags_without(alloc, version.as_str(), versions, wanted, present)? {
        return Ok(None);
    }
    let version = Text::from_str(alloc, version.as_str())?;
    Ok(Some(Asked::Withdrawal { version }))
}

// What is asked for where the first are missing, and the second have other messages.
fn change_asked(
    alloc: Global,
    wanted: &Value,
    present: &Value,
    versions: &Map<String, Value>,
    gone: &[Text],
    news: &[News],
) -> Result<Option<Asked>, Fault>
    ensures ok { IfOk result (λ asked. asked ≡ spec.change_asked (view wanted.now)
        (view present.now) (members_view versions.now.entries) gone.now news.now) }
    ensures err { IfErr result (FaultsReading (AreVersions (members_view versions.now.entries))) }
{
    let Some((version, others)) = gone.split_first() else {
        return Ok(messages_asked(alloc, wanted, present, versions, news)?);
    };
    if !others.is_empty() || !news.is_empty() {
        return Ok(None);
    }
    withdrawal_asked(alloc, wanted, present, versions, version)
}

/// What a document of a whole package asks for, if that is one thing. `names` are those that it
/// names as maintainers, and `maintainers` those that there are; `versions` are the present ones.
pub(crate) fn asked_of_package(
    alloc: Global,
    wanted: &Value,
    present: &Value,
    versions: &Map<String, Value>,
    maintainers: &[Text],
    names: &[Text],
) -> Result<Option<Asked>, Fault>
    ensures ok { IfOk result (λ asked. asked ≡ spec.asked_of_package (view wanted.now)
        (view present.now) (members_view versions.now.entries) maintainers.now names.now) }
    ensures err { IfErr result (FaultsReading (AreVersions (members_view versions.now.entries))) }
{
    let same_names = same_names(alloc, maintainers, names)?;
    if !says_the_same(wanted, present, versions, same_names) {
        return Ok(None);
    }
    let gone = lost(alloc, wanted, versions)?;
    let news = news(alloc, wanted, versions)?;
    change_asked(alloc, wanted, present, versions, &gone, &news)
}
