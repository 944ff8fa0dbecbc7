//! The decision on a withdrawal and on a deprecation.

ghost use Rattle.std.specs.Prelude.{◌≡◌, ◌++◌, ◌∷◌, [], map, option_map, IfOk, OnOk};
ghost use Rattle.std.specs.List.{list_any};
ghost use Rattle.std.specs.Ordering.{is_lt};
ghost use Rattle.registry_names.specs.Greatest as greatest;
ghost use Rattle.registry_names.specs.Precedence.{text_precedence};
ghost use Rattle.registry_names.specs.Tags.{latest};
ghost use Rattle.registry_names.specs.Texts as texts;
ghost use Rattle.registry_names.specs.Versions.{text_of_version};
ghost use Rattle.registry_rules.specs.Changes.{change_of};
ghost use Rattle.registry_rules.specs.Effects as effects;
ghost use Rattle.registry_rules.specs.Facts.{since_of};
ghost use Rattle.registry_rules.specs.Refusals as spec;
ghost use Rattle.registry_rules.specs.Withdrawals as definitions;

use crate::change::{Change, Changes};
use crate::facts::LiveVersion;
use registry_names::{LATEST, Message, Moment, Name, Refusal, Text, Ver};
use registry_ranges::Selector;
use std::alloc::{AllocError, Global};

/// Three days: an older version isn't withdrawn.
const OLDEST: i64 = 259_200;

/// A day: how long a package waits once all its versions are withdrawn.
const LONGEST_WAIT: i64 = 86_400;

/// Whether the moment of a last withdrawal was less than a day ago, or is still to come.
pub(crate) fn is_less_than_a_day_ago(now: &Moment, last: Option<Moment>) -> bool
    ensures { result ≡ definitions.is_less_than_a_day_ago now.now last }
{
    match last {
        Some(last) => now.seconds() < last.seconds() + LONGEST_WAIT,
        None => false,
    }
}

// Whether a version was published too long ago. Where the clock went back its age is 0.
fn is_too_old(now: &Moment, published: Moment) -> bool
    ensures { result ≡ definitions.is_too_old now.now published }
{
    published.seconds() + OLDEST <= now.seconds()
}

/// Why a version isn't withdrawn, if it isn't: it doesn't live, it is older than three days, or
/// another package needs it.
pub(crate) fn withdraw_refusal(
    published: Option<Moment>,
    depended: bool,
    now: &Moment,
) -> Option<Refusal>
    ensures { result ≡ spec.withdraw_refusal now.now published depended }
{
    match published {
        None => Some(Refusal::NotFound),
        Some(published) if is_too_old(now, published) => Some(Refusal::TooLate),
        Some(_) if depended => Some(Refusal::Depended),
        Some(_) => None,
    }
}

/// Why the live versions of a package aren't all withdrawn, if they aren't: there is none, one of
/// them is older than three days, or another package needs one.
pub(crate) fn withdraw_all_refusal(
    live: &[LiveVersion],
    depended: bool,
    now: &Moment,
) -> Option<Refusal>
    ensures { result ≡ spec.withdraw_all_refusal now.now (map since_of live.now) depended }
{
    if live.is_empty() {
        Some(Refusal::NotFound)
    } else if has_too_old(now, live) {
        Some(Refusal::TooLate)
    } else if depended {
        Some(Refusal::Depended)
    } else {
        None
    }
}

fn has_too_old(now: &Moment, live: &[LiveVersion]) -> bool
    ensures { result ≡ list_any (λ r. definitions.is_too_old now.now r.published) live.now }
{
    live.iter().any(|row| is_too_old(now, row.published))
}

/// What a withdrawal that isn't refused changes. First no tag names the version any more: `latest`
/// names the greatest other live version instead, where there is one. Then the version goes. A
/// version that doesn't live is refused.
pub(crate) fn withdrawal<'a>(
    alloc: Global,
    name: &'a Name,
    version: &'a Ver,
    published: &'a Option<Moment>,
    live: &'a [Ver],
    tags: &'a [Text],
    now: &'a Moment,
) -> Result<Changes<'a>, AllocError>
    ensures { IfOk result (λ changes. map change_of changes.items
        ≡ effects.withdrawal now.now name.now (text_of_version version.now) published.now
        (map text_of_version live.now) tags.now) }
{
    let Some(published) = published else {
        return Ok(Vec::new(alloc));
    };
    let other = greatest_other(live, version);
    let mut changes = all_freed(alloc, name, other, tags)?;
    changes.push(Change::RetireVersion {
        package: name,
        version,
        published,
        withdrawn: now,
    })?;
    Ok(changes)
}

/// What the withdrawal of all live versions changes, where it isn't refused. First every tag of the
/// package goes, and then each version.
pub(crate) fn withdrawal_of_all<'a>(
    alloc: Global,
    name: &'a Name,
    live: &'a [LiveVersion],
    tags: &'a [Text],
    now: &'a Moment,
) -> Result<Changes<'a>, AllocError>
    ensures { IfOk result (λ changes. map change_of changes.items
        ≡ effects.withdrawal_of_all now.now name.now (map since_of live.now) tags.now) }
{
    let mut changes = all_freed(alloc, name, None, tags)?;
    for row in live {
        changes.push(Change::RetireVersion {
            package: name,
            version: &row.version,
            published: &row.published,
            withdrawn: now,
        })?;
    }
    Ok(changes)
}

fn all_freed<'a>(
    alloc: Global,
    name: &'a Name,
    other: Option<&'a Ver>,
    tags: &'a [Text],
) -> Result<Changes<'a>, AllocError>
    ensures { IfOk result (λ changes. map change_of changes.items
        ≡ map (effects.freed name.now (option_map definitions.text_seen other.entry)) tags.now) }
{
    let mut changes = Vec::new(alloc);
    for tag in tags {
        changes.push(freed(name, other, tag))?;
    }
    Ok(changes)
}

// The greatest of the live versions but this one, if there is another.
fn greatest_other<'a>(live: &'a [Ver], version: &Ver) -> Option<&'a Ver>
    ensures { option_map definitions.text_seen result ≡ greatest.greatest
        (definitions.others (map text_of_version live.now) (text_of_version version.now)) }
{
    let mut best = None;
    for other in live {
        best = better(best, other, version);
    }
    best
}

// The greater of both, except the version that is left out.
fn better<'a>(best: Option<&'a Ver>, other: &'a Ver, without: &Ver) -> Option<&'a Ver>
    ensures { option_map definitions.text_seen result ≡ definitions.better
        (option_map definitions.text_seen best.entry) (text_of_version other.now)
        (text_of_version without.now) }
{
    if is_same(other, without) {
        return best;
    }
    Some(greater(other, best))
}

#[tactic(auto, unfolding(registry_names::specs::Texts::is))]
fn is_same(one: &Ver, other: &Ver) -> bool
    ensures { result ≡ texts.is (text_of_version one.now) (text_of_version other.now) }
{
    one.text() == other.text()
}

// By precedence, as their texts have it.
fn is_below(one: &Ver, other: &Ver) -> bool
    ensures { result ≡ is_lt (text_precedence (text_of_version one.now)
        (text_of_version other.now)) }
{
    // Reading a value tells the prover what its type promises.
    one.text();
    other.text();
    one.cmp(other).is_lt()
}

// The one of both with precedence.
fn greater<'a>(version: &'a Ver, best: Option<&'a Ver>) -> &'a Ver
    ensures { definitions.text_seen result
        ≡ greatest.greater (text_of_version version.now) (option_map definitions.text_seen best.entry) }
{
    match best {
        Some(best) if is_below(version, best) => best,
        _ => version,
    }
}

#[tactic(auto, unfolding(registry_names::specs::Texts::is))]
fn is_latest(tag: &Text) -> bool
    ensures { result ≡ texts.is tag.now latest }
{
    tag.as_str() == LATEST
}

// A tag that names the version is to name the other one, if it is `latest` and there is another;
// otherwise it goes.
fn freed<'a>(name: &'a Name, other: Option<&'a Ver>, tag: &'a Text) -> Change<'a>
    ensures { change_of result
        ≡ effects.freed name.now (option_map definitions.text_seen other.entry) tag.now }
{
    let text = tag.as_str();
    match other {
        Some(version) if is_latest(tag) => Change::PutTag {
            package: name,
            tag: text,
            version,
        },
        _ => Change::DropTag {
            package: name,
            tag: text,
        },
    }
}

/// Each live version that the selector selects has the message.
pub(crate) fn deprecation<'a>(
    alloc: Global,
    name: &'a Name,
    live: &'a [Ver],
    selector: &Selector,
    message: &'a Message,
) -> Result<Changes<'a>, AllocError>
    ensures { IfOk result (λ changes. map change_of changes.items
        ≡ effects.deprecation name.now message.now
        (definitions.selected (map text_of_version live.now) selector.now)) }
{
    let mut changes = Vec::new(alloc);
    for version in live {
        push_message(&mut changes, name, version, selector, message)?;
    }
    Ok(changes)
}

// A version has the message where it is selected.
fn push_message<'a>(
    changes: &mut Changes<'a>,
    name: &'a Name,
    version: &'a Ver,
    selector: &Selector,
    message: &'a Message,
) -> Result<(), AllocError>
    ensures { OnOk result (map change_of changes.new.items ≡ map change_of changes.old.items
        ++ effects.deprecation name.now message.now
        (definitions.selected (text_of_version version.now ∷ []) selector.now)) }
{
    if selects(selector, version) {
        changes.push(Change::PutDeprecation {
            package: name,
            version,
            message,
        })?;
    }
    Ok(())
}

fn selects(selector: &Selector, version: &Ver) -> bool
    ensures { result ≡ definitions.selects selector.now (text_of_version version.now) }
{
    // Reading a value tells the prover what its type promises.
    version.text();
    selector.selects(version)
}
