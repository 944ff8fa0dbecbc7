//! The moments that a packument shows.

ghost use Rattle.std.specs.Prelude.{◌≡◌, ◌++◌, Some, map, min, option_map, string_bytes, IfSome, OnOk};
ghost use Rattle.registry_packument.specs.Moments.{earlier, first_of, last_of, later};
ghost use Rattle.registry_packument.specs.ObjectTexts.{member_text};
ghost use Rattle.registry_packument.specs.Packuments.{time_pair};

use crate::json_text::push_text_member;
use crate::moment::moment_string;
use registry_names::{Moment, Text};
use std::alloc::{AllocError, Global};

/// A version of a package, with the moment of its publication.
#[derive(Drop)]
pub struct VersionTime {
    /// The text of the version, such as `1.0.0`.
    pub version: Text,
    /// When it was published.
    pub published: Moment,
}

/// The moments of a package.
#[derive(Drop)]
pub struct PackTimes {
    /// The live versions, in byte order of their texts, each once.
    pub versions: Vec<VersionTime>,
    /// When the package was created: the first publication of a version of it.
    pub created: Moment,
    /// When it was modified: the last publication or withdrawal of a version of it.
    pub modified: Moment,
}

impl PackTimes {
    /// The moments of a package: its live versions, when the withdrawn ones were published, and
    /// when one was last withdrawn, if one was. `None` is returned exactly where no version was
    /// ever published.
    pub fn new(
        versions: Vec<VersionTime>,
        withdrawn: &[Moment],
        last_withdrawal: Option<Moment>,
    ) -> Option<PackTimes>
        ensures versions { IfSome result (λ times. times.versions.items ≡ versions.items) }
        ensures created { option_map (λ times. times.created) result
            ≡ first_of (map (λ t. t.published) versions.items ++ withdrawn.now) }
        ensures modified { IfSome result (λ times. Some times.modified ≡ later
            (last_of (map (λ t. t.published) versions.items ++ withdrawn.now)) last_withdrawal) }
    {
        let Some(span) = joined(span_of_versions(&versions), span_of(withdrawn)) else {
            return None;
        };
        Some(PackTimes {
            versions,
            created: span.first,
            modified: last_of_both(span.last, last_withdrawal),
        })
    }
}

// The first and the last of some moments.
#[derive(Clone, Copy)]
struct Span {
    first: Moment,
    last: Moment,
}

// From when to when the versions were published.
fn span_of_versions(versions: &[VersionTime]) -> Option<Span>
    ensures first { option_map (λ span. span.first) result
        ≡ first_of (map (λ t. t.published) versions.now) }
    ensures last { option_map (λ span. span.last) result
        ≡ last_of (map (λ t. t.published) versions.now) }
{
    let mut span = None;
    for version in versions {
        span = joined(span, Some(span_at(version.published)));
    }
    span
}

// From when to when the moments are.
fn span_of(moments: &[Moment]) -> Option<Span>
    ensures first { option_map (λ span. span.first) result ≡ first_of moments.now }
    ensures last { option_map (λ span. span.last) result ≡ last_of moments.now }
{
    let mut span = None;
    for moment in moments {
        span = joined(span, Some(span_at(*moment)));
    }
    span
}

// The span of one moment.
fn span_at(moment: Moment) -> Span
    ensures first { result.first ≡ moment }
    ensures last { result.last ≡ moment }
{
    Span {
        first: moment,
        last: moment,
    }
}

// The span of both, where there is one.
fn joined(one: Option<Span>, other: Option<Span>) -> Option<Span>
    ensures first { option_map (λ span. span.first) result
        ≡ earlier (option_map (λ span. span.first) one) (option_map (λ span. span.first) other) }
    ensures last { option_map (λ span. span.last) result
        ≡ later (option_map (λ span. span.last) one) (option_map (λ span. span.last) other) }
{
    match (one, other) {
        (Some(one), Some(other)) => Some(Span {
            first: first_of_both(one.first, other.first),
            last: last_of_both(one.last, Some(other.last)),
        }),
        (Some(span), None) | (None, Some(span)) => Some(span),
        (None, None) => None,
    }
}

fn first_of_both(one: Moment, other: Moment) -> Moment
    ensures { result ≡ min one other }
{
    if other.seconds() < one.seconds() {
        other
    } else {
        one
    }
}

fn last_of_both(one: Moment, other: Option<Moment>) -> Moment
    ensures { Some result ≡ later (Some one) other }
{
    match other {
        Some(other) if one.seconds() < other.seconds() => other,
        _ => one,
    }
}

/// A member whose value is a moment.
pub(crate) fn push_moment(
    alloc: Global,
    out: &mut String,
    later: bool,
    key: &str,
    moment: Moment,
) -> Result<(), AllocError>
    ensures { OnOk result (string_bytes out.new
        ≡ string_bytes out.old ++ member_text later (time_pair (key.now, moment))) }
{
    let text = moment_string(alloc, moment)?;
    push_text_member(alloc, out, later, key, text.as_str())
}
