//! Judging of documents.

ghost use Rattle.std.specs.Prelude.{◌≡◌, Some, Ok, Err, IfOk, IfErr, option_map};
ghost use Rattle.registry_names.specs.Faults.{IsMemoryOr};
ghost use Rattle.serde_json.specs.Data.{Data};
ghost use Rattle.serde_json.specs.Read.{read};
ghost use Rattle.serde_json.specs.View.{view};
ghost use Rattle.registry_documents.specs.Documents.{size_of, value_of};
ghost use Rattle.registry_documents.specs.Judging as spec;
ghost use Rattle.registry_documents.specs.Judging.{HasVersions, IsJudged, StopsJudging};
ghost use Rattle.registry_documents.specs.Tags.{FaultsReading};

use crate::asked::Asked;
use crate::document::{Document, Kind};
use crate::names::names_in;
use crate::owners::{asked_of_owners, repeats_owners};
use crate::package::asked_of_package;
use crate::revision::Revision;
use crate::versions::versions_in;
use registry_json::ReadError;
use registry_names::{Fault, Refusal, Stop, Text};
use serde_json::Value;
use std::alloc::Global;

const STALE: Stop = Stop::Refused(Refusal::Stale);

/// What there is of a package, as the registry answers it to every reader.
#[derive(Clone, Copy)]
pub struct Present<'a> {
    /// The packument's text.
    pub packument: &'a str,
    /// The names of the maintainers.
    pub maintainers: &'a [Text],
    /// The revision of both.
    pub revision: &'a Revision,
}

/// What a document asks for.
///
/// `path` is the revision that the request's path names under `-rev/`, percent-decoded, if it names
/// one. A document of a whole package asks for
///
/// - nothing, where it says what there is: the same members of the packument and of each manifest,
///   tags and maintainers. It needn't have the present revision.
/// - a deprecation, where it differs in the messages of some versions, and these are one text.
/// - a withdrawal, where it lacks one version, and its tags are those that the withdrawal leaves:
///   none on that version, and `latest`, if it was, on the greatest of the others.
///
/// A document of maintainers asks for nothing where it names those that there are, and else to add
/// the one name that is more, or to remove the one that is less.
///
/// Nowhere compared are the address of an archive, `tarball` in a manifest's `dist`, which a proxy
/// in front rewrites; `modified` in `time`, and moments of versions that aren't there; a
/// maintainer's `email`; and the order of keys and of maintainers. Numbers are the same where they
/// are the same integers of 64 bits. An integer beyond 2^53, which npm sends back rounded, differs.
///
/// A document of another revision that has fewer than half as many bytes as the packument isn't compared
/// with it: it says what there is only where it says nothing but maintainers, and these are there.
///
/// - `Stale` is returned exactly where the document, or the path, doesn't say the present revision,
///   and the document doesn't say what there is.
/// - `BadBody` is returned exactly where they say it, and the document asks for none of these, or
///   for more than one.
/// - `Memory` is returned when no memory is left, and `Database` only where the packument isn't
///   JSON, or a key of its `versions` isn't a version.
///
/// The time is that of reading the packument and of sorting the document's members by key, and for
/// maintainers the product of how many are named and how many there are. Where the document isn't
/// compared, it is that of comparing two revisions.
pub fn judge(
    alloc: Global,
    document: &Document,
    path: Option<&str>,
    present: Present<'_>,
) -> Result<Asked, Stop>
    ensures ok { IfOk result (λ asked. IsJudged (value_of document.now) (size_of document.now)
        (option_map (λ t. t.now) path.entry) present.entry.packument.now present.entry.maintainers.now
        present.entry.revision.now (Ok asked)) }
    ensures err { IfErr result (StopsJudging (value_of document.now) (size_of document.now)
        (option_map (λ t. t.now) path.entry) present.entry.packument.now present.entry.maintainers.now
        present.entry.revision.now) }
{
    let is_present = document.is_of(present.revision.text(), path);
    if !is_compared(is_present, document, present.packument) {
        return uncompared(alloc, document, present.maintainers);
    }
    let packument = packument_of(alloc, present.packument)?;
    let asked = asked_in(alloc, document, &packument, present.maintainers)?;
    match answer_of(is_present, asked) {
        Ok(asked) => Ok(asked),
        Err(refusal) => Err(Stop::Refused(refusal)),
    }
}

// What is answered to a document that isn't compared with the packument.
fn uncompared(alloc: Global, document: &Document, maintainers: &[Text]) -> Result<Asked, Stop>
    ensures ok { IfOk result (λ asked. spec.uncompared (value_of document.now) maintainers.now ≡ Ok asked) }
    ensures err { IfErr result (IsMemoryOr Refusal.Stale
        (spec.uncompared (value_of document.now) maintainers.now ≡ Err Refusal.Stale)) }
{
    if repeats_owners(alloc, document.value(), maintainers)? {
        return Ok(Asked::AlreadySo);
    }
    Err(STALE)
}

// Whether the document is compared with the packument.
fn is_compared(is_present: bool, document: &Document, packument: &str) -> bool
    ensures { result ≡ spec.is_compared is_present (size_of document.now) packument.now }
{
    is_present || document.may_repeat(packument)
}

// The packument that a text is.
fn packument_of(alloc: Global, text: &str) -> Result<Value, Fault>
    ensures ok { IfOk result (λ value. read text.now ≡ Some (view value)) }
    ensures err { IfErr result (FaultsReading ((d : Data) × (read text.now ≡ Some d))) }
{
    match registry_json::from_str(alloc, text) {
        Ok(value) => Ok(value),
        Err(ReadError::NotJson) => Err(Fault::Database),
        Err(ReadError::Memory) => Err(Fault::Memory),
    }
}

// What the document asks for, if that is one thing.
fn asked_in(
    alloc: Global,
    document: &Document,
    present: &Value,
    maintainers: &[Text],
) -> Result<Option<Asked>, Fault>
    ensures ok { IfOk result (λ asked. asked
        ≡ spec.asked_in (value_of document.now) (view present.now) maintainers.now) }
    ensures err { IfErr result (FaultsReading (HasVersions (view present.now))) }
{
    match document.kind() {
        Kind::Package => whole(alloc, document.value(), present, maintainers),
        Kind::Maintainers => owners(alloc, document.value(), present, maintainers),
        Kind::Publication | Kind::Other => Ok(None),
    }
}

fn whole(
    alloc: Global,
    wanted: &Value,
    present: &Value,
    maintainers: &[Text],
) -> Result<Option<Asked>, Fault>
    ensures ok { IfOk result (λ asked. asked
        ≡ spec.asked_by Kind.Package (view wanted.now) (view present.now) maintainers.now) }
    ensures err { IfErr result (FaultsReading (HasVersions (view present.now))) }
{
    let Some(versions) = versions_in(present) else {
        return Ok(None);
    };
    let Some(names) = names_in(alloc, wanted)? else {
        return Ok(None);
    };
    asked_of_package(alloc, wanted, present, versions, maintainers, &names)
}

fn owners(
    alloc: Global,
    wanted: &Value,
    present: &Value,
    maintainers: &[Text],
) -> Result<Option<Asked>, Fault>
    ensures ok { IfOk result (λ asked. asked
        ≡ spec.asked_by Kind.Maintainers (view wanted.now) (view present.now) maintainers.now) }
    ensures err { IfErr result (λ fault. fault ≡ Fault.Memory) }
{
    match names_in(alloc, wanted)? {
        Some(names) => Ok(asked_of_owners(alloc, wanted, present, maintainers, &names)?),
        None => Ok(None),
    }
}

// What is answered to a document of the present revision, or of another one.
fn answer_of(is_present: bool, asked: Option<Asked>) -> Result<Asked, Refusal>
    ensures { result ≡ spec.answer_of is_present asked }
{
    if is_present {
        return asked.ok_or(Refusal::BadBody);
    }
    match asked {
        Some(Asked::AlreadySo) => Ok(Asked::AlreadySo),
        _ => Err(Refusal::Stale),
    }
}
