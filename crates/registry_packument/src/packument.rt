//! Packuments.

ghost use Rattle.std.specs.Prelude.{◌≡◌, ◌+◌, [], Some, None, length, option_map, false, string_bytes, string_capacity, OnOk, IfOk, IfErr};
ghost use Rattle.registry_packument.specs.Counted.{row_text};
ghost use Rattle.registry_packument.specs.ObjectTexts.{member_text};
ghost use Rattle.registry_packument.specs.Packuments.{version_pair, version_pairs, versions_text, pack_text};
ghost use Rattle.registry_packument.specs.Sources.{IsFaultFrom};
ghost use Rattle.registry_packument.specs.Writing.{Adds, IsFaultOf};
ghost use Rattle.registry_packument.specs.Members.{member_bytes, text_of_members};

use crate::document::{document_in, documented_in};
use crate::form::PackForm;
use crate::head::PackHead;
use crate::json_text::push_key;
use crate::opening::opening;
use crate::source::VersionSource;
use registry_names::{Fault, Text};
use std::alloc::{AllocError, Global};

/// What ends a packument: the brace of its versions, and its own.
pub(crate) const CLOSING: &str = "}}";

/// How many bytes a key may have beside its version: a comma, two quotes and a colon.
const KEY_MARKS: usize = 4;

/// A version of a package, with its document.
pub struct VersionRow {
    /// The text of the version, such as `1.0.0`.
    pub version: Text,
    /// The manifest as it is stored: the compact JSON of an object.
    pub manifest: Text,
    /// The message of its deprecation, or the empty text where it isn't deprecated.
    pub message: Text,
}

impl Drop for VersionRow {
    fn drop(self) {
        let VersionRow {
            version: _,
            manifest: _,
            message: _,
        } = self;
    }
}

impl VersionRow {
    /// The version's member in a packument of this form, with a comma before it where a member came
    /// earlier.
    pub(crate) fn into_member(
        self,
        alloc: Global,
        form: PackForm,
        later: bool,
    ) -> Result<VersionMember, Fault>
        ensures ok { IfOk result (λ member. Adds (member_text later) (version_pair form self)
            [] (member_bytes member)) }
        ensures err { IfErr result (IsFaultOf (version_pair form self)) }
    {
        let VersionRow {
            version,
            manifest,
            message,
        } = self;
        let key_len = version.as_str().len().saturating_add(KEY_MARKS);
        let mut key = String::with_capacity(alloc, key_len)?;
        push_key(alloc, &mut key, later, version.as_str())?;
        let document = document_in(alloc, form, manifest, message.as_str())?;
        Ok(VersionMember {
            key: Text::from(key),
            document,
        })
    }

    /// The same in one piece, where the manifest is known to be one. In a full packument the
    /// manifest of a version without a message isn't read.
    pub(crate) fn into_known_member(
        self,
        alloc: Global,
        form: PackForm,
        later: bool,
    ) -> Result<String, Fault>
        ensures ok { IfOk result (λ text. string_bytes text ≡ row_text form later self) }
        ensures err { IfErr result (IsFaultOf (version_pair form self)) }
    {
        let VersionRow {
            version,
            manifest,
            message,
        } = self;
        let document = documented_in(alloc, form, manifest, message.as_str())?;
        let key_len = version.as_str().len().saturating_add(KEY_MARKS);
        let room = key_len.saturating_add(document.as_str().len());
        let mut text = String::with_capacity(alloc, room)?;
        push_key(alloc, &mut text, later, version.as_str())?;
        text.push_str(document.as_str())?;
        Ok(text)
    }
}

/// The member of one version in a packument, in two parts.
#[derive(Drop)]
pub(crate) struct VersionMember {
    /// The version in quotes, and a colon, with a comma before it where a member came earlier.
    pub(crate) key: Text,
    /// The version's document.
    pub(crate) document: Text,
}

// The members of the versions that the source gives, in a packument of this form.
fn version_members<S: VersionSource>(
    alloc: Global,
    form: PackForm,
    source: &mut S,
) -> Result<Vec<VersionMember>, Fault>
    ensures ok { S.is_known source.new → IfOk result (λ members.
        option_map (versions_text false) (version_pairs form (S.rows source.old))
        ≡ Some (text_of_members [] members.items)) }
    ensures err { S.is_known source.new → IfErr result (IsFaultFrom (S.stopped source.new)
        (version_pairs form (S.rows source.old))) }
    ensures taken { S.is_known source.new → OnOk result (S.rows source.new ≡ []) }
    ensures known { S.is_known source.new → S.is_known source.old }
    ensures goes_on { OnOk result (S.stopped source.new ≡ None) }
    ensures behind { S.leaves source.old source.new }
{
    let mut members = Vec::new(alloc);
    let mut later = false;
    'versions: while let Some(row) = source.next(alloc)? {
        let member = row.into_member(alloc, form, later)?;
        members.push(member)?;
        later = true;
    }
    Ok(members)
}

// ---- the text, in exact room

// A number of bytes, and those of a text. An error is returned where memory has fewer places than
// that.
fn longer(len: usize, text: &str) -> Result<usize, AllocError>
    ensures { IfOk result (λ sum. sum ≡ len + length text.now) }
{
    len.checked_add(text.len()).ok_or(AllocError)
}

// How many bytes the packument has that begins so, and then has these members.
fn text_len(start: &str, members: &[VersionMember]) -> Result<usize, AllocError>
    ensures { IfOk result (λ len. len ≡ length (text_of_members start.now members.now)) }
{
    let mut len = longer(start.len(), CLOSING)?;
    for member in members {
        let key_end = longer(len, member.key.as_str())?;
        len = longer(key_end, member.document.as_str())?;
    }
    Ok(len)
}

// Room for the packument that begins so, and then has these members: as many bytes as it has.
fn room_for(alloc: Global, start: &str, members: &[VersionMember]) -> Result<String, AllocError>
    ensures empty { IfOk result (λ room. string_bytes room ≡ []) }
    ensures exact { IfOk result (λ room.
        string_capacity room ≡ length (text_of_members start.now members.now)) }
{
    String::with_capacity(alloc, text_len(start, members)?)
}

// The packument that begins so, and then has these members.
fn text_of(alloc: Global, start: &str, members: &[VersionMember]) -> Result<String, AllocError>
    ensures { IfOk result (λ text.
        string_bytes text ≡ text_of_members start.now members.now) }
{
    let mut out = room_for(alloc, start, members)?;
    out.push_str(start)?;
    for member in members {
        out.push_str(member.key.as_str())?;
        out.push_str(member.document.as_str())?;
    }
    out.push_str(CLOSING)?;
    Ok(out)
}

/// The packument of a package, as npm's registry answers it, in compact JSON. A full one is an
/// object with `_id` and `name` (the package's name), `dist-tags` (tag to version), `time` (version
/// to the moment of its publication, then `created` and `modified`) and `versions` (version to
/// document). An abbreviated one has `dist-tags`, `modified`, `name` and `versions`, and of each
/// document what an install reads.
///
/// The versions are the rows that the source gives. They, the tags and the versions under `time`
/// are in byte order, each once. The moments are those of [`moment_text`](crate::moment_text). A
/// version's document is that of [`version_text`](crate::version_text). `Database` is returned
/// where a manifest isn't one (see there). Otherwise the source's own fault is returned, or
/// `Memory` when no memory is left. Where it succeeds, the source has given all its rows.
///
/// The documents are made first, each manifest without a message in its own memory. So the length
/// is known before the text is written, once, into room for exactly that many bytes.
pub fn packument_text<S: VersionSource>(
    alloc: Global,
    head: &PackHead,
    source: &mut S,
) -> Result<Text, Fault>
    // Where what the source gave is known:
    ensures ok { S.is_known source.new
        → IfOk result (λ text. pack_text head.now (S.rows source.old) ≡ Some text) }
    ensures err { S.is_known source.new → IfErr result (IsFaultFrom (S.stopped source.new)
        (pack_text head.now (S.rows source.old))) }
    ensures taken { S.is_known source.new → OnOk result (S.rows source.new ≡ []) }

    ensures known { S.is_known source.new → S.is_known source.old }
    ensures goes_on { OnOk result (S.stopped source.new ≡ None) }
    ensures behind { S.leaves source.old source.new }
{
    let start = opening(alloc, head)?;
    let members = version_members(alloc, head.form(), source)?;
    let text = text_of(alloc, start.as_str(), &members)?;
    Ok(Text::from(text))
}
