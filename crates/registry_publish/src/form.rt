//! The form of a publication.

ghost use Rattle.std.specs.Prelude.{◌≡◌, List, ℕ, true, Some, IfErr, IfOk, MatchResult, string_bytes};
ghost use Rattle.serde_json.specs.View.{view};
ghost use Rattle.registry_names.specs.Names.{IsName};
ghost use Rattle.registry_names.specs.Tags.{is_tag};
ghost use Rattle.registry_names.specs.Versions.{IsVersionOf, text_of_version};
ghost use Rattle.registry_publish.specs.Form.{FormParts, IsFormOf, IsManifestText, IsTextOf, StopsForm};
ghost use Rattle.registry_publish.specs.Integrity as spec;
ghost use Rattle.registry_publish.specs.Integrity.{integrity_text};
ghost use Rattle.registry_publish.specs.Needs.{needs_of};
ghost use Rattle.registry_publish.specs.Reads.{IsNamed, IsReadBody, StopsTexts};
ghost use Rattle.registry_publish.specs.Spelled.{Spells};
ghost use Rattle.registry_publish.specs.Views.{body_view};

use crate::body::{Body, body_of};
use crate::integrity::{has_integrity, integrity_of};
use crate::json::document;
use crate::need::Need;
use registry_names::{BODY_LIMIT, Name, Refusal, Status, Stop, TagText, Text, Ver};
use serde_json::Value;
use std::alloc::Global;
use std::marker::Model;

/// What a publication asks for: the package's name and the version, the tag that is to name the
/// version, the status that is to be set, and the version's manifest and archive, with what the
/// manifest says it depends on and the archive's integrity. Contracts see these eight parts.
#[derive(Debug)]
pub struct PublishForm {
    name: Name,
    version: Ver,
    tag: TagText,
    access: Option<Status>,
    manifest: String,
    archive: Vec<u8>,
    needs: Vec<Need>,
    integrity: Text,
}

// Written out, so that dropping a form is one call, not one for each part.
impl Drop for PublishForm {
    fn drop(self) {
        let PublishForm {
            name: _,
            version: _,
            tag: _,
            access: _,
            manifest: _,
            archive: _,
            needs: _,
            integrity: _,
        } = self;
    }
}

impl Model for PublishForm {
    ghost use Rattle.std.specs.Prelude.{◌≡◌, string_bytes, true, Some};
    ghost use Rattle.registry_names.specs.Names.{IsName};
    ghost use Rattle.registry_names.specs.Tags.{is_tag};
    ghost use Rattle.registry_names.specs.Versions.{IsVersionOf, text_of_version};
    ghost use Rattle.registry_publish.specs.Form.{FormParts, IsManifestText};
    ghost use Rattle.registry_publish.specs.Integrity.{integrity_text};
    ghost use Rattle.registry_publish.specs.Needs.{needs_of};

    ghost Value = { FormParts };

    ghost view = { λ f. record {
      name = f.name;
      version = f.version;
      tag = f.tag;
      access = f.access;
      manifest = string_bytes f.manifest;
      archive = f.archive.items;
      needs = f.needs.items;
      integrity = f.integrity;
    } };

    ghost invariant = { λ f. IsName f.name × IsVersionOf (text_of_version f.version) f.version
        × (is_tag f.tag ≡ true) × IsManifestText f.name f.version (string_bytes f.manifest)
        × (needs_of (string_bytes f.manifest) ≡ Some f.needs.items)
        × (f.integrity ≡ integrity_text f.archive.items) };
}

impl PublishForm {
    /// Reads the body of a publication, as the npm client sends it.
    ///
    /// The body is JSON (RFC 8259), an object whose members say what is published:
    ///
    /// - `name` is the name of the package.
    /// - `versions` is an object of one member: its key is the version, its value the manifest.
    /// - `dist-tags` is absent, an empty object, or an object of one member: its key is the tag,
    ///   its value the version.
    /// - `access` is absent, null, `public` or `restricted`.
    /// - `_attachments` is an object of one member: an object, whose `data` is the archive in
    ///   standard padded base64 (RFC 4648), and whose `length`, where present, is the number of its
    ///   bytes.
    ///
    /// The manifest is an object whose `name` and `version` are the body's name and the version,
    /// with no member `deprecated`, in which each number, at any depth, is an integer that a u64
    /// or an i64 holds, and is written as one: `1.0`, `1e3` and `-0` aren't. Its members
    /// `dependencies`, `optionalDependencies` and `peerDependencies` are each absent or an object
    /// of texts. All its other members are kept, and the body's other ones aren't read. Of equal
    /// keys the last one counts. Values nest at most 127 deep, the body's own object among them.
    ///
    /// The first of these errors that holds is returned:
    ///
    /// 1. `TooLarge`: the body has more than [`BODY_LIMIT`] bytes.
    /// 2. `BadBody`: it isn't JSON of the form above.
    /// 3. `BadName`: its name isn't the name of a package ([`Name`]).
    /// 4. `BadVersion`: its version isn't one ([`Ver`]), such as a version of
    ///    [SemVer 2.0.0](https://semver.org/spec/v2.0.0.html) with build metadata.
    /// 5. `RangeTag`: its tag, which is `latest` where none is named, is a range of versions.
    /// 6. `BadTag`: its tag isn't one for another reason ([`tag`](registry_ranges::tag)).
    /// 7. `BadIntegrity`: `dist` of the manifest is an object with a member `integrity` that isn't
    ///    the text of the archive's integrity ([`integrity_of`](crate::integrity_of)).
    ///
    /// `Memory` is returned when no memory is left to read a body that isn't too large, and no
    /// other fault is returned.
    pub fn read(alloc: Global, body: &[u8]) -> Result<PublishForm, Stop>
        ensures { MatchResult result (IsFormOf body.now) (StopsForm body.now) }
    {
        if body.len() > BODY_LIMIT {
            return Err(Stop::Refused(Refusal::TooLarge));
        }
        let value = document(alloc, body)?;
        PublishForm::of(alloc, &value)
    }

    /// The form of a body that has been read to this value: what [`read`](PublishForm::read) says of
    /// each body that isn't too large and is JSON of the value. So a caller that reads a body for
    /// itself needn't have it read twice.
    ///
    /// The errors of `read` are returned but `TooLarge`.
    pub fn of(alloc: Global, value: &Value) -> Result<PublishForm, Stop>
        requires { (b : List ℕ) × Spells b (view value.now) }
        ensures { (b : List ℕ) → Spells b (view value.now)
            → MatchResult result (IsFormOf b) (StopsForm b) }
    {
        let body = body_of(alloc, value)?;
        form_of(alloc, body)
    }

    /// The name of the package.
    pub fn name(&self) -> &Name
        ensures value { result.now ≡ self.now.name }
        ensures form { IsName self.now.name }
    {
        &self.name
    }

    /// The version that is published.
    pub fn version(&self) -> &Ver
        ensures value { result.now ≡ self.now.version }
        ensures form { IsVersionOf (text_of_version self.now.version) self.now.version }
    {
        &self.version
    }

    /// The tag that is to name the version, which is `latest` where the body asks for none.
    pub fn tag(&self) -> &TagText
        ensures value { result.now ≡ self.now.tag }
        ensures form { is_tag self.now.tag ≡ true }
    {
        &self.tag
    }

    /// The status that is to be set. `None` leaves it to the registry.
    pub fn access(&self) -> Option<Status>
        ensures { result ≡ self.now.access }
    {
        self.access
    }

    /// The version's manifest: its compact JSON, with no space between its tokens and the keys of
    /// each object in byte order.
    pub fn manifest_text(&self) -> &str
        ensures value { result.now ≡ self.now.manifest }
        ensures form { IsManifestText self.now.name self.now.version self.now.manifest }
    {
        self.manifest.as_str()
    }

    /// The bytes of the version's archive.
    pub fn archive(&self) -> &[u8]
        ensures { result.now ≡ self.now.archive }
    {
        self.archive.as_slice()
    }

    /// What the version depends on: the keys and values of the manifest's members `dependencies`,
    /// `optionalDependencies` and `peerDependencies`, in this order, those of each in byte order
    /// of the keys.
    pub fn needs(&self) -> &[Need]
        ensures value { result.now ≡ self.now.needs }
        ensures form { needs_of self.now.manifest ≡ Some self.now.needs }
    {
        self.needs.as_slice()
    }

    /// The integrity of the archive ([`integrity_of`](crate::integrity_of)), whether the manifest
    /// says it or not.
    pub fn integrity(&self) -> &str
        ensures value { result.now ≡ self.now.integrity }
        ensures form { self.now.integrity ≡ integrity_text self.now.archive }
    {
        self.integrity.as_str()
    }
}

// The form that a body has.
fn form_of(alloc: Global, body: Body<'_>) -> Result<PublishForm, Stop>
    requires { (b : List ℕ) × IsReadBody b (body_view body) }
    ensures { (b : List ℕ) → IsReadBody b (body_view body.entry)
        → MatchResult result (IsFormOf b) (StopsForm b) }
{
    let (name, version, tag) = names_of(alloc, &body)?;
    let (manifest, integrity) = texts_of(alloc, &body)?;
    Ok(PublishForm {
        name,
        version,
        tag,
        access: body.access,
        manifest,
        archive: body.archive,
        needs: body.needs,
        integrity,
    })
}

// The name, the version and the tag that a body says.
fn names_of(alloc: Global, body: &Body<'_>) -> Result<(Name, Ver, TagText), Stop>
    ensures ok { IfOk result (λ names. IsNamed (body_view body.now) names.0 names.1 names.2) }
    ensures err { IfErr result (λ stop. (b : List ℕ) → IsReadBody b (body_view body.now)
        → StopsForm b stop) }
{
    let name = Name::parse(alloc, body.name)?;
    let version = Ver::parse(alloc, body.version)?;
    let tag = registry_ranges::tag(alloc, body.tag())?;
    Ok((name, version, tag))
}

// The manifest's text, and the archive's integrity, where the manifest says no other.
fn texts_of(alloc: Global, body: &Body<'_>) -> Result<(String, Text), Stop>
    ensures manifest { IfOk result (λ texts. (b : List ℕ) → IsReadBody b (body_view body.now)
        → IsTextOf (view body.now.manifest.now) (string_bytes texts.0)) }
    ensures integrity { IfOk result (λ texts. (texts.1 ≡ integrity_text body.now.archive.items)
        × (spec.has_integrity texts.1 (view body.now.manifest.now) ≡ true)) }
    ensures err { IfErr result (StopsTexts (body_view body.now)) }
{
    let integrity = integrity_of(alloc, body.archive.as_slice())?;
    if !has_integrity(body.manifest, integrity.as_str()) {
        return Err(Stop::Refused(Refusal::BadIntegrity));
    }
    let manifest = body.manifest.to_string(alloc)?;
    Ok((manifest, integrity))
}
