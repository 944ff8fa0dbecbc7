//! What a publish body says, before its texts are read.

ghost use Rattle.std.specs.Prelude.{◌≡◌, MatchResult};
ghost use Rattle.serde_json.specs.View.{view};
ghost use Rattle.registry_publish.specs.Body as spec;
ghost use Rattle.registry_publish.specs.Body.{BodyParts, IsBody, tag_of};
ghost use Rattle.registry_publish.specs.Stops.{StopsReading};
ghost use Rattle.registry_publish.specs.Views.{body_view};

use crate::access::access_at;
use crate::attachment::archive_of;
use crate::dependencies::needs_in;
use crate::dist_tags::tag_at;
use crate::floats::has_float;
use crate::json::BAD_BODY;
use crate::members::{has_member, has_text, sole_at, text_at};
use crate::need::Need;
use registry_names::{LATEST, Status, Stop};
use serde_json::Value;
use std::alloc::Global;

// What a body says: its name, its version and its manifest, with what the manifest depends on; the
// tag and the status, where it asks for some; and its archive.
#[derive(Drop)]
pub(crate) struct Body<'v> {
    pub(crate) name: &'v str,
    pub(crate) version: &'v str,
    pub(crate) manifest: &'v Value,
    pub(crate) needs: Vec<Need>,
    pub(crate) tag: Option<&'v str>,
    pub(crate) access: Option<Status>,
    pub(crate) archive: Vec<u8>,
}

impl<'v> Body<'v> {
    // The tag that is asked for, which is `latest` where none is named.
    pub(crate) fn tag(&self) -> &'v str
        ensures { result.now ≡ tag_of (body_view self.now) }
    {
        self.tag.unwrap_or(LATEST)
    }
}

#[tactic(auto, unfolding(crate::specs::Body::is_manifest))]
fn is_manifest(value: &Value, name: &str, version: &str) -> bool
    ensures { result ≡ spec.is_manifest name.now version.now (view value.now) }
{
    has_text(value, "name", name)
        && has_text(value, "version", version)
        && !has_member(value, "deprecated")
        && !has_float(value)
}

pub(crate) fn body_of(alloc: Global, value: &Value) -> Result<Body<'_>, Stop>
    ensures { MatchResult result
        (λ body. IsBody (view value.now) (body_view body))
        (StopsReading ((p : BodyParts) → ¬ IsBody (view value.now) p)) }
{
    let name = text_at(value, "name").ok_or(BAD_BODY)?;
    let (version, manifest) = sole_at(value, "versions").ok_or(BAD_BODY)?;
    if !is_manifest(manifest, name, version) {
        return Err(BAD_BODY);
    }
    let tag = tag_at(value, version).ok_or(BAD_BODY)?;
    let access = access_at(value).ok_or(BAD_BODY)?;
    let needs = needs_in(alloc, manifest)?;
    let archive = archive_of(alloc, value)?;
    Ok(Body {
        name,
        version,
        manifest,
        needs,
        tag,
        access,
        archive,
    })
}
