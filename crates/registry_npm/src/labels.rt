//! What responses say to those who keep documents.

ghost use Rattle.std.specs.Prelude.{◌≡◌, ◌∷◌, [], Some, drop, length, take};
ghost use Rattle.hex.specs.Hex.{encode_lower};
ghost use Rattle.registry_service.specs.Turns.{exchange};
ghost use Rattle.registry_wire.specs.EntityTags as tags;
ghost use Rattle.registry_npm.specs.Labels as spec;

use registry_cache::{SharedBlob, SharedText};
use registry_names::Fault;
use registry_rules::{Action, Credential, Reply, Request};
use registry_wire::{Caching, DocumentForm, EntityTag, Labels};

/// The bytes before the revision in a packument as npm reads it: `{"_rev":"`.
const BEFORE_REVISION: usize = 9;

/// The bytes of a tag, which is a digest in hexadecimal.
const TAG_LEN: usize = 64;

// The bytes behind the first ones, at most so many.
fn part(text: &[u8], skipped: usize, most: usize) -> &[u8]
    ensures { result.now ≡ take most (drop skipped text.now) }
{
    let (_, behind) = text.split_at(skipped.min(text.len()));
    let (part, _) = behind.split_at(most.min(behind.len()));
    part
}

// The revision that a packument as npm reads it begins with.
fn tag_in(text: &SharedText) -> Option<EntityTag>
    ensures { result ≡ spec.tag_in text.now }
{
    let bytes = text.as_str().as_bytes();
    EntityTag::of(part(bytes, BEFORE_REVISION, TAG_LEN))
}

/// The labels of a packument as npm reads it, which is sent as it is, and of no other outcome.
pub(crate) fn full_labels(outcome: &Result<Reply, Fault>) -> Labels
    ensures { result ≡ spec.of_document spec.full_labels outcome.now }
{
    match outcome {
        Ok(Reply::Doc(text)) => Labels {
            tag: tag_in(text),
            caching: Caching::Checked,
            form: DocumentForm::Full,
        },
        _ => Labels::none(),
    }
}

/// The labels of an abbreviated packument, which is sent as it is, and of no other outcome.
pub(crate) fn abbreviated_labels(outcome: &Result<Reply, Fault>) -> Labels
    ensures { result ≡ spec.of_document spec.abbreviated_labels outcome.now }
{
    match outcome {
        Ok(Reply::Doc(text)) => Labels {
            tag: text_tag(text),
            caching: Caching::Checked,
            form: DocumentForm::Abbreviated,
        },
        _ => Labels::none(),
    }
}

/// The labels of what a request of the registry's own routes came to: of an archive, which is the
/// same for good, and which anybody may share if it was answered to nobody in particular.
pub(crate) fn other_labels(request: &Request, outcome: &Result<Reply, Fault>) -> Labels
    ensures { result ≡ spec.other_labels (exchange request.now outcome.now ∷ []) outcome.now }
{
    match (&request.what, outcome) {
        (Action::Archive { .. }, Ok(Reply::Bytes(bytes))) => Labels {
            tag: archive_tag(bytes),
            caching: archive_caching(&request.who),
            form: DocumentForm::Only,
        },
        _ => Labels::none(),
    }
}

// The tag that is a digest in hexadecimal.
fn digest_tag(digest: &[u8]) -> Option<EntityTag>
    requires { length digest.now ≡ 32 }
    ensures { result ≡ tags.tag_of (encode_lower digest.now) }
{
    let mut tag = [0; TAG_LEN];
    let _fits = hex::encode_to_slice(digest, &mut tag);
    EntityTag::of(tag.as_slice())
}

fn text_tag(text: &SharedText) -> Option<EntityTag>
    ensures { result ≡ Some (spec.content_tag text.now) }
{
    let digest = text.digest();
    digest_tag(digest.as_slice())
}

fn archive_tag(bytes: &SharedBlob) -> Option<EntityTag>
    ensures { result ≡ Some (spec.content_tag bytes.now) }
{
    let digest = bytes.digest();
    digest_tag(digest.as_slice())
}

fn archive_caching(who: &Credential) -> Caching
    ensures { result ≡ spec.archive_caching who.now }
{
    match who {
        Credential::Anonymous => Caching::Shared,
        Credential::Operator | Credential::User(_) | Credential::Token(_) => Caching::Kept,
    }
}
