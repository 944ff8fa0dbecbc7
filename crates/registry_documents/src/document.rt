//! Documents as they come.

ghost use Rattle.std.specs.Prelude.{◌≡◌, Some, None, true, IfOk, IfErr, IsUtf8, bytes_eq, length, option_map, option_and_then, unwrap_or};
ghost use Rattle.serde_json.specs.Find.{get, as_str};
ghost use Rattle.serde_json.specs.Read.{read};
ghost use Rattle.serde_json.specs.View.{view};
ghost use Rattle.registry_names.specs.Faults.{IsMemoryOr};
ghost use Rattle.registry_documents.specs.Documents as spec;
ghost use Rattle.registry_documents.specs.Documents.{IsDocumentOf, IsNoDocument, kind_of, size_of, value_of};
ghost use Rattle.registry_documents.specs.Judging.{may_repeat};

use registry_json::ReadError;
use registry_names::{Fault, Refusal, Stop};
use serde_json::Value;
use std::alloc::Global;

const BAD_BODY: Stop = Stop::Refused(Refusal::BadBody);

/// What a document is about.
#[derive(Clone, Copy, Debug, PartialEq, Eq)]
pub enum Kind {
    /// No claim about what was read, but a publication: it has `_attachments`, or neither `_rev`
    /// nor `versions`.
    Publication,
    /// A whole package: it has `versions`.
    Package,
    /// A package's maintainers: it has `maintainers`, and no `versions`.
    Maintainers,
    /// Something that the registry doesn't hold, as stars.
    Other,
}

/// A document that npm sent. Contracts see its value (`value_of`), and how many bytes it had
/// (`size_of`).
#[derive(Drop)]
pub struct Document {
    value: Value,
    size: usize,
}

impl Document {
    /// Reads the body of a request: a JSON object (RFC 8259), which nests at most 127 deep. Of equal
    /// keys the last one counts.
    ///
    /// `BadBody` is returned only for another body, and `Memory` when no memory is left.
    pub fn read(alloc: Global, body: &[u8]) -> Result<Document, Stop>
        ensures ok { IfOk result (λ d. IsDocumentOf body.now (value_of d)) }
        ensures size { IfOk result (λ d. size_of d ≡ length body.now) }
        ensures err { IfErr result (IsMemoryOr Refusal.BadBody (IsNoDocument body.now)) }
    {
        let value = json_of(alloc, body)?;
        if !value.is_object() {
            return Err(BAD_BODY);
        }
        Ok(Document {
            value,
            size: body.len(),
        })
    }

    /// What the document is about.
    pub fn kind(&self) -> Kind
        ensures { result ≡ kind_of (value_of self.now) }
    {
        let value = &self.value;
        if is_publication(value) {
            Kind::Publication
        } else if has(value, "versions") {
            Kind::Package
        } else if has(value, "maintainers") {
            Kind::Maintainers
        } else {
            Kind::Other
        }
    }

    // Whether the document, and the path where it names one, say this revision.
    pub(crate) fn is_of(&self, revision: &str, path: Option<&str>) -> bool
        ensures { result
            ≡ spec.is_of revision.now (option_map (λ t. t.now) path.entry) (value_of self.now) }
    {
        has_text(&self.value, "_rev", revision) && is_named(path, revision)
    }

    // Whether the document may say all that a packument of these bytes says.
    pub(crate) fn may_repeat(&self, packument: &str) -> bool
        ensures { result ≡ may_repeat (size_of self.now) packument.now }
    {
        packument.len().div_ceil(2) <= self.size
    }

    /// The JSON value that the document is.
    pub fn value(&self) -> &Value
        ensures { view result.now ≡ value_of self.now }
    {
        &self.value
    }
}

fn json_of(alloc: Global, body: &[u8]) -> Result<Value, Stop>
    ensures ok { IfOk result (λ value. IsUtf8 body.now × (read body.now ≡ Some (view value))) }
    ensures err { IfErr result (IsMemoryOr Refusal.BadBody (IsUtf8 body.now → read body.now ≡ None)) }
{
    match registry_json::from_slice(alloc, body) {
        Ok(value) => Ok(value),
        Err(ReadError::NotJson) => Err(BAD_BODY),
        Err(ReadError::Memory) => Err(Stop::Fault(Fault::Memory)),
    }
}

pub(crate) fn has(value: &Value, key: &str) -> bool
    ensures { result ≡ spec.has key.now (view value.now) }
{
    value.get(key).is_some()
}

fn is_publication(value: &Value) -> bool
    ensures { result ≡ spec.is_publication (view value.now) }
{
    has(value, "_attachments") || (!has(value, "_rev") && !has(value, "versions"))
}

fn text_at<'v>(value: &'v Value, key: &str) -> Option<&'v str>
    ensures { option_map (λ t. t.now) result
        ≡ option_and_then as_str (get key.now (view value.now)) }
{
    value.get(key).and_then(Value::as_str)
}

fn has_text(value: &Value, key: &str, text: &str) -> bool
    ensures { result ≡ spec.has_text key.now text.now (view value.now) }
{
    match text_at(value, key) {
        Some(found) => found == text,
        None => false,
    }
}

// Whether a path names the revision, if it names one.
fn is_named(path: Option<&str>, revision: &str) -> bool
    ensures { result ≡ unwrap_or
        (option_map (λ t. bytes_eq t revision.now) (option_map (λ t. t.now) path.entry)) true }
{
    match path {
        Some(named) => named == revision,
        None => true,
    }
}
