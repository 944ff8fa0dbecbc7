//! What an outcome of the registry is in HTTP.

ghost use Rattle.std.specs.Prelude.{◌≡◌, ◌≤◌, ◌++◌, [], length, drop, Ok, Err};
ghost use Rattle.http.specs.StatusCode.{IsStatusCode};
ghost use Rattle.registry_wire.specs.Responses.{no_labels, response_bytes};
ghost use Rattle.registry_wire.specs.TagReading.{names_some};
ghost use Rattle.registry_service.specs.HttpAnswers as spec;
ghost use Rattle.registry_service.specs.HttpAnswers.{AnswersPlainly, AnswersSo, Outcome, answer_bytes, body_bytes, fronted_text, labelled, sent_bytes};
ghost use Rattle.registry_service.specs.Turns.{is_get, names_document};

use crate::told::{Told, What};
use http::StatusCode;
use registry_cache::{SharedBlob, SharedText};
use registry_names::{Fault, Method, Refusal, Text};
use registry_rules::Reply;
use registry_wire::{
    ContentKind, EntityTag, FieldValue, Labels, Response, ShortText, Wanted, names_tag,
};

/// A text, of which some lies elsewhere: a front of its own, and a shared text without the first of
/// its bytes.
#[derive(Drop)]
pub struct Fronted {
    pub front: Text,
    pub text: SharedText,
    /// How many bytes of the shared text are left out.
    pub skipped: usize,
}

impl Fronted {
    // The front, and what follows it.
    pub(crate) fn pieces(&self) -> (&[u8], &[u8])
        ensures { result.0.now ++ result.1.now ≡ fronted_text self.now }
    {
        (self.front.as_str().as_bytes(), self.rest())
    }

    // What is left of the shared text.
    fn rest(&self) -> &[u8]
        ensures { result.now ≡ drop self.now.skipped self.now.text }
    {
        let text = self.text.as_str().as_bytes();
        let (_, rest) = text.split_at(self.skipped.min(text.len()));
        rest
    }
}

/// The body of an answer.
#[derive(Drop)]
pub enum Body {
    /// A text that takes no memory.
    Short(ShortText),
    /// A text of its own.
    Text(Text),
    /// A document of the registry, which may be shared.
    Doc(SharedText),
    /// A document of the registry behind a front of its own.
    Fronted(Fronted),
    /// The bytes of an archive, which may be shared.
    Bytes(SharedBlob),
}

impl Body {
    /// The bytes themselves, in two pieces. Mostly the second is empty.
    pub fn as_slices(&self) -> (&[u8], &[u8])
        ensures { result.0.now ++ result.1.now ≡ body_bytes self.now }
    {
        match self {
            Body::Short(text) => (text.as_slice(), b""),
            Body::Text(text) => (text.as_str().as_bytes(), b""),
            Body::Doc(text) => (text.as_str().as_bytes(), b""),
            Body::Fronted(fronted) => fronted.pieces(),
            Body::Bytes(bytes) => (bytes.as_slice(), b""),
        }
    }

    /// How many bytes it has.
    pub fn len(&self) -> usize
        ensures { result ≡ length (body_bytes self.now) }
    {
        let (front, rest) = self.as_slices();
        front.len() + rest.len()
    }
}

/// An answer in HTTP, which holds its body. Where its status is 304 nothing of that is sent (RFC 9110,
/// 15.4.5).
pub struct Answer {
    pub status: StatusCode,
    pub kind: ContentKind,
    pub labels: Labels,
    pub body: Body,
}

// Written out, so that dropping an answer is one call, not one for each part.
impl Drop for Answer {
    fn drop(self) {
        let Answer {
            status: _,
            kind: _,
            labels: _,
            body: _,
        } = self;
    }
}

impl Answer {
    /// The answer to an outcome. It takes no memory: what the reply holds goes into the body as it
    /// is.
    ///
    /// `Created` is 201 and any other reply 200, except a refusal and a fault, which have their
    /// own status. The body is the document, the bytes of the archive, `{"ok":true}`,
    /// `{"count":2,"ok":true}`, or `{"error":"NotFound"}` with the name of the refusal or the
    /// fault. Nothing is said to those who keep documents.
    pub fn of(outcome: Result<Reply, Fault>) -> Answer
        ensures { AnswersPlainly outcome result }
    {
        match outcome {
            Ok(Reply::Created) => ok(StatusCode::CREATED),
            Ok(Reply::Done) => ok(StatusCode::OK),
            Ok(Reply::Count(count)) => counted(count),
            Ok(Reply::Doc(text)) => whole(ContentKind::Json, Body::Doc(text)),
            Ok(Reply::Bytes(bytes)) => whole(ContentKind::Bytes, Body::Bytes(bytes)),
            Ok(Reply::Refused(refusal)) => refused(refusal),
            Err(fault) => faulted(fault),
        }
    }

    /// The answer to a document, or to any outcome, as [`Answer::of`] says.
    pub(crate) fn told(told: Told) -> Answer
        ensures { AnswersPlainly told result }
    {
        match told.what {
            What::Outcome(outcome) => Answer::of(outcome),
            What::Fronted(fronted) => whole(ContentKind::Json, Body::Fronted(fronted)),
        }
    }

    /// The same answer with these labels, where its status is 200. It is 304 where the request is a
    /// GET and its field `if-none-match` names their tag, and then it has no body.
    pub(crate) fn labelled(self, labels: Labels, wanted: &Wanted) -> Answer
        ensures { (o : Outcome) → AnswersPlainly o self → AnswersSo (labelled o labels)
            (names_document wanted.now (labelled o labels).tag) o result }
    {
        if self.status.as_u16() != 200 {
            return self;
        }
        if names_document(wanted, &labels.tag) {
            return not_modified(self.kind, labels);
        }
        let Answer {
            status,
            kind,
            labels: _,
            body,
        } = self;
        Answer {
            status,
            kind,
            labels,
            body,
        }
    }

    /// The bytes that are sent of its body, in two pieces. Mostly the second is empty.
    pub fn pieces(&self) -> (&[u8], &[u8])
        ensures { result.0.now ++ result.1.now ≡ sent_bytes self.now }
    {
        if self.status.as_u16() == 304 {
            (b"", b"")
        } else {
            self.body.as_slices()
        }
    }

    /// The response that sends it, which says whether the connection ends after it.
    pub fn response(&self, closes: bool) -> Response<'_>
        ensures { response_bytes result ≡ answer_bytes self.now closes }
    {
        let (body, rest) = self.body.as_slices();
        Response {
            status: self.status,
            kind: self.kind,
            labels: &self.labels,
            body,
            rest,
            closes,
        }
    }
}

fn whole(kind: ContentKind, body: Body) -> Answer
    ensures { result ≡ spec.answer 200 kind no_labels body }
{
    Answer {
        status: StatusCode::OK,
        kind,
        labels: Labels::none(),
        body,
    }
}

// The answer to one who has the document with these labels.
fn not_modified(kind: ContentKind, labels: Labels) -> Answer
    ensures { result ≡ spec.answer 304 kind labels (spec.short []) }
{
    Answer {
        status: StatusCode::NOT_MODIFIED,
        kind,
        labels,
        body: Body::Short(ShortText::new()),
    }
}

// Whether the request is a GET of a document that who asks has with this tag.
fn names_document(wanted: &Wanted, tag: &Option<EntityTag>) -> bool
    ensures { result ≡ names_document wanted.now tag.now }
{
    names_some(&wanted.if_none_match, tag) && is_get(wanted.method)
}

fn is_get(method: Method) -> bool
    ensures { result ≡ is_get method }
{
    matches!(method, Method::Get)
}

fn names_some(field: &FieldValue, tag: &Option<EntityTag>) -> bool
    ensures { result ≡ names_some field.now tag.now }
{
    match tag {
        Some(tag) => names_tag(field, tag),
        None => false,
    }
}

fn ok(status: StatusCode) -> Answer
    ensures status { result.status ≡ status }
    ensures kind { result.kind ≡ ContentKind.Json }
    ensures labels { result.labels ≡ no_labels }
    ensures body { body_bytes result.body ≡ spec.ok_text }
{
    let mut text = ShortText::new();
    text.push(b"{\"ok\":true}");
    Answer {
        status,
        kind: ContentKind::Json,
        labels: Labels::none(),
        body: Body::Short(text),
    }
}

fn counted(count: u64) -> Answer
    ensures { AnswersPlainly (Ok (Reply.Count count)) result }
{
    let mut text = ShortText::new();
    text.push(b"{\"count\":");
    text.push_number(count);
    text.push(b",\"ok\":true}");
    whole(ContentKind::Json, Body::Short(text))
}

#[tactic(auto, using(crate::proofs::AnswerFacts::names))]
fn refused(refusal: Refusal) -> Answer
    ensures { AnswersPlainly (Ok (Reply.Refused refusal)) result }
{
    error(refusal.status(), refusal.text())
}

#[tactic(auto, using(crate::proofs::AnswerFacts::names))]
fn faulted(fault: Fault) -> Answer
    ensures { AnswersPlainly (Err fault) result }
{
    error(fault.status(), fault.text())
}

// A status as a number is one of those that HTTP has.
fn code(status: u16) -> StatusCode
    requires { IsStatusCode status }
    ensures { result ≡ status }
{
    match StatusCode::from_u16(status) {
        Ok(code) => code,
        Err(_) => unreachable!(),
    }
}

fn error(status: u16, name: &str) -> Answer
    requires status { IsStatusCode status }
    requires short { length name.now ≤ 100 }
    ensures status { result.status ≡ status }
    ensures kind { result.kind ≡ ContentKind.Json }
    ensures labels { result.labels ≡ no_labels }
    ensures body { body_bytes result.body ≡ spec.error_text name.now }
{
    let mut text = ShortText::new();
    text.push(b"{\"error\":\"");
    text.push(name.as_bytes());
    text.push(b"\"}");
    Answer {
        status: code(status),
        kind: ContentKind::Json,
        labels: Labels::none(),
        body: Body::Short(text),
    }
}
