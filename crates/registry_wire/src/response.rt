//! The bytes of a response.

ghost use Rattle.std.specs.Prelude.{◌≡◌, ◌+◌, ◌≤◌, ◌++◌, length, true, OnOk, OnErr, IsErr};
ghost use Rattle.registry_names.specs.ByteStreams.{Writes, WritesPrefix, failures_after, full_count};
ghost use Rattle.http.specs.StatusCode.{code_digits};
ghost use Rattle.registry_wire.specs.Responses as spec;
ghost use Rattle.registry_wire.specs.Responses.{content, head_of, response_bytes};

use crate::entity_tag::EntityTag;
use crate::labels::{Caching, DocumentForm, Labels};
use crate::media_range::abbreviated_type;
use crate::short_text::{SHORT_LIMIT, ShortText};
use arrayvec::ArrayVec;
use http::StatusCode;
use registry_names::{ByteOut, WriteFailed, write_whole};

/// What a body is.
#[derive(Clone, Copy, Debug, PartialEq, Eq)]
pub enum ContentKind {
    /// `application/json`, or the type of the labels' form.
    Json,
    /// `application/octet-stream`.
    Bytes,
}

/// A response, of a body that is elsewhere. A response with the status 304 has no body (RFC 9110,
/// 15.4.5): none is sent, whatever its pieces are.
#[derive(Clone, Copy)]
pub struct Response<'a> {
    pub status: StatusCode,
    pub kind: ContentKind,
    pub labels: &'a Labels,
    /// The body, or what it begins with.
    pub body: &'a [u8],
    /// What follows in the body. Mostly nothing does.
    pub rest: &'a [u8],
    /// Whether the connection ends after it. If so, the response says it.
    pub closes: bool,
}

impl Response<'_> {
    /// Its status line and its fields, with the blank line that ends them.
    pub fn head(&self) -> ShortText
        ensures bytes { result ≡ head_of self.now }
        ensures short { length result ≤ 384 }
    {
        let mut head = ShortText::new();
        put_status_line(&mut head, self.status);
        put_content_lines(
            &mut head,
            self.status,
            self.kind,
            self.labels.form,
            self.len(),
        );
        put_label_lines(&mut head, self.labels);
        put_last_lines(&mut head, self.status, self.closes);
        head
    }

    // The body that is sent, in two pieces.
    fn pieces(&self) -> (&[u8], &[u8])
        ensures { result.0.now ++ result.1.now ≡ content self.now }
    {
        if self.status.as_u16() == 304 {
            (b"", b"")
        } else {
            (self.body, self.rest)
        }
    }

    // How many bytes it has.
    fn len(&self) -> usize
        ensures { result ≡ length (content self.now) }
    {
        let (body, rest) = self.pieces();
        body.len() + rest.len()
    }
}

fn put_status_line(head: &mut ShortText, status: StatusCode)
    requires { length head.old ≤ 0 }
    ensures bytes { head.new ≡ head.old ++ spec.status_line status }
    ensures len { length head.new ≤ 56 }
{
    head.push(b"HTTP/1.1 ");
    head.push(digits(status).as_bytes());
    head.push(b" ");
    head.push(phrase(status).as_bytes());
    head.push(b"\r\n");
}

fn digits(status: StatusCode) -> &'static str
    ensures text { result.now ≡ code_digits status }
    ensures len { length result.now ≤ 3 }
{
    status.as_str()
}

#[tactic(auto, unfolding(crate::specs::Responses::phrase))]
fn phrase(status: StatusCode) -> &'static str
    ensures text { result.now ≡ spec.phrase status }
    ensures len { length result.now ≤ 40 }
{
    match status.canonical_reason() {
        Some(phrase) => phrase,
        None => "",
    }
}

fn put_content_lines(
    head: &mut ShortText,
    status: StatusCode,
    kind: ContentKind,
    form: DocumentForm,
    len: usize,
)
    requires { length head.old ≤ 56 }
    ensures bytes { head.new ≡ head.old ++ spec.content_lines status kind form len }
    ensures len { length head.new ≤ length head.old + 109 }
{
    if status.as_u16() != 304 {
        put_type_line(head, kind, form);
        put_length_line(head, len);
    }
}

fn put_type_line(head: &mut ShortText, kind: ContentKind, form: DocumentForm)
    requires { length head.old ≤ 100 }
    ensures bytes { head.new ≡ head.old ++ spec.type_line kind form }
    ensures len { length head.new ≤ length head.old + 51 }
{
    head.push(b"content-type: ");
    head.push(media_type(kind, form));
    head.push(b"\r\n");
}

fn media_type(kind: ContentKind, form: DocumentForm) -> &'static [u8]
    ensures text { result.now ≡ spec.media_type kind form }
    ensures len { length result.now ≤ 35 }
{
    match kind {
        ContentKind::Json => json_type(form),
        ContentKind::Bytes => b"application/octet-stream",
    }
}

fn json_type(form: DocumentForm) -> &'static [u8]
    ensures text { result.now ≡ spec.json_type form }
    ensures len { length result.now ≤ 35 }
{
    match form {
        DocumentForm::Only | DocumentForm::Full => b"application/json",
        DocumentForm::Abbreviated => abbreviated_type(),
    }
}

fn put_length_line(head: &mut ShortText, len: usize)
    requires { length head.old ≤ 107 }
    ensures bytes { head.new ≡ head.old ++ spec.length_line len }
    ensures len { length head.new ≤ length head.old + 58 }
{
    head.push(b"content-length: ");
    head.push_number(len as u64);
    head.push(b"\r\n");
}

fn put_label_lines(head: &mut ShortText, labels: &Labels)
    requires { length head.old ≤ 165 }
    ensures bytes { head.new ≡ head.old ++ spec.label_lines labels.now }
    ensures len { length head.new ≤ length head.old + 141 }
{
    put_tag_line(head, &labels.tag);
    head.push(caching_line(labels.caching));
    head.push(vary_line(labels.form));
}

fn put_tag_line(head: &mut ShortText, tag: &Option<EntityTag>)
    requires { length head.old ≤ 165 }
    ensures bytes { head.new ≡ head.old ++ spec.tag_line tag.now }
    ensures len { length head.new ≤ length head.old + 74 }
{
    match tag {
        Some(tag) => {
            head.push(b"etag: \"");
            head.push(tag.as_slice());
            head.push(b"\"\r\n");
        }
        None => {}
    }
}

fn caching_line(caching: Caching) -> &'static [u8]
    ensures text { result.now ≡ spec.caching_line caching }
    ensures len { length result.now ≤ 53 }
{
    match caching {
        Caching::Unsaid => b"",
        Caching::Checked => b"cache-control: no-cache\r\n",
        Caching::Kept => b"cache-control: private, max-age=31536000, immutable\r\n",
        Caching::Shared => b"cache-control: public, max-age=31536000, immutable\r\n",
    }
}

fn vary_line(form: DocumentForm) -> &'static [u8]
    ensures text { result.now ≡ spec.vary_line form }
    ensures len { length result.now ≤ 14 }
{
    match form {
        DocumentForm::Only => b"",
        DocumentForm::Full | DocumentForm::Abbreviated => b"vary: accept\r\n",
    }
}

fn put_last_lines(head: &mut ShortText, status: StatusCode, closes: bool)
    requires { length head.old ≤ 306 }
    ensures bytes { head.new
        ≡ head.old ++ spec.challenge status ++ spec.close_line closes ++ spec.line_end }
    ensures len { length head.new ≤ length head.old + 47 }
{
    put_if(
        head,
        status.as_u16() == 401,
        b"www-authenticate: Bearer\r\n",
    );
    put_if(head, closes, b"connection: close\r\n");
    head.push(b"\r\n");
}

fn put_if(head: &mut ShortText, applies: bool, text: &[u8])
    requires { length head.old + length text.now ≤ 384 }
    ensures bytes { head.new ≡ head.old ++ spec.only_if applies text.now }
    ensures len { length head.new ≤ length head.old + length text.now }
{
    if applies {
        head.push(text);
    }
}

/// The most bytes that are gathered for one write.
const GATHER_LIMIT: usize = 4096;

/// Writes a response, or a prefix of it up to the first failed write. It takes no memory: the head
/// and the prefix of the body's first piece go out in one write, and what follows as it is.
pub fn write_response<W: ByteOut>(
    response: &Response<'_>,
    writer: &mut W,
) -> Result<(), WriteFailed>
    ensures ok { OnOk result (Writes (W.bytes writer.old) (W.bytes writer.new)
        (W.is_unknown writer.new) (response_bytes response.now)) }
    ensures err { OnErr result (WritesPrefix (W.bytes writer.old) (W.bytes writer.new)
        (W.is_unknown writer.new) (response_bytes response.now)) }

    ensures counted { W.failures writer.new ≡ failures_after result (W.failures writer.old) }
    ensures full { W.failures writer.old ≡ full_count → IsErr result }

    ensures told { OnOk result (W.is_unknown writer.new ≡ W.is_unknown writer.old) }
    ensures unknown { W.is_unknown writer.old ≡ true → W.is_unknown writer.new ≡ true }
{
    let head = response.head();
    let (body, rest) = response.pieces();
    let (prefix, later) = body.split_at(prefix_len(body));
    let first = gathered(head.as_slice(), prefix);
    write_whole(writer, first.as_slice())?;
    write_both(writer, later, rest)
}

// Writes two texts, one after the other, or a prefix of both up to the first failed write.
fn write_both<W: ByteOut>(writer: &mut W, first: &[u8], second: &[u8]) -> Result<(), WriteFailed>
    ensures ok { OnOk result (Writes (W.bytes writer.old) (W.bytes writer.new)
        (W.is_unknown writer.new) (first.now ++ second.now)) }
    ensures err { OnErr result (WritesPrefix (W.bytes writer.old) (W.bytes writer.new)
        (W.is_unknown writer.new) (first.now ++ second.now)) }
    ensures counted { W.failures writer.new ≡ failures_after result (W.failures writer.old) }
    ensures told { OnOk result (W.is_unknown writer.new ≡ W.is_unknown writer.old) }
    ensures unknown { W.is_unknown writer.old ≡ true → W.is_unknown writer.new ≡ true }
{
    write_whole(writer, first)?;
    write_whole(writer, second)
}

// How much of a body goes out with the head.
fn prefix_len(body: &[u8]) -> usize
    ensures within { result ≤ length body.now }
    ensures few { result ≤ 3712 }
{
    body.len().min(GATHER_LIMIT - SHORT_LIMIT)
}

fn gathered(head: &[u8], prefix: &[u8]) -> ArrayVec<u8, GATHER_LIMIT>
    requires { length head.now + length prefix.now ≤ 4096 }
    ensures { result.items ≡ head.now ++ prefix.now }
{
    let mut bytes = ArrayVec::new();
    let _head_fits = bytes.try_extend_from_slice(head);
    let _prefix_fits = bytes.try_extend_from_slice(prefix);
    bytes
}
