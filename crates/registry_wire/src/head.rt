//! The head of a request.

ghost use Rattle.std.specs.Prelude.{◌≡◌, ◌≤◌, length, take, IfOk};
ghost use Rattle.httparse.specs.Grammar.{RequestHead};
ghost use Rattle.httparse.specs.Spans.{IsRequestAt, IsRequestWithin};
ghost use Rattle.registry_names.specs.Bodies.{body_limit};
ghost use Rattle.registry_wire.specs.Asked.{is_other};
ghost use Rattle.registry_wire.specs.Parts.{ArePartsOf, SaysHead};
ghost use Rattle.registry_wire.specs.Spelling.{head_limit};

use crate::field::{Values, body_len, is_last, said};
use crate::first::{FIELD_LIMIT, HEAD_LIMIT};
use crate::method::method_of;
use httparse::Status;
use httparse::spans::{EMPTY_HEADER_SPAN, HeaderSpan, RequestSpans, parse_request};
use registry_names::{Method, Refusal};

/// What a head says.
#[derive(Clone, Copy)]
pub struct HeadParts<'a> {
    pub method: Method,
    pub target: &'a [u8],
    pub authorization: Values<'a>,
    pub if_none_match: Values<'a>,
    pub accept: Values<'a>,
    /// The length of the body, or why the request is refused.
    pub body: Result<usize, Refusal>,
    pub closes: bool,
    /// How many bytes the head has.
    pub len: usize,
}

/// What bytes say of the head that they begin with.
#[derive(Clone, Copy)]
pub enum HeadFound<'a> {
    Whole(HeadParts<'a>),
    Unfinished,
    /// There is no head, whatever follows.
    Never,
}

/// The head that all these bytes begin with. More than 64 fields are refused as the line of the
/// 65th ends.
pub fn head_in(bytes: &[u8]) -> HeadFound<'_>
    requires { length bytes.now ≤ head_limit }
    ensures { SaysHead bytes.now result }
{
    let mut headers = [EMPTY_HEADER_SPAN; FIELD_LIMIT];
    match parse_request(bytes, &mut headers) {
        Ok(Status::Complete(spans)) => HeadFound::Whole(parts(bytes, &headers, spans)),
        Ok(Status::Partial) => {
            if bytes.len() < HEAD_LIMIT {
                HeadFound::Unfinished
            } else {
                HeadFound::Never
            }
        }
        Err(_) => HeadFound::Never,
    }
}

fn parts<'a>(bytes: &'a [u8], headers: &[HeaderSpan], spans: RequestSpans) -> HeadParts<'a>
    requires { IsRequestWithin bytes.now headers.now spans }
    ensures parts { (h : RequestHead) → IsRequestAt bytes.entry.now headers.now spans h
        → ArePartsOf h result }
    ensures len { result.len ≡ spans.len }
    ensures bound { IfOk result.body (λ n. n ≤ body_limit) }
{
    let (fields, _) = headers.split_at(spans.headers);
    let method = method_of(spans.method.of(bytes));
    HeadParts {
        method,
        target: spans.path.of(bytes),
        authorization: said(bytes, fields, b"authorization"),
        if_none_match: said(bytes, fields, b"if-none-match"),
        accept: said(bytes, fields, b"accept"),
        body: body_len(bytes, fields),
        closes: spans.version == 0 || is_last(bytes, fields) || is_other(method),
        len: spans.len,
    }
}

fn is_other(method: Method) -> bool
    ensures { result ≡ is_other method }
{
    matches!(method, Method::Other)
}

/// The first bytes, as many as a head may have.
pub fn prefix_of(bytes: &[u8]) -> &[u8]
    ensures value { result.now ≡ take head_limit bytes.now }
    ensures few { length result.now ≤ head_limit }
{
    if bytes.len() > HEAD_LIMIT {
        let (prefix, _) = bytes.split_at(HEAD_LIMIT);
        return prefix;
    }
    bytes
}
