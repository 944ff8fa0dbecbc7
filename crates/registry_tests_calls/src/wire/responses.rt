//! The bytes of responses: of those that no story shows, of those that say something to those who keep
//! documents, of bodies in two pieces, and of a response that is cut.

use super::reader::Narrow;
use crate::outcome::same;
use crate::parts::{as_text, concat, field, repeated};
use http::StatusCode;
use registry_names::{ToWrite, WriteFailed};
use registry_wire::{
    Caching, ContentKind, DocumentForm, EntityTag, Labels, Response, ShortText, write_response,
};
use std::alloc::Global;
use std::process::Abort;

// A status, a tag or `-`, how long the document may be kept, its form, whether the connection ends or
// stays, and both pieces of the body; ` => ` and the response, with `|` at the end of each line. Nothing
// is sent behind the head of a 304.
const RESPONSES: &str =
    r#"200 xyzzy Checked Only stays {"ok" :true} => HTTP/1.1 200 OK|content-type: application/json|content-length: 11|etag: "xyzzy"|cache-control: no-cache||{"ok":true}
200 !~ Kept Only closes  {} => HTTP/1.1 200 OK|content-type: application/json|content-length: 2|etag: "!~"|cache-control: private, max-age=31536000, immutable|connection: close||{}
200 - Shared Only stays {}  => HTTP/1.1 200 OK|content-type: application/json|content-length: 2|cache-control: public, max-age=31536000, immutable||{}
200 - Unsaid Only stays { } => HTTP/1.1 200 OK|content-type: application/json|content-length: 2||{}
304 xyzzy Checked Only stays   => HTTP/1.1 304 Not Modified|etag: "xyzzy"|cache-control: no-cache||
304 xyzzy Unsaid Only closes   => HTTP/1.1 304 Not Modified|etag: "xyzzy"|connection: close||
200 xyzzy Checked Full stays { } => HTTP/1.1 200 OK|content-type: application/json|content-length: 2|etag: "xyzzy"|cache-control: no-cache|vary: accept||{}
200 xyzzy Checked Abbreviated closes {}  => HTTP/1.1 200 OK|content-type: application/vnd.npm.install-v1+json|content-length: 2|etag: "xyzzy"|cache-control: no-cache|vary: accept|connection: close||{}
304 xyzzy Checked Full stays   => HTTP/1.1 304 Not Modified|etag: "xyzzy"|cache-control: no-cache|vary: accept||
304 xyzzy Unsaid Abbreviated stays   => HTTP/1.1 304 Not Modified|etag: "xyzzy"|vary: accept||
304 xyzzy Unsaid Only stays { } => HTTP/1.1 304 Not Modified|etag: "xyzzy"||
400 - Unsaid Only closes {"error":"BadBody"}  => HTTP/1.1 400 Bad Request|content-type: application/json|content-length: 19|connection: close||{"error":"BadBody"}
413 - Unsaid Only stays   => HTTP/1.1 413 Payload Too Large|content-type: application/json|content-length: 0||
431 - Unsaid Only stays 0  => HTTP/1.1 431 Request Header Fields Too Large|content-type: application/json|content-length: 1||0
503 - Unsaid Only closes {"error":"Memory"}  => HTTP/1.1 503 Service Unavailable|content-type: application/json|content-length: 18|connection: close||{"error":"Memory"}"#;

fn labels(rt: &impl Abort, tag: &str, caching: &str, form: &str) -> Labels {
    let tag = if tag == "-" {
        None
    } else {
        Some(EntityTag::of(tag.as_bytes()).expect(rt, "a tag"))
    };
    let caching = match caching {
        "Checked" => Caching::Checked,
        "Kept" => Caching::Kept,
        "Shared" => Caching::Shared,
        _ => Caching::Unsaid,
    };
    let form = match form {
        "Full" => DocumentForm::Full,
        "Abbreviated" => DocumentForm::Abbreviated,
        _ => DocumentForm::Only,
    };
    Labels { tag, caching, form }
}

// Checks what is written of a line's response where this many bytes are taken, one a call.
fn is_written(rt: &impl Abort, alloc: Global, line: &str, limit: usize) {
    let (told, wanted) = line.split_once(" => ").expect(rt, line);
    let tag = field(told, ' ', 1);
    let labels = labels(rt, tag, field(told, ' ', 2), field(told, ' ', 3));
    let status = field(told, ' ', 0).parse::<u16>().expect(rt, line);
    let status = StatusCode::from_u16(status).expect(rt, line);
    let closes = field(told, ' ', 4) == "closes";
    let body = field(told, ' ', 5).as_bytes();
    let rest = field(told, ' ', 6).as_bytes();
    let (outcome, taken) = written(alloc, status, &labels, body, rest, closes, limit);
    let whole = wanted.replace(alloc, "|", "\r\n").expect(rt, "memory");
    let front = whole.as_str().get(..limit).unwrap_or(whole.as_str());
    same(rt, (line, limit), outcome.is_err(), limit < whole.len());
    same(rt, (line, limit), as_text(&taken), front);
}

// What is written of a response where this many bytes are taken, one a call, and how that ends.
fn written<'a>(
    alloc: Global,
    status: StatusCode,
    labels: &'a Labels,
    body: &'a [u8],
    rest: &'a [u8],
    closes: bool,
    limit: usize,
) -> (Result<(), WriteFailed>, Vec<u8>) {
    let response = Response {
        status,
        kind: ContentKind::Json,
        labels,
        body,
        rest,
        closes,
    };
    let mut narrow = Narrow {
        taken: Vec::new(alloc),
        limit,
    };
    let outcome = write_response(&response, &mut ToWrite::new(&mut narrow));
    (outcome, narrow.taken)
}

#[test]
fn labels_are_written(rt: HostRuntime) {
    for line in RESPONSES.lines() {
        is_written(&rt, rt.alloc(), line, usize::MAX);
    }
}

#[test]
fn a_failed_write_leaves_a_prefix_of_a_response(rt: HostRuntime) {
    let first = RESPONSES.lines().next().expect(&rt, "a first line");
    let last = RESPONSES.lines().last().expect(&rt, "a last line");
    for limit in 0..150 {
        is_written(&rt, rt.alloc(), first, limit);
        is_written(&rt, rt.alloc(), last, limit);
    }
}

// A body whose first piece is longer than what is gathered with the head.
#[test]
fn long_pieces_are_written_whole(rt: HostRuntime) {
    let alloc = rt.alloc();
    let body = repeated(&rt, alloc, "a", 5_000);
    let rest = repeated(&rt, alloc, "b", 3_000);
    let labels = Labels::none();
    let response = Response {
        status: StatusCode::OK,
        kind: ContentKind::Bytes,
        labels: &labels,
        body: body.as_bytes(),
        rest: rest.as_bytes(),
        closes: false,
    };
    let mut taken = Vec::new(alloc);
    let outcome = write_response(&response, &mut ToWrite::new(&mut taken));
    same(&rt, "both", outcome, Ok(()));
    let front =
        "HTTP/1.1 200 OK\r\ncontent-type: application/octet-stream\r\ncontent-length: 8000\r\n\r\n";
    let wanted = concat(&rt, alloc, &[front, body.as_str(), rest.as_str()]);
    same(&rt, "all", as_text(&taken) == wanted.as_str(), true);
}

#[test]
fn short_texts_take_no_memory(rt: HostRuntime) {
    let mut text = ShortText::new();
    text.push(b"{\"count\":");
    text.push_number(2);
    text.push(b",\"ok\":true}");
    let wanted = "{\"count\":2,\"ok\":true}";
    same(&rt, "a count", as_text(text.as_slice()), wanted);
}
