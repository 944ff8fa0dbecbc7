//! Turns whose responses say something to those who keep documents.

use crate::outcome::same;
use crate::parts::{as_text, blob, concat, method_of, shared, text};
use crate::talk::connections::bytes;
use http::StatusCode;
use registry_names::{Fault, Method, Refusal, ToWrite};
use registry_rules::Reply;
use registry_service::{End, Fronted, Told, Turned, turn_told};
use registry_wire::{Caching, DocumentForm, EntityTag, FieldValue, Labels, Wanted, write_response};
use std::alloc::Global;
use std::process::Abort;

// A request whose field `if-none-match` has this value, or is absent or repeated.
fn asks(rt: &impl Abort, alloc: Global, method: Method, value: &str) -> Wanted {
    let if_none_match = match value {
        "absent" => FieldValue::Absent,
        "repeated" => FieldValue::Repeated,
        _ => FieldValue::Once(blob(rt, alloc, value.as_bytes())),
    };
    Wanted {
        method,
        target: blob(rt, alloc, b"/kit"),
        authorization: FieldValue::Absent,
        if_none_match,
        accept: FieldValue::Absent,
        body: blob(rt, alloc, b""),
        closes: false,
    }
}

// A document of the tag `r1`.
fn labels(rt: &impl Abort, form: DocumentForm) -> Labels {
    Labels {
        tag: Some(EntityTag::of(b"r1").expect(rt, "a tag")),
        caching: Caching::Checked,
        form,
    }
}

fn document(rt: &impl Abort, alloc: Global) -> Told {
    Told::of(Ok(Reply::Doc(shared(rt, alloc, "{}"))))
}

// Checks what is sent, where `^` stands for the end of a line.
fn is_sent(rt: &impl Abort, alloc: Global, turned: &Turned, wanted: &str) {
    let mut taken = Vec::new(alloc);
    let response = turned.answer.response(turned.end.is_some());
    let outcome = write_response(&response, &mut ToWrite::new(&mut taken));
    same(rt, wanted, outcome, Ok(()));
    let sent = bytes(rt, alloc, wanted);
    same(rt, wanted, as_text(&taken), sent.as_str());
}

// A method, the form of the document, whether the connection stays or this is the last request, and the
// value of `if-none-match`; ` => ` and what is sent. A GET alone is told that it has the document.
const ASKED: &str =
    r#"GET Only stays "r1" => HTTP/1.1 304 Not Modified^etag: "r1"^cache-control: no-cache^^
GET Only stays W/"r1" => HTTP/1.1 304 Not Modified^etag: "r1"^cache-control: no-cache^^
GET Only stays "r0", "r1" => HTTP/1.1 304 Not Modified^etag: "r1"^cache-control: no-cache^^
GET Only stays * => HTTP/1.1 304 Not Modified^etag: "r1"^cache-control: no-cache^^
GET Only stays "r0" => HTTP/1.1 200 OK^content-type: application/json^content-length: 2^etag: "r1"^cache-control: no-cache^^{}
GET Only stays r1 => HTTP/1.1 200 OK^content-type: application/json^content-length: 2^etag: "r1"^cache-control: no-cache^^{}
PUT Only stays "r1" => HTTP/1.1 200 OK^content-type: application/json^content-length: 2^etag: "r1"^cache-control: no-cache^^{}
POST Only stays "r1" => HTTP/1.1 200 OK^content-type: application/json^content-length: 2^etag: "r1"^cache-control: no-cache^^{}
DELETE Only stays "r1" => HTTP/1.1 200 OK^content-type: application/json^content-length: 2^etag: "r1"^cache-control: no-cache^^{}
HEAD Only stays "r1" => HTTP/1.1 200 OK^content-type: application/json^content-length: 2^etag: "r1"^cache-control: no-cache^^{}
GET Full stays "r1" => HTTP/1.1 304 Not Modified^etag: "r1"^cache-control: no-cache^vary: accept^^
GET Abbreviated stays "r1" => HTTP/1.1 304 Not Modified^etag: "r1"^cache-control: no-cache^vary: accept^^
GET Only stays absent => HTTP/1.1 200 OK^content-type: application/json^content-length: 2^etag: "r1"^cache-control: no-cache^^{}
GET Only stays repeated => HTTP/1.1 200 OK^content-type: application/json^content-length: 2^etag: "r1"^cache-control: no-cache^^{}
GET Only last "r1" => HTTP/1.1 304 Not Modified^etag: "r1"^cache-control: no-cache^connection: close^^"#;

fn is_told(rt: &impl Abort, alloc: Global, line: &str) {
    let (asked, wanted) = line.split_once(" => ").expect(rt, line);
    let (method, rest) = asked.split_once(' ').expect(rt, line);
    let (form, rest) = rest.split_once(' ').expect(rt, line);
    let (end, value) = rest.split_once(' ').expect(rt, line);
    let form = match form {
        "Full" => DocumentForm::Full,
        "Abbreviated" => DocumentForm::Abbreviated,
        _ => DocumentForm::Only,
    };
    let (is_last, is_known) = (end == "last", wanted.ends_with("^^"));
    let request = asks(rt, alloc, method_of(method), value);
    let turned = turn_told(document(rt, alloc), labels(rt, form), &request, is_last);
    same(rt, line, turned.is_request, true);
    same(rt, line, turned.end == Some(End::Limit), is_last);
    same(rt, line, turned.answer.body.len() == 0, is_known);
    is_sent(rt, alloc, &turned, wanted);
}

#[test]
fn a_known_document_is_not_sent(rt: HostRuntime) {
    for line in ASKED.lines() {
        is_told(&rt, rt.alloc(), line);
    }
}

// What an answer with the status 304 holds isn't sent.
#[test]
fn a_304_sends_nothing_of_its_body(rt: HostRuntime) {
    let alloc = rt.alloc();
    let wanted = asks(&rt, alloc, Method::Get, "absent");
    let says = labels(&rt, DocumentForm::Only);
    let mut turned = turn_told(document(&rt, alloc), says, &wanted, false);
    turned.answer.status = StatusCode::NOT_MODIFIED;
    let known = "HTTP/1.1 304 Not Modified^etag: \"r1\"^cache-control: no-cache^^";
    is_sent(&rt, alloc, &turned, known);
    let (front, rest) = turned.answer.pieces();
    same(&rt, "304", (front.len(), rest.len()), (0, 0));
}

// Only what has the status 200 has labels, or is known, and only what has a tag.
#[test]
fn other_outcomes_have_no_labels(rt: HostRuntime) {
    let alloc = rt.alloc();
    let wanted = asks(&rt, alloc, Method::Get, "*");
    let turned = turn_told(document(&rt, alloc), Labels::none(), &wanted, false);
    let text = "HTTP/1.1 200 OK^content-type: application/json^content-length: 2^^{}";
    is_sent(&rt, alloc, &turned, text);
    let says = labels(&rt, DocumentForm::Only);
    let refused = Told::of(Ok(Reply::Refused(Refusal::NotFound)));
    let turned = turn_told(refused, says, &wanted, false);
    let text =
        "HTTP/1.1 404 Not Found^content-type: application/json^content-length: 20^^{\"error\":\"NotFound\"}";
    is_sent(&rt, alloc, &turned, text);
    let says = labels(&rt, DocumentForm::Only);
    let turned = turn_told(Told::of(Ok(Reply::Created)), says, &wanted, false);
    let text =
        "HTTP/1.1 201 Created^content-type: application/json^content-length: 11^^{\"ok\":true}";
    is_sent(&rt, alloc, &turned, text);
    let says = labels(&rt, DocumentForm::Only);
    let turned = turn_told(Told::of(Err(Fault::Memory)), says, &wanted, false);
    let end = Some(End::Faulted(Fault::Memory));
    same(&rt, "a fault", turned.end, end);
    let text =
        "HTTP/1.1 503 Service Unavailable^content-type: application/json^content-length: 18^connection: close^^{\"error\":\"Memory\"}";
    is_sent(&rt, alloc, &turned, text);
}

// How many bytes of the shared text are skipped, and what follows the front.
const FRONTS: [(usize, &str); 4] = [
    (0, "{\"name\":\"kit\"}"),
    (1, "\"name\":\"kit\"}"),
    (14, ""),
    (15, ""),
];

#[test]
fn a_front_stands_before_a_shared_text(rt: HostRuntime) {
    let alloc = rt.alloc();
    for (skipped, rest) in FRONTS {
        let fronted = Fronted {
            front: text(&rt, alloc, "{\"_rev\":\"r1\","),
            text: shared(&rt, alloc, "{\"name\":\"kit\"}"),
            skipped,
        };
        let wanted = asks(&rt, alloc, Method::Get, "absent");
        let turned = turn_told(Told::fronted(fronted), Labels::none(), &wanted, false);
        let all = concat(&rt, alloc, &["{\"_rev\":\"r1\",", rest]);
        same(&rt, skipped, turned.answer.body.len(), all.len());
        let (front, back) = turned.answer.body.as_slices();
        let both = concat(&rt, alloc, &[as_text(front), as_text(back)]);
        same(&rt, rest, both.as_str(), all.as_str());
    }
}
