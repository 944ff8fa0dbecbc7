//! Values in form, from which cases are made.

ghost use Rattle.std.specs.Prelude.{◌≤◌, ◌++◌, length};

use registry_cache::{SharedBlob, SharedText};
use registry_names::Method::{Delete, Get, Other, Post, Put};
use registry_names::{Blob, Ident, Method, Name, Text, Ver};
use std::alloc::Global;
use std::fmt::Debug;
use std::process::Abort;
use std::str;

pub fn text(rt: &impl Abort, alloc: Global, text: &str) -> Text {
    Text::from_str(alloc, text).expect(rt, "memory")
}

pub fn shared(rt: &impl Abort, alloc: Global, text: &str) -> SharedText {
    SharedText::from_str(alloc, text).expect(rt, "memory")
}

pub fn texts(rt: &impl Abort, alloc: Global, words: &[&str]) -> Vec<Text> {
    let mut texts = Vec::new(alloc);
    for word in words {
        texts.push(text(rt, alloc, word)).expect(rt, "memory");
    }
    texts
}

/// The words of a line, with one space between them. There are none in an empty line.
pub fn words(rt: &impl Abort, alloc: Global, line: &str) -> Vec<Text> {
    let mut words = Vec::new(alloc);
    if line.is_empty() {
        return words;
    }
    for word in line.split(' ') {
        words.push(text(rt, alloc, word)).expect(rt, "memory");
    }
    words
}

/// The field at this place of a line, counted from 0, with this between the fields. One that the line
/// lacks is empty.
pub fn field(line: &str, between: char, place: usize) -> &str {
    for (number, text) in line.split(between).enumerate() {
        if number == place {
            return text;
        }
    }
    ""
}

/// Bytes in hexadecimal.
pub fn hex(rt: &impl Abort, alloc: Global, bytes: &[u8]) -> String {
    let mut digits = String::new(alloc);
    for byte in bytes {
        let two = format!(in alloc; "{byte:02x}").expect(rt, "memory");
        digits.push_str(two.as_str()).expect(rt, "memory");
    }
    digits
}

pub fn string(rt: &impl Abort, alloc: Global, text: &str) -> String {
    String::from_str(alloc, text).expect(rt, "memory")
}

/// Texts with nothing between them.
pub fn concat(rt: &impl Abort, alloc: Global, texts: &[&str]) -> String {
    texts.join(alloc, "").expect(rt, "memory")
}

/// Bytes as a text.
pub fn as_text(bytes: &[u8]) -> &str {
    str::from_utf8(bytes).unwrap_or("no UTF-8")
}

/// The first of three pieces that isn't empty, or the last of them.
pub fn first_of<'a>(head: &'a [u8], body: &'a [u8], rest: &'a [u8]) -> &'a [u8]
    ensures { length result.now ≤ length (head.now ++ body.now ++ rest.now) }
{
    if !head.is_empty() {
        head
    } else if !body.is_empty() {
        body
    } else {
        rest
    }
}

/// What `Debug` shows of a value.
pub fn shown<T: Debug>(rt: &impl Abort, alloc: Global, value: &T) -> String {
    format!(in alloc; "{value:?}").expect(rt, "memory")
}

pub fn repeated(rt: &impl Abort, alloc: Global, text: &str, times: usize) -> String {
    text.repeat(alloc, times).expect(rt, "memory")
}

/// A text, another one this many times, and a last one.
pub fn around(
    rt: &impl Abort,
    alloc: Global,
    front: &str,
    part: &str,
    times: usize,
    back: &str,
) -> String {
    let parts = repeated(rt, alloc, part, times);
    concat(rt, alloc, &[front, parts.as_str(), back])
}

pub fn blob(rt: &impl Abort, alloc: Global, bytes: &[u8]) -> Blob {
    Blob::from_slice(alloc, bytes).expect(rt, "memory")
}

pub fn shared_blob(rt: &impl Abort, alloc: Global, bytes: &[u8]) -> SharedBlob {
    SharedBlob::from_slice(alloc, bytes).expect(rt, "memory")
}

pub fn name(rt: &impl Abort, alloc: Global, text: &str) -> Name {
    Name::parse(alloc, text).expect(rt, "a name")
}

pub fn ident(rt: &impl Abort, alloc: Global, text: &str) -> Ident {
    Ident::parse(alloc, text).expect(rt, "the name of a user, an organisation or a team")
}

pub fn version(rt: &impl Abort, alloc: Global, text: &str) -> Ver {
    Ver::parse(alloc, text).expect(rt, "a version")
}

/// The method of this name.
pub fn method_of(name: &str) -> Method {
    match name {
        "GET" => Get,
        "PUT" => Put,
        "POST" => Post,
        "DELETE" => Delete,
        _ => Other,
    }
}
