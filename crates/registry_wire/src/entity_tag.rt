//! Entity tags, and the tags that a request names.

ghost use Rattle.std.specs.Prelude.{◌≡◌, ◌↔◌, ◌≤◌, ◌<◌, ◌||◌, bytes_eq, None, IsTrue, IfSome, length, option_map, true, false};
ghost use Rattle.std.specs.List.{take_while};
ghost use Rattle.registry_wire.specs.EntityTags as spec;
ghost use Rattle.registry_wire.specs.EntityTags.{NamesTag, is_etagc};
ghost use Rattle.registry_wire.specs.TagReading as reading;

use crate::field::{is_blank, skip_front};
use crate::wanted::FieldValue;
use arrayvec::ArrayVec;
use std::marker::Model;

/// The most bytes of a tag.
pub const TAG_LIMIT: usize = 64;

/// An entity tag (RFC 9110, 8.8.3) that isn't weak: 1 to `TAG_LIMIT` bytes, which stand between
/// quotes in a field. Contracts see them.
#[derive(Drop)]
pub struct EntityTag {
    bytes: ArrayVec<u8, TAG_LIMIT>,
}

impl Model for EntityTag {
    ghost use Rattle.std.specs.Prelude.{◌≡◌, List, ℕ, true};
    ghost use Rattle.registry_wire.specs.EntityTags.{is_tag};

    ghost Value = { List ℕ };

    ghost view = { λ t. t.bytes.items };

    ghost invariant = { λ t. is_tag t.bytes.items ≡ true };
}

impl EntityTag {
    /// The tag of this text. `None` is returned exactly where it is empty, has more than `TAG_LIMIT`
    /// bytes, or has a byte that may not stand in a tag: a control byte, a space, or a quote.
    pub fn of(text: &[u8]) -> Option<EntityTag>
        ensures { result ≡ spec.tag_of text.now }
    {
        if !is_tag(text) {
            return None;
        }
        let mut bytes = ArrayVec::new();
        let _fits = bytes.try_extend_from_slice(text);
        Some(EntityTag { bytes })
    }

    /// Its bytes.
    pub fn as_slice(&self) -> &[u8]
        ensures bytes { result.now ≡ self.now }
        ensures form { spec.is_tag self.now ≡ true }
        ensures few { length result.now ≤ 64 }
    {
        self.bytes.as_slice()
    }
}

fn is_tag(text: &[u8]) -> bool
    ensures { result ≡ spec.is_tag text.now }
{
    !text.is_empty() && text.len() <= TAG_LIMIT && is_opaque(text)
}

fn is_opaque(text: &[u8]) -> bool
    ensures { result ≡ spec.is_opaque text.now }
{
    text.iter().all(|byte| is_etagc(*byte))
}

fn is_etagc(byte: u8) -> bool
    ensures { result ≡ is_etagc byte }
{
    byte == b'!' || (byte >= b'#' && byte <= b'~') || byte >= 0x80
}

/// Whether the fields `if-none-match` of a request name this tag (RFC 9110, 13.1.2): by `*`, or in a
/// list of tags, where it may be weak. A value that is neither names nothing. Neither do several
/// fields of this name: a recipient may take them as one list (5.3), and doesn't have to.
pub fn names_tag(field: &FieldValue, tag: &EntityTag) -> bool
    ensures read { result ≡ reading.names_tag field.now tag.now }
    ensures named { IsTrue result ↔ NamesTag field.now tag.now }
{
    match field {
        FieldValue::Absent => false,
        FieldValue::Once(value) => names(value.as_slice(), tag.as_slice()),
        FieldValue::Repeated => false,
    }
}

#[tactic(auto, unfolding(crate::specs::TagReading::names))]
fn names(value: &[u8], tag: &[u8]) -> bool
    ensures { result ≡ reading.names value.now tag.now }
{
    value == b"*".as_slice() || lists(value, tag)
}

// Whether the value is a list of tags, and this one is in it.
fn lists(mut text: &[u8], tag: &[u8]) -> bool
    ensures { result ≡ reading.reads tag.now false reading.before text.now }
{
    let mut found = false;
    'tags: loop {
        let first = skip_empty(text);
        if first.is_empty() {
            return found;
        }
        let Some((opaque, rest)) = tag_at(first) else {
            return false;
        };
        found = is_found(found, opaque, tag);
        let rest = skip_front(rest);
        if rest.is_empty() {
            return found;
        }
        let Some(later) = after_byte(rest, b',') else {
            return false;
        };
        text = later;
    }
}

fn is_found(found: bool, opaque: &[u8], tag: &[u8]) -> bool
    ensures { result ≡ (found || bytes_eq opaque.now tag.now) }
{
    found || opaque == tag
}

// What is left without the empty elements before it.
fn skip_empty(mut text: &[u8]) -> &[u8]
    ensures same { reading.ReadAlike reading.before text.now result.now }
    ensures first { reading.begins_solid result.now ≡ true }
    ensures len { length result.now ≤ length text.now }
{
    while let [first, rest @ ..] = text
        && is_empty(*first)
    {
        text = rest;
    }
    text
}

fn is_empty(byte: u8) -> bool
    ensures { result ≡ reading.is_empty byte }
{
    is_blank(byte) || byte == b','
}

// The opaque text of the tag that this begins with, and what follows it.
#[tactic(auto, using(crate::proofs::TagFacts::tag_parts))]
fn tag_at(text: &[u8]) -> Option<(&[u8], &[u8])>
    requires some { 0 < length text.now }
    requires first { reading.begins_solid text.now ≡ true }
    ensures some { IfSome result (λ r. reading.BeginsWithTag text.now r.0.now r.1.now) }
    ensures none { result ≡ None → reading.IsNoList reading.before text.now }
{
    match after_byte(text, b'W') {
        Some(rest) => opaque_at(after_byte(rest, b'/')?),
        None => opaque_at(text),
    }
}

#[tactic(auto, using(crate::proofs::TagFacts::opaque_parts))]
fn opaque_at(text: &[u8]) -> Option<(&[u8], &[u8])>
    ensures some { IfSome result (λ r. reading.BeginsWithOpaque text.now r.0.now r.1.now) }
    ensures none { result ≡ None → reading.IsNoList reading.slashed text.now }
{
    let rest = after_byte(text, b'"')?;
    let (opaque, rest) = rest.split_at(opaque_len(rest));
    let rest = after_byte(rest, b'"')?;
    Some((opaque, rest))
}

// What follows this byte, where it is the first.
fn after_byte(text: &[u8], byte: u8) -> Option<&[u8]>
    ensures { option_map (λ r. r.now) result ≡ reading.after_byte byte text.now }
{
    let [first, rest @ ..] = text else {
        return None;
    };
    if *first == byte { Some(rest) } else { None }
}

fn opaque_len(text: &[u8]) -> usize
    ensures { result ≡ length (take_while is_etagc text.now) }
{
    text.iter().take_while(|byte| is_etagc(**byte)).count()
}
