//! Packuments that are answered as one text. A text that isn't kept is made in one walk over the
//! versions where it is short. Where it is long, that walk only counts its bytes, and a second one
//! writes them, once, into room for exactly these. No list of versions is held.

ghost use Rattle.std.specs.Prelude.{◌≡◌, [], IfOk, OnOk, Some, vec_capacity};
ghost use Rattle.sqlite.specs.Held.{state};
ghost use Rattle.sqlite.specs.State.{HasCleanDisk};
ghost use Rattle.registry_packument.specs.Packuments.{pack_len, pack_text};
ghost use Rattle.registry_packument.specs.declared.opener.Sent.TheVariants.{Whole};
ghost use Rattle.registry_tables.specs.Effects.{registry_in};
ghost use Rattle.registry_desk.specs.Caches.{IsCached, KeepsOutcome};
ghost use Rattle.registry_desk.specs.Sending.{AnswersOne, IsMadeOf, RestsOpen, WalksOver, front_names, versions_in};
ghost use Rattle.registry_desk.specs.Views.{asks_packument, text_behind};

use crate::cache::{Caches, keep_reply};
use crate::sending::{Front, Origin, origin_of, send_again, stored_within};
use crate::view::View;
use registry_cache::SharedText;
use registry_documents::shown;
use registry_names::{ByteOut, Fault, Name, Text, WriteFailed};
use registry_packument::{Opener, PackHead, PackumentWithin, Sent};
use registry_rules::{Reply, Request};
use sqlite::{Alter, Connection};
use std::alloc::{AllocError, Global};

/// A packument of no more bytes is made in one walk over its versions, into a text that grows:
/// there a second walk would cost more than the room that such a text takes beyond its bytes. Of a
/// longer one no more bytes than these are gathered before they are only counted.
const ONE_WALK: u64 = 2 << 20;

// ---- bytes

// Nothing stands before a packument that is answered as a text.
#[derive(Drop)]
struct Bare;

impl Opener for Bare {
    ghost opens = { λ _ _. [] };

    fn opening(&self, alloc: Global, _len: u64) -> Result<Text, Fault> {
        Ok(Text::from(String::new(alloc)))
    }
}

// A text that is written into room which was taken before. A write fails where no memory is left.
#[derive(Drop)]
struct TextRoom {
    bytes: Vec<u8>,
    failures: u64,
}

impl ByteOut for TextRoom {
    ghost bytes = { λ room. Some room.bytes.items };

    ghost failures = { λ room. room.failures };

    fn write(&mut self, text: &[u8]) -> Result<usize, WriteFailed> {
        if self.failures == u64::MAX {
            return Err(WriteFailed);
        }
        match self.bytes.extend_from_slice(text) {
            Ok(()) => Ok(text.len()),
            Err(_) => {
                self.failures += 1;
                Err(WriteFailed)
            }
        }
    }
}

// Room for this many bytes, and no more.
fn room_for(alloc: Global, len: u64) -> Result<Vec<u8>, AllocError>
    ensures empty { IfOk result (λ room. room.items ≡ []) }
    ensures exact { IfOk result (λ room. vec_capacity room ≡ len) }
{
    Vec::with_capacity(alloc, len as usize)
}

// The text that was sent into these bytes.
fn text_sent(sent: Sent, bytes: Vec<u8>) -> Result<Text, Fault>
    ensures whole { OnOk result (sent ≡ Whole) }
    ensures text { IfOk result (λ text. text ≡ bytes.items) }
{
    match sent {
        Sent::Whole => match String::from_utf8(bytes) {
            Ok(string) => Ok(Text::from(string)),
            Err(_) => Err(Fault::Database),
        },
        Sent::Broken { fault, .. } => Err(fault),
        Sent::WriteFault | Sent::Refused(_) => Err(Fault::Memory),
    }
}

// ---- the text

// Writes the packument with this head, which was counted to have this many bytes, into room for
// exactly these.
fn written_text<S: Alter>(
    alloc: Global,
    conn: &mut Connection<S>,
    name: &Name,
    head: &PackHead,
    len: u64,
    room: Vec<u8>,
) -> Result<Text, Fault>
    requires rests { RestsOpen (state S.Store conn.old) }
    requires counted { HasCleanDisk (state S.Store conn.old) → pack_len head.now
        (versions_in (registry_in (state S.Store conn.old)) name.now) ≡ Some len }
    requires empty { room.items ≡ [] }
    requires exact { vec_capacity room ≡ len }
    ensures walks { WalksOver (state S.Store conn.old) (state S.Store conn.new) (OnOk result) }
    ensures text { HasCleanDisk (state S.Store conn.new) → IfOk result (λ text.
        pack_text head.now (versions_in (registry_in (state S.Store conn.old)) name.now)
        ≡ Some text) }
{
    let mut room = TextRoom {
        bytes: room,
        failures: 0,
    };
    let sent = send_again(alloc, conn, name, head, len, &mut room, &Bare);
    text_sent(sent, room.bytes)
}

// A copy of the text in room for exactly its bytes: a text that grew has room for up to twice as
// many, and what is cached is to take no more memory than it counts for.
fn exact(alloc: Global, text: Text) -> Result<Text, Fault>
    ensures { IfOk result (λ copy. copy ≡ text) }
{
    Ok(Text::from_str(alloc, text.as_str())?)
}

// The text of the packument with this head: in one walk, or in two where it is long.
fn made_text<S: Alter>(
    alloc: Global,
    conn: &mut Connection<S>,
    name: &Name,
    head: &PackHead,
) -> Result<Text, Fault>
    requires rests { RestsOpen (state S.Store conn.old) }
    ensures walks { WalksOver (state S.Store conn.old) (state S.Store conn.new) (OnOk result) }
    ensures text { HasCleanDisk (state S.Store conn.new) → IfOk result (λ text.
        pack_text head.now (versions_in (registry_in (state S.Store conn.old)) name.now)
        ≡ Some text) }
{
    let within = stored_within(alloc, conn, name, head, ONE_WALK)?;
    match within {
        PackumentWithin::Text(text) => exact(alloc, text),
        PackumentWithin::Longer(len) => {
            let room = room_for(alloc, len)?;
            written_text(alloc, conn, name, head, len, room)
        }
    }
}

// The packument with this text and this in front.
fn fronted(alloc: Global, text: Text, front: &Front) -> Result<Text, Fault>
    ensures { IfOk result (λ shown. shown ≡ text_behind (front_names front.now) text) }
{
    match front {
        Front::Plain => Ok(text),
        Front::Revised(names) => Ok(Text::from(shown(alloc, text.as_str(), names)?)),
    }
}

// The reply that is this text, which others may share, and which keeps its digest if it is to.
fn shared(text: Text, keeps_digest: bool) -> Result<Reply, Fault>
    ensures { IfOk result (λ given. given ≡ Reply.Doc text) }
{
    let text = SharedText::from_text(text)?;
    if keeps_digest {
        Ok(Reply::Doc(text.with_digest()))
    } else {
        Ok(Reply::Doc(text))
    }
}

// ---- the reply

// The reply to a query that comes to this.
fn reply_of<S: Alter>(
    alloc: Global,
    conn: &mut Connection<S>,
    name: &Name,
    origin: Origin,
    keeps_digest: bool,
) -> Result<Reply, Fault>
    requires rests { RestsOpen (state S.Store conn.old) }
    ensures walks { WalksOver (state S.Store conn.old) (state S.Store conn.new) (OnOk result) }
    ensures made { HasCleanDisk (state S.Store conn.new) → IfOk result (λ given.
        IsMadeOf given origin (registry_in (state S.Store conn.old)) name.now) }
{
    match origin {
        Origin::Refused(refusal) => Ok(Reply::Refused(refusal)),
        Origin::Kept(text) => Ok(Reply::Doc(text)),
        Origin::Stored(head, front) => {
            let text = made_text(alloc, conn, name, &head)?;
            shared(fronted(alloc, text, &front)?, keeps_digest)
        }
    }
}

/// Answers a query for the packument of the package in this view, and keeps its text as the latest
/// asked.
pub(crate) fn queried<S: Alter>(
    alloc: Global,
    conn: &mut Connection<S>,
    caches: &mut Caches,
    view: View,
    request: &Request,
    name: &Name,
) -> Result<Reply, Fault>
    requires cached { IsCached (state S.Store conn.old) caches.old }
    requires asks { request.now.what ≡ asks_packument view name.now }
    ensures cached { IsCached (state S.Store conn.new) caches.new }
    ensures answers { AnswersOne (state S.Store conn.old) (state S.Store conn.new)
        request.now result }
    ensures kept { KeepsOutcome request.now.what caches.old caches.new result }
{
    let keeps_digest = caches.keeps_digest(view);
    let origin = origin_of(alloc, conn, caches.texts(view), view, request, name)?;
    let reply = reply_of(alloc, conn, name, origin, keeps_digest)?;
    keep_reply(alloc, caches, &request.what, &reply);
    Ok(reply)
}
