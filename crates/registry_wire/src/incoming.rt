//! The bytes that came on a connection and aren't used yet.

ghost use Rattle.std.specs.Prelude.{◌≡◌, ◌≤◌, ◌<◌, ◌==◌, ◌++◌, ℕ, List, [], length, drop, if◌then◌else◌, is_ok, Ok, IfOk, IfErr};
ghost use Rattle.registry_names.specs.declared.stop.Fault.TheVariants.{Memory};
ghost use Rattle.registry_wire.specs.Knowledge.{IsKnown};
ghost use Rattle.registry_wire.specs.Spelling.{Says, request_limit};
ghost use Rattle.registry_wire.specs.declared.first.First.TheVariants.{Unfinished};

use crate::first::{First, HEAD_LIMIT, looked_at};
use crate::known::{Known, is_unfinished, looked_on};
use registry_names::{BODY_LIMIT, Fault};
use std::alloc::{AllocError, Global};
use std::marker::Model;

/// A buffer of more bytes is given back once no more than these are held in it.
const KEPT_LIMIT: usize = 16_384;

/// The least memory that is taken where some is.
const LEAST_ROOM: usize = 16_384;

/// Memory for any request, and for one read of 16,384 bytes.
const WHOLE_ROOM: usize = HEAD_LIMIT + BODY_LIMIT + 16_384;

/// The bytes that came on a connection and aren't used yet. However few come at once, a head among
/// them is parsed at most twice before its body, and once more when that is whole: in between each
/// byte of the head is looked at once, and none of the body.
#[derive(Drop)]
pub struct Incoming {
    bytes: Vec<u8>,
    known: Known,
}

impl Model for Incoming {
    ghost Value = { List ℕ };

    ghost view = { λ i. i.bytes.items };

    ghost invariant = { λ i. IsKnown i.bytes.items i.known };
}

impl Incoming {
    /// No bytes. It takes no memory.
    pub fn new(alloc: Global) -> Incoming
        ensures { result ≡ [] }
    {
        Incoming {
            bytes: Vec::new(alloc),
            known: Known::Nothing,
        }
    }

    /// Whether there are no bytes.
    pub fn is_empty(&self) -> bool
        ensures { result ≡ (length self.now == 0) }
    {
        self.bytes.is_empty()
    }

    /// The bytes, in the order in which they came.
    pub fn as_slice(&self) -> &[u8]
        ensures { result.now ≡ self.now }
    {
        self.bytes.as_slice()
    }

    /// These bytes came. After an error none of them is held.
    pub fn came(&mut self, bytes: &[u8]) -> Result<(), AllocError>
        ensures { self.new ≡ (if is_ok result then self.old ++ bytes.now else self.old) }
    {
        make_room(&mut self.bytes, bytes.len());
        self.bytes.extend_from_slice(bytes)?;
        Ok(())
    }

    /// What the bytes say of the first request, as [`first_in`](crate::first_in) says it. They
    /// stay.
    pub fn first(&mut self, alloc: Global) -> Result<First, Fault>
        ensures says { IfOk result (Says self.old) }
        ensures fault { IfErr result (λ fault. fault ≡ Memory) }
        ensures short { result ≡ Ok Unfinished → length self.old < request_limit }
        ensures stays { self.new ≡ self.old }
    {
        self.known = looked_on(self.known, &self.bytes);
        if is_unfinished(self.known, &self.bytes) {
            return Ok(First::Unfinished);
        }
        let (first, known) = looked_at(alloc, &self.bytes)?;
        self.known = known;
        Ok(first)
    }

    /// Drops this many of the first bytes: they have been used.
    pub fn drop_first(&mut self, alloc: Global, used: usize)
        requires { used ≤ length self.old }
        ensures { self.new ≡ drop used self.old }
    {
        self.known = Known::Nothing;
        drop_front(&mut self.bytes, used);
        let is_grown = self.bytes.capacity() > KEPT_LIMIT;
        if is_grown && self.bytes.len() <= KEPT_LIMIT {
            shrink(alloc, &mut self.bytes);
        }
    }
}

// Makes room for so many more bytes, where there is too little and memory is left.
fn make_room(bytes: &mut Vec<u8>, more: usize)
    ensures { bytes.new.items ≡ bytes.old.items }
{
    let count = bytes.len().saturating_add(more);
    if count > bytes.capacity() {
        let _made = bytes.reserve_exact(room_of(count).saturating_sub(bytes.len()));
    }
}

// How much memory so many bytes take as they come: a quarter more than they are, so that few of them
// are moved as more come, and nobody gets memory for a body that they only announce. The quarter is no
// more than a whole request needs.
fn room_of(count: usize) -> usize {
    let more = count.saturating_add(count / 4).min(WHOLE_ROOM);
    LEAST_ROOM.max(count).max(more)
}

// Drops this many of the first bytes. The others move once, where there are any.
fn drop_front(bytes: &mut Vec<u8>, used: usize)
    requires { used ≤ length bytes.old.items }
    ensures { bytes.new.items ≡ drop used bytes.old.items }
{
    let left = bytes.len() - used;
    bytes.copy_within(used.., 0);
    bytes.truncate(left);
}

// Moves bytes to a buffer of their own size, where there is memory for one.
fn shrink(alloc: Global, bytes: &mut Vec<u8>)
    ensures { bytes.new.items ≡ bytes.old.items }
{
    if let Ok(small) = copied(alloc, bytes) {
        *bytes = small;
    }
}

// The same bytes, in no more memory than they need.
fn copied(alloc: Global, bytes: &[u8]) -> Result<Vec<u8>, AllocError>
    ensures { IfOk result (λ small. small.items ≡ bytes.now) }
{
    let mut small = Vec::with_capacity(alloc, bytes.len())?;
    small.extend_from_slice(bytes)?;
    Ok(small)
}
