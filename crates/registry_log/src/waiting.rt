//! Lines that wait to be written.

ghost use Rattle.std.specs.Prelude.{◌≡◌, ◌≤◌, [], length, IfOk};
ghost use Rattle.registry_log.specs.Waitings as spec;
ghost use Rattle.registry_log.specs.Waitings.{adding, losing, queue, settling};

use std::alloc::{AllocError, Global};
use std::marker::Model;

/// The most bytes that may wait.
pub const WAITING_LIMIT: usize = 65_536;

/// Lines that wait to be written, and how many were lost since a line last said how many. The
/// memory for them is reserved once. Contracts see the bytes, and the number.
#[derive(Drop)]
pub struct Waiting {
    bytes: Vec<u8>,
    lost: u64,
}

impl Model for Waiting {
    ghost use Rattle.std.specs.Prelude.{◌≤◌, length};
    ghost use Rattle.std.specs.Vec.{vec_capacity};
    ghost use Rattle.registry_log.specs.Waitings.{Queue, queue, waiting_limit};

    ghost Value = { Queue };

    ghost view = { λ w. queue w.bytes.items w.lost };

    ghost invariant = { λ w. (length w.bytes.items ≤ waiting_limit)
        × (waiting_limit ≤ vec_capacity w.bytes) };
}

impl Waiting {
    /// No lines. An error is returned where no memory is left.
    pub fn new(alloc: Global) -> Result<Waiting, AllocError>
        ensures { IfOk result (λ w. w ≡ queue [] 0) }
    {
        Ok(Waiting {
            bytes: Vec::with_capacity(alloc, WAITING_LIMIT)?,
            lost: 0,
        })
    }

    /// The bytes of the lines.
    pub fn as_slice(&self) -> &[u8]
        ensures { result.now ≡ self.now.bytes }
    {
        self.bytes.as_slice()
    }

    /// How many lines were lost since a line last said how many.
    pub fn lost(&self) -> u64
        ensures { result ≡ self.now.lost }
    {
        self.lost
    }

    /// Whether there is room for this many bytes more.
    pub fn has_room(&self, count: usize) -> bool
        ensures { result ≡ spec.has_room count self.now }
    {
        count <= WAITING_LIMIT - self.bytes.len()
    }

    /// A line waits, or is lost where there is no room for it.
    pub fn add(&mut self, line: &[u8])
        ensures { self.new ≡ adding line.now self.old }
    {
        if !self.has_room(line.len()) || self.bytes.extend_from_slice(line).is_err() {
            self.lose(1);
        }
    }

    /// This many more lines are lost.
    pub fn lose(&mut self, count: u64)
        ensures { self.new ≡ losing count self.old }
    {
        self.lost = self.lost.saturating_add(count);
    }

    /// This many bytes were written. The lines that don't end in them are lost, and nothing waits
    /// any more.
    pub fn settle(&mut self, written: usize)
        requires { written ≤ length self.old.bytes }
        ensures { self.new ≡ settling written self.old }
    {
        let lost = lines_in(&self.bytes[written..]);
        self.bytes.clear();
        self.lose(lost);
    }

    /// A line has said how many lines were lost.
    pub fn tell(&mut self)
        ensures { self.new ≡ queue self.old.bytes 0 }
    {
        self.lost = 0;
    }
}

// How many lines end in these bytes.
fn lines_in(bytes: &[u8]) -> u64
    ensures { result ≡ spec.lines_in bytes.now }
{
    bytes.iter().filter(|byte| **byte == b'\n').count() as u64
}
