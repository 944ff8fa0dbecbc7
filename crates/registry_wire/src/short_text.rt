//! Texts of few bytes, which take no memory.

ghost use Rattle.std.specs.Prelude.{◌≡◌, ◌+◌, ◌≤◌, [], ◌++◌, length, decimal};

use arrayvec::ArrayVec;
use itoa::Buffer;
use std::marker::Model;

/// The most bytes of a short text.
pub const SHORT_LIMIT: usize = 384;

/// A text of at most `SHORT_LIMIT` bytes, which lie in the value itself. Contracts see the bytes.
#[derive(Drop)]
pub struct ShortText {
    bytes: ArrayVec<u8, SHORT_LIMIT>,
}

impl Model for ShortText {
    ghost use Rattle.std.specs.Prelude.{List, ℕ};

    ghost Value = { List ℕ };

    ghost view = { λ text. text.bytes.items };
}

impl ShortText {
    /// The text of no bytes.
    pub fn new() -> ShortText
        ensures { result ≡ [] }
    {
        ShortText {
            bytes: ArrayVec::new(),
        }
    }

    /// The bytes themselves.
    pub fn as_slice(&self) -> &[u8]
        ensures bytes { result.now ≡ self.now }
        ensures short { length result.now ≤ 384 }
    {
        self.bytes.as_slice()
    }

    /// Adds a text at the end.
    pub fn push(&mut self, text: &[u8])
        requires { length self.old + length text.now ≤ 384 }
        ensures bytes { self.new ≡ self.old ++ text.now }
        ensures len { length self.new ≡ length self.old + length text.now }
    {
        let _fits = self.bytes.try_extend_from_slice(text);
    }

    /// Adds a number at the end, in decimal digits.
    pub fn push_number(&mut self, number: u64)
        requires { length self.old + 40 ≤ 384 }
        ensures bytes { self.new ≡ self.old ++ decimal number }
        ensures len { length self.new ≤ length self.old + 40 }
    {
        let mut buffer = Buffer::new();
        self.push(buffer.format(number).as_bytes());
    }
}
