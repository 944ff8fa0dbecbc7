//! Readers and writers that handle few bytes a call, that are interrupted, and that fail.

use std::io;
use std::io::{ErrorKind, Read, Write};

/// A reader that is interrupted this many times, and then gives a text, in pieces of at most this
/// many bytes. After the text it ends, or breaks once and then ends.
#[derive(Drop)]
pub struct Source<'a> {
    pub interruptions: u32,
    pub text: &'a [u8],
    pub piece_len: usize,
    pub breaks: bool,
}

impl Read for Source<'_> {
    fn read(&mut self, buf: &mut [u8]) -> io::Result<usize> {
        if self.interruptions > 0 {
            self.interruptions -= 1;
            return Err(io::Error::from(ErrorKind::Interrupted));
        }
        if self.text.is_empty() && self.breaks {
            self.breaks = false;
            return Err(io::Error::from(ErrorKind::ConnectionReset));
        }
        let room = self.piece_len.min(buf.len());
        self.text.read(&mut buf[..room])
    }
}

/// A reader that fails once each time it has given half of what is left.
#[derive(Drop)]
pub struct Halting<'a> {
    pub front: &'a [u8],
    pub rest: &'a [u8],
    pub halted: bool,
}

impl Read for Halting<'_> {
    fn read(&mut self, buf: &mut [u8]) -> io::Result<usize> {
        if !self.front.is_empty() {
            return self.front.read(buf);
        }
        if self.halted {
            return self.rest.read(buf);
        }
        self.halted = true;
        Err(io::Error::from(ErrorKind::TimedOut))
    }
}

/// A writer that takes one byte a call, up to a limit at which it fails.
#[derive(Drop)]
pub struct Narrow {
    pub taken: Vec<u8>,
    pub limit: usize,
}

impl Write for Narrow {
    fn write(&mut self, buf: &[u8]) -> io::Result<usize> {
        if self.taken.len() >= self.limit {
            return Err(io::Error::from(ErrorKind::BrokenPipe));
        }
        self.taken.write(buf.get(..1).unwrap_or(buf))
    }

    fn flush(&mut self) -> io::Result<()> {
        Ok(())
    }
}
