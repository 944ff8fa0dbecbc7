//! Byte streams over readers and writers in memory, and over some that fail.

use crate::outcome::{is_displayed, same};
use crate::parts::{as_text, repeated};
use crate::wire::reader::Source;
use registry_names::{
    ByteIn, ByteOut, FromRead, ReadFailed, ReadStop, ToWrite, WriteFailed, read_whole, write_whole,
};
use std::alloc::Global;
use std::io;
use std::io::{ErrorKind, Read, Write};
use std::process::Abort;

/// A reader whose second read is interrupted, and whose fourth fails.
#[derive(Drop)]
struct Faltering<'a> {
    text: &'a [u8],
    reads: u32,
}

impl Read for Faltering<'_> {
    fn read(&mut self, buf: &mut [u8]) -> io::Result<usize> {
        self.reads = self.reads.saturating_add(1);
        match self.reads {
            2 => Err(io::Error::from(ErrorKind::Interrupted)),
            4 => Err(io::Error::from(ErrorKind::TimedOut)),
            _ => self.text.read(buf),
        }
    }
}

/// A writer that takes one byte a call, but nothing in the third call, and that fails in the fifth.
#[derive(Drop)]
struct Narrow {
    taken: Vec<u8>,
    writes: u32,
}

impl Write for Narrow {
    fn write(&mut self, buf: &[u8]) -> io::Result<usize> {
        self.writes = self.writes.saturating_add(1);
        match self.writes {
            3 => Ok(0),
            5 => Err(io::Error::from(ErrorKind::Interrupted)),
            _ => self.taken.write(buf.get(..1).unwrap_or(buf)),
        }
    }

    fn flush(&mut self) -> io::Result<()> {
        Ok(())
    }
}

/// What a read should give.
type Given = Result<&'static str, ReadFailed>;

// What the next read gives.
fn given<'b, I: ByteIn>(end: &mut I, buf: &'b mut [u8]) -> Result<&'b str, ReadFailed> {
    let count = end.read(buf)?;
    Ok(as_text(&buf[..count]))
}

fn all_given<I: ByteIn>(rt: &impl Abort, end: &mut I, buf: &mut [u8], wanted: &[Given]) {
    for (place, wanted) in wanted.iter().enumerate() {
        same(rt, &place, &given(end, buf), wanted);
    }
}

const PIECES: [Given; 3] = [Ok("regis"), Ok("try"), Ok("")];

const READS: [Given; 5] = [
    Ok("ab"),
    Err(ReadFailed::Interrupted),
    Ok("cd"),
    Err(ReadFailed::Broken),
    Ok("ef"),
];

// A reader gives its bytes and then none, a large read gives all that is left, and a read goes on after
// one that failed.
#[test]
fn readers_are_read(rt: HostRuntime) {
    let mut end = FromRead::new(b"registry".as_slice());
    all_given(&rt, &mut end, &mut [0; 5], &PIECES);
    let text = repeated(&rt, rt.alloc(), "registry", 1_000);
    let mut end = FromRead::new(text.as_bytes());
    let mut buf = [0; 8_192];
    let all = Ok(text.as_str());
    same(&rt, "8,000 bytes", &given(&mut end, &mut buf), &all);
    let mut end = FromRead::new(Faltering {
        text: b"abcdef",
        reads: 0,
    });
    all_given(&rt, &mut end, &mut [0; 2], &READS);
}

// Texts, and whether each is written whole by a narrow writer.
const WHOLE_WRITES: [(&str, Result<(), WriteFailed>); 4] = [
    ("ab", Ok(())),
    ("c", Err(WriteFailed)),
    ("cd", Err(WriteFailed)),
    ("defg", Ok(())),
];

// A write goes on after one that failed.
#[test]
fn a_writer_holds_what_was_written(rt: HostRuntime) {
    let mut out = Vec::new(rt.alloc());
    for text in ["lab", "", "-kit"] {
        let written = ToWrite::new(&mut out).write(text.as_bytes());
        same(&rt, text, &written, &Ok(text.len()));
    }
    same(&rt, "what is held", as_text(&out), "lab-kit");
    let mut narrow = Narrow {
        taken: Vec::new(rt.alloc()),
        writes: 0,
    };
    for (text, wanted) in WHOLE_WRITES {
        let written = write_whole(&mut ToWrite::new(&mut narrow), text.as_bytes());
        same(&rt, text, written, wanted);
    }
    same(&rt, "what is held", as_text(&narrow.taken), "abcdefg");
}

// Checks that this is the whole of an input, up to a limit.
fn is_whole<I: ByteIn>(
    rt: &impl Abort,
    alloc: Global,
    end: &mut I,
    limit: usize,
    wanted: Result<&str, ReadStop>,
) {
    match read_whole(alloc, end, limit) {
        Ok(bytes) => same(rt, &limit, &Ok(as_text(&bytes)), &wanted),
        Err(stop) => same(rt, &limit, &Err(stop), &wanted),
    }
}

// A limit, and what is read up to it.
const LIMITS: [(usize, &str); 4] = [(0, ""), (3, "reg"), (8, "registry"), (9, "registry")];

// An interrupted read is tried again, a thousand times.
#[test]
fn a_whole_input_is_read_up_to_a_limit(rt: HostRuntime) {
    for (limit, text) in LIMITS {
        let mut end = FromRead::new(b"registry".as_slice());
        is_whole(&rt, rt.alloc(), &mut end, limit, Ok(text));
    }
    let mut end = FromRead::new(Faltering {
        text: b"abc",
        reads: 0,
    });
    is_whole(&rt, rt.alloc(), &mut end, 9, Ok("abc"));
    is_whole(&rt, rt.alloc(), &mut end, 9, Err(ReadStop::Read));
    let mut restless = Source {
        interruptions: 5_000,
        text: b"",
        piece_len: 1,
        breaks: false,
    };
    let mut end = FromRead::new(&mut restless);
    is_whole(&rt, rt.alloc(), &mut end, 9, Err(ReadStop::Read));
    same(&rt, "how often it was read", restless.interruptions, 3_999);
}

#[test]
fn failures_are_displayed(rt: HostRuntime) {
    let alloc = rt.alloc();
    is_displayed(
        &rt,
        alloc,
        &ReadFailed::Interrupted,
        "the read was interrupted",
    );
    is_displayed(&rt, alloc, &ReadFailed::Broken, "the read failed");
    is_displayed(&rt, alloc, &WriteFailed, "the write failed");
    is_displayed(&rt, alloc, &ReadStop::Read, "the input could not be read");
    is_displayed(&rt, alloc, &ReadStop::Memory, "out of memory");
}
