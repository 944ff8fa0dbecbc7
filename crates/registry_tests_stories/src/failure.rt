//! Why a story doesn't come out as it should.

use std::alloc::{AllocError, Global};

/// This many bytes before the first difference are shown.
const SHOWN_BEFORE: usize = 24;

/// At most this many bytes are shown.
const SHOWN: usize = 240;

/// Why a story ends before its last line.
#[derive(Debug, Drop)]
pub enum Stop {
    /// There is no memory left.
    Memory,
    /// What came isn't what was wanted: shows both, for a reader.
    Failed(String),
}

impl From<AllocError> for Stop {
    fn from(_: AllocError) -> Stop {
        Stop::Memory
    }
}

/// The failure with this message.
pub fn failed_with(alloc: Global, said: &str) -> Stop {
    match String::from_str(alloc, said) {
        Ok(said) => Stop::Failed(said),
        Err(_) => Stop::Memory,
    }
}

/// The failure that shows what was wanted and what came, both from a little before the first
/// difference.
pub fn differing(alloc: Global, wanted: &[u8], came: &[u8]) -> Stop {
    match difference(alloc, wanted, came) {
        Ok(said) => Stop::Failed(said),
        Err(_) => Stop::Memory,
    }
}

fn difference(alloc: Global, wanted: &[u8], came: &[u8]) -> Result<String, AllocError> {
    let start = same_count(wanted, came).saturating_sub(SHOWN_BEFORE);
    let wanted = shown(alloc, wanted, start)?;
    let came = shown(alloc, came, start)?;
    format!(in alloc; "wanted: {wanted}\ncame:   {came}")
}

// How many bytes at the beginning are the same.
fn same_count(first: &[u8], second: &[u8]) -> usize {
    let mut count = 0usize;
    for (left, right) in first.iter().zip(second) {
        if left != right {
            return count;
        }
        count = count.saturating_add(1);
    }
    count
}

// Bytes as one line of text, from this place on.
fn shown(alloc: Global, bytes: &[u8], start: usize) -> Result<String, AllocError> {
    let rest = bytes.get(start..).unwrap_or(&[]);
    let part = rest.get(..SHOWN).unwrap_or(rest);
    let text = String::from_utf8_lossy(alloc, part)?;
    let mut line = String::new(alloc);
    if start > 0 {
        line.push_str("...")?;
    }
    for letter in text.chars() {
        push_shown(&mut line, letter)?;
    }
    if bytes.is_empty() {
        line.push_str("(nothing)")?;
    }
    if part.len() < rest.len() {
        line.push_str("...")?;
    }
    Ok(line)
}

fn push_shown(line: &mut String, letter: char) -> Result<(), AllocError> {
    match letter {
        '\r' => line.push_str("\\r"),
        '\n' => line.push_str("\\n"),
        '\t' => line.push_str("\\t"),
        '\0' => line.push_str("\\x00"),
        letter => line.push(letter),
    }
}
