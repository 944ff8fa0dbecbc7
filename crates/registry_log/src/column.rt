//! The columns of a line.

ghost use Rattle.std.specs.Prelude.{◌≡◌, ◌++◌, decimal, map, OnOk};
ghost use Rattle.registry_log.specs.Lines as spec;
ghost use Rattle.registry_log.specs.Lines.{cell, column, last_cell, time_text};

use itoa::Buffer;
use registry_wire::ShortText;
use std::alloc::AllocError;

/// Adds a text to a line as a column, and a space after it. `-` stands for an empty text, and `?`
/// for each byte that can't be seen or is a space.
pub(crate) fn push_cell(line: &mut Vec<u8>, text: &[u8]) -> Result<(), AllocError>
    ensures { OnOk result (line.new.items ≡ line.old.items ++ cell text.now) }
{
    push_column(line, text)?;
    Ok(line.push(b' ')?)
}

/// The same for a number, in decimal digits.
pub(crate) fn push_number(line: &mut Vec<u8>, number: u64) -> Result<(), AllocError>
    ensures { OnOk result (line.new.items ≡ line.old.items ++ cell (decimal number)) }
{
    let mut digits = Buffer::new();
    push_cell(line, digits.format(number).as_bytes())
}

/// The last column: microseconds, in milliseconds with one decimal, and a newline.
pub(crate) fn push_time(line: &mut Vec<u8>, micros: Option<u64>) -> Result<(), AllocError>
    ensures { OnOk result (line.new.items ≡ line.old.items ++ last_cell (time_text micros)) }
{
    let text = time(micros);
    push_column(line, text.as_slice())?;
    Ok(line.push(b'\n')?)
}

fn time(micros: Option<u64>) -> ShortText
    ensures { result ≡ time_text micros }
{
    let mut text = ShortText::new();
    if let Some(micros) = micros {
        text.push_number(micros / 1000);
        text.push(b".");
        text.push_number(micros / 100 % 10);
    }
    text
}

// Adds a text to a line as a column.
fn push_column(line: &mut Vec<u8>, text: &[u8]) -> Result<(), AllocError>
    ensures { OnOk result (line.new.items ≡ line.old.items ++ column text.now) }
{
    if text.is_empty() {
        Ok(line.push(b'-')?)
    } else {
        push_seen(line, text)
    }
}

pub(crate) fn push_seen(line: &mut Vec<u8>, text: &[u8]) -> Result<(), AllocError>
    ensures { OnOk result (line.new.items ≡ line.old.items ++ map spec.seen_byte text.now) }
{
    for byte in text {
        line.push(seen_byte(*byte))?;
    }
    Ok(())
}

// What is put for a byte: itself, or `?` where it can't be seen or is a space.
fn seen_byte(byte: u8) -> u8
    ensures { result ≡ spec.seen_byte byte }
{
    if byte.is_ascii_graphic() { byte } else { b'?' }
}
