//! Pieces of compact JSON, written after what a text has already.

ghost use Rattle.std.specs.Prelude.{◌≡◌, ◌++◌, ◌∷◌, [], List, ℕ, true, string_bytes, OnOk};
ghost use Rattle.std.specs.List.{list_all};
ghost use Rattle.json.specs.Print.{quoted};
ghost use Rattle.serde_json.specs.Data.{Data, array, number, object, unsigned};
ghost use Rattle.serde_json.specs.Written.{comma_if, compact_text};
ghost use Rattle.registry_packument.specs.ObjectTexts.{member_text};
ghost use Rattle.registry_packument.specs.TextValues.{is_plain_char, text_items, text_members, value_members};

use registry_names::Text;
use serde_json::Value;
use std::alloc::{AllocError, Global};

/// A row that is a member of an object, with a text as its value.
pub(crate) trait TextMember {
    // The key, and the text that is its value.
    ghost pair: { Self → List ℕ × List ℕ };

    fn key(&self) -> &str
        ensures { result.now ≡ (pair self.now).0 };

    fn text(&self) -> &str
        ensures { result.now ≡ (pair self.now).1 };
}

/// A row that is a member of an object, with any value.
pub(crate) trait ValueMember {
    // The key, and the value.
    ghost member: { Self → List ℕ × Data };

    // Its key and its value, with the comma before it where a member came earlier.
    fn push(&self, alloc: Global, out: &mut String, later: bool) -> Result<(), AllocError>
        ensures { OnOk result (string_bytes out.new ≡ string_bytes out.old
            ++ member_text later ((member self.now).0, compact_text (member self.now).1)) };
}

/// A text in JSON's quotes, with what has to be escaped escaped.
pub(crate) fn push_quoted(alloc: Global, out: &mut String, text: &str) -> Result<(), AllocError>
    ensures { OnOk result (string_bytes out.new ≡ string_bytes out.old ++ quoted text.now) }
{
    if is_plain(text) {
        return push_plain(out, text);
    }
    let quoted = Value::try_from_str(alloc, text)?.to_string(alloc)?;
    out.push_str(quoted.as_str())
}

// Whether nothing of the text has to be escaped.
fn is_plain(text: &str) -> bool
    ensures { result ≡ list_all is_plain_char text.now }
{
    text.as_bytes().iter().all(|byte| is_plain_byte(*byte))
}

fn is_plain_byte(byte: u8) -> bool
    ensures { result ≡ is_plain_char byte }
{
    byte >= b' ' && byte != b'"' && byte != b'\\'
}

// A text in quotes of which nothing has to be escaped, without a copy of it.
fn push_plain(out: &mut String, text: &str) -> Result<(), AllocError>
    requires { list_all is_plain_char text.now ≡ true }
    ensures { OnOk result (string_bytes out.new ≡ string_bytes out.old ++ quoted text.now) }
{
    out.push_str("\"")?;
    out.push_str(text)?;
    out.push_str("\"")
}

// A comma, where something came earlier.
fn push_comma(out: &mut String, later: bool) -> Result<(), AllocError>
    ensures { OnOk result (string_bytes out.new ≡ string_bytes out.old ++ comma_if later) }
{
    if later { out.push_str(",") } else { Ok(()) }
}

/// The key of a member and its colon, with the comma before it where a member came earlier.
pub(crate) fn push_key(
    alloc: Global,
    out: &mut String,
    later: bool,
    key: &str,
) -> Result<(), AllocError>
    ensures { OnOk result (string_bytes out.new
        ≡ string_bytes out.old ++ (comma_if later ++ (quoted key.now ++ 58 ∷ []))) }
{
    push_comma(out, later)?;
    push_quoted(alloc, out, key)?;
    out.push_str(":")
}

/// A member whose value is a text.
pub(crate) fn push_text_member(
    alloc: Global,
    out: &mut String,
    later: bool,
    key: &str,
    text: &str,
) -> Result<(), AllocError>
    ensures { OnOk result (string_bytes out.new
        ≡ string_bytes out.old ++ member_text later (key.now, quoted text.now)) }
{
    push_key(alloc, out, later, key)?;
    push_quoted(alloc, out, text)
}

/// An object with a member for each row, in their order.
pub(crate) fn push_object<T: TextMember>(
    alloc: Global,
    out: &mut String,
    rows: &[T],
) -> Result<(), AllocError>
    ensures { OnOk result (string_bytes out.new
        ≡ string_bytes out.old ++ compact_text (object (text_members T.pair rows.now))) }
{
    out.push_str("{")?;
    let mut later = false;
    for row in rows {
        push_text_member(alloc, out, later, row.key(), row.text())?;
        later = true;
    }
    out.push_str("}")
}

/// The same of rows with any values.
pub(crate) fn push_values<T: ValueMember>(
    alloc: Global,
    out: &mut String,
    rows: &[T],
) -> Result<(), AllocError>
    ensures { OnOk result (string_bytes out.new
        ≡ string_bytes out.old ++ compact_text (object (value_members T.member rows.now))) }
{
    out.push_str("{")?;
    let mut later = false;
    for row in rows {
        row.push(alloc, out, later)?;
        later = true;
    }
    out.push_str("}")
}

/// A number in decimal.
pub(crate) fn push_number(alloc: Global, out: &mut String, value: u64) -> Result<(), AllocError>
    ensures { OnOk result (string_bytes out.new
        ≡ string_bytes out.old ++ compact_text (number (unsigned value))) }
{
    let digits = Value::from(value).to_string(alloc)?;
    out.push_str(digits.as_str())
}

/// An array of the texts, in their order.
pub(crate) fn push_array(alloc: Global, out: &mut String, texts: &[Text]) -> Result<(), AllocError>
    ensures { OnOk result (string_bytes out.new
        ≡ string_bytes out.old ++ compact_text (array (text_items texts.now))) }
{
    out.push_str("[")?;
    let mut later = false;
    for text in texts {
        push_comma(out, later)?;
        push_quoted(alloc, out, text.as_str())?;
        later = true;
    }
    out.push_str("]")
}
