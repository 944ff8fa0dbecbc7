//! Writing a message.

ghost use Rattle.std.specs.Prelude.{◌≡◌, ◌<◌, ◌^◌, ◌++◌, ◌↔◌, length, IfOk, IsTrue, OnOk};
ghost use Rattle.registry_guests.specs.Spelling.{AreWords, long_word, spelling, word};

use registry_names::Text;
use std::alloc::{AllocError, Global};

/// Whether these can be the words of a message: there are fewer than 2^32 of them, and each has
/// fewer than 2^32 bytes.
pub fn fits(words: &[Text]) -> bool
    ensures { IsTrue result ↔ AreWords words.now }
{
    u32::try_from(words.len()).is_ok()
        && words
            .iter()
            .all(|word| u32::try_from(word.as_str().len()).is_ok())
}

fn put_word(out: &mut Vec<u8>, text: &Text) -> Result<(), AllocError>
    requires { length text.now < 2 ^ 32 }
    ensures { OnOk result (out.new.items ≡ out.old.items ++ word text.now) }
{
    let bytes = text.as_str().as_bytes();
    out.extend_from_slice(&(bytes.len() as u32).to_be_bytes())?;
    out.extend_from_slice(bytes)
}

fn put_body(out: &mut Vec<u8>, body: &[u8]) -> Result<(), AllocError>
    ensures { OnOk result (out.new.items ≡ out.old.items ++ long_word body.now) }
{
    out.extend_from_slice(&(body.len() as u64).to_be_bytes())?;
    out.extend_from_slice(body)
}

/// The one spelling of a message.
///
/// An error is returned where no memory is left.
pub fn write(alloc: Global, words: &[Text], body: &[u8]) -> Result<Vec<u8>, AllocError>
    requires { AreWords words.now }
    ensures { IfOk result (λ v. v.items ≡ spelling words.now body.now) }
{
    let mut out = Vec::new(alloc);
    out.extend_from_slice(&(words.len() as u32).to_be_bytes())?;
    for text in words {
        put_word(&mut out, text)?;
    }
    put_body(&mut out, body)?;
    Ok(out)
}
