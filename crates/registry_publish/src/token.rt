//! The digests of tokens.

ghost use Rattle.std.specs.Prelude.{◌≡◌, length};
ghost use Rattle.std.specs.List.{list_all};
ghost use Rattle.registry_publish.specs.Tokens as spec;
ghost use Rattle.registry_publish.specs.Tokens.{is_token_char};

use sha2::{Digest, Sha256};
use std::marker::Model;

const SHORTEST: usize = 16;

const LONGEST: usize = 128;

fn is_token_byte(byte: u8) -> bool
    ensures { result ≡ is_token_char byte }
{
    byte.is_ascii_alphanumeric() || b"-_.~+/=".contains(&byte)
}

fn all_token_bytes(text: &[u8]) -> bool
    ensures { result ≡ list_all is_token_char text.now }
{
    text.iter().all(|byte| is_token_byte(*byte))
}

fn is_token(text: &[u8]) -> bool
    ensures { result ≡ spec.is_token text.now }
{
    SHORTEST <= text.len() && text.len() <= LONGEST && all_token_bytes(text)
}

/// What is kept of a token: the SHA-256 (FIPS 180-4) of its text, from which the token can't be got
/// back. Contracts see its 32 bytes.
#[derive(Clone, Copy, Debug, PartialEq, Eq)]
pub struct TokenDigest {
    bytes: [u8; 32],
}

impl Model for TokenDigest {
    ghost use Rattle.std.specs.Prelude.{List, ℕ};

    ghost Value = { List ℕ };

    ghost view = { λ d. d.bytes };

    ghost inverse = { λ bytes. record { bytes = bytes } };
}

impl TokenDigest {
    /// The digest of a token: of a text of 16 to 128 characters of `A-Z a-z 0-9 - _ . ~ + / =`.
    /// `None` is returned for any other text. It takes no memory.
    pub fn of(token: &str) -> Option<TokenDigest>
        ensures { result ≡ spec.digest_of token.now }
    {
        TokenDigest::of_bytes(token.as_bytes())
    }

    /// The digest of a token whose text these bytes are. `None` is returned for any other bytes. It
    /// takes no memory.
    pub fn of_bytes(token: &[u8]) -> Option<TokenDigest>
        ensures { result ≡ spec.digest_of token.now }
    {
        if is_token(token) {
            Some(TokenDigest {
                bytes: Sha256::digest(token),
            })
        } else {
            None
        }
    }

    /// The digest with these bytes, which are those of `as_slice`. `None` is returned where they
    /// aren't 32. It takes no memory.
    pub fn from_slice(bytes: &[u8]) -> Option<TokenDigest>
        ensures { result ≡ spec.digest_with bytes.now }
    {
        match <[u8; 32]>::try_from(bytes) {
            Ok(bytes) => Some(TokenDigest { bytes }),
            Err(_) => None,
        }
    }

    /// The digest's 32 bytes.
    pub fn as_slice(&self) -> &[u8]
        ensures value { result.now ≡ self.now }
        ensures size { length self.now ≡ 32 }
    {
        self.bytes.as_slice()
    }
}
