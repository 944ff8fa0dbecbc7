//! Tokens that are made of random bytes.

ghost use Rattle.std.specs.Prelude.{◌≡◌, length, true, IfOk};
ghost use Rattle.registry_publish.specs.Tokens.{is_token};
ghost use Rattle.registry_cli.specs.Tokens.{DifferentBytesDiffer, token_text};

use registry_names::Text;
use std::alloc::{AllocError, Global};

/// How many random bytes a token is made of: 160 bits.
pub const TOKEN_BYTES: usize = 20;

/// The token that these bytes make: `npm_`, and their 40 hexadecimal digits.
pub fn token_of(alloc: Global, random: [u8; TOKEN_BYTES]) -> Result<Text, AllocError>
    ensures text { IfOk result (λ t. t ≡ token_text random) }
    ensures form { IfOk result (λ t. is_token t ≡ true) }
{
    token_in(alloc, random.as_slice())
}

fn token_in(alloc: Global, random: &[u8]) -> Result<Text, AllocError>
    requires length { length random.now ≡ TOKEN_BYTES }
    ensures text { IfOk result (λ t. t ≡ token_text random.now) }
    ensures form { IfOk result (λ t. is_token t ≡ true) }
{
    spelled(alloc, random)
}

fn spelled(alloc: Global, random: &[u8]) -> Result<Text, AllocError>
    ensures { IfOk result (λ t. t ≡ token_text random.now) }
{
    let digits = hex::encode(alloc, random)?;
    let mut token = String::from_str(alloc, "npm_")?;
    token.push_str(digits.as_str())?;
    Ok(Text::from(token))
}

/// Different bytes make different tokens.
pub fn different_bytes_make_different_tokens()
    ensures { DifferentBytesDiffer }
{}
