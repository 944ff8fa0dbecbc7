//! Digests of what is shared.

ghost use Rattle.std.specs.Prelude.{◌≡◌};
ghost use Rattle.sha2.specs.Sha256.{sha256};

use sha2::{Digest, Sha256};
use std::marker::Model;

/// The SHA-256 (FIPS 180-4) of a text, or of other bytes. Contracts see its 32 bytes.
#[derive(Clone, Copy, Debug)]
pub struct ContentDigest {
    bytes: [u8; 32],
}

impl Model for ContentDigest {
    ghost use Rattle.std.specs.Prelude.{List, ℕ};

    ghost Value = { List ℕ };

    ghost view = { λ d. d.bytes };

    ghost inverse = { λ bytes. record { bytes = bytes } };
}

impl ContentDigest {
    /// The digest of these bytes. It takes no memory.
    pub fn of(bytes: &[u8]) -> ContentDigest
        ensures { result ≡ sha256 bytes.now }
    {
        ContentDigest {
            bytes: Sha256::digest(bytes),
        }
    }

    /// The digest's 32 bytes.
    pub fn as_slice(&self) -> &[u8]
        ensures { result.now ≡ self.now }
    {
        self.bytes.as_slice()
    }
}
