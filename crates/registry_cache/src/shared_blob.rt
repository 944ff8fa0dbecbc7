//! Bytes of any kind with many owners.

ghost use Rattle.std.specs.Prelude.{◌≡◌, List, ℕ, IfOk};
ghost use Rattle.std.specs.Str.{bytes_eq};
ghost use Rattle.std.specs.Cmp.Rules.{comparing};
ghost use Rattle.std.proofs.Common.{rules};
ghost use Rattle.sha2.specs.Sha256.{sha256};

use crate::content_digest::ContentDigest;
use crate::shared::Shared;
use registry_names::Blob;
use std::alloc::{AllocError, Global};
use std::marker::Model;
use std::rc::Rc;

/// Bytes of any kind, such as an archive's, that are shared, and so can't be changed. They may keep
/// their digest, so that nobody computes it again. Contracts see them as a list.
#[derive(Debug, Drop)]
pub struct SharedBlob {
    bytes: Rc<Vec<u8>>,
    digest: Option<ContentDigest>,
}

impl Model for SharedBlob {
    ghost use Rattle.std.specs.Prelude.{List, ℕ};
    ghost use Rattle.registry_cache.specs.Digests.{IsDigestOf};

    ghost Value = { List ℕ };

    ghost view = { λ b. b.bytes.value.items };

    ghost invariant = { λ b. IsDigestOf b.bytes.value.items b.digest };
}

impl SharedBlob {
    /// A copy of the bytes, with one owner.
    ///
    /// An error is returned where no memory is left.
    pub fn from_slice(alloc: Global, bytes: &[u8]) -> Result<SharedBlob, AllocError>
        ensures { IfOk result (λ b. b ≡ bytes.now) }
    {
        SharedBlob::from_blob(alloc, Blob::from_slice(alloc, bytes)?)
    }

    /// The bytes with one owner. They aren't copied.
    ///
    /// An error is returned where no memory is left for the number of owners.
    pub fn from_blob(alloc: Global, blob: Blob) -> Result<SharedBlob, AllocError>
        ensures { IfOk result (λ b. b ≡ blob) }
    {
        let bytes = Rc::new(alloc, blob.into_vec())?;
        Ok(SharedBlob {
            bytes,
            digest: None,
        })
    }

    /// The bytes themselves.
    pub fn as_slice(&self) -> &[u8]
        ensures { result.now ≡ self.now }
    {
        self.bytes.as_ref().as_slice()
    }

    /// The same bytes, which keep their digest from now on, as do all that share them. It takes no
    /// memory.
    pub fn with_digest(self) -> SharedBlob
        ensures { result ≡ self }
    {
        let digest = Some(self.digest());
        SharedBlob {
            bytes: self.bytes,
            digest,
        }
    }

    /// The SHA-256 of the bytes. It is computed where they don't keep it.
    pub fn digest(&self) -> ContentDigest
        ensures { result ≡ sha256 self.now }
    {
        match self.digest {
            Some(digest) => digest,
            None => ContentDigest::of(self.as_slice()),
        }
    }
}

impl Shared for SharedBlob {
    ghost bytes = { λ b. b };

    fn len(&self) -> usize {
        self.as_slice().len()
    }

    fn share(&self) -> Result<SharedBlob, AllocError> {
        let bytes = self.bytes.clone()?;
        Ok(SharedBlob {
            bytes,
            digest: self.digest,
        })
    }
}

impl PartialEq for SharedBlob {
    ghost eq = { bytes_eq };

    ghost laws = { Prim.search (comparing, rules) };

    fn eq(&self, other: &SharedBlob) -> bool {
        self.as_slice() == other.as_slice()
    }
}

impl Eq for SharedBlob {
    ghost laws = { Prim.search (comparing, rules) };
}
