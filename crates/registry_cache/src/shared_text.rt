//! A text with many owners.

ghost use Rattle.std.specs.Prelude.{◌≡◌, List, ℕ, IfOk, IsUtf8};
ghost use Rattle.std.specs.Rc.{rc_str_bytes};
ghost use Rattle.std.specs.Str.{bytes_eq};
ghost use Rattle.std.specs.Cmp.Rules.{comparing};
ghost use Rattle.std.proofs.Common.{rules};
ghost use Rattle.sha2.specs.Sha256.{sha256};

use crate::content_digest::ContentDigest;
use crate::shared::Shared;
use registry_names::Text;
use std::alloc::{AllocError, Global};
use std::marker::Model;
use std::rc::RcStr;

/// A text in UTF-8 that is shared, and so can't be changed. It may keep its digest, so that nobody
/// computes it again. Contracts see its bytes.
#[derive(Debug, Drop)]
pub struct SharedText {
    text: RcStr,
    digest: Option<ContentDigest>,
}

impl Model for SharedText {
    ghost use Rattle.std.specs.Prelude.{List, ℕ};
    ghost use Rattle.std.specs.Rc.{rc_str_bytes};
    ghost use Rattle.registry_cache.specs.Digests.{IsDigestOf};

    ghost Value = { List ℕ };

    ghost view = { λ t. rc_str_bytes t.text };

    ghost invariant = { λ t. IsDigestOf (rc_str_bytes t.text) t.digest };
}

impl SharedText {
    /// A copy of the text, with one owner.
    ///
    /// An error is returned where no memory is left.
    pub fn from_str(alloc: Global, text: &str) -> Result<SharedText, AllocError>
        ensures { IfOk result (λ t. t ≡ text.now) }
    {
        SharedText::from_text(Text::from_str(alloc, text)?)
    }

    /// The text with one owner. Memory that it took beyond its bytes is given back.
    ///
    /// An error is returned where no memory is left.
    pub fn from_text(text: Text) -> Result<SharedText, AllocError>
        ensures { IfOk result (λ t. t ≡ text) }
    {
        let mut text = text.into_string();
        text.shrink_to_fit();
        let text = RcStr::from_string(text)?;
        Ok(SharedText { text, digest: None })
    }

    /// The text itself.
    pub fn as_str(&self) -> &str
        ensures text { result.now ≡ self.now }
        ensures utf8 { IsUtf8 self.now }
    {
        self.text.as_str()
    }

    /// The same text, which keeps its digest from now on, as do all that share it. It takes no memory.
    pub fn with_digest(self) -> SharedText
        ensures { result ≡ self }
    {
        let digest = Some(self.digest());
        SharedText {
            text: self.text,
            digest,
        }
    }

    /// The SHA-256 of the text. It is computed where the text doesn't keep it.
    pub fn digest(&self) -> ContentDigest
        ensures { result ≡ sha256 self.now }
    {
        match self.digest {
            Some(digest) => digest,
            None => ContentDigest::of(self.as_str().as_bytes()),
        }
    }
}

impl Shared for SharedText {
    ghost bytes = { λ t. t };

    fn len(&self) -> usize {
        self.as_str().len()
    }

    fn share(&self) -> Result<SharedText, AllocError> {
        let text = self.text.clone()?;
        Ok(SharedText {
            text,
            digest: self.digest,
        })
    }
}

impl PartialEq for SharedText {
    ghost eq = { bytes_eq };

    ghost laws = { Prim.search (comparing, rules) };

    fn eq(&self, other: &SharedText) -> bool {
        self.as_str() == other.as_str()
    }
}

impl Eq for SharedText {
    ghost laws = { Prim.search (comparing, rules) };
}
