//! Revisions of packages.

ghost use Rattle.std.specs.Prelude.{◌≡◌, ◌++◌, ◌∷◌, [], string_bytes, bytes_eq, IfOk, OnOk};
ghost use Rattle.registry_documents.specs.Revisions as spec;
ghost use Rattle.registry_documents.specs.Revisions.{revision_of};

use registry_cache::ContentDigest;
use registry_names::Text;
use sha2::{Digest, Sha256};
use std::alloc::{AllocError, Global};
use std::marker::Model;

/// What npm's `_rev` is here: 64 hexadecimal digits that packages have in common only where their
/// packuments and maintainers are the same. All readers of a package see the same one. Contracts
/// see its text.
#[derive(Debug, Drop)]
pub struct Revision {
    text: String,
}

impl Model for Revision {
    ghost use Rattle.std.specs.Prelude.{List, ℕ, string_bytes};

    ghost Value = { List ℕ };

    ghost view = { λ r. string_bytes r.text };
}

impl Revision {
    /// The revision of a package, from the digest of its packument and the names of its
    /// maintainers, in the order in which the registry answers them.
    ///
    /// An error is returned when no memory is left.
    pub fn of(
        alloc: Global,
        packument: &ContentDigest,
        maintainers: &[Text],
    ) -> Result<Revision, AllocError>
        ensures { IfOk result (λ r. r ≡ revision_of packument.now maintainers.now) }
    {
        let revised = revised(alloc, packument, maintainers)?;
        let digest = Sha256::digest(revised.as_bytes());
        Ok(Revision {
            text: hex::encode(alloc, digest)?,
        })
    }

    /// The revision's text.
    pub fn text(&self) -> &str
        ensures { result.now ≡ self.now }
    {
        self.text.as_str()
    }

    /// Whether this is the revision that a path names under `-rev/`, percent-decoded.
    pub fn is(&self, named: &str) -> bool
        ensures { result ≡ bytes_eq named.now self.now }
    {
        named == self.text.as_str()
    }
}

// The digest of the packument in hexadecimal, and each name with a line feed behind it.
fn revised(
    alloc: Global,
    packument: &ContentDigest,
    maintainers: &[Text],
) -> Result<String, AllocError>
    ensures { IfOk result (λ text. string_bytes text ≡ spec.revised packument.now maintainers.now) }
{
    let mut out = hex::encode(alloc, packument.as_slice())?;
    for name in maintainers {
        push_line(&mut out, name)?;
    }
    Ok(out)
}

fn push_line(out: &mut String, name: &Text) -> Result<(), AllocError>
    ensures { OnOk result (string_bytes out.new ≡ string_bytes out.old ++ (name.now ++ 10 ∷ [])) }
{
    out.push_str(name.as_str())?;
    out.push_str("\n")
}
