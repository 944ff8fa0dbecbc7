//! Versions.

ghost use Rattle.std.specs.Prelude.{◌≡◌, ◌≢◌, IfOk, IfErr, [], Some, false, refl};
ghost use Rattle.std.specs.Cmp.{partial_equiv_from_equiv};
ghost use Rattle.std.specs.Hash as fed;
ghost use Rattle.std.proofs.Common.{ap};
ghost use Rattle.semver.specs.Identifiers.{build_text, parts_of};
ghost use Rattle.semver.specs.Parse.{memory_error};
ghost use Rattle.registry_names.specs.Faults.{IsMemoryOr};
ghost use Rattle.registry_names.specs.VersionReading as spec;
ghost use Rattle.registry_names.specs.VersionOrder.{same_version};
ghost use Rattle.registry_names.specs.VersionOrderLaws.{precedence_partial, precedence_total, same_version_decides, same_version_equivalence, same_version_ties};
ghost use Rattle.registry_names.specs.Versions.{IsVersion, IsVersionOf, precedence, text_of_version, version_parts};

use crate::refusal::Refusal;
use crate::stop::{Fault, Stop};
use semver::{Error, Version};
use std::alloc::{AllocError, Global};
use std::cmp::Ordering;
use std::fmt;
use std::hash::{Hash, Hasher};
use std::marker::Model;

const LONGEST: usize = 256;

/// The greatest number of a version, 2^53 - 1, which every JavaScript client reads as it is.
pub const GREATEST_NUMBER: u64 = 9_007_199_254_740_991;

// Whether reading stopped for lack of memory.
fn is_memory(error: Error) -> bool
    ensures { result ≡ false → error ≢ memory_error }
{
    error == Error::from(AllocError)
}

fn in_profile(version: &Version) -> bool
    ensures { result ≡ spec.in_profile (parts_of version.now) }
{
    version.major <= GREATEST_NUMBER
        && version.minor <= GREATEST_NUMBER
        && version.patch <= GREATEST_NUMBER
        && version.build.as_str().is_empty()
}

/// A version of [SemVer 2.0.0](https://semver.org/spec/v2.0.0.html) without build metadata, of at
/// most 256 characters, its numbers at most [`GREATEST_NUMBER`]. So two versions of the same
/// precedence are equal. Contracts see its parts.
#[derive(Debug)]
pub struct Ver {
    text: String,
    version: Version,
}

// Written out, so that dropping a version is one call, not one for each part.
impl Drop for Ver {
    fn drop(self) {
        let Ver {
            text: _,
            version: _,
        } = self;
    }
}

impl Model for Ver {
    ghost use Rattle.std.specs.Prelude.{◌≡◌, [], string_bytes};
    ghost use Rattle.semver.specs.Identifiers.{build_text};
    ghost use Rattle.registry_names.specs.Versions.{VersionParts, IsVersionOf, version_parts};

    ghost Value = { VersionParts };

    ghost view = { λ v. version_parts v.version };

    ghost invariant = { λ v. IsVersionOf (string_bytes v.text) (version_parts v.version)
        × (build_text v.version.build ≡ []) };
}

impl Ver {
    /// Reads a version.
    ///
    /// `BadVersion` is returned only for a text that isn't a version, and `Memory` when no memory
    /// is left, which may be before such a text is read to its end.
    pub fn parse(alloc: Global, text: &str) -> Result<Ver, Stop>
        ensures ok { IfOk result (λ v. IsVersionOf text.now v) }
        ensures err { IfErr result (IsMemoryOr Refusal.BadVersion (¬ IsVersion text.now)) }
    {
        if text.len() > LONGEST {
            return Err(Stop::Refused(Refusal::BadVersion));
        }
        let version = match Version::parse(alloc, text) {
            Ok(version) => version,
            Err(error) => {
                return if is_memory(error) {
                    Err(Stop::Fault(Fault::Memory))
                } else {
                    Err(Stop::Refused(Refusal::BadVersion))
                };
            }
        };
        if !in_profile(&version) {
            return Err(Stop::Refused(Refusal::BadVersion));
        }
        Ok(Ver {
            text: String::from_str(alloc, text)?,
            version,
        })
    }

    /// The text that was read.
    pub fn text(&self) -> &str
        ensures text { result.now ≡ text_of_version self.now }
        ensures form { IsVersionOf result.now self.now }
    {
        self.text.as_str()
    }

    /// The version as the crate `semver` holds it, without build metadata.
    pub fn as_semver(&self) -> &Version
        ensures parts { version_parts result.now ≡ self.now }
        ensures plain { build_text result.now.build ≡ [] }
    {
        &self.version
    }
}

impl PartialEq for Ver {
    ghost eq = { same_version };

    ghost laws = { partial_equiv_from_equiv same_version_equivalence };

    fn eq(&self, other: &Ver) -> bool {
        let (one, other) = (&self.version, &other.version);
        one.major == other.major
            && one.minor == other.minor
            && one.patch == other.patch
            && one.pre == other.pre
    }
}

impl Eq for Ver {
    ghost laws = { same_version_equivalence };
}

impl PartialOrd for Ver {
    ghost partial_cmp = { λ v w. Some (precedence v w) };

    ghost laws = { precedence_partial };

    fn partial_cmp(&self, other: &Ver) -> Option<Ordering> {
        Some(self.cmp(other))
    }
}

/// By precedence (SemVer 2.0.0, item 11), which ties no two versions.
impl Ord for Ver {
    ghost cmp = { precedence };

    ghost total = { precedence_total };

    ghost matches_partial_cmp = { λ v w. refl };

    ghost matches_eq = { same_version_ties };

    fn cmp(&self, other: &Ver) -> Ordering {
        self.version.cmp_precedence(&other.version)
    }
}

/// As its text.
impl Hash for Ver {
    ghost hash_input = { λ v. fed.str (text_of_version v) };

    ghost respects_eq = { λ v w e. ap (λ x. fed.str (text_of_version x)) ((same_version_decides v w).0 e) };

    fn hash<H: Hasher>(&self, state: &mut H) {
        self.text().hash(state);
    }
}

impl fmt::Display for Ver {
    ghost output = { λ v. Some (text_of_version v) };

    fn fmt<W: fmt::Write>(&self, f: &mut fmt::Formatter<W>) -> fmt::Result {
        f.pad(self.text())
    }
}
