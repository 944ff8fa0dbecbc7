//! Revisions of what was read.

ghost use Rattle.std.specs.Prelude.{◌≡◌, IfErr, IfOk};
ghost use Rattle.registry_documents.specs.Revisions.{revision};

use registry_cache::SharedText;
use registry_documents::Revision;
use registry_names::{Fault, Text};
use std::alloc::Global;

/// The revision of a package.
pub(crate) fn revision_of(
    alloc: Global,
    text: &SharedText,
    names: &[Text],
) -> Result<Revision, Fault>
    ensures ok { IfOk result (λ found. found ≡ revision text.now names.now) }
    ensures err { IfErr result (λ fault. fault ≡ Fault.Memory) }
{
    Ok(Revision::of(alloc, &text.digest(), names)?)
}
