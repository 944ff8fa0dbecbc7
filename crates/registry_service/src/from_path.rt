//! What a value of a path is read as.

ghost use Rattle.std.specs.Prelude.{List, ℕ, Result};
ghost use Rattle.registry_names.specs.declared.stop.Stop.{Stop};
ghost use Rattle.registry_service.specs.Readings as spec;

use registry_names::{Ident, LATEST, Name, Stop, TagText, Ver};
use registry_routes::{decode_ident, decode_name, decode_tag, decode_text, decode_version};
use registry_rules::Asked;
use std::alloc::Global;

/// What a value of a path is read as. A value that isn't in form gives its refusal.
pub(crate) trait FromPath: Sized {
    // Holds of what is written and each answer that `read` may give for it.
    ghost reads: { List ℕ → Result Self Stop → Type 0 };

    /// Reads a value as it is written in a path.
    fn read(alloc: Global, written: &[u8]) -> Result<Self, Stop>
        ensures { reads written.now result };
}

impl FromPath for Ident {
    ghost reads = { spec.reads_ident };

    fn read(alloc: Global, written: &[u8]) -> Result<Ident, Stop> {
        decode_ident(alloc, written)
    }
}

impl FromPath for Name {
    ghost reads = { spec.reads_name };

    fn read(alloc: Global, written: &[u8]) -> Result<Name, Stop> {
        decode_name(alloc, written)
    }
}

impl FromPath for Ver {
    ghost reads = { spec.reads_version };

    fn read(alloc: Global, written: &[u8]) -> Result<Ver, Stop> {
        decode_version(alloc, written)
    }
}

impl FromPath for TagText {
    ghost reads = { spec.reads_tag };

    fn read(alloc: Global, written: &[u8]) -> Result<TagText, Stop> {
        decode_tag(alloc, written)
    }
}

impl FromPath for Asked {
    ghost reads = { spec.reads_asked };

    fn read(alloc: Global, written: &[u8]) -> Result<Asked, Stop> {
        let text = decode_text(alloc, written)?;
        match text.as_str() {
            LATEST => Ok(Asked::Latest),
            version => Ok(Asked::Exact(Ver::parse(alloc, version)?)),
        }
    }
}
