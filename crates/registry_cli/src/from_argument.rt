//! What an argument of a subcommand is read as.

ghost use Rattle.std.specs.Prelude.{List, ℕ, Result};
ghost use Rattle.registry_names.specs.declared.stop.Stop.{Stop};
ghost use Rattle.registry_cli.specs.Readings as spec;

use registry_access::{Grant, Role};
use registry_names::{Ident, LATEST, Message, Name, Refusal, Status, Stop, TagText, Ver};
use registry_publish::TokenDigest;
use registry_ranges::{Selector, tag};
use registry_rules::Asked;
use std::alloc::Global;

/// What an argument is read as. An argument that isn't in form gives its refusal.
pub(crate) trait FromArgument: Sized {
    // Holds of a text and each answer that `read` may give for it.
    ghost reads: { List ℕ → Result Self Stop → Type 0 };

    /// Reads an argument.
    fn read(alloc: Global, text: &str) -> Result<Self, Stop>
        ensures { reads text.now result };
}

impl FromArgument for Ident {
    ghost reads = { spec.reads_ident };

    fn read(alloc: Global, text: &str) -> Result<Ident, Stop> {
        Ident::parse(alloc, text)
    }
}

impl FromArgument for Name {
    ghost reads = { spec.reads_name };

    fn read(alloc: Global, text: &str) -> Result<Name, Stop> {
        Name::parse(alloc, text)
    }
}

impl FromArgument for Ver {
    ghost reads = { spec.reads_version };

    fn read(alloc: Global, text: &str) -> Result<Ver, Stop> {
        Ver::parse(alloc, text)
    }
}

impl FromArgument for TagText {
    ghost reads = { spec.reads_tag };

    fn read(alloc: Global, text: &str) -> Result<TagText, Stop> {
        tag(alloc, text)
    }
}

impl FromArgument for TokenDigest {
    ghost reads = { spec.reads_token };

    fn read(_alloc: Global, text: &str) -> Result<TokenDigest, Stop> {
        match TokenDigest::of(text) {
            Some(digest) => Ok(digest),
            None => Err(Stop::Refused(Refusal::BadBody)),
        }
    }
}

impl FromArgument for Role {
    ghost reads = { spec.reads_role };

    fn read(_alloc: Global, text: &str) -> Result<Role, Stop> {
        match Role::parse(text) {
            Some(role) => Ok(role),
            None => Err(Stop::Refused(Refusal::BadBody)),
        }
    }
}

impl FromArgument for Grant {
    ghost reads = { spec.reads_grant };

    fn read(_alloc: Global, text: &str) -> Result<Grant, Stop> {
        match Grant::parse(text) {
            Some(grant) => Ok(grant),
            None => Err(Stop::Refused(Refusal::BadBody)),
        }
    }
}

impl FromArgument for Status {
    ghost reads = { spec.reads_status };

    fn read(_alloc: Global, text: &str) -> Result<Status, Stop> {
        match Status::parse(text) {
            Some(status) => Ok(status),
            None => Err(Stop::Refused(Refusal::BadBody)),
        }
    }
}

impl FromArgument for Selector {
    ghost reads = { spec.reads_selector };

    fn read(alloc: Global, text: &str) -> Result<Selector, Stop> {
        Selector::parse(alloc, text)
    }
}

impl FromArgument for Message {
    ghost reads = { spec.reads_message };

    fn read(alloc: Global, text: &str) -> Result<Message, Stop> {
        Message::parse(alloc, text)
    }
}

impl FromArgument for Asked {
    ghost reads = { spec.reads_asked };

    fn read(alloc: Global, text: &str) -> Result<Asked, Stop> {
        match text {
            LATEST => Ok(Asked::Latest),
            _ => Ok(Asked::Exact(Ver::parse(alloc, text)?)),
        }
    }
}
