//! The registry of a story, in memory or in a file.

use crate::failure::{Stop, failed_with};
use registry_desk::Registry;
use registry_files::{Ending, Registries};
use registry_http::RegistryService;
use registry_names::Fault;
use registry_program::{InFiles, reply_of};
use registry_rules::{Reply, Request};
use sqlite::{MemStore, Unknown};
use std::alloc::Global;

/// The file of the registry that command lines ask where they name no other.
pub const DB: &str = "registry.db";

/// Where the registry of a story is.
#[derive(Drop)]
pub enum StoryRegistry {
    /// In memory, from the beginning of the story to its end.
    InMemory(RegistryService<MemStore>),
    /// In the file `registry.db`, which each command and each connection opens and lets go of.
    InFile,
}

impl StoryRegistry {
    /// An empty registry in memory.
    pub fn in_memory(alloc: Global) -> Result<StoryRegistry, Stop> {
        match Registry::in_memory(alloc) {
            Ok(registry) => Ok(StoryRegistry::InMemory(RegistryService::new(registry))),
            Err(Fault::Memory) => Err(Stop::Memory),
            Err(Fault::Database) => Err(failed_with(alloc, "no registry can be made in memory")),
        }
    }
}

impl Registries for StoryRegistry {
    /// A file other than `registry.db` is always opened.
    fn reply(
        &mut self,
        rt: &HostRuntime,
        alloc: Global,
        path: &str,
        request: &Request,
    ) -> Result<Reply, Ending> {
        match self {
            StoryRegistry::InMemory(service) if path == DB => reply_of(alloc, service, request),
            _ => InFiles::<Unknown>::new().reply(rt, alloc, path, request),
        }
    }
}
