//! Registries in files.

ghost use Rattle.std.specs.Prelude.{◌≡◌, Result};
ghost use Rattle.sqlite.specs.Held.{state};
ghost use Rattle.registry_desk.specs.Promises.{Applied};
ghost use Rattle.registry_files.specs.Asked.{told};
ghost use Rattle.registry_http.specs.Services.{Serving, shown};

use registry_desk::Registry;
use registry_files::{Begins, Ending, Registries, open_once};
use registry_http::RegistryService;
use registry_names::Fault;
use registry_rules::{Reply, Request};
use registry_service::Service;
use sqlite::Alter;
use std::alloc::Global;
use std::marker::PhantomData;

/// Registries in files, which are opened from such a start. Each request opens the file at its path,
/// and lets go of it.
#[derive(Drop)]
pub struct InFiles<S: Begins> {
    start: PhantomData<S>,
}

impl<S: Begins> InFiles<S> {
    /// The registries in the files of the machine.
    pub fn new() -> InFiles<S> {
        InFiles { start: PhantomData }
    }
}

impl<S: Begins> Registries for InFiles<S> {
    /// The file is made where there is none.
    fn reply(
        &mut self,
        rt: &HostRuntime,
        alloc: Global,
        path: &str,
        request: &Request,
    ) -> Result<Reply, Ending> {
        match open_once::<S>(rt, path) {
            Ok(registry) => reply_in(alloc, registry, request),
            Err(ending) => Err(ending),
        }
    }
}

// The reply of a registry, whose file is let go of. Its log isn't copied into its file: the next
// open does what is left to do.
fn reply_in<S: Alter + Drop>(
    alloc: Global,
    registry: Registry<S>,
    request: &Request,
) -> Result<Reply, Ending>
    ensures applied { (o : Result Reply Fault) × (N : Serving S)
        × Applied (state S.Store registry) (shown S.Store N) request.now o × (result ≡ told o) }
{
    match outcome_in(alloc, registry, request) {
        Ok(reply) => Ok(reply),
        Err(fault) => Err(Ending::from(fault)),
    }
}

// The outcome of a request, which is asked of the registry alone.
fn outcome_in<S: Alter + Drop>(
    alloc: Global,
    registry: Registry<S>,
    request: &Request,
) -> Result<Reply, Fault>
    ensures applied { (N : Serving S)
        × Applied (state S.Store registry) (shown S.Store N) request.now result }
{
    let mut service = RegistryService::new(registry);
    service.answer(alloc, request)
}

/// The reply of a service, which answers as `Registry::apply` does.
pub fn reply_of<S: Alter>(
    alloc: Global,
    service: &mut RegistryService<S>,
    request: &Request,
) -> Result<Reply, Ending>
    ensures applied { (o : Result Reply Fault)
        × Applied (shown S.Store service.old) (shown S.Store service.new) request.now o
        × (result ≡ told o) }
{
    match service.answer(alloc, request) {
        Ok(reply) => Ok(reply),
        Err(fault) => Err(Ending::from(fault)),
    }
}
