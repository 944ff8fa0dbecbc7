//! The registries that command lines name by their paths.

use crate::ending::Ending;
use registry_rules::{Reply, Request};
use std::alloc::Global;

/// What answers the requests of command lines.
pub trait Registries {
    /// The reply of the registry at the path, or why there is none.
    fn reply(
        &mut self,
        rt: &HostRuntime,
        alloc: Global,
        path: &str,
        request: &Request,
    ) -> Result<Reply, Ending>;
}
