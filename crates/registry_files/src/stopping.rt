//! Ending the server that has a registry's file.

use crate::begins::Begins;
use crate::beside::{TRIES, busy, end_server, pause};
use crate::ending::{Ending, Failure, Trouble};
use crate::opening::is_taken;
use std::alloc::Global;

/// Ends the server that has the registry's file at the path, once everything that is under way is
/// answered, and returns after it has ended. It waits for a server that is just starting, for five
/// seconds.
///
/// A fault is returned where the file isn't there, or no process has it: then nobody was asked to
/// end.
pub fn stop<S: Begins>(rt: &HostRuntime, alloc: Global, path: &str) -> Result<(), Ending> {
    for _ in 0..TRIES {
        if end_server(rt, alloc, path)? {
            return Ok(());
        }
        if !is_taken::<S>(rt, path)? {
            return Err(Ending::Fault(Failure::Server(Trouble::NoServer)));
        }
        pause(rt);
    }
    Err(busy())
}
