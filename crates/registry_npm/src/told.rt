//! What requests came to, where that may be a packument, which lies in two pieces.

ghost use Rattle.std.specs.Prelude.{◌≡◌, Err};
ghost use Rattle.registry_service.specs.Turns as turns;

use crate::shown;
use registry_names::{Fault, Stop};
use registry_service::Told;

/// What is answered where a request isn't in form.
pub(crate) fn stopped(stop: Stop) -> Told
    ensures { result ≡ turns.stopped stop }
{
    Told::of(shown::stopped(stop))
}

/// A fault.
pub(crate) fn faulted(fault: Fault) -> Told
    ensures { result ≡ Err fault }
{
    Told::of(Err(fault))
}
