use registry_names::Fault;

/// Where a walk is.
#[derive(Clone, Copy)]
pub(crate) enum Stage {
    /// It goes on.
    Goes,
    /// It has given every version.
    Over,
    /// It stopped at this fault.
    Stopped(Fault),
}
