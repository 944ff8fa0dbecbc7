//! What a caller may do with a package.

ghost use Rattle.std.specs.Prelude.{◌≡◌};
ghost use Rattle.registry_access.specs.Spellings.{level_text};

/// What a caller may do with a package, in rising order.
#[derive(Clone, Copy, Debug, PartialEq, Eq, PartialOrd, Ord)]
pub enum Level {
    /// As if the package had never been published, except to a member of its scope who publishes
    /// it.
    Nothing,
    /// To see it.
    Read,
    /// Also to publish, change and withdraw its versions.
    Write,
}

impl Level {
    /// The text that spells it: `nothing`, `read` or `write`.
    pub fn text(self) -> &'static str
        ensures { result.now ≡ level_text self }
    {
        match self {
            Level::Nothing => "nothing",
            Level::Read => "read",
            Level::Write => "write",
        }
    }
}
