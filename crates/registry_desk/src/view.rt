//! How a packument is shown.

ghost use Rattle.std.specs.Prelude.{◌≡◌};
ghost use Rattle.registry_desk.specs.Views.{form_of};

use registry_packument::PackForm;

/// How a packument is shown.
#[derive(Clone, Copy)]
pub(crate) enum View {
    /// The full packument.
    Full,
    /// The abbreviated one: what an install reads.
    Abbreviated,
    /// The full one as npm reads it: before its first member its revision and the maintainers.
    Revised,
}

impl View {
    /// The form of the packument of which it is made.
    pub(crate) fn form(self) -> PackForm
        ensures { result ≡ form_of self }
    {
        match self {
            View::Full | View::Revised => PackForm::Full,
            View::Abbreviated => PackForm::Abbreviated,
        }
    }
}
