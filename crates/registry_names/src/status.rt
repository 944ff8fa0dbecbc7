//! Who may read a package.

ghost use Rattle.std.specs.Prelude.{◌≡◌, Some};
ghost use Rattle.registry_names.specs.Spellings.{status_named, status_text};

use std::fmt;

/// Who may read a package, besides those who are granted it and the owners and admins of its scope.
#[derive(Clone, Copy, Debug, PartialEq, Eq)]
pub enum Status {
    /// Everybody.
    Public,
    /// Nobody. To others it looks as if it had never been published, except to a member of its
    /// scope who publishes its name.
    Restricted,
}

impl Status {
    /// The status that a text spells: `public` or `restricted`. `None` is returned for any other
    /// text.
    pub fn parse(text: &str) -> Option<Status>
        ensures { result ≡ status_named text.now }
    {
        match text {
            "public" => Some(Status::Public),
            "restricted" => Some(Status::Restricted),
            _ => None,
        }
    }

    /// The text that spells it, such as `public`.
    pub fn text(self) -> &'static str
        ensures { result.now ≡ status_text self }
    {
        match self {
            Status::Public => "public",
            Status::Restricted => "restricted",
        }
    }
}

impl fmt::Display for Status {
    ghost output = { λ status. Some (status_text status) };

    fn fmt<W: fmt::Write>(&self, f: &mut fmt::Formatter<W>) -> fmt::Result {
        f.write_str(self.text())
    }
}
