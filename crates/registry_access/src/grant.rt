//! What a team is granted.

ghost use Rattle.std.specs.Prelude.{◌≡◌, Some};
ghost use Rattle.registry_access.specs.Spellings.{grant_named, grant_text};

use std::fmt;

/// What a team of an organisation is granted on a package of its scope. A team that is granted
/// nothing has no grant.
#[derive(Clone, Copy, Debug, PartialEq, Eq)]
pub enum Grant {
    /// Its members see the package.
    ReadOnly,
    /// They also publish its versions, and change and withdraw them.
    ReadWrite,
}

impl Grant {
    /// The grant that a text spells: `read-only` or `read-write`. `None` is returned for any other
    /// text.
    pub fn parse(text: &str) -> Option<Grant>
        ensures { result ≡ grant_named text.now }
    {
        match text {
            "read-only" => Some(Grant::ReadOnly),
            "read-write" => Some(Grant::ReadWrite),
            _ => None,
        }
    }

    /// The text that spells it, such as `read-only`.
    pub fn text(self) -> &'static str
        ensures { result.now ≡ grant_text self }
    {
        match self {
            Grant::ReadOnly => "read-only",
            Grant::ReadWrite => "read-write",
        }
    }
}

impl fmt::Display for Grant {
    ghost output = { λ grant. Some (grant_text grant) };

    fn fmt<W: fmt::Write>(&self, f: &mut fmt::Formatter<W>) -> fmt::Result {
        f.write_str(self.text())
    }
}
