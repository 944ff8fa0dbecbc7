//! What a member is in an organisation.

ghost use Rattle.std.specs.Prelude.{◌≡◌, Some};
ghost use Rattle.registry_access.specs.Spellings.{role_named, role_text};

use std::fmt;

/// What a member is in an organisation.
#[derive(Clone, Copy, Debug, PartialEq, Eq)]
pub enum Role {
    /// Publishes new packages of the scope, and has what their teams are granted.
    Developer,
    /// Also writes each package of the scope, and manages the teams and their grants.
    Admin,
    /// Also manages the members.
    Owner,
}

impl Role {
    /// The role that a text spells: `developer`, `admin` or `owner`. `None` is returned for any
    /// other text.
    pub fn parse(text: &str) -> Option<Role>
        ensures { result ≡ role_named text.now }
    {
        match text {
            "developer" => Some(Role::Developer),
            "admin" => Some(Role::Admin),
            "owner" => Some(Role::Owner),
            _ => None,
        }
    }

    /// The text that spells it, such as `developer`.
    pub fn text(self) -> &'static str
        ensures { result.now ≡ role_text self }
    {
        match self {
            Role::Developer => "developer",
            Role::Admin => "admin",
            Role::Owner => "owner",
        }
    }
}

impl fmt::Display for Role {
    ghost output = { λ role. Some (role_text role) };

    fn fmt<W: fmt::Write>(&self, f: &mut fmt::Formatter<W>) -> fmt::Result {
        f.write_str(self.text())
    }
}
