//! Why the registry turns a request away, and what is printed of it.

ghost use Rattle.std.specs.Prelude.{◌≡◌, Some};
ghost use Rattle.registry_names.specs.Refusals as spec;
ghost use Rattle.registry_names.specs.Refusals.{refusal_status, refusal_text};

use std::error::Error;
use std::fmt;

/// A rule of access: who may do what. Its name is printed after `Denied`.
#[derive(Clone, Copy, Debug, PartialEq, Eq)]
pub enum Rule {
    /// The operator manages users, tokens and organisations.
    A1,
    /// An owner of an organisation manages its members.
    A2,
    /// An owner or an admin of an organisation manages its teams and their grants.
    A3,
    /// A member of an organisation, in any role, publishes a new name of its scope.
    A4,
    /// Any user publishes a new name that has no scope.
    A5,
    /// Anyone who may write a package publishes its further versions, and changes its status, its
    /// tags and its deprecations, and withdraws its versions.
    A6,
    /// A maintainer of a package manages its maintainers.
    A7,
    /// Anyone who may read a package sees it.
    A8,
    /// A member of an organisation sees its members, its teams and their grants.
    A9,
    /// A user ends each of their own tokens.
    A10,
}

/// Why a request is refused. Where several reasons hold, the first that is tested is answered.
///
/// A text that is out of form is refused where it is read, and each reader says in which order it
/// tests. A request in form is refused by `NoCaller`, `NotFound` or `Denied`, or else by what the
/// registry holds, and these reasons are tested in the order in which they come here.
#[derive(Clone, Copy, Debug, PartialEq, Eq)]
pub enum Refusal {
    /// A text isn't the name of a package, a user, an organisation or a team.
    BadName,
    /// A text isn't a version.
    BadVersion,
    /// A tag could be read as a range of versions.
    RangeTag,
    /// A text isn't a tag.
    BadTag,
    /// A body, or a value in it, isn't what is asked for.
    BadBody,
    /// A manifest states an integrity that isn't the archive's.
    BadIntegrity,
    /// A body has more bytes than are read.
    TooLarge,
    /// The credential names nobody, or an anonymous caller asks for anything but to see a package.
    NoCaller,
    /// What is named isn't there, or the caller may not see it.
    NotFound,
    /// The rule of access that would allow it, one of A1 to A10, doesn't.
    Denied(Rule),
    /// The version is published already.
    Published,
    /// The version was published once and withdrawn: its number is never used again.
    Spent,
    /// The version was published too long ago to be withdrawn.
    TooLate,
    /// A version of another package needs this one.
    Depended,
    /// `latest` can't be removed while a version lives.
    KeepsLatest,
    /// A text isn't a selector.
    BadSelector,
    /// The last owner of an organisation, or the last maintainer of a package, would be removed.
    LastOwner,
    /// The team `developers` can't be destroyed.
    KeepsDevelopers,
    /// What would be created is already there.
    Exists,
    /// A package of another scope can't be granted.
    OtherScope,
    /// A package without a scope can't be restricted.
    AlwaysPublic,
    /// Too little time has passed since the last version was withdrawn.
    Waiting,
    /// A document was made of an older state of its package. Only npm's own requests are refused so.
    Stale,
    /// npm asks for something that this registry doesn't do. Only npm's own requests are refused so.
    NotServed,
}

impl Refusal {
    /// The name that is printed, such as `BadName`; after `Denied` the rule's, such as `Denied A6`.
    pub fn text(self) -> &'static str
        ensures { result.now ≡ refusal_text self }
    {
        match self {
            Refusal::BadName => "BadName",
            Refusal::BadVersion => "BadVersion",
            Refusal::RangeTag => "RangeTag",
            Refusal::BadTag => "BadTag",
            Refusal::BadBody => "BadBody",
            Refusal::BadIntegrity => "BadIntegrity",
            Refusal::TooLarge => "TooLarge",
            Refusal::NoCaller => "NoCaller",
            Refusal::NotFound => "NotFound",
            Refusal::Denied(rule) => denied_text(rule),
            Refusal::Published => "Published",
            Refusal::Spent => "Spent",
            Refusal::TooLate => "TooLate",
            Refusal::Depended => "Depended",
            Refusal::KeepsLatest => "KeepsLatest",
            Refusal::BadSelector => "BadSelector",
            Refusal::LastOwner => "LastOwner",
            Refusal::KeepsDevelopers => "KeepsDevelopers",
            Refusal::Exists => "Exists",
            Refusal::OtherScope => "OtherScope",
            Refusal::AlwaysPublic => "AlwaysPublic",
            Refusal::Waiting => "Waiting",
            Refusal::Stale => "Stale",
            Refusal::NotServed => "NotServed",
        }
    }

    /// The HTTP status code (RFC 9110) of a response that says so.
    pub fn status(self) -> u16
        ensures { result ≡ refusal_status self }
    {
        match self {
            Refusal::BadName
            | Refusal::BadVersion
            | Refusal::RangeTag
            | Refusal::BadTag
            | Refusal::BadBody
            | Refusal::BadIntegrity
            | Refusal::BadSelector => 400,
            Refusal::TooLarge => 413,
            Refusal::NoCaller => 401,
            Refusal::NotFound => 404,
            Refusal::Denied(_) => 403,
            Refusal::Published
            | Refusal::Spent
            | Refusal::TooLate
            | Refusal::Depended
            | Refusal::KeepsLatest
            | Refusal::LastOwner
            | Refusal::KeepsDevelopers
            | Refusal::Exists
            | Refusal::OtherScope
            | Refusal::AlwaysPublic
            | Refusal::Waiting
            | Refusal::Stale => 409,
            Refusal::NotServed => 405,
        }
    }
}

impl fmt::Display for Refusal {
    ghost output = { λ refusal. Some (refusal_text refusal) };

    fn fmt<W: fmt::Write>(&self, f: &mut fmt::Formatter<W>) -> fmt::Result {
        f.write_str(self.text())
    }
}

impl Error for Refusal {}

fn denied_text(rule: Rule) -> &'static str
    ensures { result.now ≡ spec.denied_text rule }
{
    match rule {
        Rule::A1 => "Denied A1",
        Rule::A2 => "Denied A2",
        Rule::A3 => "Denied A3",
        Rule::A4 => "Denied A4",
        Rule::A5 => "Denied A5",
        Rule::A6 => "Denied A6",
        Rule::A7 => "Denied A7",
        Rule::A8 => "Denied A8",
        Rule::A9 => "Denied A9",
        Rule::A10 => "Denied A10",
    }
}
