//! Lists: what the registry answers of tags, members, names and grants, and of all users and
//! packages.

ghost use Rattle.std.specs.Prelude.{◌≡◌, ◌++◌, IfOk, IfErr, OnOk, string_bytes};
ghost use Rattle.serde_json.specs.Data.{object};
ghost use Rattle.serde_json.specs.Written.{compact_text, members_text};
ghost use Rattle.registry_packument.specs.Lists.{tag_texts, member_texts, grant_texts, level_texts, count_member, overview_member, overview_members, status_member, username_member, list_value};

use crate::json_text::{
    TextMember, ValueMember, push_array, push_key, push_number, push_object, push_text_member,
    push_values,
};
use registry_access::{Grant, Level, Role};
use registry_names::{DistTag, Fault, LATEST, Status, Text};
use std::alloc::{AllocError, Global};

/// A member of an organisation.
#[derive(Drop)]
pub struct Member {
    /// The user's name.
    pub user: Text,
    /// What they are in it.
    pub role: Role,
}

/// What a team is granted on a package.
#[derive(Drop)]
pub struct Granted {
    /// The package's name.
    pub name: Text,
    /// What is granted on it.
    pub grant: Grant,
}

/// A package that a caller reads, and what they may do with it.
#[derive(Drop)]
pub struct PackageLevel {
    /// The package's name.
    pub name: Text,
    /// Whether they read it, or also write it.
    pub level: Level,
}

/// A user, and how many tokens they have.
#[derive(Drop)]
pub struct TokenCount {
    /// The user's name.
    pub user: Text,
    /// How many tokens name them.
    pub tokens: u64,
}

/// A package that was published, now or once.
#[derive(Drop)]
pub struct Overview {
    /// The package's name.
    pub name: Text,
    /// Who may read it.
    pub status: Status,
    /// The version that `latest` names. `None` where no version lives.
    pub latest: Option<Text>,
}

/// A list that the registry answers with. Its rows are in byte order of their first text, each
/// text once.
#[derive(Drop)]
pub enum List {
    /// The dist-tags of a package.
    Tags(Vec<DistTag>),
    /// The members of an organisation.
    Members(Vec<Member>),
    /// Names, as those of an organisation's teams, of a team's members, or of maintainers.
    Names(Vec<Text>),
    /// The grants to a team.
    Grants(Vec<Granted>),
    /// Packages that the caller reads.
    Levels(Vec<PackageLevel>),
    /// The name of the user who asks.
    Username(Text),
    /// All users.
    Users(Vec<TokenCount>),
    /// All packages.
    Packages(Vec<Overview>),
}

impl TextMember for DistTag {
    ghost pair = { tag_texts };

    fn key(&self) -> &str {
        self.tag.as_str()
    }

    fn text(&self) -> &str {
        self.version.as_str()
    }
}

impl TextMember for Member {
    ghost pair = { member_texts };

    fn key(&self) -> &str {
        self.user.as_str()
    }

    fn text(&self) -> &str {
        self.role.text()
    }
}

impl TextMember for Granted {
    ghost pair = { grant_texts };

    fn key(&self) -> &str {
        self.name.as_str()
    }

    fn text(&self) -> &str {
        self.grant.text()
    }
}

impl TextMember for PackageLevel {
    ghost pair = { level_texts };

    fn key(&self) -> &str {
        self.name.as_str()
    }

    fn text(&self) -> &str {
        self.level.text()
    }
}

impl ValueMember for TokenCount {
    ghost member = { count_member };

    fn push(&self, alloc: Global, out: &mut String, later: bool) -> Result<(), AllocError> {
        push_key(alloc, out, later, self.user.as_str())?;
        push_number(alloc, out, self.tokens)
    }
}

impl ValueMember for Overview {
    ghost member = { overview_member };

    fn push(&self, alloc: Global, out: &mut String, later: bool) -> Result<(), AllocError> {
        push_key(alloc, out, later, self.name.as_str())?;
        push_overview(alloc, out, &self.latest, self.status)
    }
}

// What is shown of a package, as an object.
fn push_overview(
    alloc: Global,
    out: &mut String,
    latest: &Option<Text>,
    status: Status,
) -> Result<(), AllocError>
    ensures { OnOk result (string_bytes out.new
        ≡ string_bytes out.old ++ compact_text (object (overview_members latest.now status))) }
{
    out.push_str("{")?;
    match latest {
        Some(version) => {
            push_text_member(alloc, out, false, LATEST, version.as_str())?;
            push_status(alloc, out, true, status)
        }
        None => push_status(alloc, out, false, status),
    }
}

// The status, as the last member of an object.
fn push_status(
    alloc: Global,
    out: &mut String,
    later: bool,
    status: Status,
) -> Result<(), AllocError>
    ensures { OnOk result (string_bytes out.new
        ≡ string_bytes out.old ++ members_text later (status_member status)) }
{
    push_text_member(alloc, out, later, "status", status.text())?;
    out.push_str("}")
}

// An object with the name of a user alone.
fn push_username(alloc: Global, out: &mut String, name: &str) -> Result<(), AllocError>
    ensures { OnOk result (string_bytes out.new
        ≡ string_bytes out.old ++ compact_text (object (username_member name.now))) }
{
    out.push_str("{")?;
    push_text_member(alloc, out, false, "username", name)?;
    out.push_str("}")
}

/// A list in compact JSON. It is an object, an array of names, or an object with the name of a user as
/// `username`. An object has as its members
///
/// - tags with their versions;
/// - users with `developer`, `admin` or `owner`, or with the number of their tokens;
/// - packages with `read-only` or `read-write`, or with `read` or `write`;
/// - packages with objects, each with `status`, which is `public` or `restricted`, and with `latest` if
///   a version lives.
///
/// The rows are written as they come, in byte order and each once. `Memory` is returned when no
/// memory is left, and no other fault is returned.
pub fn list_text(alloc: Global, list: &List) -> Result<Text, Fault>
    ensures ok { IfOk result (λ text. text ≡ compact_text (list_value list.now)) }
    ensures err { IfErr result (λ fault. fault ≡ Fault.Memory) }
{
    let mut out = String::new(alloc);
    match list {
        List::Tags(rows) => push_object(alloc, &mut out, rows)?,
        List::Members(rows) => push_object(alloc, &mut out, rows)?,
        List::Names(names) => push_array(alloc, &mut out, names)?,
        List::Grants(rows) => push_object(alloc, &mut out, rows)?,
        List::Levels(rows) => push_object(alloc, &mut out, rows)?,
        List::Username(name) => push_username(alloc, &mut out, name.as_str())?,
        List::Users(rows) => push_values(alloc, &mut out, rows)?,
        List::Packages(rows) => push_values(alloc, &mut out, rows)?,
    }
    Ok(Text::from(out))
}
