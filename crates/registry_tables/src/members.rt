//! The table `members`: the members of every organisation, each with their role.

ghost use Rattle.std.specs.Prelude.{⊤, ◌≡◌, ◌&&◌, IfOk, Some, map, not};
ghost use Rattle.std.specs.List.{list_any};
ghost use Rattle.registry_access.specs.declared.role.Role.{Role as Rank};
ghost use Rattle.registry_access.specs.Levels.{is_owner};
ghost use Rattle.registry_names.specs.Maps.{at, of, put};
ghost use Rattle.registry_names.specs.Texts.{Text as Bytes, is};
ghost use Rattle.registry_rules.specs.State as spec;
ghost use Rattle.registry_tables.specs.Contents.{access_of, registry_of};
ghost use Rattle.registry_tables.specs.Inside.{Finds, Makes};
ghost use Rattle.registry_tables.specs.Levels.{firsts_of};
ghost use Rattle.registry_tables.specs.Numbers.{role_number};
ghost use Rattle.registry_tables.specs.Spelled.{member_entry, member_spelled, role_spelled};
ghost use Rattle.registry_tables.specs.Teams.{without_member};

use crate::queries::{find, list, texts};
use registry_access::Role;
use registry_names::{Fault, Ident, Text};
use registry_packument::Member;
use registry_rows::{RowKind, write};
use sqlite::{Alter, Error, Row, Transaction, params};
use std::alloc::Global;

/// The role of a user in an organisation. `None` where they aren't a member of it.
pub fn load_role<S: Alter>(
    tx: &mut Transaction<'_, S>,
    organisation: &Ident,
    user: &Ident,
) -> Result<Option<Role>, Fault>
    ensures { Finds S.Store tx.old tx.new result
        (λ role c. role ≡ at (access_of c).roles (organisation.now, user.now)) }
{
    find_role(tx, organisation.text(), user)
}

/// The same of an organisation by its text.
pub(crate) fn find_role<S: Alter>(
    tx: &mut Transaction<'_, S>,
    organisation: &str,
    user: &Ident,
) -> Result<Option<Role>, Fault>
    ensures { Finds S.Store tx.old tx.new result
        (λ role c. role ≡ at (access_of c).roles (organisation.now, user.now)) }
{
    find::<RoleRow, S>(
        tx,
        "SELECT role FROM members WHERE org = ?1 AND user = ?2",
        params![organisation, user.text()],
    )
}

/// The members of an organisation with their roles, in byte order of their names.
pub fn load_members<S: Alter>(
    alloc: Global,
    tx: &mut Transaction<'_, S>,
    organisation: &Ident,
) -> Result<Vec<Member>, Fault>
    ensures { Finds S.Store tx.old tx.new result
        (λ members c. map member_entry members.items ≡ of (access_of c).roles organisation.now) }
{
    list::<ListedMember, S>(
        alloc,
        tx,
        "SELECT user, role FROM members WHERE org = ?1 ORDER BY user",
        params![organisation.text()],
    )
}

/// The organisations of which a user is a member, in byte order.
pub(crate) fn load_user_organisations<S: Alter>(
    alloc: Global,
    tx: &mut Transaction<'_, S>,
    user: &Ident,
) -> Result<Vec<Text>, Fault>
    ensures { Finds S.Store tx.old tx.new result
        (λ organisations c. organisations.items ≡ firsts_of c.members user.now) }
{
    texts(
        alloc,
        tx,
        "SELECT org FROM members WHERE user = ?1 ORDER BY org, user",
        params![user.text()],
    )
}

/// Whether another member of the organisation than this user is an owner.
pub fn has_other_owner<S: Alter>(
    alloc: Global,
    tx: &mut Transaction<'_, S>,
    organisation: &Ident,
    user: &Ident,
) -> Result<bool, Fault>
    ensures { Finds S.Store tx.old tx.new result
        (λ has c. has ≡ spec.has_other_owner (registry_of c) organisation.now user.now) }
{
    let members = load_members(alloc, tx, organisation)?;
    Ok(owned_by_another(&members, user.text()))
}

fn owned_by_another(members: &[Member], user: &str) -> bool
    ensures { result
        ≡ list_any (λ m. not (is m.user user.now) && is_owner (Some m.role)) members.now }
{
    members.iter().any(|member| !names(member, user) && matches!(member.role, Role::Owner))
}

#[tactic(auto, unfolding(registry_names::specs::Texts::is))]
fn names(member: &Member, user: &str) -> bool
    ensures { result ≡ is member.now.user user.now }
{
    member.user.as_str() == user
}

/// Gives a user this role in an organisation, whatever they had there before.
pub(crate) fn put_member<S: Alter>(
    tx: &mut Transaction<'_, S>,
    organisation: &str,
    user: &str,
    role: Role,
) -> Result<(), Fault>
    ensures { Makes S.Store tx.old tx.new result
        (λ _ _. ⊤)
        (λ c. record c {
          members = put c.members (organisation.now, user.now) (role_number role);
        }) }
{
    write(
        tx,
        "INSERT INTO members VALUES (?1, ?2, ?3) ON CONFLICT (org, user) DO UPDATE SET role = ?3",
        params![organisation, user, number_of(role)],
    )
}

/// Drops a member of an organisation, if they are one, and drops them from each of its teams.
pub(crate) fn drop_member<S: Alter>(
    tx: &mut Transaction<'_, S>,
    organisation: &str,
    user: &str,
) -> Result<(), Fault>
    ensures { Makes S.Store tx.old tx.new result
        (λ _ _. ⊤)
        (without_member organisation.now user.now) }
{
    write(
        tx,
        "DELETE FROM members WHERE org = ?1 AND user = ?2",
        params![organisation, user],
    )
}

// A role alone.
struct RoleRow;

impl RowKind for RoleRow {
    type Value = Role;

    ghost Seen = { Rank };

    ghost seen = { λ role. role };

    ghost spelled = { role_spelled };

    fn read(row: &Row) -> Result<Role, Error> {
        role_of(row.get(0)?)
    }
}

// A member and their role.
struct ListedMember;

impl RowKind for ListedMember {
    type Value = Member;

    ghost Seen = { Bytes × Rank };

    ghost seen = { member_entry };

    ghost spelled = { member_spelled };

    fn read(row: &Row) -> Result<Member, Error> {
        let user: String = row.get(0)?;
        let number: i64 = row.get(1)?;
        Ok(Member {
            user: Text::from(user),
            role: role_of(number)?,
        })
    }
}

fn number_of(role: Role) -> i64
    ensures { result ≡ role_number role }
{
    match role {
        Role::Developer => 0,
        Role::Admin => 1,
        Role::Owner => 2,
    }
}

// No other number is ever written.
fn role_of(number: i64) -> Result<Role, Error>
    ensures { IfOk result (λ role. number ≡ role_number role) }
{
    match number {
        0 => Ok(Role::Developer),
        1 => Ok(Role::Admin),
        2 => Ok(Role::Owner),
        _ => Err(Error::IntegralValueOutOfRange(0)),
    }
}
