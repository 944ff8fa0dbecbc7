//! The table `users`: everybody who may ask in a name of their own.

ghost use Rattle.std.specs.Prelude.{◌≡◌, [], is_some, length, map};
ghost use Rattle.registry_names.specs.Maps.{at, entries, keys, put};
ghost use Rattle.registry_rules.specs.State.{tokens_of};
ghost use Rattle.registry_tables.specs.Changes.{IsFree};
ghost use Rattle.registry_tables.specs.Contents.{registry_of};
ghost use Rattle.registry_tables.specs.Inside.{Finds, Knows, Makes};
ghost use Rattle.registry_tables.specs.Overviews.{counted, users_counted};

use crate::queries::{has, texts};
use crate::texts::read_back;
use crate::tokens::load_user_tokens;
use registry_names::{Fault, Ident, Text};
use registry_packument::TokenCount;
use registry_rows::write;
use sqlite::{Alter, Transaction, params};
use std::alloc::Global;

/// Whether there is a user of this name.
pub fn has_user<S: Alter>(tx: &mut Transaction<'_, S>, user: &Ident) -> Result<bool, Fault>
    ensures { Finds S.Store tx.old tx.new result (λ has c. has ≡ is_some (at c.users user.now)) }
{
    has(
        tx,
        "SELECT name FROM users WHERE name = ?1",
        params![user.text()],
    )
}

/// Whether there is a user without a name. There is none, but a request that needs nothing asks for
/// this, so that it fails, too, where the registry is shut.
pub fn has_nameless_user<S: Alter>(tx: &mut Transaction<'_, S>) -> Result<bool, Fault>
    ensures { Finds S.Store tx.old tx.new result (λ has c. has ≡ is_some (at c.users [])) }
{
    has(tx, "SELECT name FROM users WHERE name = ?1", params![""])
}

/// All users, in byte order, each with how many tokens they have.
pub fn load_users<S: Alter>(
    alloc: Global,
    tx: &mut Transaction<'_, S>,
) -> Result<Vec<TokenCount>, Fault>
    ensures { Finds S.Store tx.old tx.new result (λ users c. users.items ≡ users_counted c) }
{
    let names = load_names(alloc, tx)?;
    with_counts(alloc, tx, names)
}

// The names of all users, in byte order.
fn load_names<S: Alter>(alloc: Global, tx: &mut Transaction<'_, S>) -> Result<Vec<Text>, Fault>
    ensures { Finds S.Store tx.old tx.new result (λ names c. names.items ≡ keys (entries c.users)) }
{
    texts(alloc, tx, "SELECT name FROM users ORDER BY name", &[])
}

// Each of these users, with how many tokens they have.
fn with_counts<S: Alter>(
    alloc: Global,
    tx: &mut Transaction<'_, S>,
    names: Vec<Text>,
) -> Result<Vec<TokenCount>, Fault>
    ensures { Knows S.Store tx.old tx.new result
        (λ users c. users.items ≡ map (counted c) names.items) }
{
    let mut users = Vec::new(alloc);
    for name in names {
        let user = with_count(alloc, tx, name)?;
        users.push(user)?;
    }
    Ok(users)
}

// A user with how many tokens they have.
fn with_count<S: Alter>(
    alloc: Global,
    tx: &mut Transaction<'_, S>,
    name: Text,
) -> Result<TokenCount, Fault>
    ensures { Finds S.Store tx.old tx.new result (λ user c. user ≡ counted c name) }
{
    let tokens = count_tokens(alloc, tx, &name)?;
    Ok(TokenCount { user: name, tokens })
}

// How many tokens a user has.
fn count_tokens<S: Alter>(
    alloc: Global,
    tx: &mut Transaction<'_, S>,
    name: &Text,
) -> Result<u64, Fault>
    ensures { Finds S.Store tx.old tx.new result
        (λ count c. count ≡ length (tokens_of (registry_of c) name.now)) }
{
    let user = read_back(Ident::parse(alloc, name.as_str()))?;
    let tokens = load_user_tokens(alloc, tx, &user)?;
    Ok(tokens.len() as u64)
}

/// Adds a user. A user of the same name is a fault.
pub(crate) fn add_user<S: Alter>(tx: &mut Transaction<'_, S>, user: &str) -> Result<(), Fault>
    ensures { Makes S.Store tx.old tx.new result
        (λ _ c. IsFree c.users user.now)
        (λ c. record c { users = put c.users user.now tt }) }
{
    write(tx, "INSERT INTO users VALUES (?1)", params![user])
}
