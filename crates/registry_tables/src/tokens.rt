//! The table `tokens`: the digest of each token, and its user. A token's text is kept nowhere.

ghost use Rattle.std.specs.Prelude.{⊤, ◌≡◌, ℕ, List};
ghost use Rattle.registry_names.specs.Maps.{at, erase, put};
ghost use Rattle.registry_rules.specs.State.{tokens_of};
ghost use Rattle.registry_tables.specs.Changes.{IsFree};
ghost use Rattle.registry_tables.specs.Contents.{registry_of};
ghost use Rattle.registry_tables.specs.Inside.{Finds, Makes};
ghost use Rattle.registry_tables.specs.Spelled.{blob_of_row};

use crate::queries::{find, list};
use crate::texts::{TextRow, read_back};
use registry_names::{Fault, Ident, Text};
use registry_publish::TokenDigest;
use registry_rows::{RowKind, write};
use sqlite::types::Type;
use sqlite::{Alter, Error, Row, Transaction, params};
use std::alloc::Global;

/// The user of the token with this digest. `None` where no token has it.
pub fn load_token_user<S: Alter>(
    alloc: Global,
    tx: &mut Transaction<'_, S>,
    digest: &TokenDigest,
) -> Result<Option<Ident>, Fault>
    ensures { Finds S.Store tx.old tx.new result (λ user c. user ≡ at c.tokens digest.now) }
{
    match find_user(tx, digest)? {
        Some(user) => Ok(Some(read_back(Ident::parse(alloc, user.as_str()))?)),
        None => Ok(None),
    }
}

fn find_user<S: Alter>(
    tx: &mut Transaction<'_, S>,
    digest: &TokenDigest,
) -> Result<Option<Text>, Fault>
    ensures { Finds S.Store tx.old tx.new result (λ user c. user ≡ at c.tokens digest.now) }
{
    find::<TextRow, S>(
        tx,
        "SELECT user FROM tokens WHERE digest = ?1",
        params![digest.as_slice()],
    )
}

/// The digests of a user's tokens, in byte order.
pub fn load_user_tokens<S: Alter>(
    alloc: Global,
    tx: &mut Transaction<'_, S>,
    user: &Ident,
) -> Result<Vec<TokenDigest>, Fault>
    ensures { Finds S.Store tx.old tx.new result
        (λ digests c. digests.items ≡ tokens_of (registry_of c) user.now) }
{
    list::<DigestRow, S>(
        alloc,
        tx,
        "SELECT digest FROM tokens WHERE user = ?1 ORDER BY digest",
        params![user.text()],
    )
}

/// Adds a token, by its digest, for this user. A token of the same digest is a fault, and so is a
/// user who isn't there.
pub(crate) fn add_token<S: Alter>(
    tx: &mut Transaction<'_, S>,
    digest: &TokenDigest,
    user: &str,
) -> Result<(), Fault>
    ensures { Makes S.Store tx.old tx.new result
        (λ _ c. IsFree c.tokens digest.now)
        (λ c. record c { tokens = put c.tokens digest.now user.now }) }
{
    write(
        tx,
        "INSERT INTO tokens VALUES (?1, ?2)",
        params![digest.as_slice(), user],
    )
}

/// Drops a token, by its digest, if it is there.
pub(crate) fn drop_token<S: Alter>(
    tx: &mut Transaction<'_, S>,
    digest: &TokenDigest,
) -> Result<(), Fault>
    ensures { Makes S.Store tx.old tx.new result
        (λ _ _. ⊤)
        (λ c. record c { tokens = erase c.tokens digest.now }) }
{
    write(
        tx,
        "DELETE FROM tokens WHERE digest = ?1",
        params![digest.as_slice()],
    )
}

// The digest of a token, alone.
struct DigestRow;

impl RowKind for DigestRow {
    type Value = TokenDigest;

    ghost Seen = { List ℕ };

    ghost seen = { λ digest. digest };

    ghost spelled = { blob_of_row };

    // Bytes that are no digest are an error, since none are ever written.
    fn read(row: &Row) -> Result<TokenDigest, Error> {
        let bytes: Vec<u8> = row.get(0)?;
        match TokenDigest::from_slice(bytes.as_slice()) {
            Some(digest) => Ok(digest),
            None => Err(Error::InvalidColumnType(0, Type::Blob)),
        }
    }
}
