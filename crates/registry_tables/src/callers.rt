//! Who asks.

ghost use Rattle.std.specs.Prelude.{◌≡◌, IfOk, None};
ghost use Rattle.registry_rules.specs.Callers.{caller_of};
ghost use Rattle.registry_rules.specs.declared.request.Credential.TheVariants as shown_as;
ghost use Rattle.registry_tables.specs.Contents.{registry_of};
ghost use Rattle.registry_tables.specs.Inside.{Finds, IsOpen, Knows};

use crate::texts::read_back;
use crate::tokens::load_token_user;
use crate::users::has_user;
use registry_access::Caller;
use registry_names::{Fault, Ident};
use registry_publish::TokenDigest;
use registry_rules::Credential;
use sqlite::{Alter, Transaction};
use std::alloc::Global;

/// The caller of a credential: a user who is there, or the one whose token it is. `None` where it
/// names nobody. Nothing is asked of the operator, nor of somebody without a credential.
pub fn load_caller<S: Alter>(
    alloc: Global,
    tx: &mut Transaction<'_, S>,
    who: &Credential,
) -> Result<Option<Caller>, Fault>
    ensures knows { Knows S.Store tx.old tx.new result
        (λ caller c. caller ≡ caller_of (registry_of c) who.now) }
    ensures nobody { IfOk result (λ caller. caller ≡ None → IsOpen S.Store tx.new) }
{
    match who {
        Credential::Operator => Ok(Some(Caller::Operator)),
        Credential::User(user) => load_user(alloc, tx, user),
        Credential::Token(digest) => load_token(alloc, tx, digest),
        Credential::Anonymous => Ok(Some(Caller::Anonymous)),
    }
}

fn load_user<S: Alter>(
    alloc: Global,
    tx: &mut Transaction<'_, S>,
    user: &Ident,
) -> Result<Option<Caller>, Fault>
    ensures { Finds S.Store tx.old tx.new result
        (λ caller c. caller ≡ caller_of (registry_of c) (shown_as.User user.now)) }
{
    if has_user(tx, user)? {
        let user = read_back(Ident::parse(alloc, user.text()))?;
        Ok(Some(Caller::User(user)))
    } else {
        Ok(None)
    }
}

fn load_token<S: Alter>(
    alloc: Global,
    tx: &mut Transaction<'_, S>,
    digest: &TokenDigest,
) -> Result<Option<Caller>, Fault>
    ensures { Finds S.Store tx.old tx.new result
        (λ caller c. caller ≡ caller_of (registry_of c) (shown_as.Token digest.now)) }
{
    let user = load_token_user(alloc, tx, digest)?;
    Ok(user.map(Caller::User))
}
