//! What decides an action about users and their tokens.

ghost use Rattle.registry_access.specs.declared.caller.Caller.{Caller as Asker};
ghost use Rattle.registry_tables.specs.Inside.{Finds};
ghost use Rattle.registry_rules.specs.declared.request.Action.TheVariants as asked;
ghost use Rattle.registry_desk.specs.Early.{Decides, DecidesOfCaller};

use crate::policy::Found;
use registry_access::{Caller, may_operate};
use registry_names::{Fault, Ident};
use registry_publish::TokenDigest;
use registry_rules::About;
use registry_tables::{has_nameless_user, has_user, load_token_user, load_user_tokens};
use sqlite::{Alter, Transaction};
use std::alloc::Global;

/// Loads what decides whether a user is added.
pub(crate) fn facts_for_user_add<S: Alter>(
    tx: &mut Transaction<'_, S>,
    user: &Ident,
) -> Result<Found, Fault>
    ensures { Finds S.Store tx.old tx.new result
        (λ found c. (who : Asker) → Decides found c who (asked.UserAdd user.now)) }
{
    let exists = has_user(tx, user)?;
    Ok(Found::About(About::UserAdd { exists }))
}

/// Loads what decides an action that depends on its caller alone: nothing. A statement fails where
/// the registry is shut, so that such an action fails, too.
pub(crate) fn facts_of_caller<S: Alter>(tx: &mut Transaction<'_, S>) -> Result<Found, Fault>
    ensures { Finds S.Store tx.old tx.new result
        (λ found c. (who : Asker) → DecidesOfCaller found c who) }
{
    has_nameless_user(tx)?;
    Ok(Found::About(About::Nothing))
}

/// Loads what decides whether a token is added.
pub(crate) fn facts_for_token_add<S: Alter>(
    alloc: Global,
    tx: &mut Transaction<'_, S>,
    user: &Ident,
    digest: &TokenDigest,
) -> Result<Found, Fault>
    ensures { Finds S.Store tx.old tx.new result
        (λ found c. (who : Asker) → Decides found c who (asked.TokenAdd user.now digest.now)) }
{
    Ok(Found::About(About::TokenAdd {
        user_exists: has_user(tx, user)?,
        exists: load_token_user(alloc, tx, digest)?.is_some(),
    }))
}

/// Loads what decides whether a token is ended.
pub(crate) fn facts_for_token_remove<S: Alter>(
    alloc: Global,
    tx: &mut Transaction<'_, S>,
    digest: &TokenDigest,
) -> Result<Found, Fault>
    ensures { Finds S.Store tx.old tx.new result
        (λ found c. (who : Asker) → Decides found c who (asked.TokenRemove digest.now)) }
{
    let user = load_token_user(alloc, tx, digest)?;
    Ok(Found::About(About::TokenRemove { user }))
}

/// Loads what decides whether all tokens of a user are ended, if the policy allows it.
pub(crate) fn facts_for_tokens_remove<S: Alter>(
    alloc: Global,
    tx: &mut Transaction<'_, S>,
    caller: &Caller,
    user: &Ident,
) -> Result<Found, Fault>
    ensures { Finds S.Store tx.old tx.new result
        (λ found c. Decides found c caller.now (asked.TokensRemove user.now)) }
{
    let user_exists = has_user(tx, user)?;
    match may_operate(caller) {
        Ok(_) => {
            let digests = load_user_tokens(alloc, tx, user)?;
            Ok(Found::About(About::TokensRemove {
                user_exists,
                digests,
            }))
        }
        Err(refusal) => Ok(Found::Refused(refusal)),
    }
}
