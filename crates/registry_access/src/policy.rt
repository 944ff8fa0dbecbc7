//! The policy: for each thing that can be asked for, the rule that allows it, or the first of
//! `NoCaller`, `NotFound` and `Denied` that refuses it.

ghost use Rattle.std.specs.Prelude.{◌≡◌};
ghost use Rattle.registry_access.specs.Callers as callers;
ghost use Rattle.registry_access.specs.Levels as levels;
ghost use Rattle.registry_access.specs.Policy as spec;

use crate::caller::Caller;
use crate::levels::Level;
use crate::position::{Position, is_owner_or_admin};
use crate::role::Role;
use registry_names::{Ident, Refusal, Rule};

fn is_anonymous(caller: &Caller) -> bool
    ensures { result ≡ callers.is_anonymous caller.now }
{
    matches!(caller, Caller::Anonymous)
}

fn by_rule(rule: Rule, holds: bool) -> Result<Rule, Refusal>
    ensures { result ≡ spec.by_rule rule holds }
{
    if holds {
        Ok(rule)
    } else {
        Err(Refusal::Denied(rule))
    }
}

fn reads(level: Level) -> bool
    ensures { result ≡ levels.reads level }
{
    level >= Level::Read
}

fn writes(level: Level) -> bool
    ensures { result ≡ levels.writes level }
{
    level >= Level::Write
}

/// The rule that allows the caller to manage users, tokens and organisations. It needs no rows.
/// `NoCaller` is returned for an anonymous caller, and `Denied` for any other but the operator.
pub fn may_operate(caller: &Caller) -> Result<Rule, Refusal>
    ensures { result ≡ spec.may_operate caller.now }
{
    if is_anonymous(caller) {
        return Err(Refusal::NoCaller);
    }
    by_rule(Rule::A1, matches!(caller, Caller::Operator))
}

#[tactic(auto, unfolding(registry_names::specs::Texts::is))]
fn is_theirs(whose: &Option<Ident>, user: &Ident) -> bool
    ensures { result ≡ spec.is_theirs whose.now user.now }
{
    match whose {
        Some(whose) => whose.text() == user.text(),
        None => false,
    }
}

/// The rule that allows the caller to end a token, by whose it is: `None` where it isn't there. It
/// needs no rows. `NoCaller` is returned for an anonymous caller, and `NotFound` for a user whose
/// token it isn't.
pub fn may_end_token(caller: &Caller, whose: &Option<Ident>) -> Result<Rule, Refusal>
    ensures { result ≡ spec.may_end_token caller.now whose.now }
{
    match caller {
        Caller::Operator => Ok(Rule::A1),
        Caller::User(user) if is_theirs(whose, user) => Ok(Rule::A10),
        Caller::User(_) => Err(Refusal::NotFound),
        Caller::Anonymous => Err(Refusal::NoCaller),
    }
}

// What the rule says to a known caller, where what they ask for is found.
fn where_found(caller: &Caller, found: bool, rule: Rule, holds: bool) -> Result<Rule, Refusal>
    ensures { result
        ≡ spec.for_known caller.now (spec.where_found found (spec.by_rule rule holds)) }
{
    if is_anonymous(caller) {
        return Err(Refusal::NoCaller);
    }
    if !found {
        return Err(Refusal::NotFound);
    }
    by_rule(rule, holds)
}

pub(crate) fn may_manage_members(
    caller: &Caller,
    there: bool,
    role: Option<Role>,
) -> Result<Rule, Refusal>
    ensures { result ≡ spec.may_manage_members caller.now there role }
{
    where_found(caller, there, Rule::A2, matches!(role, Some(Role::Owner)))
}

pub(crate) fn may_manage_teams(
    caller: &Caller,
    there: bool,
    role: Option<Role>,
) -> Result<Rule, Refusal>
    ensures { result ≡ spec.may_manage_teams caller.now there role }
{
    where_found(caller, there, Rule::A3, is_owner_or_admin(role))
}

pub(crate) fn may_see_organisation(
    caller: &Caller,
    there: bool,
    role: Option<Role>,
) -> Result<Rule, Refusal>
    ensures { result ≡ spec.may_see_organisation caller.now there role }
{
    where_found(caller, there, Rule::A9, role.is_some())
}

pub(crate) fn may_read(at: Position) -> Result<Rule, Refusal>
    ensures { result ≡ spec.may_read at }
{
    if reads(at.level()) {
        Ok(Rule::A8)
    } else {
        Err(Refusal::NotFound)
    }
}

pub(crate) fn may_write(caller: &Caller, at: Position) -> Result<Rule, Refusal>
    ensures { result ≡ spec.may_write caller.now at }
{
    where_found(caller, reads(at.level()), Rule::A6, writes(at.level()))
}

pub(crate) fn may_manage_maintainers(caller: &Caller, at: Position) -> Result<Rule, Refusal>
    ensures { result ≡ spec.may_manage_maintainers caller.now at }
{
    where_found(caller, reads(at.level()), Rule::A7, at.maintainer)
}

fn may_publish_unscoped(caller: &Caller, at: Position) -> Result<Rule, Refusal>
    ensures { result ≡ spec.may_publish_unscoped caller.now at }
{
    if is_anonymous(caller) {
        return Err(Refusal::NoCaller);
    }
    if at.status.is_some() {
        return by_rule(Rule::A6, writes(at.level()));
    }
    by_rule(Rule::A5, matches!(caller, Caller::User(_)))
}

fn may_publish_scoped(caller: &Caller, at: Position) -> Result<Rule, Refusal>
    ensures { result ≡ spec.may_publish_scoped caller.now at }
{
    if is_anonymous(caller) {
        return Err(Refusal::NoCaller);
    }
    if !at.organisation {
        return Err(Refusal::NotFound);
    }
    if at.role.is_none() {
        return Err(Refusal::Denied(Rule::A4));
    }
    if at.status.is_some() {
        return by_rule(Rule::A6, writes(at.level()));
    }
    Ok(Rule::A4)
}

pub(crate) fn may_publish(caller: &Caller, scoped: bool, at: Position) -> Result<Rule, Refusal>
    ensures { result ≡ spec.may_publish caller.now scoped at }
{
    if scoped {
        may_publish_scoped(caller, at)
    } else {
        may_publish_unscoped(caller, at)
    }
}
