//! Replies in the forms that npm reads. Nothing is asked for them.

ghost use Rattle.std.specs.Prelude.{◌≡◌, [], Err, None, Ok, IfErr, IfOk, MatchResult, unwrap_or};
ghost use Rattle.registry_rules.specs.declared.reply.Reply.TheVariants.{Doc};
ghost use Rattle.registry_service.specs.Turns as turns;
ghost use Rattle.registry_npm.specs.Forms.{empty_text, grants_form, membership_form, profile_form};
ghost use Rattle.registry_npm.specs.Forms.{teams_form, user_text, writers_form};
ghost use Rattle.registry_npm.specs.Leading as spec;
ghost use Rattle.registry_npm.specs.Leading.{document_of, is_stop, shown_as, shows};
ghost use Rattle.registry_npm.specs.Npm as npm;

use crate::forms;
use registry_access::Role;
use registry_cache::SharedText;
use registry_names::{Fault, Ident, Refusal, Stop, Text};
use registry_packument::{List, list_text};
use registry_rules::Reply;
use std::alloc::Global;

/// What is answered where a request isn't in form.
pub(crate) fn stopped(stop: Stop) -> Result<Reply, Fault>
    ensures { result ≡ turns.stopped stop }
{
    match stop {
        Stop::Refused(refusal) => Ok(Reply::Refused(refusal)),
        Stop::Fault(fault) => Err(fault),
    }
}

fn is_refused(reply: &Reply) -> bool
    ensures { result ≡ spec.is_refused reply.now }
{
    match reply {
        Reply::Refused(_) => true,
        Reply::Created | Reply::Done | Reply::Count(_) | Reply::Doc(_) | Reply::Bytes(_) => false,
    }
}

/// Whether an outcome is a refusal or a fault.
pub(crate) fn is_stop(outcome: &Result<Reply, Fault>) -> bool
    ensures { result ≡ is_stop outcome.now }
{
    match outcome {
        Ok(reply) => is_refused(reply),
        Err(_) => true,
    }
}

// The document of an outcome. Any other outcome is given back.
pub(crate) fn document(outcome: Result<Reply, Fault>) -> Result<SharedText, Result<Reply, Fault>>
    ensures { MatchResult result (λ text. outcome ≡ Ok (Doc text))
        (λ other. (other ≡ outcome) × (document_of outcome ≡ None)) }
{
    match outcome {
        Ok(Reply::Doc(text)) => Ok(text),
        Ok(Reply::Created) => Err(Ok(Reply::Created)),
        Ok(Reply::Done) => Err(Ok(Reply::Done)),
        Ok(Reply::Count(count)) => Err(Ok(Reply::Count(count))),
        Ok(Reply::Bytes(bytes)) => Err(Ok(Reply::Bytes(bytes))),
        Ok(Reply::Refused(refusal)) => Err(Ok(Reply::Refused(refusal))),
        Err(fault) => Err(Err(fault)),
    }
}

// A document of one's own.
pub(crate) fn doc(text: Text) -> Result<Reply, Fault>
    ensures { shows text [] result }
{
    Ok(Reply::Doc(SharedText::from_text(text)?))
}

// The document in another form, if it has one and there is memory for it.
fn formed(text: SharedText, form: Result<Option<Text>, Fault>) -> Result<Reply, Fault>
    requires { IfErr form (λ fault. fault ≡ Fault.Memory) }
    ensures { MatchResult form (λ form. shows (unwrap_or form text) [] result)
        (λ _. result ≡ Err Fault.Memory) }
{
    match form {
        Ok(Some(form)) => doc(form),
        Ok(None) => Ok(Reply::Doc(text)),
        Err(fault) => Err(fault),
    }
}

/// The teams of an organisation, each after its name.
pub(crate) fn teams(
    alloc: Global,
    organisation: &Ident,
    outcome: Result<Reply, Fault>,
) -> Result<Reply, Fault>
    ensures { shown_as (teams_form organisation.now) outcome [] result }
{
    match document(outcome) {
        Ok(text) => {
            let form = forms::teams(alloc, organisation, text.as_str());
            formed(text, form)
        }
        Err(other) => other,
    }
}

/// What a team is granted, with the words of npm.
pub(crate) fn grants(alloc: Global, outcome: Result<Reply, Fault>) -> Result<Reply, Fault>
    ensures { shown_as grants_form outcome [] result }
{
    match document(outcome) {
        Ok(text) => {
            let form = forms::grants(alloc, text.as_str());
            formed(text, form)
        }
        Err(other) => other,
    }
}

/// The profile of the caller.
pub(crate) fn profile(alloc: Global, outcome: Result<Reply, Fault>) -> Result<Reply, Fault>
    ensures { shown_as profile_form outcome [] result }
{
    match document(outcome) {
        Ok(text) => {
            let form = forms::profile(alloc, text.as_str());
            formed(text, form)
        }
        Err(other) => other,
    }
}

/// The maintainers of a package, as those who write it.
pub(crate) fn writers(alloc: Global, outcome: Result<Reply, Fault>) -> Result<Reply, Fault>
    ensures { shown_as writers_form outcome [] result }
{
    match document(outcome) {
        Ok(text) => {
            let form = forms::writers(alloc, text.as_str());
            formed(text, form)
        }
        Err(other) => other,
    }
}

/// A member of an organisation that has these members, once they have this role. `None` where the document
/// isn't an object.
pub(crate) fn membership(
    alloc: Global,
    organisation: &Ident,
    user: &Ident,
    role: Role,
    members: &str,
) -> Result<Option<SharedText>, Fault>
    ensures ok { IfOk result (λ shown. shown
        ≡ membership_form organisation.now user.now role members.now) }
    ensures err { IfErr result (λ fault. fault ≡ Fault.Memory) }
{
    match forms::membership(alloc, organisation, user, role, members)? {
        Some(text) => Ok(Some(SharedText::from_text(text)?)),
        None => Ok(None),
    }
}

/// That this isn't served, unless the outcome stops.
pub(crate) fn not_served(outcome: Result<Reply, Fault>) -> Result<Reply, Fault>
    ensures { npm.not_served outcome [] result }
{
    if is_stop(&outcome) {
        return outcome;
    }
    Ok(Reply::Refused(Refusal::NotServed))
}

/// Whether nobody was told of the package.
pub(crate) fn public(alloc: Global, told: &Reply) -> Result<Reply, Fault>
    ensures { npm.shows_public told.now [] result }
{
    let text = forms::visibility(alloc, !is_refused(told))?;
    doc(text)
}

/// The document of a user.
pub(crate) fn user(alloc: Global, user: &Ident) -> Result<Reply, Fault>
    ensures { shows (user_text user.now) [] result }
{
    doc(forms::user(alloc, user)?)
}

/// An object without members.
pub(crate) fn empty(alloc: Global) -> Result<Reply, Fault>
    ensures { shows empty_text [] result }
{
    doc(forms::empty(alloc)?)
}

/// Whether an outcome is the name of this user.
pub(crate) fn is_user(
    alloc: Global,
    user: &Ident,
    outcome: &Result<Reply, Fault>,
) -> Result<bool, Fault>
    ensures ok { IfOk result (λ is. is ≡ npm.is_user user.now outcome.now) }
    ensures err { IfErr result (λ fault. fault ≡ Fault.Memory) }
{
    let Ok(Reply::Doc(text)) = outcome else {
        return Ok(false);
    };
    let name = Text::from_str(alloc, user.text())?;
    let expected = list_text(alloc, &List::Username(name))?;
    Ok(text.as_str() == expected.as_str())
}
