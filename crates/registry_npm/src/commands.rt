//! The one command that a document asks for.

ghost use Rattle.std.specs.Prelude.{◌≡◌, [], is_some, option_map};
ghost use Rattle.registry_npm.specs.Callers.{who_of};
ghost use Rattle.registry_npm.specs.Leading.{Comes, reading};
ghost use Rattle.registry_npm.specs.Packages as spec;

use crate::caller::{Caller, request};
use crate::shown::stopped;
use registry_documents::Asked;
use registry_names::{Fault, Ident, Message, Moment, Name, Refusal, Stop, Text, Ver};
use registry_ranges::Selector;
use registry_routes::Deprecation;
use registry_rules::{Action, Reply};
use registry_service::Service;
use std::alloc::Global;

// No version is below 0.0.0-0.
const NO_VERSION: &str = "<0.0.0-0";

fn is_not_found(reply: &Reply) -> bool
    ensures { result ≡ spec.is_not_found reply.now }
{
    match reply {
        Reply::Refused(refusal) => refusal.status() == 404,
        Reply::Created | Reply::Done | Reply::Count(_) | Reply::Doc(_) | Reply::Bytes(_) => false,
    }
}

/// Whether an outcome is answered by 404.
pub(crate) fn is_gone(outcome: &Result<Reply, Fault>) -> bool
    ensures { result ≡ spec.is_gone outcome.now }
{
    match outcome {
        Ok(reply) => is_not_found(reply),
        Err(_) => false,
    }
}

/// The outcome; but under a revision `Stale` in the place of `NotFound`, which npm takes for success.
pub(crate) fn late(path: Option<&str>, outcome: Result<Reply, Fault>) -> Result<Reply, Fault>
    ensures { spec.late (option_map (λ t. t.now) path.entry) outcome [] result }
{
    match path {
        Some(_) => stale(outcome),
        None => outcome,
    }
}

/// The outcome, but `Stale` in the place of `NotFound`.
pub(crate) fn stale(outcome: Result<Reply, Fault>) -> Result<Reply, Fault>
    ensures { spec.stale outcome [] result }
{
    if is_gone(&outcome) {
        return Ok(Reply::Refused(Refusal::Stale));
    }
    outcome
}

// The outcome of adding a maintainer; but where it is answered by 404, there is no such user.
fn unless_nobody(outcome: Result<Reply, Fault>) -> Result<Reply, Fault>
    ensures { spec.unless_nobody outcome [] result }
{
    if is_gone(&outcome) {
        return Ok(Reply::Refused(Refusal::BadName));
    }
    outcome
}

/// A command, whose outcome is the answer.
pub(crate) fn command<D: Service>(
    alloc: Global,
    service: &mut D,
    path: Option<&str>,
    what: Action,
    who: &Caller,
    at: Moment,
) -> Result<Reply, Fault>
    ensures { Comes D.answers service.old
        (spec.asks_late (option_map (λ t. t.now) path.entry) at (who_of who.now) what) result service.new }
{
    let request = request(at, who, what);
    let outcome = service.answer(alloc, &request);
    late(path, outcome)
}

// The versions and the message of a deprecation.
fn versions(alloc: Global, selector: &str, message: &str) -> Result<Deprecation, Stop>
    ensures { spec.reads_versions selector.now message.now result }
{
    let message = Message::parse(alloc, message)?;
    let selector = Selector::parse(alloc, selector)?;
    Ok(Deprecation { selector, message })
}

fn version(alloc: Global, text: &Text) -> Result<Ver, Stop>
    ensures { spec.reads_withdrawn text.now result }
{
    Ver::parse(alloc, text.as_str())
}

fn owner(alloc: Global, text: &Text) -> Result<Ident, Stop>
    ensures { spec.reads_owner text.now result }
{
    Ident::parse(alloc, text.as_str())
}

// Whether the path names a revision.
fn is_revised(path: Option<&str>) -> bool
    ensures { result ≡ is_some (option_map (λ t. t.now) path.entry) }
{
    path.is_some()
}

/// A deprecation that selects no version, by which the right to write a package is tried.
pub(crate) fn no_version(alloc: Global) -> Result<Deprecation, Stop>
    ensures { spec.reads_versions spec.no_version [] result }
{
    versions(alloc, NO_VERSION, "")
}

/// What a document asks for is asked, of who may write the package: `tried` is what the trial of that
/// came to, and the answer to a document that says what is so already. Without a revision in its path it
/// may ask for messages alone.
pub(crate) fn does<D: Service>(
    alloc: Global,
    service: &mut D,
    path: Option<&str>,
    name: Name,
    tried: Result<Reply, Fault>,
    asked: Asked,
    who: &Caller,
    at: Moment,
) -> Result<Reply, Fault>
    ensures { Comes D.answers service.old
        (spec.does (option_map (λ t. t.now) path.entry) name at (who_of who.now) tried asked)
        result service.new }
{
    match asked {
        Asked::AlreadySo => tried,
        Asked::Deprecation { selector, message } => {
            deprecate(
                alloc,
                service,
                path,
                name,
                selector.as_str(),
                message.as_str(),
                who,
                at,
            )
        }
        Asked::Withdrawal { version } => {
            if is_revised(path) {
                return withdraw(alloc, service, path, name, &version, who, at);
            }
            Ok(Reply::Refused(Refusal::BadBody))
        }
        Asked::OwnerAdd { user } => {
            if is_revised(path) {
                return owner_add(alloc, service, name, &user, who, at);
            }
            Ok(Reply::Refused(Refusal::BadBody))
        }
        Asked::OwnerRemove { user } => {
            if is_revised(path) {
                return owner_remove(alloc, service, path, name, &user, who, at);
            }
            Ok(Reply::Refused(Refusal::BadBody))
        }
    }
}

fn deprecate<D: Service>(
    alloc: Global,
    service: &mut D,
    path: Option<&str>,
    name: Name,
    selector: &str,
    message: &str,
    who: &Caller,
    at: Moment,
) -> Result<Reply, Fault>
    ensures { Comes D.answers service.old (reading (spec.reads_versions selector.now message.now)
        (spec.deprecates (option_map (λ t. t.now) path.entry) name at (who_of who.now))) result service.new }
{
    match versions(alloc, selector, message) {
        Ok(Deprecation { selector, message }) => {
            let what = Action::Deprecate {
                package: name,
                selector,
                message,
            };
            command(alloc, service, path, what, who, at)
        }
        Err(stop) => stopped(stop),
    }
}

fn withdraw<D: Service>(
    alloc: Global,
    service: &mut D,
    path: Option<&str>,
    name: Name,
    text: &Text,
    who: &Caller,
    at: Moment,
) -> Result<Reply, Fault>
    ensures { Comes D.answers service.old (reading (spec.reads_withdrawn text.now)
        (spec.withdraws (option_map (λ t. t.now) path.entry) name at (who_of who.now))) result service.new }
{
    match version(alloc, text) {
        Ok(version) => {
            let what = Action::Withdraw {
                package: name,
                version,
            };
            command(alloc, service, path, what, who, at)
        }
        Err(stop) => stopped(stop),
    }
}

fn owner_add<D: Service>(
    alloc: Global,
    service: &mut D,
    name: Name,
    text: &Text,
    who: &Caller,
    at: Moment,
) -> Result<Reply, Fault>
    ensures { Comes D.answers service.old (reading (spec.reads_owner text.now)
        (spec.adds name at (who_of who.now))) result service.new }
{
    match owner(alloc, text) {
        Ok(user) => {
            let what = Action::OwnerAdd {
                package: name,
                user,
            };
            let request = request(at, who, what);
            let outcome = service.answer(alloc, &request);
            unless_nobody(outcome)
        }
        Err(stop) => stopped(stop),
    }
}

fn owner_remove<D: Service>(
    alloc: Global,
    service: &mut D,
    path: Option<&str>,
    name: Name,
    text: &Text,
    who: &Caller,
    at: Moment,
) -> Result<Reply, Fault>
    ensures { Comes D.answers service.old (reading (spec.reads_owner text.now)
        (spec.removes (option_map (λ t. t.now) path.entry) name at (who_of who.now))) result service.new }
{
    match owner(alloc, text) {
        Ok(user) => {
            let what = Action::OwnerRemove {
                package: name,
                user,
            };
            command(alloc, service, path, what, who, at)
        }
        Err(stop) => stopped(stop),
    }
}
