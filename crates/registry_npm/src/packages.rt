//! What npm wants of a package that it read: to have a document judged, or to withdraw all versions.
//!
//! Who may not write the package is refused before its packument is made, and a document of another
//! revision is compared with it only where it is about as long. So neither costs more than a small
//! packument, or than the bytes that were sent.

ghost use Rattle.std.specs.Prelude.{◌≡◌, [], IfErr, IfOk, Ok, Some, bytes_eq, option_map};
ghost use Rattle.registry_documents.specs.Documents.{size_of, value_of};
ghost use Rattle.registry_npm.specs.Callers.{who_of};
ghost use Rattle.registry_rules.specs.declared.request.Action.TheVariants as action;
ghost use Rattle.registry_npm.specs.Leading as leading;
ghost use Rattle.registry_npm.specs.Leading.{Comes, asks, either, ends, or_memory};
ghost use Rattle.registry_names.specs.declared.refusal.Refusal.TheVariants.{Stale};
ghost use Rattle.registry_rules.specs.declared.reply.Reply.TheVariants.{Refused};
ghost use Rattle.registry_documents.specs.Revisions.{revision};
ghost use Rattle.registry_npm.specs.Packages as spec;
ghost use Rattle.registry_npm.specs.Purposes.{purpose_view};

use crate::caller::{Caller, request};
use crate::commands::{command, does, is_gone, late, no_version};
use crate::following::is_scoped;
use crate::forms::names_in;
use crate::revisions::revision_of;
use crate::shown;
use crate::shown::{document, is_stop};
use crate::told::{faulted, stopped};
use registry_cache::SharedText;
use registry_documents::{Asked, Document, Present, judge};
use registry_names::{Fault, Moment, Name, Refusal, Text};
use registry_routes::Deprecation;
use registry_rules::{Action, Reply};
use registry_service::{Service, Told};
use std::alloc::Global;

/// What npm wants of a package.
#[derive(Clone, Copy)]
pub(crate) enum Purpose<'a> {
    /// To have a document judged, under the revision that a path names, if it names one.
    Judged {
        path: Option<&'a str>,
        document: &'a Document,
    },
    /// To withdraw all versions, under the revision that a path names.
    Withdrawn {
        named: &'a str,
    },
}

// The revision that the path names, if it names one.
fn path_of<'a>(purpose: Purpose<'a>) -> Option<&'a str>
    ensures { option_map (λ t. t.now) result ≡ spec.path_of (purpose_view purpose.entry) }
{
    match purpose {
        Purpose::Judged { path, .. } => path,
        Purpose::Withdrawn { named } => Some(named),
    }
}

/// The right of a user to write the package is tried. Then the packument and the maintainers are asked
/// for, and the purpose is fulfilled.
pub(crate) fn package<D: Service>(
    alloc: Global,
    service: &mut D,
    purpose: Purpose<'_>,
    name: &Name,
    who: &Caller,
    at: Moment,
) -> Told
    ensures { Comes D.answers service.old
        (spec.serves_writer (purpose_view purpose.entry) name.now at (who_of who.now)) result service.new }
{
    match copied(alloc, name) {
        Ok(package) => try_right(alloc, service, purpose, name, package, who, at),
        Err(fault) => faulted(fault),
    }
}

fn try_right<D: Service>(
    alloc: Global,
    service: &mut D,
    purpose: Purpose<'_>,
    name: &Name,
    copy: Name,
    who: &Caller,
    at: Moment,
) -> Told
    requires { copy ≡ name.now }
    ensures { Comes D.answers service.old
        (spec.tries_right (spec.path_of (purpose_view purpose.entry)) name.now at (who_of who.now)
        (spec.serves (purpose_view purpose.entry) name.now at (who_of who.now))) result service.new }
{
    match no_version(alloc) {
        Ok(trial) => tried(alloc, service, purpose, name, copy, trial, who, at),
        Err(stop) => stopped(stop),
    }
}

// By this deprecation the right is tried. Who hasn't it is answered what that comes to.
fn tried<D: Service>(
    alloc: Global,
    service: &mut D,
    purpose: Purpose<'_>,
    name: &Name,
    copy: Name,
    trial: Deprecation,
    who: &Caller,
    at: Moment,
) -> Told
    requires { copy ≡ name.now }
    ensures { Comes D.answers service.old
        (asks (leading.request at (who_of who.now) (action.Deprecate name.now trial.selector trial.message))
        (λ o. either (leading.is_stop o) (spec.late (spec.path_of (purpose_view purpose.entry)) o)
        (spec.serves (purpose_view purpose.entry) name.now at (who_of who.now) o)))
        result service.new }
{
    let Deprecation { selector, message } = trial;
    let what = Action::Deprecate {
        package: copy,
        selector,
        message,
    };
    let request = request(at, who, what);
    let outcome = service.answer(alloc, &request);
    if is_stop(&outcome) {
        return Told::of(late(path_of(purpose), outcome));
    }
    serve(alloc, service, purpose, name, outcome, who, at)
}

fn serve<D: Service>(
    alloc: Global,
    service: &mut D,
    purpose: Purpose<'_>,
    name: &Name,
    tried: Result<Reply, Fault>,
    who: &Caller,
    at: Moment,
) -> Told
    ensures { Comes D.answers service.old
        (spec.serves (purpose_view purpose.entry) name.now at (who_of who.now) tried) result service.new }
{
    match copied(alloc, name) {
        Ok(package) => packument(alloc, service, purpose, name, package, tried, who, at),
        Err(fault) => faulted(fault),
    }
}

/// The name once more.
pub(crate) fn copied(alloc: Global, name: &Name) -> Result<Name, Fault>
    ensures ok { IfOk result (λ copy. copy ≡ name.now) }
    ensures err { IfErr result (λ fault. fault ≡ Fault.Memory) }
{
    match Name::parse(alloc, name.text()) {
        Ok(copy) => Ok(copy),
        Err(_) => Err(Fault::Memory),
    }
}

// The packument is asked for.
fn packument<D: Service>(
    alloc: Global,
    service: &mut D,
    purpose: Purpose<'_>,
    name: &Name,
    copy: Name,
    tried: Result<Reply, Fault>,
    who: &Caller,
    at: Moment,
) -> Told
    requires { copy ≡ name.now }
    ensures { Comes D.answers service.old (asks (leading.request at (who_of who.now) (action.Packument name.now))
        (spec.shown_by name.now at (who_of who.now) (spec.other_of (purpose_view purpose.entry) tried)
        (spec.fulfils (purpose_view purpose.entry) name.now at (who_of who.now) tried))) result service.new }
{
    let request = request(at, who, Action::Packument { package: copy });
    let outcome = service.answer(alloc, &request);
    match document(outcome) {
        Ok(text) => with_text(alloc, service, purpose, name, &text, tried, who, at),
        Err(other) => Told::of(otherwise(purpose, tried, other)),
    }
}

// What is answered where something else than a document comes.
fn otherwise(
    purpose: Purpose<'_>,
    tried: Result<Reply, Fault>,
    outcome: Result<Reply, Fault>,
) -> Result<Reply, Fault>
    ensures { spec.other_of (purpose_view purpose.entry) tried outcome [] result }
{
    if is_stop(&outcome) {
        return refused(purpose, tried, outcome);
    }
    Err(Fault::Database)
}

// The registry refuses to show the package, or fails. Where no version is found, there is nothing to
// withdraw.
fn refused(
    purpose: Purpose<'_>,
    tried: Result<Reply, Fault>,
    outcome: Result<Reply, Fault>,
) -> Result<Reply, Fault>
    ensures { spec.refused_of (purpose_view purpose.entry) tried outcome [] result }
{
    match purpose {
        Purpose::Judged { path, .. } => late(path, outcome),
        Purpose::Withdrawn { .. } => unless_gone(tried, outcome),
    }
}

fn unless_gone(tried: Result<Reply, Fault>, outcome: Result<Reply, Fault>) -> Result<Reply, Fault>
    ensures { either (spec.is_gone outcome) (ends tried) (ends outcome) [] result }
{
    if is_gone(&outcome) { tried } else { outcome }
}

// The packument's text is there: the maintainers are asked for, if there may be some.
fn with_text<D: Service>(
    alloc: Global,
    service: &mut D,
    purpose: Purpose<'_>,
    name: &Name,
    text: &SharedText,
    tried: Result<Reply, Fault>,
    who: &Caller,
    at: Moment,
) -> Told
    ensures { Comes D.answers service.old (spec.asks_names name.now at (who_of who.now)
        (spec.other_of (purpose_view purpose.entry) tried)
        (spec.fulfils (purpose_view purpose.entry) name.now at (who_of who.now) tried text.now))
        result service.new }
{
    if is_scoped(name) {
        return fulfil(alloc, service, purpose, name, text, &[], tried, who, at);
    }
    match copied(alloc, name) {
        Ok(package) => maintainers(alloc, service, purpose, name, package, text, tried, who, at),
        Err(fault) => faulted(fault),
    }
}

// The maintainers are asked for.
fn maintainers<D: Service>(
    alloc: Global,
    service: &mut D,
    purpose: Purpose<'_>,
    name: &Name,
    copy: Name,
    text: &SharedText,
    tried: Result<Reply, Fault>,
    who: &Caller,
    at: Moment,
) -> Told
    requires { copy ≡ name.now }
    ensures { Comes D.answers service.old (asks (leading.request at (who_of who.now) (action.Maintainers name.now))
        (spec.named_by (spec.other_of (purpose_view purpose.entry) tried)
        (spec.fulfils (purpose_view purpose.entry) name.now at (who_of who.now) tried text.now)))
        result service.new }
{
    let request = request(at, who, Action::Maintainers { package: copy });
    let outcome = service.answer(alloc, &request);
    match document(outcome) {
        Ok(names) => {
            with_names(
                alloc,
                service,
                purpose,
                name,
                text,
                names.as_str(),
                tried,
                who,
                at,
            )
        }
        Err(other) => Told::of(otherwise(purpose, tried, other)),
    }
}

// The maintainers are there.
fn with_names<D: Service>(
    alloc: Global,
    service: &mut D,
    purpose: Purpose<'_>,
    name: &Name,
    text: &SharedText,
    names: &str,
    tried: Result<Reply, Fault>,
    who: &Caller,
    at: Moment,
) -> Told
    ensures { Comes D.answers service.old (spec.with_names
        (spec.fulfils (purpose_view purpose.entry) name.now at (who_of who.now) tried text.now) names.now)
        result service.new }
{
    match names_in(alloc, names) {
        Ok(Some(names)) => fulfil(alloc, service, purpose, name, text, &names, tried, who, at),
        Ok(None) => faulted(Fault::Database),
        Err(fault) => faulted(fault),
    }
}

fn fulfil<D: Service>(
    alloc: Global,
    service: &mut D,
    purpose: Purpose<'_>,
    name: &Name,
    text: &SharedText,
    names: &[Text],
    tried: Result<Reply, Fault>,
    who: &Caller,
    at: Moment,
) -> Told
    ensures { Comes D.answers service.old
        (spec.fulfils (purpose_view purpose.entry) name.now at (who_of who.now) tried text.now names.now)
        result service.new }
{
    match purpose {
        Purpose::Judged { path, document } => {
            Told::of(judged(
                alloc, service, path, document, name, text, names, tried, who, at,
            ))
        }
        Purpose::Withdrawn { named } => {
            Told::of(withdrawn(alloc, service, named, name, text, names, who, at))
        }
    }
}

// A document is judged by what there is, and what it asks for is asked.
fn judged<D: Service>(
    alloc: Global,
    service: &mut D,
    path: Option<&str>,
    document: &Document,
    name: &Name,
    packument: &SharedText,
    maintainers: &[Text],
    tried: Result<Reply, Fault>,
    who: &Caller,
    at: Moment,
) -> Result<Reply, Fault>
    ensures { Comes D.answers service.old (spec.judged_by name.now (option_map (λ t. t.now) path.entry)
        (value_of document.now) (size_of document.now) at (who_of who.now) tried packument.now
        maintainers.now) result service.new }
{
    let revision = match revision_of(alloc, packument, maintainers) {
        Ok(revision) => revision,
        Err(fault) => return Err(fault),
    };
    let present = Present {
        packument: packument.as_str(),
        maintainers,
        revision: &revision,
    };
    match judge(alloc, document, path, present) {
        Ok(asked) => done(alloc, service, path, asked, name, tried, who, at),
        Err(stop) => shown::stopped(stop),
    }
}

// What a document asks for is asked.
fn done<D: Service>(
    alloc: Global,
    service: &mut D,
    path: Option<&str>,
    asked: Asked,
    name: &Name,
    tried: Result<Reply, Fault>,
    who: &Caller,
    at: Moment,
) -> Result<Reply, Fault>
    ensures { Comes D.answers service.old (or_memory (spec.does (option_map (λ t. t.now) path.entry)
        name.now at (who_of who.now) tried asked))
        result service.new }
{
    match copied(alloc, name) {
        Ok(package) => does(alloc, service, path, package, tried, asked, who, at),
        Err(fault) => Err(fault),
    }
}

// All versions are withdrawn, where the path names the present revision.
fn withdrawn<D: Service>(
    alloc: Global,
    service: &mut D,
    named: &str,
    name: &Name,
    text: &SharedText,
    names: &[Text],
    who: &Caller,
    at: Moment,
) -> Result<Reply, Fault>
    ensures { Comes D.answers service.old
        (spec.unpublished_by name.now named.now at (who_of who.now) text.now names.now) result service.new }
{
    match is_present(alloc, named, text, names) {
        Ok(is_present) => withdrawn_if(alloc, service, is_present, named, name, who, at),
        Err(fault) => Err(fault),
    }
}

// Whether the path names the present revision.
fn is_present(alloc: Global, named: &str, text: &SharedText, names: &[Text]) -> Result<bool, Fault>
    ensures ok { IfOk result (λ is. is ≡ bytes_eq named.now (revision text.now names.now)) }
    ensures err { IfErr result (λ fault. fault ≡ Fault.Memory) }
{
    Ok(revision_of(alloc, text, names)?.is(named))
}

fn withdrawn_if<D: Service>(
    alloc: Global,
    service: &mut D,
    is_present: bool,
    named: &str,
    name: &Name,
    who: &Caller,
    at: Moment,
) -> Result<Reply, Fault>
    ensures { Comes D.answers service.old (or_memory (either is_present
        (spec.asks_late (Some named.now) at (who_of who.now) (action.WithdrawAll name.now))
        (ends (Ok (Refused Stale))))) result service.new }
{
    if is_present {
        return withdraw_all(alloc, service, named, name, who, at);
    }
    Ok(Reply::Refused(Refusal::Stale))
}

fn withdraw_all<D: Service>(
    alloc: Global,
    service: &mut D,
    named: &str,
    name: &Name,
    who: &Caller,
    at: Moment,
) -> Result<Reply, Fault>
    ensures { Comes D.answers service.old (or_memory
        (spec.asks_late (Some named.now) at (who_of who.now) (action.WithdrawAll name.now)))
        result service.new }
{
    match copied(alloc, name) {
        Ok(package) => {
            command(
                alloc,
                service,
                Some(named),
                Action::WithdrawAll { package },
                who,
                at,
            )
        }
        Err(fault) => Err(fault),
    }
}
