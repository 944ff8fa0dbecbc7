//! The routes of packuments, of documents and of the withdrawal of all versions.

ghost use Rattle.std.specs.Prelude.{◌≡◌, ◌↔◌, IfOk, IsTrue, length, Ok, Err, MatchResult};
ghost use Rattle.registry_documents.specs.Documents.{IsDocumentOf, size_of, value_of};
ghost use Rattle.registry_publish.specs.Form.{IsFormOf, StopsForm};
ghost use Rattle.registry_service.specs.Bodies.{reads_form};
ghost use Rattle.registry_npm.specs.Callers.{who_of};
ghost use Rattle.registry_npm.specs.Purposes.{HasSize, put_view};
ghost use Rattle.registry_routes.specs.Readings.{values_view};
ghost use Rattle.registry_npm.specs.Labels.{packument_labels};
ghost use Rattle.registry_npm.specs.Leading.{Comes, reading};
ghost use Rattle.registry_npm.specs.Packages as spec;

use crate::caller::{Caller, caller_of, request};
use crate::labels::{abbreviated_labels, full_labels};
use crate::packages::{Purpose, package};
use crate::told::stopped;
use crate::users::user;
use crate::{path, shown};
use registry_documents::{Document, Kind};
use registry_names::{BODY_LIMIT, Fault, Moment, Name, Refusal, Stop, Text};
use registry_publish::PublishForm;
use registry_routes::{Values, decode_text};
use registry_rules::{Action, Reply};
use registry_service::{Service, Told};
use registry_wire::{Labels, Wanted, accepts_abbreviated};
use std::alloc::Global;

/// The packument of a package, and its labels.
pub(crate) fn packument<D: Service>(
    alloc: Global,
    service: &mut D,
    values: Values<'_>,
    wanted: &Wanted,
    at: Moment,
) -> (Told, Labels)
    ensures comes { Comes D.answers service.old
        (spec.leads_packument (values_view values.entry) wanted.now at) result.0 service.new }
    ensures labels { result.1 ≡ packument_labels wanted.now.accept result.0 }
{
    match path::name(alloc, values) {
        Ok(name) => packument_of(alloc, service, name, wanted, at),
        Err(stop) => (stopped(stop), Labels::none()),
    }
}

// The abbreviated packument, where it is accepted, and otherwise the full one with its revision and
// the maintainers.
fn packument_of<D: Service>(
    alloc: Global,
    service: &mut D,
    name: Name,
    wanted: &Wanted,
    at: Moment,
) -> (Told, Labels)
    ensures comes { Comes D.answers service.old (spec.shows_packument name wanted.now at) result.0
        service.new }
    ensures labels { result.1 ≡ packument_labels wanted.now.accept result.0 }
{
    if accepts_abbreviated(&wanted.accept) {
        let what = Action::AbbreviatedPackument { package: name };
        let outcome = answered(alloc, service, what, wanted, at);
        let labels = abbreviated_labels(&outcome);
        return (Told::of(outcome), labels);
    }
    let what = Action::RevisedPackument { package: name };
    let outcome = answered(alloc, service, what, wanted, at);
    let labels = full_labels(&outcome);
    (Told::of(outcome), labels)
}

// A query of the caller, as the registry answers it.
fn answered<D: Service>(
    alloc: Global,
    service: &mut D,
    what: Action,
    wanted: &Wanted,
    at: Moment,
) -> Result<Reply, Fault>
    ensures { Comes D.answers service.old (spec.shows_answer what wanted.now at) result
        service.new }
{
    let who = match caller_of(&wanted.authorization) {
        Ok(who) => who,
        Err(stop) => return shown::stopped(stop),
    };
    let request = request(at, &who, what);
    service.answer(alloc, &request)
}

/// A document under a revision.
pub(crate) fn revised<D: Service>(
    alloc: Global,
    service: &mut D,
    values: Values<'_>,
    wanted: &Wanted,
    at: Moment,
) -> Told
    ensures { Comes D.answers service.old
        (spec.leads_revised (values_view values.entry) wanted.now at) result service.new }
{
    match user(alloc, service, wanted, at, true) {
        Ok(who) => claim(alloc, service, values, wanted, &who, at),
        Err(outcome) => Told::of(outcome),
    }
}

fn claim<D: Service>(
    alloc: Global,
    service: &mut D,
    values: Values<'_>,
    wanted: &Wanted,
    who: &Caller,
    at: Moment,
) -> Told
    ensures { Comes D.answers service.old
        (spec.leads_claim (values_view values.entry) wanted.now.body at (who_of who.now)) result
        service.new }
{
    match path::name(alloc, values) {
        Ok(name) => claim_of(alloc, service, &name, values.second, wanted, who, at),
        Err(stop) => stopped(stop),
    }
}

fn claim_of<D: Service>(
    alloc: Global,
    service: &mut D,
    name: &Name,
    written: &[u8],
    wanted: &Wanted,
    who: &Caller,
    at: Moment,
) -> Told
    ensures { Comes D.answers service.old (reading (spec.reads_revision written.now)
        (λ named. spec.claims_under name.now named wanted.now.body at (who_of who.now))) result
        service.new }
{
    match revision(alloc, written) {
        Ok(named) => claim_under(alloc, service, name, named.as_str(), wanted, who, at),
        Err(stop) => stopped(stop),
    }
}

fn claim_under<D: Service>(
    alloc: Global,
    service: &mut D,
    name: &Name,
    named: &str,
    wanted: &Wanted,
    who: &Caller,
    at: Moment,
) -> Told
    ensures { Comes D.answers service.old
        (spec.claims_under name.now named.now wanted.now.body at (who_of who.now)) result service.new }
{
    match Document::read(alloc, wanted.body.as_slice()) {
        Ok(document) => {
            let purpose = Purpose::Judged {
                path: Some(named),
                document: &document,
            };
            package(alloc, service, purpose, name, who, at)
        }
        Err(stop) => stopped(stop),
    }
}

// The revision that a path names.
fn revision(alloc: Global, written: &[u8]) -> Result<Text, Stop>
    ensures { spec.reads_revision written.now result }
{
    let text = decode_text(alloc, written)?;
    Ok(Text::from(text))
}

/// The withdrawal of all versions under a revision.
pub(crate) fn unpublish<D: Service>(
    alloc: Global,
    service: &mut D,
    values: Values<'_>,
    wanted: &Wanted,
    at: Moment,
) -> Told
    ensures { Comes D.answers service.old
        (spec.leads_unpublish (values_view values.entry) wanted.now at) result service.new }
{
    match user(alloc, service, wanted, at, true) {
        Ok(who) => withdrawal(alloc, service, values, &who, at),
        Err(outcome) => Told::of(outcome),
    }
}

fn withdrawal<D: Service>(
    alloc: Global,
    service: &mut D,
    values: Values<'_>,
    who: &Caller,
    at: Moment,
) -> Told
    ensures { Comes D.answers service.old
        (spec.leads_withdrawal (values_view values.entry) at (who_of who.now)) result service.new }
{
    match path::name(alloc, values) {
        Ok(name) => withdrawal_of(alloc, service, &name, values.second, who, at),
        Err(stop) => stopped(stop),
    }
}

fn withdrawal_of<D: Service>(
    alloc: Global,
    service: &mut D,
    name: &Name,
    written: &[u8],
    who: &Caller,
    at: Moment,
) -> Told
    ensures { Comes D.answers service.old (reading (spec.reads_revision written.now)
        (λ named. spec.serves_writer (spec.withdrawn named) name.now at (who_of who.now))) result
        service.new }
{
    match revision(alloc, written) {
        Ok(named) => {
            let purpose = Purpose::Withdrawn {
                named: named.as_str(),
            };
            package(alloc, service, purpose, name, who, at)
        }
        Err(stop) => stopped(stop),
    }
}

/// What a package is put with.
#[derive(Drop)]
pub(crate) enum Put {
    /// A version of it.
    Published(PublishForm),
    /// A claim about what was read.
    Claimed(Document),
}

/// A publication, or a document that isn't one.
pub(crate) fn document<D: Service>(
    alloc: Global,
    service: &mut D,
    values: Values<'_>,
    wanted: &Wanted,
    at: Moment,
) -> Told
    ensures { Comes D.answers service.old
        (spec.leads_document (values_view values.entry) wanted.now at) result service.new }
{
    match user(alloc, service, wanted, at, false) {
        Ok(who) => put_by(alloc, service, values, wanted, &who, at),
        Err(outcome) => Told::of(outcome),
    }
}

fn put_by<D: Service>(
    alloc: Global,
    service: &mut D,
    values: Values<'_>,
    wanted: &Wanted,
    who: &Caller,
    at: Moment,
) -> Told
    ensures { Comes D.answers service.old
        (spec.leads_put (values_view values.entry) wanted.now.body at (who_of who.now)) result
        service.new }
{
    match path::name(alloc, values) {
        Ok(name) => put_of(alloc, service, &name, wanted, who, at),
        Err(stop) => stopped(stop),
    }
}

fn put_of<D: Service>(
    alloc: Global,
    service: &mut D,
    name: &Name,
    wanted: &Wanted,
    who: &Caller,
    at: Moment,
) -> Told
    ensures { Comes D.answers service.old (reading (spec.reads_put name.now wanted.now.body)
        (spec.puts name.now wanted.now.body at (who_of who.now))) result service.new }
{
    match put_in(alloc, name, wanted.body.as_slice()) {
        Ok(Put::Published(form)) => {
            let request = request(at, who, Action::Publish { form });
            Told::of(service.answer(alloc, &request))
        }
        Ok(Put::Claimed(document)) => {
            let purpose = Purpose::Judged {
                path: None,
                document: &document,
            };
            package(alloc, service, purpose, name, who, at)
        }
        Err(stop) => stopped(stop),
    }
}

// The body: a publication of this package, or a claim.
fn put_in(alloc: Global, name: &Name, body: &[u8]) -> Result<Put, Stop>
    ensures read { MatchResult result (λ put. spec.reads_put name.now body.now (Ok (put_view put)))
        (λ stop. spec.reads_put name.now body.now (Err stop)) }
    ensures size { IfOk result (HasSize body.now) }
{
    let document = Document::read(alloc, body)?;
    match document.kind() {
        Kind::Publication => Ok(Put::Published(form_of(alloc, name, body, &document)?)),
        Kind::Package | Kind::Maintainers | Kind::Other => Ok(Put::Claimed(document)),
    }
}

fn is_of(form: &PublishForm, name: &Name) -> bool
    ensures { IsTrue result ↔ (form.now.name ≡ name.now) }
{
    form.name().text() == name.text()
}

// The form of a publication, from the body as it was read already.
fn publication(alloc: Global, body: &[u8], document: &Document) -> Result<PublishForm, Stop>
    requires { IsDocumentOf body.now (value_of document.now) }
    ensures { MatchResult result (IsFormOf body.now) (StopsForm body.now) }
{
    if body.len() > BODY_LIMIT {
        return Err(Stop::Refused(Refusal::TooLarge));
    }
    PublishForm::of(alloc, document.value())
}

// The form of a publish of this package.
#[tactic(auto, unfolding(registry_service::specs::Bodies::reads_form))]
fn form_of(
    alloc: Global,
    name: &Name,
    body: &[u8],
    document: &Document,
) -> Result<PublishForm, Stop>
    requires { IsDocumentOf body.now (value_of document.now) }
    ensures { reads_form name.now body.now result }
{
    let form = publication(alloc, body, document)?;
    if is_of(&form, name) {
        Ok(form)
    } else {
        Err(Stop::Refused(Refusal::BadBody))
    }
}
