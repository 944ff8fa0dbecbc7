//! What the routes of npm's ask of the registry, one request after the other.

ghost use Rattle.std.specs.Prelude.{◌≡◌, [], Err, Ok, is_some, IfErr, IfOk, MatchResult};
ghost use Rattle.registry_names.specs.Names.{scope_of};
ghost use Rattle.registry_names.specs.declared.refusal.Refusal.TheVariants.{NotFound};
ghost use Rattle.registry_routes.specs.Readings.{values_view};
ghost use Rattle.registry_rules.specs.declared.reply.Reply.TheVariants.{Refused};
ghost use Rattle.registry_rules.specs.declared.request.Action.TheVariants.{MyPackages};
ghost use Rattle.registry_npm.specs.Callers.{who_of};
ghost use Rattle.registry_npm.specs.Leading as leading;
ghost use Rattle.registry_npm.specs.Asked.{reads_first};
ghost use Rattle.registry_npm.specs.Collaborators.{for_form};
ghost use Rattle.registry_npm.specs.Forms.{membership_form};
ghost use Rattle.registry_npm.specs.Leading.{Comes, asks, either, ends, or_memory, reading, unless_stopped};
ghost use Rattle.registry_npm.specs.Npm as spec;
ghost use Rattle.registry_routes.specs.declared.npm_endpoint.NpmEndpoint.TheVariants as by;

use crate::asked::{first, member};
use crate::caller::{Caller, caller_of, credential, request};
use crate::collaborators::collaborators;
use crate::shown::{document, is_stop, stopped};
use crate::users::user as user_of;
use crate::{documents, path, shown, told};
use registry_access::Role;
use registry_cache::SharedText;
use registry_names::{Fault, Ident, Moment, Name, Refusal, Stop};
use registry_routes::{NpmEndpoint, Values};
use registry_rules::{Action, Credential, Reply, Request};
use registry_service::{Service, Told};
use registry_wire::Wanted;
use std::alloc::Global;

/// What a request by this route of npm's comes to.
pub(crate) fn by_route<D: Service>(
    alloc: Global,
    service: &mut D,
    endpoint: NpmEndpoint,
    values: Values<'_>,
    wanted: &Wanted,
    at: Moment,
) -> Told
    ensures { Comes D.answers service.old
        (spec.leads endpoint (values_view values.entry) wanted.now at) result service.new }
{
    match endpoint {
        NpmEndpoint::Ping => Told::of(shown::empty(alloc)),
        NpmEndpoint::NotServed => told::stopped(Stop::Refused(Refusal::NotServed)),
        NpmEndpoint::Visibility => Told::of(visibility(alloc, service, values, wanted, at)),
        NpmEndpoint::Collaborators => {
            Told::of(collaborators(alloc, service, values, wanted, at))
        }
        NpmEndpoint::Teams => Told::of(teams(alloc, service, values, wanted, at)),
        NpmEndpoint::OrgSet => Told::of(org_set(alloc, service, values, wanted, at)),
        NpmEndpoint::User => Told::of(user(alloc, service, values, wanted, at)),
        NpmEndpoint::UserPackages => Told::of(user_packages(alloc, service, values, wanted, at)),
        NpmEndpoint::Packument => {
            let (told, _labels) = documents::packument(alloc, service, values, wanted, at);
            told
        }
        NpmEndpoint::Document => documents::document(alloc, service, values, wanted, at),
        NpmEndpoint::Revised => documents::revised(alloc, service, values, wanted, at),
        NpmEndpoint::Unpublish => documents::unpublish(alloc, service, values, wanted, at),
        NpmEndpoint::FileDrop => {
            other(alloc, service, NpmEndpoint::FileDrop, values, wanted, at)
        }
        NpmEndpoint::ScopedFileDrop => {
            other(
                alloc,
                service,
                NpmEndpoint::ScopedFileDrop,
                values,
                wanted,
                at,
            )
        }
        NpmEndpoint::SetAccess => {
            Told::of(command(alloc, service, NpmEndpoint::SetAccess, values, wanted, at))
        }
        NpmEndpoint::OrgPackages => {
            other(alloc, service, NpmEndpoint::OrgPackages, values, wanted, at)
        }
        NpmEndpoint::Members => { other(alloc, service, NpmEndpoint::Members, values, wanted, at) }
        NpmEndpoint::OrgRemove => {
            Told::of(command(alloc, service, NpmEndpoint::OrgRemove, values, wanted, at))
        }
        NpmEndpoint::TeamCreate => {
            Told::of(command(alloc, service, NpmEndpoint::TeamCreate, values, wanted, at))
        }
        NpmEndpoint::TeamMembers => {
            other(alloc, service, NpmEndpoint::TeamMembers, values, wanted, at)
        }
        NpmEndpoint::TeamAdd => {
            Told::of(command(alloc, service, NpmEndpoint::TeamAdd, values, wanted, at))
        }
        NpmEndpoint::TeamRemove => {
            Told::of(command(alloc, service, NpmEndpoint::TeamRemove, values, wanted, at))
        }
        NpmEndpoint::TeamPackages => {
            other(
                alloc,
                service,
                NpmEndpoint::TeamPackages,
                values,
                wanted,
                at,
            )
        }
        NpmEndpoint::Grant => {
            Told::of(command(alloc, service, NpmEndpoint::Grant, values, wanted, at))
        }
        NpmEndpoint::Revoke => {
            Told::of(command(alloc, service, NpmEndpoint::Revoke, values, wanted, at))
        }
        NpmEndpoint::WhoAmI => { other(alloc, service, NpmEndpoint::WhoAmI, values, wanted, at) }
        NpmEndpoint::Profile => { other(alloc, service, NpmEndpoint::Profile, values, wanted, at) }
        NpmEndpoint::Logout => { other(alloc, service, NpmEndpoint::Logout, values, wanted, at) }
    }
}

// ---- one request

// The first request of the route, and what follows.
fn other<D: Service>(
    alloc: Global,
    service: &mut D,
    endpoint: NpmEndpoint,
    values: Values<'_>,
    wanted: &Wanted,
    at: Moment,
) -> Told
    ensures { Comes D.answers service.old
        (spec.asks_first endpoint (values_view values.entry) wanted.now at) result service.new }
{
    match first(alloc, endpoint, values, wanted.body.as_slice()) {
        Ok(what) => Told::of(asked(alloc, service, endpoint, what, wanted, at)),
        Err(stop) => told::stopped(stop),
    }
}

fn asked<D: Service>(
    alloc: Global,
    service: &mut D,
    endpoint: NpmEndpoint,
    what: Action,
    wanted: &Wanted,
    at: Moment,
) -> Result<Reply, Fault>
    ensures { Comes D.answers service.old (spec.asks_action endpoint what wanted.now at)
        result service.new }
{
    let who = match caller_of(&wanted.authorization) {
        Ok(who) => who,
        Err(stop) => return stopped(stop),
    };
    let request = request(at, &who, what);
    let outcome = service.answer(alloc, &request);
    follow(alloc, endpoint, outcome)
}

// A user asks for one command.
fn command<D: Service>(
    alloc: Global,
    service: &mut D,
    endpoint: NpmEndpoint,
    values: Values<'_>,
    wanted: &Wanted,
    at: Moment,
) -> Result<Reply, Fault>
    ensures { Comes D.answers service.old
        (spec.asks_command endpoint (values_view values.entry) wanted.now at) result service.new }
{
    match user_of(alloc, service, wanted, at, false) {
        Ok(who) => commanded(alloc, service, endpoint, values, wanted, &who, at),
        Err(outcome) => outcome,
    }
}

fn commanded<D: Service>(
    alloc: Global,
    service: &mut D,
    endpoint: NpmEndpoint,
    values: Values<'_>,
    wanted: &Wanted,
    who: &Caller,
    at: Moment,
) -> Result<Reply, Fault>
    ensures { Comes D.answers service.old
        (reading (reads_first endpoint (values_view values.entry) wanted.now.body)
        (λ what. asks (leading.request at (who_of who.now) what) ends)) result service.new }
{
    match first(alloc, endpoint, values, wanted.body.as_slice()) {
        Ok(what) => {
            let request = request(at, who, what);
            service.answer(alloc, &request)
        }
        Err(stop) => stopped(stop),
    }
}

// What follows the outcome of the first request.
fn follow(
    alloc: Global,
    endpoint: NpmEndpoint,
    outcome: Result<Reply, Fault>,
) -> Result<Reply, Fault>
    ensures { spec.follows endpoint outcome [] result }
{
    match endpoint {
        NpmEndpoint::FileDrop | NpmEndpoint::ScopedFileDrop => shown::not_served(outcome),
        NpmEndpoint::TeamPackages => shown::grants(alloc, outcome),
        NpmEndpoint::Profile => shown::profile(alloc, outcome),
        NpmEndpoint::Packument
        | NpmEndpoint::Document
        | NpmEndpoint::Revised
        | NpmEndpoint::Unpublish
        | NpmEndpoint::Visibility
        | NpmEndpoint::SetAccess
        | NpmEndpoint::Collaborators
        | NpmEndpoint::OrgPackages
        | NpmEndpoint::UserPackages
        | NpmEndpoint::Members
        | NpmEndpoint::OrgSet
        | NpmEndpoint::OrgRemove
        | NpmEndpoint::Teams
        | NpmEndpoint::TeamCreate
        | NpmEndpoint::TeamMembers
        | NpmEndpoint::TeamAdd
        | NpmEndpoint::TeamRemove
        | NpmEndpoint::Grant
        | NpmEndpoint::Revoke
        | NpmEndpoint::WhoAmI
        | NpmEndpoint::User
        | NpmEndpoint::Logout
        | NpmEndpoint::Ping
        | NpmEndpoint::NotServed => outcome,
    }
}

// ---- packages

fn visibility<D: Service>(
    alloc: Global,
    service: &mut D,
    values: Values<'_>,
    wanted: &Wanted,
    at: Moment,
) -> Result<Reply, Fault>
    ensures { Comes D.answers service.old
        (spec.leads by.Visibility (values_view values.entry) wanted.now at) result service.new }
{
    match path::name(alloc, values) {
        Ok(package) => visibility_of(alloc, service, package, wanted, at),
        Err(stop) => stopped(stop),
    }
}

// What is told of the package to nobody, and then to the caller, who is the last whom a turn asks for.
fn visibility_of<D: Service>(
    alloc: Global,
    service: &mut D,
    name: Name,
    wanted: &Wanted,
    at: Moment,
) -> Result<Reply, Fault>
    ensures { Comes D.answers service.old (spec.shows_visibility name wanted.now at)
        result service.new }
{
    let who = match caller_of(&wanted.authorization) {
        Ok(who) => who,
        Err(stop) => return stopped(stop),
    };
    let what = Action::Tags { package: name };
    let mut request = Request {
        at,
        who: Credential::Anonymous,
        what,
    };
    match service.answer(alloc, &request) {
        Ok(told) => {
            request.who = credential(&who);
            told_to_caller(alloc, service, &request, &told)
        }
        Err(fault) => Err(fault),
    }
}

// What is told of it to the caller; and then, whether nobody was told of it.
fn told_to_caller<D: Service>(
    alloc: Global,
    service: &mut D,
    request: &Request,
    told: &Reply,
) -> Result<Reply, Fault>
    ensures { Comes D.answers service.old
        (asks request.now (unless_stopped (spec.shows_public told.now))) result service.new }
{
    let outcome = service.answer(alloc, request);
    if is_stop(&outcome) {
        return outcome;
    }
    shown::public(alloc, told)
}

/// Whether a package has a scope.
pub(crate) fn is_scoped(name: &Name) -> bool
    ensures { result ≡ is_some (scope_of name.now) }
{
    match name.scope() {
        Some(_) => true,
        None => false,
    }
}

// ---- organisations

fn teams<D: Service>(
    alloc: Global,
    service: &mut D,
    values: Values<'_>,
    wanted: &Wanted,
    at: Moment,
) -> Result<Reply, Fault>
    ensures { Comes D.answers service.old
        (spec.leads by.Teams (values_view values.entry) wanted.now at) result service.new }
{
    match path::ident(alloc, values) {
        Ok(organisation) => teams_of(alloc, service, organisation, wanted, at),
        Err(stop) => stopped(stop),
    }
}

fn teams_of<D: Service>(
    alloc: Global,
    service: &mut D,
    organisation: Ident,
    wanted: &Wanted,
    at: Moment,
) -> Result<Reply, Fault>
    ensures { Comes D.answers service.old (spec.shows_teams organisation wanted.now at)
        result service.new }
{
    let who = match caller_of(&wanted.authorization) {
        Ok(who) => who,
        Err(stop) => return stopped(stop),
    };
    let what = Action::Teams { organisation };
    let request = request(at, &who, what);
    let outcome = service.answer(alloc, &request);
    let Action::Teams { organisation } = &request.what else {
        unreachable!();
    };
    shown::teams(alloc, organisation, outcome)
}

// Only a user gives a role in an organisation.
fn org_set<D: Service>(
    alloc: Global,
    service: &mut D,
    values: Values<'_>,
    wanted: &Wanted,
    at: Moment,
) -> Result<Reply, Fault>
    ensures { Comes D.answers service.old
        (spec.leads by.OrgSet (values_view values.entry) wanted.now at) result service.new }
{
    match user_of(alloc, service, wanted, at, false) {
        Ok(who) => set_member(alloc, service, values, wanted, &who, at),
        Err(outcome) => outcome,
    }
}

fn set_member<D: Service>(
    alloc: Global,
    service: &mut D,
    values: Values<'_>,
    wanted: &Wanted,
    who: &Caller,
    at: Moment,
) -> Result<Reply, Fault>
    ensures { Comes D.answers service.old
        (spec.sets_member (values_view values.entry) wanted.now.body at (who_of who.now)) result
        service.new }
{
    match member(alloc, values, wanted.body.as_slice()) {
        Ok((organisation, user, role)) => {
            set_named(alloc, service, organisation, user, role, who, at)
        }
        Err(stop) => stopped(stop),
    }
}

fn set_named<D: Service>(
    alloc: Global,
    service: &mut D,
    organisation: Ident,
    user: Ident,
    role: Role,
    who: &Caller,
    at: Moment,
) -> Result<Reply, Fault>
    ensures { Comes D.answers service.old
        (or_memory (spec.asks_role organisation user role at (who_of who.now)))
        result service.new }
{
    match copied(alloc, &organisation) {
        Ok(named) => count_members(alloc, service, named, organisation, user, role, who, at),
        Err(fault) => Err(fault),
    }
}

/// The name once more.
pub(crate) fn copied(alloc: Global, name: &Ident) -> Result<Ident, Fault>
    ensures ok { IfOk result (λ copy. copy ≡ name.now) }
    ensures err { IfErr result (λ fault. fault ≡ Fault.Memory) }
{
    match Ident::parse(alloc, name.text()) {
        Ok(copy) => Ok(copy),
        Err(_) => Err(Fault::Memory),
    }
}

// The members of the organisation are asked for, which is named once more for that.
fn count_members<D: Service>(
    alloc: Global,
    service: &mut D,
    named: Ident,
    organisation: Ident,
    user: Ident,
    role: Role,
    who: &Caller,
    at: Moment,
) -> Result<Reply, Fault>
    requires { named ≡ organisation }
    ensures { Comes D.answers service.old
        (spec.asks_role organisation user role at (who_of who.now)) result service.new }
{
    let what = Action::Members {
        organisation: named,
    };
    let request = request(at, who, what);
    let outcome = service.answer(alloc, &request);
    match document(outcome) {
        Ok(text) => set_counted(
            alloc,
            service,
            organisation,
            user,
            role,
            text.as_str(),
            who,
            at,
        ),
        Err(other) => no_document(other),
    }
}

// What is answered where something else than the members comes.
fn no_document(outcome: Result<Reply, Fault>) -> Result<Reply, Fault>
    ensures { spec.no_document outcome [] result }
{
    if is_stop(&outcome) {
        return outcome;
    }
    Err(Fault::Database)
}

// What is to be shown is made before the role is given.
fn set_counted<D: Service>(
    alloc: Global,
    service: &mut D,
    organisation: Ident,
    user: Ident,
    role: Role,
    members: &str,
    who: &Caller,
    at: Moment,
) -> Result<Reply, Fault>
    ensures { Comes D.answers service.old (or_memory (for_form
        (spec.gives_role organisation user role at (who_of who.now))
        (membership_form organisation user role members.now))) result service.new }
{
    match shown::membership(alloc, &organisation, &user, role, members) {
        Ok(Some(shown)) => { give_role(alloc, service, organisation, user, role, shown, who, at) }
        Ok(None) => Err(Fault::Database),
        Err(fault) => Err(fault),
    }
}

// The command comes last. Where nothing refuses it, this is shown.
fn give_role<D: Service>(
    alloc: Global,
    service: &mut D,
    organisation: Ident,
    user: Ident,
    role: Role,
    shown: SharedText,
    who: &Caller,
    at: Moment,
) -> Result<Reply, Fault>
    ensures { Comes D.answers service.old
        (spec.gives_role organisation user role at (who_of who.now) shown) result service.new }
{
    let what = Action::OrgSet {
        organisation,
        user,
        role,
    };
    let request = request(at, who, what);
    let outcome = service.answer(alloc, &request);
    if is_stop(&outcome) {
        return outcome;
    }
    Ok(Reply::Doc(shown))
}

// ---- users

fn user<D: Service>(
    alloc: Global,
    service: &mut D,
    values: Values<'_>,
    wanted: &Wanted,
    at: Moment,
) -> Result<Reply, Fault>
    ensures { Comes D.answers service.old
        (spec.leads by.User (values_view values.entry) wanted.now at) result service.new }
{
    match path::user(alloc, values) {
        Ok(user) => user_document(alloc, service, &user, wanted, at),
        Err(stop) => stopped(stop),
    }
}

// The document of a user, for any user who asks.
fn user_document<D: Service>(
    alloc: Global,
    service: &mut D,
    user: &Ident,
    wanted: &Wanted,
    at: Moment,
) -> Result<Reply, Fault>
    ensures { Comes D.answers service.old (spec.shows_user user.now wanted.now at)
        result service.new }
{
    let who = match caller_of(&wanted.authorization) {
        Ok(who) => who,
        Err(stop) => return stopped(stop),
    };
    let what = Action::WhoAmI;
    let request = request(at, &who, what);
    let outcome = service.answer(alloc, &request);
    if is_stop(&outcome) {
        return outcome;
    }
    shown::user(alloc, user)
}

fn user_packages<D: Service>(
    alloc: Global,
    service: &mut D,
    values: Values<'_>,
    wanted: &Wanted,
    at: Moment,
) -> Result<Reply, Fault>
    ensures { Comes D.answers service.old
        (spec.leads by.UserPackages (values_view values.entry) wanted.now at) result service.new }
{
    match path::ident(alloc, values) {
        Ok(user) => own_packages(alloc, service, &user, wanted, at),
        Err(stop) => stopped(stop),
    }
}

// The packages of a user, for that user alone.
fn own_packages<D: Service>(
    alloc: Global,
    service: &mut D,
    user: &Ident,
    wanted: &Wanted,
    at: Moment,
) -> Result<Reply, Fault>
    ensures { Comes D.answers service.old (spec.shows_own user.now wanted.now at)
        result service.new }
{
    let who = match caller_of(&wanted.authorization) {
        Ok(who) => who,
        Err(stop) => return stopped(stop),
    };
    let what = Action::WhoAmI;
    let request = request(at, &who, what);
    let outcome = service.answer(alloc, &request);
    packages_of(alloc, service, user, &who, at, outcome)
}

// Their packages, where the outcome is their name.
fn packages_of<D: Service>(
    alloc: Global,
    service: &mut D,
    user: &Ident,
    who: &Caller,
    at: Moment,
    outcome: Result<Reply, Fault>,
) -> Result<Reply, Fault>
    ensures { Comes D.answers service.old (spec.asks_own user.now at (who_of who.now) outcome)
        result service.new }
{
    if is_stop(&outcome) {
        return outcome;
    }
    let is_own = shown::is_user(alloc, user, &outcome);
    packages_if(alloc, service, is_own, who, at)
}

fn packages_if<D: Service>(
    alloc: Global,
    service: &mut D,
    is_own: Result<bool, Fault>,
    who: &Caller,
    at: Moment,
) -> Result<Reply, Fault>
    requires { IfErr is_own (λ fault. fault ≡ Fault.Memory) }
    ensures { MatchResult is_own
        (λ is_own. Comes D.answers service.old
        (either is_own (asks (leading.request at (who_of who.now) MyPackages) ends)
        (ends (Ok (Refused NotFound)))) result service.new)
        (λ _. (result ≡ Err Fault.Memory) × (service.new ≡ service.old)) }
{
    match is_own {
        Ok(is_own) => packages_where(alloc, service, is_own, who, at),
        Err(fault) => Err(fault),
    }
}

fn packages_where<D: Service>(
    alloc: Global,
    service: &mut D,
    is_own: bool,
    who: &Caller,
    at: Moment,
) -> Result<Reply, Fault>
    ensures { Comes D.answers service.old
        (either is_own (asks (leading.request at (who_of who.now) MyPackages) ends)
        (ends (Ok (Refused NotFound)))) result service.new }
{
    if is_own {
        let request = request(at, who, Action::MyPackages);
        service.answer(alloc, &request)
    } else {
        Ok(Reply::Refused(Refusal::NotFound))
    }
}
