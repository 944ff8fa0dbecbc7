//! Who may do what with a package: what is asked for that, one request after the other.

ghost use Rattle.std.specs.Prelude.{◌≡◌, [], true, IfErr, IfOk};
ghost use Rattle.registry_names.specs.Idents.{is_ident};
ghost use Rattle.registry_names.specs.Names.{scope_of};
ghost use Rattle.registry_npm.specs.Callers.{who_of};
ghost use Rattle.registry_npm.specs.Collaborators as spec;
ghost use Rattle.registry_npm.specs.Leading as leading;
ghost use Rattle.registry_npm.specs.Leading.{Comes, shows};
ghost use Rattle.registry_npm.specs.Npm as npm;
ghost use Rattle.registry_routes.specs.Readings.{values_view};
ghost use Rattle.registry_routes.specs.declared.npm_endpoint.NpmEndpoint.TheVariants as by;
ghost use Rattle.registry_rules.specs.declared.request.Action.TheVariants as action;

use crate::caller::{Caller, caller_of, request};
use crate::following::copied;
use crate::forms::names_in;
use crate::rights::{collaborators_text, give, level_said, levels_in, members_in, reads, teams_in};
use crate::shown::{doc, document, is_stop, stopped};
use crate::{path, shown};
use registry_access::Level;
use registry_cache::SharedText;
use registry_names::{Fault, Ident, Moment, Name, Refusal};
use registry_packument::{Member, PackageLevel};
use registry_routes::Values;
use registry_rules::{Action, Reply};
use registry_service::Service;
use registry_wire::Wanted;
use std::alloc::Global;

/// How many bytes of documents one turn may read.
const MOST_BYTES: usize = 131_072;

/// How many bytes a document counts for, beside its own: to ask for it costs something, too.
const REQUEST_COST: usize = 1024;

/// A package, the organisation of its scope, and who asks about it.
#[derive(Clone, Copy)]
struct About<'a> {
    package: &'a Name,
    organisation: &'a Ident,
    who: &'a Caller,
    at: Moment,
}

/// Who may do what with a package.
pub(crate) fn collaborators<D: Service>(
    alloc: Global,
    service: &mut D,
    values: Values<'_>,
    wanted: &Wanted,
    at: Moment,
) -> Result<Reply, Fault>
    ensures { Comes D.answers service.old
        (npm.leads by.Collaborators (values_view values.entry) wanted.now at) result service.new }
{
    match path::name(alloc, values) {
        Ok(name) => writers_of(alloc, service, name, wanted, at),
        Err(stop) => stopped(stop),
    }
}

// The maintainers are asked for first.
fn writers_of<D: Service>(
    alloc: Global,
    service: &mut D,
    name: Name,
    wanted: &Wanted,
    at: Moment,
) -> Result<Reply, Fault>
    ensures { Comes D.answers service.old (spec.shows_writers name wanted.now at)
        result service.new }
{
    let who = match caller_of(&wanted.authorization) {
        Ok(who) => who,
        Err(stop) => return stopped(stop),
    };
    let what = Action::Maintainers { package: name };
    let request = request(at, &who, what);
    let outcome = service.answer(alloc, &request);
    let Action::Maintainers { package } = &request.what else {
        unreachable!();
    };
    in_scope(alloc, service, package, &who, at, outcome)
}

// A package without a scope has these maintainers, and one with a scope an organisation.
fn in_scope<D: Service>(
    alloc: Global,
    service: &mut D,
    name: &Name,
    who: &Caller,
    at: Moment,
    outcome: Result<Reply, Fault>,
) -> Result<Reply, Fault>
    ensures { Comes D.answers service.old
        (spec.asks_scope name.now at (who_of who.now) (scope_of name.now) outcome)
        result service.new }
{
    let scope = match name.scope() {
        Some(scope) => scope,
        None => return shown::writers(alloc, outcome),
    };
    if is_stop(&outcome) {
        return outcome;
    }
    of_scope(alloc, service, name, scope, who, at)
}

// The organisation of a scope.
fn organisation_of(alloc: Global, scope: &str) -> Result<Ident, Fault>
    requires { is_ident scope.now ≡ true }
    ensures ok { IfOk result (λ organisation. organisation ≡ scope.now) }
    ensures err { IfErr result (λ fault. fault ≡ Fault.Memory) }
{
    match Ident::parse(alloc, scope) {
        Ok(organisation) => Ok(organisation),
        Err(_) => Err(Fault::Memory),
    }
}

// What members of the organisation of this scope may do with a package.
fn of_scope<D: Service>(
    alloc: Global,
    service: &mut D,
    name: &Name,
    scope: &str,
    who: &Caller,
    at: Moment,
) -> Result<Reply, Fault>
    requires { is_ident scope.now ≡ true }
    ensures { Comes D.answers service.old
        (spec.asks_all name.now at (who_of who.now) scope.now) result service.new }
{
    let organisation = organisation_of(alloc, scope)?;
    let about = About {
        package: name,
        organisation: &organisation,
        who,
        at,
    };
    of_members(alloc, service, &about)
}

// ---- the organisation

fn asked<D: Service>(
    alloc: Global,
    service: &mut D,
    about: &About<'_>,
    what: Action,
) -> Result<Reply, Fault>
    ensures { D.answers service.old (leading.request about.now.at (who_of about.now.who.now) what)
        result service.new }
{
    let request = request(about.at, about.who, what);
    service.answer(alloc, &request)
}

// What is left after a document of so many bytes, where what was left covers it.
fn left_after(left: usize, len: usize) -> Option<usize>
    ensures { result ≡ spec.left_after left len }
{
    match left.checked_sub(REQUEST_COST) {
        Some(rest) => rest.checked_sub(len),
        None => None,
    }
}

// The document of an outcome, and what is left after it.
fn taken(
    outcome: Result<Reply, Fault>,
    left: usize,
) -> Result<Result<(SharedText, usize), Reply>, Fault>
    ensures { spec.IsTaken left outcome result }
{
    let text = match document(outcome) {
        Ok(text) => text,
        Err(Ok(other)) => return Ok(Err(other)),
        Err(Err(fault)) => return Err(fault),
    };
    match left_after(left, text.as_str().len()) {
        Some(rest) => Ok(Ok((text, rest))),
        None => Ok(Err(Reply::Refused(Refusal::NotServed))),
    }
}

// The members are asked for, and then the teams.
fn of_members<D: Service>(alloc: Global, service: &mut D, about: &About<'_>) -> Result<Reply, Fault>
    ensures { Comes D.answers service.old (spec.asks_all about.now.package.now about.now.at
        (who_of about.now.who.now) about.now.organisation.now) result service.new }
{
    let organisation = copied(alloc, about.organisation)?;
    let outcome = asked(alloc, service, about, Action::Members { organisation });
    let (text, left) = match taken(outcome, MOST_BYTES)? {
        Ok(taken) => taken,
        Err(other) => return Ok(other),
    };
    match members_in(alloc, text.as_str())? {
        Some(members) => of_teams(alloc, service, about, &members, left),
        None => Err(Fault::Database),
    }
}

// The teams are asked for, and then each of them.
fn of_teams<D: Service>(
    alloc: Global,
    service: &mut D,
    about: &About<'_>,
    members: &[Member],
    left: usize,
) -> Result<Reply, Fault>
    ensures { Comes D.answers service.old (spec.asks_organisation about.now.package.now
        about.now.organisation.now about.now.at (who_of about.now.who.now) members.now left)
        result service.new }
{
    let organisation = copied(alloc, about.organisation)?;
    let outcome = asked(alloc, service, about, Action::Teams { organisation });
    let (text, rest) = match taken(outcome, left)? {
        Ok(taken) => taken,
        Err(other) => return Ok(other),
    };
    match teams_in(alloc, text.as_str())? {
        Some(teams) => of_each_team(alloc, service, about, members, &teams, rest),
        None => Err(Fault::Database),
    }
}

// Each team is asked, and then those are shown who may do something.
fn of_each_team<D: Service>(
    alloc: Global,
    service: &mut D,
    about: &About<'_>,
    members: &[Member],
    teams: &[Ident],
    left: usize,
) -> Result<Reply, Fault>
    ensures { Comes D.answers service.old (spec.asks_teams about.now.package.now
        about.now.organisation.now about.now.at (who_of about.now.who.now) members.now teams.now
        left []) result service.new }
{
    let mut left = left;
    let mut granted = Vec::new(alloc);
    for team in teams {
        match of_team(alloc, service, about, team, left, &mut granted)? {
            Ok(rest) => left = rest,
            Err(other) => return Ok(other),
        }
    }
    shown_rights(alloc, members, &granted)
}

fn shown_rights(alloc: Global, members: &[Member], granted: &[PackageLevel]) -> Result<Reply, Fault>
    ensures { shows (spec.collaborators_text members.now granted.now) [] result }
{
    doc(collaborators_text(alloc, members, granted)?)
}

// ---- a team

fn packages_of(alloc: Global, about: &About<'_>, team: &Ident) -> Result<Action, Fault>
    ensures ok { IfOk result (λ what. what
        ≡ action.TeamPackages about.now.organisation.now team.now) }
    ensures err { IfErr result (λ fault. fault ≡ Fault.Memory) }
{
    let organisation = copied(alloc, about.organisation)?;
    let team = copied(alloc, team)?;
    Ok(Action::TeamPackages { organisation, team })
}

fn members_of(alloc: Global, about: &About<'_>, team: &Ident) -> Result<Action, Fault>
    ensures ok { IfOk result (λ what. what
        ≡ action.TeamMembers about.now.organisation.now team.now) }
    ensures err { IfErr result (λ fault. fault ≡ Fault.Memory) }
{
    let organisation = copied(alloc, about.organisation)?;
    let team = copied(alloc, team)?;
    Ok(Action::TeamMembers { organisation, team })
}

// What these rows say of the package.
fn level_on(about: &About<'_>, rows: &[PackageLevel]) -> Level
    ensures { result ≡ spec.level_said about.now.package.now rows.now }
{
    level_said(rows, about.package.text())
}

// What the team is granted on the package, and so its members, behind those that are there; and what
// is left of the bytes.
fn of_team<D: Service>(
    alloc: Global,
    service: &mut D,
    about: &About<'_>,
    team: &Ident,
    left: usize,
    granted: &mut Vec<PackageLevel>,
) -> Result<Result<usize, Reply>, Fault>
    ensures { spec.IsTeamAsked D.answers about.now.package.now about.now.organisation.now
        about.now.at (who_of about.now.who.now) team.now left granted.old.items
        service.old result service.new granted.new.items }
{
    let what = packages_of(alloc, about, team)?;
    let outcome = asked(alloc, service, about, what);
    let (text, rest) = match taken(outcome, left)? {
        Ok(taken) => taken,
        Err(other) => return Ok(Err(other)),
    };
    let levels = match levels_in(alloc, text.as_str())? {
        Some(levels) => levels,
        None => return Err(Fault::Database),
    };
    let level = level_on(about, &levels);
    if !reads(level) {
        return Ok(Ok(rest));
    }
    of_granted(alloc, service, about, team, level, rest, granted)
}

// The members of a team that is granted something on the package.
fn of_granted<D: Service>(
    alloc: Global,
    service: &mut D,
    about: &About<'_>,
    team: &Ident,
    level: Level,
    left: usize,
    granted: &mut Vec<PackageLevel>,
) -> Result<Result<usize, Reply>, Fault>
    ensures { spec.AreMembersAsked D.answers about.now.package.now about.now.organisation.now
        about.now.at (who_of about.now.who.now) team.now level left granted.old.items
        service.old result service.new granted.new.items }
{
    let what = members_of(alloc, about, team)?;
    let outcome = asked(alloc, service, about, what);
    let (text, rest) = match taken(outcome, left)? {
        Ok(taken) => taken,
        Err(other) => return Ok(Err(other)),
    };
    let users = match names_in(alloc, text.as_str())? {
        Some(users) => users,
        None => return Err(Fault::Database),
    };
    give(alloc, granted, &users, level)?;
    Ok(Ok(rest))
}
