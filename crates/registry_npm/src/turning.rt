//! One turn of npm's own requests, and of all others.

ghost use Rattle.std.specs.Prelude.{◌≡◌, true};
ghost use Rattle.registry_service.specs.Dialects.{AsksOne};
ghost use Rattle.registry_service.specs.Turns.{Turns, request, spoken};
ghost use Rattle.registry_npm.specs.Npm as spec;
ghost use Rattle.registry_npm.specs.Labels.{own_labels};
ghost use Rattle.registry_npm.specs.Leading.{Comes};
ghost use Rattle.registry_npm.specs.Npm.{npm, others};
ghost use Rattle.registry_routes.specs.Readings.{values_view};
ghost use Rattle.registry_routes.specs.declared.npm_endpoint.NpmEndpoint.TheVariants as by;

use crate::body::begins_object;
use crate::documents;
use crate::following::by_route;
use crate::labels::other_labels;
use crate::told::stopped;
use registry_names::Moment;
use registry_routes::{NpmEndpoint, Values, npm_route_of};
use registry_service::{Service, Told, Turned, request_of, turn_told};
use registry_wire::{Labels, Wanted};
use std::alloc::Global;

// Whether a request by this route, with this body, is npm's own.
fn is_npms(endpoint: NpmEndpoint, body: &[u8]) -> bool
    ensures { result ≡ spec.is_npms endpoint body.now }
{
    match endpoint {
        NpmEndpoint::OrgSet
        | NpmEndpoint::OrgRemove
        | NpmEndpoint::TeamCreate
        | NpmEndpoint::TeamAdd
        | NpmEndpoint::TeamRemove
        | NpmEndpoint::Grant
        | NpmEndpoint::Revoke => begins_object(body),
        NpmEndpoint::Packument
        | NpmEndpoint::Document
        | NpmEndpoint::Revised
        | NpmEndpoint::Unpublish
        | NpmEndpoint::FileDrop
        | NpmEndpoint::ScopedFileDrop
        | NpmEndpoint::Visibility
        | NpmEndpoint::SetAccess
        | NpmEndpoint::Collaborators
        | NpmEndpoint::OrgPackages
        | NpmEndpoint::UserPackages
        | NpmEndpoint::Members
        | NpmEndpoint::Teams
        | NpmEndpoint::TeamMembers
        | NpmEndpoint::TeamPackages
        | NpmEndpoint::WhoAmI
        | NpmEndpoint::Profile
        | NpmEndpoint::User
        | NpmEndpoint::Logout
        | NpmEndpoint::Ping
        | NpmEndpoint::NotServed => true,
    }
}

// What a request by this route of npm's comes to, and its labels. Only a packument has some.
fn own<D: Service>(
    alloc: Global,
    service: &mut D,
    endpoint: NpmEndpoint,
    values: Values<'_>,
    wanted: &Wanted,
    at: Moment,
) -> (Told, Labels)
    ensures comes { Comes D.answers service.old
        (spec.leads endpoint (values_view values.entry) wanted.now at) result.0 service.new }
    ensures labels { result.1 ≡ own_labels endpoint wanted.now.accept result.0 }
{
    match endpoint {
        NpmEndpoint::Packument => documents::packument(alloc, service, values, wanted, at),
        _ => {
            let told = by_route(alloc, service, endpoint, values, wanted, at);
            (told, Labels::none())
        }
    }
}

// The turn of a request by the registry's own routes. What of it is an archive has labels.
fn other_turn<D: Service>(
    alloc: Global,
    service: &mut D,
    wanted: &Wanted,
    at: Moment,
    is_last: bool,
) -> Turned
    ensures { Turns (spoken others D.answers) service.old (request wanted.now at) is_last result
        service.new }
{
    match request_of(alloc, wanted, at) {
        Ok(request) => {
            let outcome = service.answer(alloc, &request);
            let labels = other_labels(&request, &outcome);
            turn_told(Told::of(outcome), labels, wanted, is_last)
        }
        Err(stop) => turn_told(stopped(stop), Labels::none(), wanted, is_last),
    }
}

// Whether a document of a package is put by this route.
fn is_document(endpoint: NpmEndpoint) -> bool
    ensures { result ≡ true → endpoint ≡ by.Document }
{
    matches!(endpoint, NpmEndpoint::Document)
}

/// Whether a request that spells a command by the registry's own routes asks just that command: it
/// isn't npm's own, or it puts a document, which is a publication then.
pub(crate) fn asks_one(wanted: &Wanted) -> bool
    ensures { result ≡ true → AsksOne npm wanted.now }
{
    let Some(route) = npm_route_of(wanted.method, wanted.target.as_slice()) else {
        return true;
    };
    is_document(route.endpoint) || !is_npms(route.endpoint, wanted.body.as_slice())
}

/// The turn of a whole request, asked at this moment, where npm's own requests are served. Any other
/// request is served as [`turn`](registry_service::turn) does it. `is_last` says that this is the
/// last request that its connection may have.
///
/// The service is asked one request after the other, at most one command among them. A fault of one
/// ends the turn, and is the answer. A packument that is read as npm reads it has its revision as
/// entity tag, and an abbreviated one or an archive the digest of its bytes; who names it again is
/// told that it is the same.
pub fn npm_turn<D: Service>(
    alloc: Global,
    service: &mut D,
    wanted: &Wanted,
    at: Moment,
    is_last: bool,
) -> Turned
    ensures { Turns (spoken npm D.answers) service.old (request wanted.now at) is_last result
        service.new }
{
    let Some(route) = npm_route_of(wanted.method, wanted.target.as_slice()) else {
        return other_turn(alloc, service, wanted, at, is_last);
    };
    if !is_npms(route.endpoint, wanted.body.as_slice()) {
        return other_turn(alloc, service, wanted, at, is_last);
    }
    let (told, labels) = own(alloc, service, route.endpoint, route.values, wanted, at);
    turn_told(told, labels, wanted, is_last)
}
