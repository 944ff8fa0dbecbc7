//! Who calls, where that is asked first.

ghost use Rattle.std.specs.Prelude.{[], MatchResult};
ghost use Rattle.registry_npm.specs.Users as spec;
ghost use Rattle.registry_npm.specs.Users.{IsStranger, IsUser};

use crate::caller::{Caller, caller_of, request};
use crate::commands::stale;
use crate::shown::{is_stop, stopped};
use registry_names::{Fault, Moment};
use registry_rules::{Action, Reply};
use registry_service::Service;
use registry_wire::Wanted;
use std::alloc::Global;

// What is answered to who is no user.
fn refused(is_revised: bool, outcome: Result<Reply, Fault>) -> Result<Reply, Fault>
    ensures { spec.refused_by is_revised outcome [] result }
{
    if is_revised { stale(outcome) } else { outcome }
}

/// Who calls, if it is a user: the registry is asked that before anything else is read of a request.
/// Otherwise what is answered, where `is_revised` says that the path names a revision.
pub(crate) fn user<D: Service>(
    alloc: Global,
    service: &mut D,
    wanted: &Wanted,
    at: Moment,
    is_revised: bool,
) -> Result<Caller, Result<Reply, Fault>>
    ensures { MatchResult result
        (λ who. IsUser D.answers wanted.now at service.old who service.new)
        (λ outcome. IsStranger D.answers wanted.now at is_revised service.old outcome service.new) }
{
    let who = match caller_of(&wanted.authorization) {
        Ok(who) => who,
        Err(stop) => return Err(stopped(stop)),
    };
    let request = request(at, &who, Action::WhoAmI);
    let outcome = service.answer(alloc, &request);
    if is_stop(&outcome) {
        return Err(refused(is_revised, outcome));
    }
    Ok(who)
}
