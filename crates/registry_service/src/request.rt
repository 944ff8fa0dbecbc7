//! The request of the registry that a request of HTTP spells.

ghost use Rattle.registry_service.specs.Requests as spec;

use crate::action::action;
use crate::caller::credential;
use registry_names::{Moment, Refusal, Stop};
use registry_routes::route_of;
use registry_rules::Request;
use registry_wire::Wanted;
use std::alloc::Global;

/// The request that a whole request of HTTP spells, asked at this moment.
///
/// Where it isn't in form, the first of these is returned: `NotFound` where no route has its method
/// and target; the refusal of a value of the path, from left to right; that of the body; `NoCaller`
/// for the authorization. `Memory` is returned where no memory is left.
pub fn request_of(alloc: Global, wanted: &Wanted, at: Moment) -> Result<Request, Stop>
    ensures { spec.reads_request wanted.now at result }
{
    let Some(route) = route_of(wanted.method, wanted.target.as_slice()) else {
        return Err(Stop::Refused(Refusal::NotFound));
    };
    let what = action(alloc, route.endpoint, route.values, wanted.body.as_slice())?;
    let who = credential(&wanted.authorization)?;
    Ok(Request { at, who, what })
}
