//! What a route asks for.

ghost use Rattle.std.specs.Prelude.{[]};
ghost use Rattle.registry_routes.specs.Readings.{values_view};
ghost use Rattle.registry_routes.specs.declared.endpoint.Endpoint.TheVariants as endpoint;
ghost use Rattle.registry_service.specs.Actions as spec;

use crate::body;
use crate::path_values::{one, three, two};
use registry_names::{Name, Stop};
use registry_routes::{Deprecation, Endpoint, Values};
use registry_rules::Action;
use std::alloc::Global;

/// The action that a route asks for, with the values of its path and the body. Where the route has
/// no body, the body is dropped.
///
/// The values are read from left to right, and then the body; the first that isn't in form gives
/// its refusal. `Memory` is returned where no memory is left.
pub(crate) fn action(
    alloc: Global,
    endpoint: Endpoint,
    values: Values<'_>,
    body: &[u8],
) -> Result<Action, Stop>
    ensures { spec.reads_action endpoint (values_view values.entry) body.now result }
{
    match endpoint {
        Endpoint::Packument => packument(alloc, values),
        Endpoint::Publish => publish(alloc, values, body),
        Endpoint::VersionDoc => version_doc(alloc, values),
        Endpoint::Archive => archive(alloc, values),
        Endpoint::Tags => tags(alloc, values),
        Endpoint::TagSet => tag_set(alloc, values, body),
        Endpoint::TagRemove => tag_remove(alloc, values),
        Endpoint::SetAccess => set_access(alloc, values, body),
        Endpoint::OwnerAdd => owner_add(alloc, values),
        Endpoint::OwnerRemove => owner_remove(alloc, values),
        Endpoint::Members => members(alloc, values),
        Endpoint::OrgSet => org_set(alloc, values, body),
        Endpoint::OrgRemove => org_remove(alloc, values),
        Endpoint::Teams => teams(alloc, values),
        Endpoint::TeamMembers => team_members(alloc, values),
        Endpoint::TeamCreate => team_create(alloc, values),
        Endpoint::TeamDestroy => team_destroy(alloc, values),
        Endpoint::TeamAdd => team_add(alloc, values),
        Endpoint::TeamRemove => team_remove(alloc, values),
        Endpoint::TeamPackages => team_packages(alloc, values),
        Endpoint::Grant => grant(alloc, values, body),
        Endpoint::Revoke => revoke(alloc, values),
        Endpoint::Deprecate => deprecate(alloc, values, body),
        Endpoint::Withdraw => withdraw(alloc, values),
    }
}

fn packument(alloc: Global, values: Values<'_>) -> Result<Action, Stop>
    ensures { spec.reads_action endpoint.Packument (values_view values.entry) [] result }
{
    let package = one(alloc, values)?;
    Ok(Action::Packument { package })
}

fn publish(alloc: Global, values: Values<'_>, body: &[u8]) -> Result<Action, Stop>
    ensures { spec.reads_action endpoint.Publish (values_view values.entry) body.now result }
{
    let name = one(alloc, values)?;
    let form = body::form(alloc, &name, body)?;
    Ok(Action::Publish { form })
}

fn version_doc(alloc: Global, values: Values<'_>) -> Result<Action, Stop>
    ensures { spec.reads_action endpoint.VersionDoc (values_view values.entry) [] result }
{
    let (package, version) = two(alloc, values)?;
    Ok(Action::VersionDoc { package, version })
}

fn archive(alloc: Global, values: Values<'_>) -> Result<Action, Stop>
    ensures { spec.reads_action endpoint.Archive (values_view values.entry) [] result }
{
    let package: Name = one(alloc, values)?;
    let version = body::file_version(alloc, &package, values.second)?;
    Ok(Action::Archive { package, version })
}

fn tags(alloc: Global, values: Values<'_>) -> Result<Action, Stop>
    ensures { spec.reads_action endpoint.Tags (values_view values.entry) [] result }
{
    let package = one(alloc, values)?;
    Ok(Action::Tags { package })
}

fn tag_set(alloc: Global, values: Values<'_>, body: &[u8]) -> Result<Action, Stop>
    ensures { spec.reads_action endpoint.TagSet (values_view values.entry) body.now result }
{
    let (package, tag) = two(alloc, values)?;
    let version = body::version(alloc, body)?;
    Ok(Action::TagSet {
        package,
        tag,
        version,
    })
}

fn tag_remove(alloc: Global, values: Values<'_>) -> Result<Action, Stop>
    ensures { spec.reads_action endpoint.TagRemove (values_view values.entry) [] result }
{
    let (package, tag) = two(alloc, values)?;
    Ok(Action::TagRemove { package, tag })
}

fn set_access(alloc: Global, values: Values<'_>, body: &[u8]) -> Result<Action, Stop>
    ensures { spec.reads_action endpoint.SetAccess (values_view values.entry) body.now result }
{
    let package = one(alloc, values)?;
    let status = body::status(alloc, body)?;
    Ok(Action::SetAccess { package, status })
}

fn owner_add(alloc: Global, values: Values<'_>) -> Result<Action, Stop>
    ensures { spec.reads_action endpoint.OwnerAdd (values_view values.entry) [] result }
{
    let (package, user) = two(alloc, values)?;
    Ok(Action::OwnerAdd { package, user })
}

fn owner_remove(alloc: Global, values: Values<'_>) -> Result<Action, Stop>
    ensures { spec.reads_action endpoint.OwnerRemove (values_view values.entry) [] result }
{
    let (package, user) = two(alloc, values)?;
    Ok(Action::OwnerRemove { package, user })
}

fn members(alloc: Global, values: Values<'_>) -> Result<Action, Stop>
    ensures { spec.reads_action endpoint.Members (values_view values.entry) [] result }
{
    let organisation = one(alloc, values)?;
    Ok(Action::Members { organisation })
}

fn org_set(alloc: Global, values: Values<'_>, body: &[u8]) -> Result<Action, Stop>
    ensures { spec.reads_action endpoint.OrgSet (values_view values.entry) body.now result }
{
    let (organisation, user) = two(alloc, values)?;
    let role = body::role(alloc, body)?;
    Ok(Action::OrgSet {
        organisation,
        user,
        role,
    })
}

fn org_remove(alloc: Global, values: Values<'_>) -> Result<Action, Stop>
    ensures { spec.reads_action endpoint.OrgRemove (values_view values.entry) [] result }
{
    let (organisation, user) = two(alloc, values)?;
    Ok(Action::OrgRemove { organisation, user })
}

fn teams(alloc: Global, values: Values<'_>) -> Result<Action, Stop>
    ensures { spec.reads_action endpoint.Teams (values_view values.entry) [] result }
{
    let organisation = one(alloc, values)?;
    Ok(Action::Teams { organisation })
}

fn team_members(alloc: Global, values: Values<'_>) -> Result<Action, Stop>
    ensures { spec.reads_action endpoint.TeamMembers (values_view values.entry) [] result }
{
    let (organisation, team) = two(alloc, values)?;
    Ok(Action::TeamMembers { organisation, team })
}

fn team_create(alloc: Global, values: Values<'_>) -> Result<Action, Stop>
    ensures { spec.reads_action endpoint.TeamCreate (values_view values.entry) [] result }
{
    let (organisation, team) = two(alloc, values)?;
    Ok(Action::TeamCreate { organisation, team })
}

fn team_destroy(alloc: Global, values: Values<'_>) -> Result<Action, Stop>
    ensures { spec.reads_action endpoint.TeamDestroy (values_view values.entry) [] result }
{
    let (organisation, team) = two(alloc, values)?;
    Ok(Action::TeamDestroy { organisation, team })
}

fn team_add(alloc: Global, values: Values<'_>) -> Result<Action, Stop>
    ensures { spec.reads_action endpoint.TeamAdd (values_view values.entry) [] result }
{
    let (organisation, team, user) = three(alloc, values)?;
    Ok(Action::TeamAdd {
        organisation,
        team,
        user,
    })
}

fn team_remove(alloc: Global, values: Values<'_>) -> Result<Action, Stop>
    ensures { spec.reads_action endpoint.TeamRemove (values_view values.entry) [] result }
{
    let (organisation, team, user) = three(alloc, values)?;
    Ok(Action::TeamRemove {
        organisation,
        team,
        user,
    })
}

fn team_packages(alloc: Global, values: Values<'_>) -> Result<Action, Stop>
    ensures { spec.reads_action endpoint.TeamPackages (values_view values.entry) [] result }
{
    let (organisation, team) = two(alloc, values)?;
    Ok(Action::TeamPackages { organisation, team })
}

fn grant(alloc: Global, values: Values<'_>, body: &[u8]) -> Result<Action, Stop>
    ensures { spec.reads_action endpoint.Grant (values_view values.entry) body.now result }
{
    let (organisation, team, package) = three(alloc, values)?;
    let grant = body::grant(alloc, body)?;
    Ok(Action::Grant {
        organisation,
        team,
        package,
        grant,
    })
}

fn revoke(alloc: Global, values: Values<'_>) -> Result<Action, Stop>
    ensures { spec.reads_action endpoint.Revoke (values_view values.entry) [] result }
{
    let (organisation, team, package) = three(alloc, values)?;
    Ok(Action::Revoke {
        organisation,
        team,
        package,
    })
}

fn deprecate(alloc: Global, values: Values<'_>, body: &[u8]) -> Result<Action, Stop>
    ensures { spec.reads_action endpoint.Deprecate (values_view values.entry) body.now result }
{
    let package = one(alloc, values)?;
    let Deprecation { selector, message } = body::deprecation(alloc, body)?;
    Ok(Action::Deprecate {
        package,
        selector,
        message,
    })
}

fn withdraw(alloc: Global, values: Values<'_>) -> Result<Action, Stop>
    ensures { spec.reads_action endpoint.Withdraw (values_view values.entry) [] result }
{
    let (package, version) = two(alloc, values)?;
    Ok(Action::Withdraw { package, version })
}
