//! What the routes of npm's ask of the registry first.

ghost use Rattle.std.specs.Prelude.{[]};
ghost use Rattle.registry_routes.specs.Readings.{values_view};
ghost use Rattle.registry_routes.specs.declared.npm_endpoint.NpmEndpoint.TheVariants as by;
ghost use Rattle.registry_npm.specs.Asked as spec;

use crate::body::{access_of, granted, ident_at, json_of, name_at, user_role};
use crate::path::{file_version, ident, idents, name, token};
use registry_access::Role;
use registry_names::{Ident, Refusal, Stop};
use registry_routes::{NpmEndpoint, Values};
use registry_rules::Action;
use std::alloc::Global;

/// What a turn by this route asks for first.
///
/// The values of the path are read from left to right, then the members of the body; the first that
/// isn't in form gives its refusal. `Memory` is returned where no memory is left.
pub(crate) fn first(
    alloc: Global,
    endpoint: NpmEndpoint,
    values: Values<'_>,
    body: &[u8],
) -> Result<Action, Stop>
    ensures { spec.reads_first endpoint (values_view values.entry) body.now result }
{
    match endpoint {
        NpmEndpoint::FileDrop => file_drop(alloc, values),
        NpmEndpoint::ScopedFileDrop => scoped_file_drop(alloc, values),
        NpmEndpoint::SetAccess => set_access(alloc, values, body),
        NpmEndpoint::OrgPackages => org_packages(alloc, values),
        NpmEndpoint::Members => members(alloc, values),
        NpmEndpoint::OrgRemove => org_remove(alloc, values, body),
        NpmEndpoint::TeamCreate => team_create(alloc, values, body),
        NpmEndpoint::TeamMembers => team_members(alloc, values),
        NpmEndpoint::TeamAdd => team_add(alloc, values, body),
        NpmEndpoint::TeamRemove => team_remove(alloc, values, body),
        NpmEndpoint::TeamPackages => team_packages(alloc, values),
        NpmEndpoint::Grant => grant(alloc, values, body),
        NpmEndpoint::Revoke => revoke(alloc, values, body),
        NpmEndpoint::WhoAmI | NpmEndpoint::Profile => Ok(Action::WhoAmI),
        NpmEndpoint::Logout => logout(alloc, values),
        NpmEndpoint::Packument
        | NpmEndpoint::Document
        | NpmEndpoint::Revised
        | NpmEndpoint::Unpublish
        | NpmEndpoint::Visibility
        | NpmEndpoint::Collaborators
        | NpmEndpoint::OrgSet
        | NpmEndpoint::Teams
        | NpmEndpoint::User
        | NpmEndpoint::UserPackages
        | NpmEndpoint::Ping
        | NpmEndpoint::NotServed => Err(Stop::Refused(Refusal::NotServed)),
    }
}

fn file_drop(alloc: Global, values: Values<'_>) -> Result<Action, Stop>
    ensures { spec.reads_first by.FileDrop (values_view values.entry) [] result }
{
    let package = name(alloc, values)?;
    let version = file_version(alloc, &package, values.second)?;
    Ok(Action::Archive { package, version })
}

fn scoped_file_drop(alloc: Global, values: Values<'_>) -> Result<Action, Stop>
    ensures { spec.reads_first by.ScopedFileDrop (values_view values.entry) [] result }
{
    let package = name(alloc, values)?;
    let version = file_version(alloc, &package, values.third)?;
    Ok(Action::Archive { package, version })
}

fn set_access(alloc: Global, values: Values<'_>, body: &[u8]) -> Result<Action, Stop>
    ensures { spec.reads_first by.SetAccess (values_view values.entry) body.now result }
{
    let package = name(alloc, values)?;
    let value = json_of(alloc, body)?;
    let status = access_of(&value)?;
    Ok(Action::SetAccess { package, status })
}

fn org_packages(alloc: Global, values: Values<'_>) -> Result<Action, Stop>
    ensures { spec.reads_first by.OrgPackages (values_view values.entry) [] result }
{
    let organisation = ident(alloc, values)?;
    Ok(Action::OrgPackages { organisation })
}

fn members(alloc: Global, values: Values<'_>) -> Result<Action, Stop>
    ensures { spec.reads_first by.Members (values_view values.entry) [] result }
{
    let organisation = ident(alloc, values)?;
    Ok(Action::Members { organisation })
}

fn org_remove(alloc: Global, values: Values<'_>, body: &[u8]) -> Result<Action, Stop>
    ensures { spec.reads_first by.OrgRemove (values_view values.entry) body.now result }
{
    let organisation = ident(alloc, values)?;
    let value = json_of(alloc, body)?;
    let user = ident_at(alloc, &value, "user")?;
    Ok(Action::OrgRemove { organisation, user })
}

fn team_create(alloc: Global, values: Values<'_>, body: &[u8]) -> Result<Action, Stop>
    ensures { spec.reads_first by.TeamCreate (values_view values.entry) body.now result }
{
    let organisation = ident(alloc, values)?;
    let value = json_of(alloc, body)?;
    let team = ident_at(alloc, &value, "name")?;
    Ok(Action::TeamCreate { organisation, team })
}

fn team_members(alloc: Global, values: Values<'_>) -> Result<Action, Stop>
    ensures { spec.reads_first by.TeamMembers (values_view values.entry) [] result }
{
    let (organisation, team) = idents(alloc, values)?;
    Ok(Action::TeamMembers { organisation, team })
}

fn team_add(alloc: Global, values: Values<'_>, body: &[u8]) -> Result<Action, Stop>
    ensures { spec.reads_first by.TeamAdd (values_view values.entry) body.now result }
{
    let (organisation, team) = idents(alloc, values)?;
    let value = json_of(alloc, body)?;
    let user = ident_at(alloc, &value, "user")?;
    Ok(Action::TeamAdd {
        organisation,
        team,
        user,
    })
}

fn team_remove(alloc: Global, values: Values<'_>, body: &[u8]) -> Result<Action, Stop>
    ensures { spec.reads_first by.TeamRemove (values_view values.entry) body.now result }
{
    let (organisation, team) = idents(alloc, values)?;
    let value = json_of(alloc, body)?;
    let user = ident_at(alloc, &value, "user")?;
    Ok(Action::TeamRemove {
        organisation,
        team,
        user,
    })
}

fn team_packages(alloc: Global, values: Values<'_>) -> Result<Action, Stop>
    ensures { spec.reads_first by.TeamPackages (values_view values.entry) [] result }
{
    let (organisation, team) = idents(alloc, values)?;
    Ok(Action::TeamPackages { organisation, team })
}

fn grant(alloc: Global, values: Values<'_>, body: &[u8]) -> Result<Action, Stop>
    ensures { spec.reads_first by.Grant (values_view values.entry) body.now result }
{
    let (organisation, team) = idents(alloc, values)?;
    let value = json_of(alloc, body)?;
    let (package, grant) = granted(alloc, &value)?;
    Ok(Action::Grant {
        organisation,
        team,
        package,
        grant,
    })
}

fn revoke(alloc: Global, values: Values<'_>, body: &[u8]) -> Result<Action, Stop>
    ensures { spec.reads_first by.Revoke (values_view values.entry) body.now result }
{
    let (organisation, team) = idents(alloc, values)?;
    let value = json_of(alloc, body)?;
    let package = name_at(alloc, &value, "package")?;
    Ok(Action::Revoke {
        organisation,
        team,
        package,
    })
}

fn logout(alloc: Global, values: Values<'_>) -> Result<Action, Stop>
    ensures { spec.reads_first by.Logout (values_view values.entry) [] result }
{
    let digest = token(alloc, values)?;
    Ok(Action::TokenRemove { digest })
}

/// An organisation, a user, and the role that the user is to have in it. They are read as
/// [`first`] reads.
pub(crate) fn member(
    alloc: Global,
    values: Values<'_>,
    body: &[u8],
) -> Result<(Ident, Ident, Role), Stop>
    ensures { spec.reads_member (values_view values.entry) body.now result }
{
    let organisation = ident(alloc, values)?;
    let value = json_of(alloc, body)?;
    let (user, role) = user_role(alloc, &value)?;
    Ok((organisation, user, role))
}
