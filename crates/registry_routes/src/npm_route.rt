//! The route of npm's own that a method and a target take.

ghost use Rattle.std.specs.Prelude.{◌≡◌, map};
ghost use Rattle.registry_routes.specs.NpmRoutes as routes;
ghost use Rattle.registry_routes.specs.Readings as spec;
ghost use Rattle.registry_routes.specs.Readings.{npm_route_view, npm_row_view};

use crate::npm_endpoint::NpmEndpoint;
use crate::npm_table::{NPM_ROWS, NpmRow};
use crate::path::path_of;
use crate::route::{Values, is_method, values_at};
use registry_names::Method;

/// A route of npm's table, with the values of a path that takes it.
#[derive(Clone, Copy, Debug, PartialEq, Eq)]
pub struct NpmRoute<'a> {
    pub endpoint: NpmEndpoint,
    pub values: Values<'a>,
}

// The first row of npm's that has the method and the path.
fn npm_route_at<'a>(rows: &[NpmRow], method: Method, path: &'a [u8]) -> Option<NpmRoute<'a>>
    ensures { npm_route_view result
        ≡ spec.npm_route_at (map npm_row_view rows.now) method path.entry.now }
{
    let [row, rows @ ..] = rows else {
        return None;
    };
    let (row_method, pieces, endpoint) = *row;
    if is_method(row_method, method) {
        if let Some(values) = values_at(pieces, path) {
            return Some(NpmRoute { endpoint, values });
        }
    }
    npm_route_at(rows, method, path)
}

/// The route of npm's own that a method and a target take, with the values of the target's path.
/// `None` where npm's table has no such route. It takes no memory.
///
/// A path is read as [`route_of`](crate::route_of) reads it: what follows the first `?` of the
/// target is no part of it.
pub fn npm_route_of(method: Method, target: &[u8]) -> Option<NpmRoute<'_>>
    ensures { npm_route_view result ≡ routes.npm_route_of method target.now }
{
    npm_route_at(&NPM_ROWS, method, path_of(target))
}
