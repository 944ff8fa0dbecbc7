//! npm's own requests, with the targets that npm 10 sends, and what they ask for.

use super::{asked_for, told};
use crate::outcome::same;
use crate::parts::{method_of, string};
use registry_routes::npm_route_of;

// A method and a target; ` => ` and what they ask for, and the values of the path. The last ones are what
// npm sends, or might, that no row takes, and none of the registry's own routes.
const SENT: &str = "GET /@lab%2fkit?write=true => Packument|@lab%2fkit||
GET /tool => Packument|tool||
PUT /@lab%2fkit => Document|@lab%2fkit||
PUT /tool/-rev/0a1b => Revised|tool|0a1b|
PUT /@lab%2fkit/-rev/0a1b => Revised|@lab%2fkit|0a1b|
PUT /@lab/kit/-rev/0a1b => Revised|@lab/kit|0a1b|
PUT /tool/-rev/undefined => Revised|tool|undefined|
DELETE /tool/-rev/0a1b => Unpublish|tool|0a1b|
DELETE /@lab%2fkit/-rev/0a1b => Unpublish|@lab%2fkit|0a1b|
DELETE /tool/-/tool-1.0.0.tgz/-rev/0a1b => FileDrop|tool|tool-1.0.0.tgz|0a1b
DELETE /@lab/kit/-/kit-1.0.0.tgz/-rev/0a1b => FileDrop|@lab/kit|kit-1.0.0.tgz|0a1b
DELETE /@lab/kit/-/@lab/kit-1.0.0.tgz/-rev/0a1b => ScopedFileDrop|@lab/kit|@lab|kit-1.0.0.tgz
GET /-/package/@lab%2fkit/visibility => Visibility|@lab%2fkit||
POST /-/package/@lab%2fkit/access => SetAccess|@lab%2fkit||
GET /-/package/@lab%2fkit/collaborators => Collaborators|@lab%2fkit||
GET /-/package/tool/collaborators?user=bob => Collaborators|tool||
GET /-/org/lab/package => OrgPackages|lab||
GET /-/user/bob/package => UserPackages|bob||
GET /-/org/lab/user => Members|lab||
PUT /-/org/lab/user => OrgSet|lab||
DELETE /-/org/lab/user => OrgRemove|lab||
GET /-/org/lab/team?format=cli => Teams|lab||
PUT /-/org/lab/team => TeamCreate|lab||
GET /-/team/lab/ops/user?format=cli => TeamMembers|lab|ops|
PUT /-/team/lab/ops/user => TeamAdd|lab|ops|
DELETE /-/team/lab/ops/user => TeamRemove|lab|ops|
GET /-/team/lab/ops/package?format=cli => TeamPackages|lab|ops|
PUT /-/team/lab/ops/package => Grant|lab|ops|
DELETE /-/team/lab/ops/package => Revoke|lab|ops|
GET /-/whoami => WhoAmI|||
GET /-/npm/v1/user => Profile|||
GET /-/user/org.couchdb.user:bob => User|org.couchdb.user:bob||
DELETE /-/user/token/npm_bob_000000001 => Logout|npm_bob_000000001||
GET /-/ping?write=true => Ping|||
PUT /-/user/org.couchdb.user:bob => NotServed|org.couchdb.user:bob||
POST /-/v1/login => NotServed|||
POST /-/npm/v1/user => NotServed|||
POST /-/npm/v1/tokens => NotServed|||
DELETE /-/npm/v1/tokens/token/0a1b => NotServed|0a1b||
PUT /@lab/-/-rev/0a1b => Revised|@lab/-|0a1b|
GET /-/npm/v1/tokens => nothing
POST /-/npm/v1/security/advisories/bulk => nothing
POST /-/npm/v1/security/audits/quick => nothing
GET /-/npm/v1/keys => nothing
GET /-/_view/starredByUser => nothing
GET /-/npm/v1/hooks => nothing
GET /-/v1/search => nothing
DELETE /tool/tool-1.0.0.tgz/-rev/0a1b => nothing
DELETE /tool/-rev => nothing
DELETE /-/-rev/0a1b => nothing
PUT /-/user/org.couchdb.user:bob/-rev/0a1b => nothing
DELETE /tool => nothing";

#[test]
fn npms_requests_have_routes(rt: HostRuntime) {
    let alloc = rt.alloc();
    for line in SENT.lines() {
        let (request, wanted) = line.split_once(" => ").expect(&rt, line);
        let (method, target) = request.split_once(' ').expect(&rt, line);
        let came_out = match npm_route_of(method_of(method), target.as_bytes()) {
            Some(route) => told(&rt, alloc, &route.endpoint, &route.values),
            None => asked_for(&rt, alloc, method, target),
        };
        same(&rt, line, came_out.as_str(), wanted);
    }
}
