//! What a request's method, target, body and authorization mean: which route they take, and the
//! values in them.
//!
//! The routes are one table, which is in `specs/Table` as an API page has it; npm's own requests have
//! a second one, in `specs/NpmTable`. A route is found exactly where the table has one, and takes no
//! memory. The values of a path are decoded after routing. The crate that builds a request from these
//! reads the values of the path from left to right, then the body, and then the authorization.
#![tactic(auto)]

mod authorization;
mod body;
mod endpoint;
mod file;
pub mod laws;
mod npm_endpoint;
mod npm_route;
mod npm_table;
mod path;
mod route;
mod table;
mod value;

pub use crate::authorization::bearer_token;
pub use crate::body::{
    Deprecation, deprecation_of_body, grant_of_body, role_of_body, status_of_body, version_of_body,
};
pub use crate::endpoint::Endpoint;
pub use crate::file::version_of_file;
pub use crate::npm_endpoint::NpmEndpoint;
pub use crate::npm_route::{NpmRoute, npm_route_of};
pub use crate::route::{Route, Values, route_of};
pub use crate::value::{decode_ident, decode_name, decode_tag, decode_text, decode_version};
