//! The table of npm's own routes.

use crate::npm_endpoint::NpmEndpoint;
use crate::npm_endpoint::NpmEndpoint::{
    Collaborators, Document, FileDrop, Grant, Logout, Members, NotServed, OrgPackages, OrgRemove,
    OrgSet, Packument, Ping, Profile, Revised, Revoke, ScopedFileDrop, SetAccess, TeamAdd,
    TeamCreate, TeamMembers, TeamPackages, TeamRemove, Teams, Unpublish, User, UserPackages,
    Visibility, WhoAmI,
};
use crate::table::{ACCESS, DASH, NAME, ORG, PACKAGE, Piece, TEAM, VALUE};
use registry_names::Method;
use registry_names::Method::{Delete, Get, Post, Put};

/// A row of npm's table: a method, the pieces of a path, and what is asked for.
pub(crate) type NpmRow = (Method, &'static [Piece], NpmEndpoint);

const REV: Piece = Piece::Literal(b"-rev");

const VISIBILITY: Piece = Piece::Literal(b"visibility");

const COLLABORATORS: Piece = Piece::Literal(b"collaborators");

const USER: Piece = Piece::Literal(b"user");

const WHOAMI: Piece = Piece::Literal(b"whoami");

const PING: Piece = Piece::Literal(b"ping");

const NPM: Piece = Piece::Literal(b"npm");

const V1: Piece = Piece::Literal(b"v1");

const LOGIN: Piece = Piece::Literal(b"login");

const TOKEN: Piece = Piece::Literal(b"token");

const TOKENS: Piece = Piece::Literal(b"tokens");

pub(crate) static NPM_ROWS: [NpmRow; 32] = [
    (Get, &[NAME], Packument),
    (Put, &[NAME], Document),
    (Put, &[NAME, REV, VALUE], Revised),
    (Delete, &[NAME, REV, VALUE], Unpublish),
    (Delete, &[NAME, DASH, VALUE, REV, VALUE], FileDrop),
    (
        Delete,
        &[NAME, DASH, VALUE, VALUE, REV, VALUE],
        ScopedFileDrop,
    ),
    (Get, &[DASH, PACKAGE, VALUE, VISIBILITY], Visibility),
    (Post, &[DASH, PACKAGE, VALUE, ACCESS], SetAccess),
    (Get, &[DASH, PACKAGE, VALUE, COLLABORATORS], Collaborators),
    (Get, &[DASH, ORG, VALUE, PACKAGE], OrgPackages),
    (Get, &[DASH, USER, VALUE, PACKAGE], UserPackages),
    (Get, &[DASH, ORG, VALUE, USER], Members),
    (Put, &[DASH, ORG, VALUE, USER], OrgSet),
    (Delete, &[DASH, ORG, VALUE, USER], OrgRemove),
    (Get, &[DASH, ORG, VALUE, TEAM], Teams),
    (Put, &[DASH, ORG, VALUE, TEAM], TeamCreate),
    (Get, &[DASH, TEAM, VALUE, VALUE, USER], TeamMembers),
    (Put, &[DASH, TEAM, VALUE, VALUE, USER], TeamAdd),
    (Delete, &[DASH, TEAM, VALUE, VALUE, USER], TeamRemove),
    (Get, &[DASH, TEAM, VALUE, VALUE, PACKAGE], TeamPackages),
    (Put, &[DASH, TEAM, VALUE, VALUE, PACKAGE], Grant),
    (Delete, &[DASH, TEAM, VALUE, VALUE, PACKAGE], Revoke),
    (Get, &[DASH, WHOAMI], WhoAmI),
    (Get, &[DASH, NPM, V1, USER], Profile),
    (Get, &[DASH, USER, VALUE], User),
    (Delete, &[DASH, USER, TOKEN, VALUE], Logout),
    (Get, &[DASH, PING], Ping),
    (Put, &[DASH, USER, VALUE], NotServed),
    (Post, &[DASH, V1, LOGIN], NotServed),
    (Post, &[DASH, NPM, V1, USER], NotServed),
    (Post, &[DASH, NPM, V1, TOKENS], NotServed),
    (Delete, &[DASH, NPM, V1, TOKENS, TOKEN, VALUE], NotServed),
];
