//! The table of routes.

use crate::endpoint::Endpoint;
use crate::endpoint::Endpoint::{
    Archive, Deprecate, Grant, Members, OrgRemove, OrgSet, OwnerAdd, OwnerRemove, Packument,
    Publish, Revoke, SetAccess, TagRemove, TagSet, Tags, TeamAdd, TeamCreate, TeamDestroy,
    TeamMembers, TeamPackages, TeamRemove, Teams, VersionDoc, Withdraw,
};
use registry_names::Method;
use registry_names::Method::{Delete, Get, Post, Put};

/// A piece of a route's path.
#[derive(Clone, Copy)]
pub(crate) enum Piece {
    /// This segment.
    Literal(&'static [u8]),
    /// The name of a package: one segment, or a scope and the next one; but `-` isn't one.
    Name,
    /// A value: one segment.
    Value,
    /// The name of an archive's file: one segment or two.
    File,
}

/// A row of the table: a method, the pieces of a path, and what is asked for.
pub(crate) type Row = (Method, &'static [Piece], Endpoint);

pub(crate) const DASH: Piece = Piece::Literal(b"-");

pub(crate) const PACKAGE: Piece = Piece::Literal(b"package");

pub(crate) const ORG: Piece = Piece::Literal(b"org");

pub(crate) const TEAM: Piece = Piece::Literal(b"team");

const GRANT: Piece = Piece::Literal(b"grant");

const TAGS: Piece = Piece::Literal(b"dist-tags");

pub(crate) const ACCESS: Piece = Piece::Literal(b"access");

const OWNERS: Piece = Piece::Literal(b"owners");

const DEPRECATE: Piece = Piece::Literal(b"deprecate");

const VERSIONS: Piece = Piece::Literal(b"versions");

pub(crate) const NAME: Piece = Piece::Name;

pub(crate) const VALUE: Piece = Piece::Value;

const FILE: Piece = Piece::File;

pub(crate) static ROWS: [Row; 24] = [
    (Get, &[NAME], Packument),
    (Put, &[NAME], Publish),
    (Get, &[NAME, VALUE], VersionDoc),
    (Get, &[NAME, DASH, FILE], Archive),
    (Get, &[DASH, PACKAGE, VALUE, TAGS], Tags),
    (Put, &[DASH, PACKAGE, VALUE, TAGS, VALUE], TagSet),
    (Delete, &[DASH, PACKAGE, VALUE, TAGS, VALUE], TagRemove),
    (Put, &[DASH, PACKAGE, VALUE, ACCESS], SetAccess),
    (Put, &[DASH, PACKAGE, VALUE, OWNERS, VALUE], OwnerAdd),
    (Delete, &[DASH, PACKAGE, VALUE, OWNERS, VALUE], OwnerRemove),
    (Post, &[DASH, PACKAGE, VALUE, DEPRECATE], Deprecate),
    (Delete, &[DASH, PACKAGE, VALUE, VERSIONS, VALUE], Withdraw),
    (Get, &[DASH, ORG, VALUE], Members),
    (Put, &[DASH, ORG, VALUE, VALUE], OrgSet),
    (Delete, &[DASH, ORG, VALUE, VALUE], OrgRemove),
    (Get, &[DASH, TEAM, VALUE], Teams),
    (Get, &[DASH, TEAM, VALUE, VALUE], TeamMembers),
    (Put, &[DASH, TEAM, VALUE, VALUE], TeamCreate),
    (Delete, &[DASH, TEAM, VALUE, VALUE], TeamDestroy),
    (Put, &[DASH, TEAM, VALUE, VALUE, VALUE], TeamAdd),
    (Delete, &[DASH, TEAM, VALUE, VALUE, VALUE], TeamRemove),
    (Get, &[DASH, GRANT, VALUE, VALUE], TeamPackages),
    (Put, &[DASH, GRANT, VALUE, VALUE, VALUE], Grant),
    (Delete, &[DASH, GRANT, VALUE, VALUE, VALUE], Revoke),
];
