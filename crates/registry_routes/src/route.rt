//! The route that a method and a target take.

ghost use Rattle.std.specs.Prelude.{◌≡◌, bytes_eq, map};
ghost use Rattle.registry_routes.specs.Pieces as piece;
ghost use Rattle.registry_routes.specs.Readings as spec;
ghost use Rattle.registry_routes.specs.Readings.{piece_view, route_view, row_view, split_view};
ghost use Rattle.registry_routes.specs.Readings.{some_values_view};
ghost use Rattle.registry_routes.specs.Routes as routes;
ghost use Rattle.registry_routes.specs.Routes.{is_same, with_piece};

use crate::endpoint::Endpoint;
use crate::path::{is_scope, pair, path_of, segment};
use crate::table::{Piece, ROWS, Row};
use registry_names::Method;

/// The values of a path, from left to right, as they are written there: decoded after routing.
/// Where a route has fewer than three, the others are empty.
#[derive(Clone, Copy, Debug, PartialEq, Eq)]
pub struct Values<'a> {
    pub first: &'a [u8],
    pub second: &'a [u8],
    pub third: &'a [u8],
}

/// A route of the table, with the values of a path that takes it.
#[derive(Clone, Copy, Debug, PartialEq, Eq)]
pub struct Route<'a> {
    pub endpoint: Endpoint,
    pub values: Values<'a>,
}

fn is_text(text: &[u8], other: &[u8]) -> bool
    ensures { result ≡ bytes_eq text.now other.now }
{
    text == other
}

fn literal<'a>(text: &[u8], path: &'a [u8]) -> Option<(&'a [u8], &'a [u8])>
    ensures { split_view result ≡ spec.piece_at (piece.literal text.now) path.entry.now }
{
    let (first, rest) = segment(path)?;
    if is_text(first, text) {
        Some((first, rest))
    } else {
        None
    }
}

fn name(path: &[u8]) -> Option<(&[u8], &[u8])>
    ensures { split_view result ≡ spec.piece_at piece.name path.now }
{
    let (first, rest) = segment(path)?;
    if is_text(first, b"-") {
        None
    } else if is_scope(first) && !rest.is_empty() {
        pair(path)
    } else {
        Some((first, rest))
    }
}

fn file(path: &[u8]) -> Option<(&[u8], &[u8])>
    ensures { split_view result ≡ spec.piece_at piece.file path.now }
{
    let (first, rest) = segment(path)?;
    if rest.is_empty() {
        Some((first, rest))
    } else {
        pair(path)
    }
}

// What takes the place of the piece at the front of a path, and what follows it.
fn piece_at<'a>(piece: Piece, path: &'a [u8]) -> Option<(&'a [u8], &'a [u8])>
    ensures { split_view result ≡ spec.piece_at (piece_view piece) path.entry.now }
{
    match piece {
        Piece::Literal(text) => literal(text, path),
        Piece::Name => name(path),
        Piece::Value => segment(path),
        Piece::File => file(path),
    }
}

fn before<'a>(piece: Piece, value: &'a [u8], later: Values<'a>) -> Values<'a>
    ensures { spec.values_view result
        ≡ with_piece (piece_view piece) value.entry.now (spec.values_view later.entry) }
{
    match piece {
        Piece::Literal(_) => later,
        Piece::Name | Piece::Value | Piece::File => Values {
            first: value,
            second: later.first,
            third: later.second,
        },
    }
}

fn at_end(path: &[u8]) -> Option<Values<'_>>
    ensures { some_values_view result ≡ spec.at_end path.now }
{
    if path.is_empty() {
        Some(Values {
            first: &[],
            second: &[],
            third: &[],
        })
    } else {
        None
    }
}

// The values of a path, where it is made of these pieces.
pub(crate) fn values_at<'a>(pieces: &[Piece], path: &'a [u8]) -> Option<Values<'a>>
    ensures { some_values_view result ≡ spec.values_at (map piece_view pieces.now) path.entry.now }
{
    let [piece, pieces @ ..] = pieces else {
        return at_end(path);
    };
    let (value, rest) = piece_at(*piece, path)?;
    let later = values_at(pieces, rest)?;
    Some(before(*piece, value, later))
}

pub(crate) fn is_method(method: Method, other: Method) -> bool
    ensures { result ≡ is_same method other }
{
    method == other
}

// The first row that has the method and the path.
fn route_at<'a>(rows: &[Row], method: Method, path: &'a [u8]) -> Option<Route<'a>>
    ensures { route_view result ≡ spec.route_at (map row_view rows.now) method path.entry.now }
{
    let [row, rows @ ..] = rows else {
        return None;
    };
    let (row_method, pieces, endpoint) = *row;
    if is_method(row_method, method) {
        if let Some(values) = values_at(pieces, path) {
            return Some(Route { endpoint, values });
        }
    }
    route_at(rows, method, path)
}

/// The route that a method and a target take, with the values of the target's path. `None` where
/// the table has no such route. It takes no memory.
///
/// The path is the target up to its first `?`. It is a slash and a segment, once or more, and no
/// segment is empty. Segments are compared as they are written: an escape in one is undone in its
/// value alone, so `%2d` isn't the segment `-`.
pub fn route_of(method: Method, target: &[u8]) -> Option<Route<'_>>
    ensures { route_view result ≡ routes.route_of method target.now }
{
    route_at(&ROWS, method, path_of(target))
}
