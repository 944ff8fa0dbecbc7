//! Places at which a head may be cut, and how one byte leads from one to the next.

ghost use Rattle.std.specs.Prelude.{◌≡◌, ◌+◌, ◌<◌, ◌∷◌, ◌++◌, [], take, length, IfSome};
ghost use Rattle.httparse.specs.Ascii.{space};
ghost use Rattle.registry_wire.specs.Places.{IsAt, Leads};
ghost use Rattle.registry_wire.specs.declared.place.Place.TheVariants as places;

use httparse::{is_header_name_token, is_header_value_token, is_method_token, is_uri_token};

/// Where bytes end that begin a head and aren't all of it.
#[derive(Clone, Copy, Debug, PartialEq, Eq)]
pub enum Place {
    /// After empty lines, before the request line.
    Blank,
    /// After the CR of such a line.
    BlankReturn,
    /// In the method.
    Method,
    /// In the target, which begins with this byte.
    Target(usize),
    /// In the version, of which this many bytes have come.
    Version(usize),
    /// After the version.
    Minor,
    /// After the CR of the request line, or of a field.
    Return,
    /// After a whole line.
    Line,
    /// After the CR of the last line.
    LastReturn,
    /// In the name of a field.
    Name,
    /// In the value of a field.
    Value,
}

// The version up to its last digit.
const VERSION: [u8; 7] = *b"HTTP/1.";

/// The place of a head that was at this one, after the byte at `at`. `None` where the head can't go
/// on with that byte, or is whole then.
pub fn step(bytes: &[u8], at: usize, place: Place) -> Option<Place>
    requires inside { at < length bytes.now }
    requires place { IsAt place (take at bytes.now) }
    ensures { IfSome result (λ next. IsAt next (take (at + 1) bytes.now)) }
{
    let (seen, _) = bytes.split_at(at);
    let byte = bytes[at];
    match place {
        Place::Method if byte == b' ' => Some(Place::Target(at + 1)),
        Place::Target(start) if byte == b' ' => after_target(seen, start),
        _ => next(place, byte),
    }
}

// The target ends here. It must be UTF-8.
fn after_target(seen: &[u8], start: usize) -> Option<Place>
    requires { IsAt (places.Target start) seen.now }
    ensures { IfSome result (λ next. IsAt next (seen.now ++ space ∷ [])) }
{
    if start >= seen.len() {
        return None;
    }
    let (_, target) = seen.split_at(start);
    match str::from_utf8(target) {
        Ok(_) => Some(Place::Version(0)),
        Err(_) => None,
    }
}

// Where a head is after one more byte that ends neither its method nor its target.
fn next(place: Place, byte: u8) -> Option<Place>
    ensures { IfSome result (Leads place byte) }
{
    match place {
        Place::Blank => in_blank(byte),
        Place::BlankReturn => after_blank(byte),
        Place::Method => in_method(byte),
        Place::Target(start) => in_target(start, byte),
        Place::Version(count) => in_version(count, byte),
        Place::Minor => after_version(byte),
        Place::Return => after_return(byte),
        Place::Line => in_line(byte),
        Place::LastReturn => None,
        Place::Name => in_name(byte),
        Place::Value => in_value(byte),
    }
}

#[tactic(auto, using(crate::proofs::PlaceFacts::leading))]
fn in_blank(byte: u8) -> Option<Place>
    ensures { IfSome result (Leads places.Blank byte) }
{
    match byte {
        b'\r' => Some(Place::BlankReturn),
        b'\n' => Some(Place::Blank),
        _ if is_method_token(byte) => Some(Place::Method),
        _ => None,
    }
}

#[tactic(auto, using(crate::proofs::PlaceFacts::leading))]
fn after_blank(byte: u8) -> Option<Place>
    ensures { IfSome result (Leads places.BlankReturn byte) }
{
    match byte {
        b'\n' => Some(Place::Blank),
        _ => None,
    }
}

#[tactic(auto, using(crate::proofs::PlaceFacts::leading))]
fn in_method(byte: u8) -> Option<Place>
    ensures { IfSome result (Leads places.Method byte) }
{
    if is_method_token(byte) {
        Some(Place::Method)
    } else {
        None
    }
}

#[tactic(auto, using(crate::proofs::PlaceFacts::leading))]
fn in_target(start: usize, byte: u8) -> Option<Place>
    ensures { IfSome result (Leads (places.Target start) byte) }
{
    if is_uri_token(byte) {
        Some(Place::Target(start))
    } else {
        None
    }
}

#[tactic(auto, using(crate::proofs::PlaceFacts::leading))]
fn in_version(count: usize, byte: u8) -> Option<Place>
    ensures { IfSome result (Leads (places.Version count) byte) }
{
    if count < VERSION.len() {
        return if VERSION[count] == byte {
            Some(Place::Version(count + 1))
        } else {
            None
        };
    }
    match byte {
        b'0' => Some(Place::Minor),
        b'1' => Some(Place::Minor),
        _ => None,
    }
}

#[tactic(auto, using(crate::proofs::PlaceFacts::leading))]
fn after_version(byte: u8) -> Option<Place>
    ensures { IfSome result (Leads places.Minor byte) }
{
    match byte {
        b'\r' => Some(Place::Return),
        b'\n' => Some(Place::Line),
        _ => None,
    }
}

#[tactic(auto, using(crate::proofs::PlaceFacts::leading))]
fn after_return(byte: u8) -> Option<Place>
    ensures { IfSome result (Leads places.Return byte) }
{
    match byte {
        b'\n' => Some(Place::Line),
        _ => None,
    }
}

#[tactic(auto, using(crate::proofs::PlaceFacts::leading))]
fn in_line(byte: u8) -> Option<Place>
    ensures { IfSome result (Leads places.Line byte) }
{
    match byte {
        b'\r' => Some(Place::LastReturn),
        _ if is_header_name_token(byte) => Some(Place::Name),
        _ => None,
    }
}

#[tactic(auto, using(crate::proofs::PlaceFacts::leading))]
fn in_name(byte: u8) -> Option<Place>
    ensures { IfSome result (Leads places.Name byte) }
{
    match byte {
        b':' => Some(Place::Value),
        _ if is_header_name_token(byte) => Some(Place::Name),
        _ => None,
    }
}

#[tactic(auto, using(crate::proofs::PlaceFacts::leading))]
fn in_value(byte: u8) -> Option<Place>
    ensures { IfSome result (Leads places.Value byte) }
{
    match byte {
        b'\r' => Some(Place::Return),
        b'\n' => Some(Place::Line),
        _ if is_header_value_token(byte) => Some(Place::Value),
        _ => None,
    }
}
