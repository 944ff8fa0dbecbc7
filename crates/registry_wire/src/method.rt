//! The method that a name means.

ghost use Rattle.std.specs.Prelude.{◌≡◌, bytes_eq};
ghost use Rattle.registry_wire.specs.Asked as spec;

use registry_names::Method;

/// The method of this name. Names differ by case.
pub(crate) fn method_of(name: &[u8]) -> Method
    ensures { result ≡ spec.method_of name.now }
{
    if is_text(name, b"GET") {
        Method::Get
    } else if is_text(name, b"PUT") {
        Method::Put
    } else if is_text(name, b"POST") {
        Method::Post
    } else if is_text(name, b"DELETE") {
        Method::Delete
    } else {
        Method::Other
    }
}

fn is_text(a: &[u8], b: &[u8]) -> bool
    ensures { result ≡ bytes_eq a.now b.now }
{
    a == b
}
