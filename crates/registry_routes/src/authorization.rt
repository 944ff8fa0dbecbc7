//! The authorization of requests.

ghost use Rattle.std.specs.Prelude.{◌≡◌, ◌↔◌, codes, map, option_map, IsTrue, MatchOption};
ghost use Rattle.std.specs.Char.{to_ascii_lowercase};
ghost use Rattle.registry_routes.specs.Authorization as spec;
ghost use Rattle.registry_routes.specs.Authorization.{IsBearer, IsNoBearer};

const SCHEME: usize = 6;

fn is_scheme(text: &[u8]) -> bool
    ensures { IsTrue result ↔ (map to_ascii_lowercase text.now ≡ codes "bearer") }
{
    text.eq_ignore_ascii_case(b"bearer")
}

// What follows the space at the front.
fn after_space(text: &[u8]) -> Option<&[u8]>
    ensures { option_map (λ rest. rest.now) result ≡ spec.after_space text.now }
{
    match text {
        [b' ', rest @ ..] => Some(rest),
        _ => None,
    }
}

// What follows the spaces at the front.
fn behind_spaces(mut text: &[u8]) -> &[u8]
    ensures { result.now ≡ spec.behind_spaces text.entry.now }
{
    while let [byte, rest @ ..] = text
        && *byte == b' '
    {
        text = rest;
    }
    text
}

/// The token that the value of an `authorization` field shows (RFC 6750, section 2.1): the scheme
/// `Bearer`, in letters of either case, one space or more, and the token. `None` is returned
/// exactly for any other value. It takes no memory.
///
/// What follows the spaces is any text in UTF-8, and needn't be a token in form.
pub fn bearer_token(value: &[u8]) -> Option<&str>
    ensures { MatchOption result (IsNoBearer value.now) (λ token. IsBearer value.now token.now) }
{
    let (scheme, rest) = value.split_at_checked(SCHEME)?;
    if !is_scheme(scheme) {
        return None;
    }
    let rest = after_space(rest)?;
    match str::from_utf8(behind_spaces(rest)) {
        Ok(token) => Some(token),
        Err(_) => None,
    }
}
