//! The path of a target, and the segments at its front.

ghost use Rattle.std.specs.Prelude.{◌≡◌, ◌≤◌, length};
ghost use Rattle.registry_routes.specs.Paths as spec;
ghost use Rattle.registry_routes.specs.Readings.{pair_at, segment_at, segment_len, split_view};

// The target up to its first `?`.
pub(crate) fn path_of(target: &[u8]) -> &[u8]
    ensures { result.now ≡ spec.path_of target.now }
{
    let (path, _) = target.split_at(path_len(target));
    path
}

fn path_len(target: &[u8]) -> usize
    ensures { result ≡ length (spec.path_of target.now) }
{
    target.iter().take_while(|byte| **byte != b'?').count()
}

// Whether a segment is a scope, and the next one the name's part.
pub(crate) fn is_scope(segment: &[u8]) -> bool
    ensures { result ≡ spec.is_scope segment.now }
{
    begins_with_at(segment) && !has_escaped_slash(segment)
}

fn begins_with_at(text: &[u8]) -> bool
    ensures { result ≡ spec.begins_with_at text.now }
{
    match text {
        [] => false,
        [first] | [first, _] => *first == b'@',
        [first, second, third, ..] => {
            *first == b'@' || (*first == b'%' && *second == b'4' && *third == b'0')
        }
    }
}

fn is_escaped_slash(text: &[u8]) -> bool
    ensures { result ≡ spec.is_escaped_slash text.now }
{
    match text {
        [first, second, third, ..] => {
            *first == b'%' && *second == b'2' && (*third == b'f' || *third == b'F')
        }
        _ => false,
    }
}

fn has_escaped_slash(mut text: &[u8]) -> bool
    ensures { result ≡ spec.has_escaped_slash text.now }
{
    while let [_, rest @ ..] = text {
        if is_escaped_slash(text) {
            return true;
        }
        text = rest;
    }
    false
}

fn segment_len(text: &[u8]) -> usize
    ensures value { result ≡ segment_len text.now }
    ensures within { result ≤ length text.now }
{
    text.iter().take_while(|byte| **byte != b'/').count()
}

// The segment after the slash at the front, and what follows it. `None` where there is no slash, or
// the segment is empty.
pub(crate) fn segment(path: &[u8]) -> Option<(&[u8], &[u8])>
    ensures { split_view result ≡ segment_at path.now }
{
    let [slash, text @ ..] = path else {
        return None;
    };
    if *slash != b'/' {
        return None;
    }
    let (segment, rest) = text.split_at(segment_len(text));
    if segment.is_empty() {
        return None;
    }
    Some((segment, rest))
}

// The two segments at the front with the slash between them, and what follows them.
pub(crate) fn pair(path: &[u8]) -> Option<(&[u8], &[u8])>
    ensures { split_view result ≡ pair_at path.now }
{
    let (first, rest) = segment(path)?;
    let (second, _) = segment(rest)?;
    let [_, text @ ..] = path else {
        return None;
    };
    Some(text.split_at(first.len() + 1 + second.len()))
}
