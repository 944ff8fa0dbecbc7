//! Prereleases and build metadata at the front of a text, after their marks.

ghost use Rattle.std.specs.Prelude.{◌≡◌, ◌<◌, length, take_while};
ghost use Rattle.std.specs.List.{list_all};
ghost use Rattle.semver.specs.Grammar as semver_grammar;
ghost use Rattle.semver.specs.Order.{is_numeric, parts};
ghost use Rattle.registry_ranges.specs.Reading as spec;
ghost use Rattle.registry_ranges.specs.Reading.{pair_view};

// [-0-9A-Za-z]
fn is_part_byte(byte: u8) -> bool
    ensures { result ≡ semver_grammar.is_identifier_byte byte }
{
    byte.is_ascii_digit() || byte.is_ascii_uppercase() || byte.is_ascii_lowercase() || byte == b'-'
}

fn all_part_bytes(part: &[u8]) -> bool
    ensures { result ≡ list_all semver_grammar.is_identifier_byte part.now }
{
    part.iter().all(|b| is_part_byte(*b))
}

fn is_number(part: &[u8]) -> bool
    ensures { result ≡ is_numeric part.now }
{
    part.iter().all(|b| b.is_ascii_digit())
}

fn has_leading_zero(part: &[u8]) -> bool
    ensures { result ≡ semver_grammar.has_leading_zero part.now }
{
    match part {
        [first, rest @ ..] => *first == b'0' && !rest.is_empty(),
        [] => false,
    }
}

fn is_build_part(part: &[u8]) -> bool
    ensures { result ≡ semver_grammar.is_build_identifier part.now }
{
    !part.is_empty() && all_part_bytes(part)
}

fn is_pre_part(part: &[u8]) -> bool
    ensures { result ≡ semver_grammar.is_pre_identifier part.now }
{
    is_build_part(part) && !(is_number(part) && has_leading_zero(part))
}

fn all_pre_parts(text: &[u8]) -> bool
    ensures { result ≡ list_all semver_grammar.is_pre_identifier (parts text.now) }
{
    text.split(|b| *b == b'.').all(|part| is_pre_part(part))
}

fn all_build_parts(text: &[u8]) -> bool
    ensures { result ≡ list_all semver_grammar.is_build_identifier (parts text.now) }
{
    text.split(|b| *b == b'.').all(|part| is_build_part(part))
}

fn is_pre(run: &[u8]) -> bool
    requires { 0 < length run.now }
    ensures { result ≡ semver_grammar.is_pre_release run.now }
{
    all_pre_parts(run)
}

fn is_build(run: &[u8]) -> bool
    requires { 0 < length run.now }
    ensures { result ≡ semver_grammar.is_build run.now }
{
    all_build_parts(run)
}

// How many bytes of parts with dots between them are at the front.
fn run_len(bytes: &[u8]) -> usize
    ensures { result ≡ length (take_while spec.is_run_byte bytes.now) }
{
    bytes
        .iter()
        .take_while(|b| is_part_byte(**b) || **b == b'.')
        .count()
}

/// The prerelease after a `-` at the front, or the empty text where there is no `-`, and
/// what follows it.
#[tactic(auto, unfolding(crate::specs::Reading::marked_at))]
pub fn pre_at(bytes: &[u8]) -> Option<(&[u8], &[u8])>
    ensures { pair_view result ≡ spec.pre_at bytes.now }
{
    let [first, rest @ ..] = bytes else {
        return Some((bytes, bytes));
    };
    if *first != b'-' {
        return Some((&[], bytes));
    }
    let len = run_len(rest);
    let (run, rest) = rest.split_at(len);
    if run.is_empty() || !is_pre(run) {
        return None;
    }
    Some((run, rest))
}

/// The build metadata after a `+` at the front, or the empty text where there is no `+`, and
/// what follows it.
#[tactic(auto, unfolding(crate::specs::Reading::marked_at))]
pub fn build_at(bytes: &[u8]) -> Option<(&[u8], &[u8])>
    ensures { pair_view result ≡ spec.build_at bytes.now }
{
    let [first, rest @ ..] = bytes else {
        return Some((bytes, bytes));
    };
    if *first != b'+' {
        return Some((&[], bytes));
    }
    let len = run_len(rest);
    let (run, rest) = rest.split_at(len);
    if run.is_empty() || !is_build(run) {
        return None;
    }
    Some((run, rest))
}
