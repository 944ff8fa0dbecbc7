//! The names of archives' files.

ghost use Rattle.std.specs.Prelude.{◌≡◌, ◌≢◌, ◌++◌, IfOk, IfErr, MatchOption};
ghost use Rattle.registry_names.specs.Texts.{Text};
ghost use Rattle.registry_routes.specs.Files.{file_text, IsFileOf, IsNameOrPart, IsNoFileOf};
ghost use Rattle.registry_routes.specs.Files.{IsVersionText};
ghost use Rattle.registry_routes.specs.Written.{StopsValue, text_of};

use crate::value::decode_text;
use registry_names::{Name, Refusal, Stop, Ver};
use std::alloc::Global;

const NOT_FOUND: Stop = Stop::Refused(Refusal::NotFound);

// What follows this prefix of a text.
fn behind<'a>(text: &'a str, front: &str) -> Option<&'a str>
    ensures { MatchOption result ((rest : Text) → text.entry.now ≢ front.now ++ rest)
        (λ rest. text.entry.now ≡ front.now ++ rest.now) }
{
    text.strip_prefix(front)
}

// What comes before this suffix of a text.
fn ahead<'a>(text: &'a str, end: &str) -> Option<&'a str>
    ensures { MatchOption result ((rest : Text) → text.entry.now ≢ rest ++ end.now)
        (λ rest. text.entry.now ≡ rest.now ++ end.now) }
{
    text.strip_suffix(end)
}

// What takes the place of the version in a file's name with this prefix.
fn version_behind<'a>(front: &str, file: &'a str) -> Option<&'a str>
    ensures { MatchOption result ((v : Text) → file.entry.now ≢ file_text front.now v)
        (λ v. file.entry.now ≡ file_text front.now v.now) }
{
    let rest = behind(file, front)?;
    let rest = behind(rest, "-")?;
    ahead(rest, ".tgz")
}

// What takes the place of the version in the name of a package's file. A name with a scope begins
// with an at sign, and no part does.
fn version_text<'a>(name: &Name, file: &'a str) -> Option<&'a str>
    ensures { MatchOption result
        ((f v : Text) → IsNameOrPart name.now f → file.entry.now ≢ file_text f v)
        (λ v. IsVersionText name.now file.entry.now v.now) }
{
    match version_behind(name.text(), file) {
        Some(version) => Some(version),
        None => version_behind(name.part(), file),
    }
}

/// The version whose archive has this file name: the package's name or its part after the scope, a
/// hyphen, the version and `.tgz`. `written` is one segment of a path, or two with the slash
/// between them.
///
/// `BadName` is returned only for a text that isn't UTF-8, `NotFound` only for one that isn't a
/// file of the package, and `Memory` when no memory is left.
pub fn version_of_file(alloc: Global, name: &Name, written: &[u8]) -> Result<Ver, Stop>
    ensures ok { IfOk result (λ v. IsFileOf name.now v (text_of written.now)) }
    ensures err { IfErr result (StopsValue written.now Refusal.NotFound (IsNoFileOf name.now)) }
{
    let file = decode_text(alloc, written)?;
    let Some(version) = version_text(name, file.as_str()) else {
        return Err(NOT_FOUND);
    };
    match Ver::parse(alloc, version) {
        Ok(version) => Ok(version),
        Err(Stop::Refused(_)) => Err(NOT_FOUND),
        Err(Stop::Fault(fault)) => Err(Stop::Fault(fault)),
    }
}
