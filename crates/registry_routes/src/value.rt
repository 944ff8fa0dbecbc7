//! The values of paths, which are decoded after routing.

ghost use Rattle.std.specs.Prelude.{◌≡◌, string_bytes, IfOk, IfErr, IsUtf8, true, false};
ghost use Rattle.registry_names.specs.Idents.{is_ident};
ghost use Rattle.registry_names.specs.Names.{IsName};
ghost use Rattle.registry_names.specs.Versions.{IsVersion, IsVersionOf};
ghost use Rattle.registry_ranges.specs.Tags.{IsTag};
ghost use Rattle.registry_routes.specs.Written.{StopsDecoding, StopsTag, StopsValue, text_of};

use percent_encoding::percent_decode;
use registry_names::{Ident, Name, Refusal, Stop, TagText, Ver};
use std::alloc::Global;

/// The text that is written in a path, its escapes undone: each `%` with two hexadecimal digits is
/// their byte (RFC 3986, section 2.1), and every other `%` stays.
///
/// `BadName` is returned only for a text that isn't UTF-8, and `Memory` when no memory is left.
pub fn decode_text(alloc: Global, written: &[u8]) -> Result<String, Stop>
    ensures ok { IfOk result (λ text. string_bytes text ≡ text_of written.now) }
    ensures err { IfErr result (StopsDecoding written.now) }
{
    let mut bytes = Vec::new(alloc);
    percent_decode(written).append_to(&mut bytes)?;
    match String::from_utf8(bytes) {
        Ok(text) => Ok(text),
        Err(_) => Err(Stop::Refused(Refusal::BadName)),
    }
}

/// The name of a package that is written in a path. `BadName` is returned only for a text that
/// isn't one, and `Memory` when no memory is left.
pub fn decode_name(alloc: Global, written: &[u8]) -> Result<Name, Stop>
    ensures ok { IfOk result (λ n. (n ≡ text_of written.now) × IsName (text_of written.now)) }
    ensures err { IfErr result (StopsValue written.now Refusal.BadName (λ t. ¬ (IsName t))) }
{
    let text = decode_text(alloc, written)?;
    Name::parse(alloc, text.as_str())
}

/// The name of a user, an organisation or a team that is written in a path. `BadName` is returned
/// only for a text that isn't one, and `Memory` when no memory is left.
pub fn decode_ident(alloc: Global, written: &[u8]) -> Result<Ident, Stop>
    ensures ok { IfOk result (λ i. (i ≡ text_of written.now) × (is_ident i ≡ true)) }
    ensures err { IfErr result (StopsValue written.now Refusal.BadName (λ t. is_ident t ≡ false)) }
{
    let text = decode_text(alloc, written)?;
    Ident::parse(alloc, text.as_str())
}

/// The version that is written in a path. `BadName` is returned only for a text that isn't UTF-8,
/// `BadVersion` only for one that isn't a version, and `Memory` when no memory is left.
pub fn decode_version(alloc: Global, written: &[u8]) -> Result<Ver, Stop>
    ensures ok { IfOk result (IsVersionOf (text_of written.now)) }
    ensures err { IfErr result (StopsValue written.now Refusal.BadVersion (λ t. ¬ (IsVersion t))) }
{
    let text = decode_text(alloc, written)?;
    Ver::parse(alloc, text.as_str())
}

/// The tag that is written in a path. `BadName` is returned only for a text that isn't UTF-8,
/// `RangeTag` only for a range of versions, `BadTag` only for one that isn't a tag otherwise, and
/// `Memory` when no memory is left.
pub fn decode_tag(alloc: Global, written: &[u8]) -> Result<TagText, Stop>
    ensures ok { IfOk result (λ t. (t ≡ text_of written.now) × IsTag t) }
    ensures err { IfErr result (StopsTag written.now) }
{
    let text = decode_text(alloc, written)?;
    registry_ranges::tag(alloc, text.as_str())
}
