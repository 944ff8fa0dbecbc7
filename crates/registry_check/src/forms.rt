//! Whether texts and numbers are in form.

ghost use Rattle.std.specs.Prelude.{◌≡◌, IfOk};
ghost use Rattle.registry_names.specs.Idents as idents;
ghost use Rattle.registry_names.specs.Messages as messages;
ghost use Rattle.registry_names.specs.Tags as tags;
ghost use Rattle.registry_tables.specs.Numbers as numbers;
ghost use Rattle.registry_check.specs.Forms as spec;

use crate::search::is_number;
use registry_names::{Fault, Ident, Message, Moment, Name, Stop, TagText, Ver};
use registry_ranges::is_range;
use std::alloc::Global;

/// Whether it is the name of a user, an organisation or a team.
pub(crate) fn is_ident(alloc: Global, text: &str) -> Result<bool, Fault>
    ensures { IfOk result (λ is. is ≡ idents.is_ident text.now) }
{
    match Ident::parse(alloc, text) {
        Ok(_) => Ok(true),
        Err(Stop::Refused(_)) => Ok(false),
        Err(Stop::Fault(fault)) => Err(fault),
    }
}

/// Whether it is the name of a package.
pub(crate) fn is_name(alloc: Global, text: &str) -> Result<bool, Fault>
    ensures { IfOk result (λ is. is ≡ spec.is_name text.now) }
{
    match Name::parse(alloc, text) {
        Ok(_) => Ok(true),
        Err(Stop::Refused(_)) => Ok(false),
        Err(Stop::Fault(fault)) => Err(fault),
    }
}

/// Whether it is a version.
pub(crate) fn is_version(alloc: Global, text: &str) -> Result<bool, Fault>
    ensures { IfOk result (λ is. is ≡ spec.is_version text.now) }
{
    match Ver::parse(alloc, text) {
        Ok(_) => Ok(true),
        Err(Stop::Refused(_)) => Ok(false),
        Err(Stop::Fault(fault)) => Err(fault),
    }
}

/// Whether it is in the form of a tag.
pub(crate) fn is_tag(alloc: Global, text: &str) -> Result<bool, Fault>
    ensures { IfOk result (λ is. is ≡ tags.is_tag text.now) }
{
    match TagText::shape(alloc, text) {
        Ok(_) => Ok(true),
        Err(Stop::Refused(_)) => Ok(false),
        Err(Stop::Fault(fault)) => Err(fault),
    }
}

/// Whether it is a range of versions.
pub(crate) fn is_range_text(text: &str) -> bool
    ensures { result ≡ spec.is_range text.now }
{
    is_range(text)
}

/// Whether it is short enough for the message of a deprecation.
pub(crate) fn is_message(alloc: Global, text: &str) -> Result<bool, Fault>
    ensures { IfOk result (λ is. is ≡ messages.is_message text.now) }
{
    match Message::parse(alloc, text) {
        Ok(_) => Ok(true),
        Err(Stop::Refused(_)) => Ok(false),
        Err(Stop::Fault(fault)) => Err(fault),
    }
}

/// Whether it is the number of a role.
pub(crate) fn is_role(number: i64) -> bool
    ensures { result ≡ numbers.is_role number }
{
    is_number(number, 0) || (is_number(number, 1) || is_number(number, 2))
}

/// Whether it is the number of a status.
pub(crate) fn is_status(number: i64) -> bool
    ensures { result ≡ numbers.is_status number }
{
    is_number(number, 0) || is_number(number, 1)
}

/// Whether it is the number of what can be granted.
pub(crate) fn is_level(number: i64) -> bool
    ensures { result ≡ numbers.is_level number }
{
    is_number(number, 1) || is_number(number, 2)
}

/// Whether it is the number of seconds of a moment.
pub(crate) fn is_moment(number: i64) -> bool
    ensures { result ≡ numbers.is_moment number }
{
    Moment::new(number).is_some()
}
