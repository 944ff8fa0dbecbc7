//! The values of the paths of npm's own requests.

ghost use Rattle.std.specs.Prelude.{◌≡◌, ◌++◌, ◌≢◌, MatchOption};
ghost use Rattle.registry_names.specs.Texts.{Text};
ghost use Rattle.registry_routes.specs.Readings.{values_view};
ghost use Rattle.registry_service.specs.Bodies.{reads_file};
ghost use Rattle.registry_service.specs.Readings as service;
ghost use Rattle.registry_service.specs.Readings.{reads_ident, reads_name};
ghost use Rattle.registry_npm.specs.Asked as spec;

use registry_names::{Ident, Name, Refusal, Stop, Ver};
use registry_publish::TokenDigest;
use registry_routes::{Values, decode_ident, decode_name, decode_text, version_of_file};
use std::alloc::Global;

const USER_PREFIX: &str = "org.couchdb.user:";

// The name of a package.
#[tactic(auto, unfolding(registry_service::specs::Readings::one))]
pub(crate) fn name(alloc: Global, values: Values<'_>) -> Result<Name, Stop>
    ensures { service.one reads_name (values_view values.entry) result }
{
    decode_name(alloc, values.first)
}

// The name of a user or an organisation.
#[tactic(auto, unfolding(registry_service::specs::Readings::one))]
pub(crate) fn ident(alloc: Global, values: Values<'_>) -> Result<Ident, Stop>
    ensures { service.one reads_ident (values_view values.entry) result }
{
    decode_ident(alloc, values.first)
}

// The names of an organisation and a team.
#[tactic(auto, unfolding(registry_service::specs::Readings::two))]
pub(crate) fn idents(alloc: Global, values: Values<'_>) -> Result<(Ident, Ident), Stop>
    ensures { service.two reads_ident reads_ident (values_view values.entry) result }
{
    let first = decode_ident(alloc, values.first)?;
    let second = decode_ident(alloc, values.second)?;
    Ok((first, second))
}

// The version of this package whose archive has the file name.
#[tactic(auto, unfolding(registry_service::specs::Bodies::reads_file))]
pub(crate) fn file_version(alloc: Global, name: &Name, written: &[u8]) -> Result<Ver, Stop>
    ensures { reads_file name.now written.now result }
{
    version_of_file(alloc, name, written)
}

// The digest of a token.
#[tactic(auto, unfolding(registry_service::specs::Readings::one))]
pub(crate) fn token(alloc: Global, values: Values<'_>) -> Result<TokenDigest, Stop>
    ensures { service.one spec.reads_token (values_view values.entry) result }
{
    let text = decode_text(alloc, values.first)?;
    match TokenDigest::of(text.as_str()) {
        Some(digest) => Ok(digest),
        None => Err(Stop::Refused(Refusal::NotFound)),
    }
}

// What follows npm's prefix.
fn behind_prefix(text: &str) -> Option<&str>
    ensures { MatchOption result ((rest : Text) → text.entry.now ≢ spec.user_prefix ++ rest)
        (λ rest. text.entry.now ≡ spec.user_prefix ++ rest.now) }
{
    text.strip_prefix(USER_PREFIX)
}

// The user that a text names.
fn user_in(alloc: Global, text: &str) -> Result<Ident, Stop>
    ensures { spec.reads_user_in text.now result }
{
    match behind_prefix(text) {
        Some(name) => Ident::parse(alloc, name),
        None => Err(Stop::Refused(Refusal::BadName)),
    }
}

// The user whose document is asked for.
#[tactic(auto, unfolding(registry_service::specs::Readings::one))]
pub(crate) fn user(alloc: Global, values: Values<'_>) -> Result<Ident, Stop>
    ensures { service.one spec.reads_user (values_view values.entry) result }
{
    let text = decode_text(alloc, values.first)?;
    user_in(alloc, text.as_str())
}
