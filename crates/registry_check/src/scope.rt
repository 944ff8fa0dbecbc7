//! The scope of a package's name.

ghost use Rattle.std.specs.Prelude.{◌≡◌, is_none, option_map};
ghost use Rattle.registry_names.specs.Names.{scope_of};
ghost use Rattle.registry_names.specs.Texts as texts;
ghost use Rattle.registry_rules.specs.Refusals as spec;

/// The scope of the text, which need not be a name: what follows an `@` at its beginning, up to the
/// first slash, if there is one.
pub(crate) fn scope(text: &str) -> Option<&str>
    ensures { option_map (λ s. s.now) result ≡ scope_of text.now }
{
    let rest = text.strip_prefix('@')?;
    match rest.split_once('/') {
        Some((scope, _)) => Some(scope),
        None => Some(rest),
    }
}

/// Whether the text has no scope.
pub(crate) fn is_unscoped(text: &str) -> bool
    ensures { result ≡ is_none (scope_of text.now) }
{
    scope(text).is_none()
}

/// Whether the text has this scope.
pub(crate) fn is_in_scope(organisation: &str, text: &str) -> bool
    ensures { result ≡ spec.is_scope organisation.now (scope_of text.now) }
{
    match scope(text) {
        Some(scope) => is(scope, organisation),
        None => false,
    }
}

#[tactic(auto, unfolding(registry_names::specs::Texts::is))]
fn is(scope: &str, organisation: &str) -> bool
    ensures { result ≡ texts.is scope.now organisation.now }
{
    scope == organisation
}
