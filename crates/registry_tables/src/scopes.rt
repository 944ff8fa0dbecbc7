//! The scopes of the packages that teams are granted.

ghost use Rattle.std.specs.Prelude.{◌≡◌, ◌↔◌, IsTrue, option_map};
ghost use Rattle.registry_names.specs.Names.{scope_of};
ghost use Rattle.registry_names.specs.Texts as texts;
ghost use Rattle.registry_rules.specs.Refusals as rules;
ghost use Rattle.registry_tables.specs.Inside.{Finds};
ghost use Rattle.registry_tables.specs.Scopes.{is_in_its_scope};
ghost use Rattle.registry_tables.specs.Teams.{GrantsInScope};

use crate::passing::{RowTest, all_rows_pass};
use registry_names::Fault;
use sqlite::{Alter, Error, Row, Transaction};

/// Whether each grant is on a package of its organisation's scope. No request makes another one.
pub fn are_grants_in_scope<S: Alter>(tx: &mut Transaction<'_, S>) -> Result<bool, Fault>
    ensures { Finds S.Store tx.old tx.new result (λ are c. IsTrue are ↔ GrantsInScope c) }
{
    all_rows_pass::<ScopeTest, S>(
        tx,
        "SELECT org, team, package, level FROM grants ORDER BY org, team, package",
    )
}

// That a grant's package has the scope of its organisation.
struct ScopeTest;

impl RowTest for ScopeTest {
    ghost passes = { is_in_its_scope };

    fn test(row: &Row) -> Result<bool, Error> {
        let organisation: String = row.get(0)?;
        let package: String = row.get(2)?;
        Ok(is_in_scope(organisation.as_str(), package.as_str()))
    }
}

// Whether the text, which need not be a name, has the scope of this organisation.
fn is_in_scope(organisation: &str, text: &str) -> bool
    ensures { result ≡ rules.is_scope organisation.now (scope_of text.now) }
{
    match scope(text) {
        Some(scope) => is(scope, organisation),
        None => false,
    }
}

// The scope of the text, which need not be a name: what follows an `@` at its beginning, up to the
// first slash, if there is one.
fn scope(text: &str) -> Option<&str>
    ensures { option_map (λ s. s.now) result ≡ scope_of text.now }
{
    let rest = text.strip_prefix('@')?;
    match rest.split_once('/') {
        Some((scope, _)) => Some(scope),
        None => Some(rest),
    }
}

#[tactic(auto, unfolding(registry_names::specs::Texts::is))]
fn is(scope: &str, organisation: &str) -> bool
    ensures { result ≡ texts.is scope.now organisation.now }
{
    scope == organisation
}
