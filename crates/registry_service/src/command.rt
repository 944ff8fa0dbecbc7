//! Which actions are commands.

ghost use Rattle.std.specs.Prelude.{◌≡◌};
ghost use Rattle.registry_rules.specs.Actions as spec;

use registry_rules::Action;

/// Whether an action is a command, which may change the registry. Any other is a query.
pub fn is_command(what: &Action) -> bool
    ensures { result ≡ spec.is_command what.now }
{
    match what {
        Action::UserAdd { .. }
        | Action::TokenAdd { .. }
        | Action::TokenRemove { .. }
        | Action::TokensRemove { .. }
        | Action::OrgCreate { .. }
        | Action::OrgSet { .. }
        | Action::OrgRemove { .. }
        | Action::TeamCreate { .. }
        | Action::TeamDestroy { .. }
        | Action::TeamAdd { .. }
        | Action::TeamRemove { .. }
        | Action::Grant { .. }
        | Action::Revoke { .. }
        | Action::SetAccess { .. }
        | Action::OwnerAdd { .. }
        | Action::OwnerRemove { .. }
        | Action::Publish { .. }
        | Action::TagSet { .. }
        | Action::TagRemove { .. }
        | Action::Withdraw { .. }
        | Action::WithdrawAll { .. }
        | Action::Deprecate { .. } => true,
        _ => false,
    }
}
