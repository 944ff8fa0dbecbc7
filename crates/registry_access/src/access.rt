//! What a caller may do, decided from rows or from a standing.

ghost use Rattle.std.specs.Prelude.{◌≡◌};
ghost use Rattle.registry_names.specs.Texts.{Text};
ghost use Rattle.registry_access.specs.Access.{Access};
ghost use Rattle.registry_access.specs.Policy.{allowed_at, allowed_in};
ghost use Rattle.registry_access.specs.Positions.{level_at, level_in};
ghost use Rattle.registry_access.specs.RowMaps.{state_of};
ghost use Rattle.registry_access.specs.RowsFor.{RowsTell, RowsTellOfPackage, StandingTells, TellsFor, asked_package};
ghost use Rattle.registry_access.specs.Standings.{position_of};

use crate::ask::Ask;
use crate::caller::Caller;
use crate::levels::Level;
use crate::policy::{
    may_manage_maintainers, may_manage_members, may_manage_teams, may_operate, may_publish,
    may_read, may_see_organisation, may_write,
};
use crate::position::Position;
use crate::rows::AccessRows;
use crate::standing::Standing;
use registry_names::{Ident, Name, Refusal, Rule};

/// The caller's level on a package.
///
/// It is what the rows say, and so what each state says that they agree with: each that says the
/// same of this caller and this package. More rows than are needed do no harm.
pub fn level(rows: &AccessRows, caller: &Caller, name: &Name) -> Level
    ensures of_rows { result ≡ level_in (state_of rows.now) caller.now name.now }
    ensures of_state { (S : Access) → RowsTellOfPackage rows.now S caller.now name.now
        → result ≡ level_in S caller.now name.now }
{
    Position::in_rows(rows, caller, name).level()
}

/// The caller's level on the package of a standing, the same as [`level`] gives.
pub fn level_of(standing: &Standing, caller: &Caller) -> Level
    ensures of_standing { result ≡ level_at (position_of standing.now caller.now) }
    ensures of_state { (S : Access) (p : Text) → StandingTells standing.now S caller.now p
        → result ≡ level_in S caller.now p }
{
    Position::in_standing(standing, caller).level()
}

/// The rule that allows the caller what they ask, or the first of these refusals.
///
/// - `NoCaller`: an anonymous caller asks for anything but to see a package.
/// - `NotFound`: an organisation that is named, or that the scope of a publish names, isn't there;
/// or the caller has level nothing on a package that they ask about, except to publish it.
/// - `Denied`: the rule that would allow it doesn't.
pub fn allowed(rows: &AccessRows, caller: &Caller, ask: &Ask) -> Result<Rule, Refusal>
    ensures of_rows { result ≡ allowed_in (state_of rows.now) caller.now ask.now }
    ensures of_state { (S : Access) → RowsTell rows.now S caller.now ask.now
        → result ≡ allowed_in S caller.now ask.now }
{
    by_rows(rows, caller, ask)
}

/// The same for an ask about the package of a standing, as [`allowed`] answers it. `NotFound` is
/// returned for an ask that isn't about a package, which a standing can't answer.
pub fn allowed_by(standing: &Standing, caller: &Caller, ask: &Ask) -> Result<Rule, Refusal>
    ensures of_standing { result
        ≡ allowed_at caller.now ask.now (position_of standing.now caller.now) }
    ensures of_state { (S : Access) (p : Text) → asked_package ask.now ≡ Some p
        → TellsFor ask.now standing.now S caller.now p → result ≡ allowed_in S caller.now ask.now }
{
    by_position(caller, ask, Position::in_standing(standing, caller))
}

fn by_rows(rows: &AccessRows, caller: &Caller, ask: &Ask) -> Result<Rule, Refusal>
    ensures { result ≡ allowed_in (state_of rows.now) caller.now ask.now }
{
    let there = |organisation: &Ident| rows.has_organisation(organisation.text());
    let role = |organisation: &Ident| rows.role_of(caller, organisation.text());
    match *ask {
        Ask::Operate => may_operate(caller),
        Ask::OrgMembers(organisation) => may_manage_members(
            caller,
            there(organisation),
            role(organisation),
        ),
        Ask::OrgTeams(organisation) => may_manage_teams(
            caller,
            there(organisation),
            role(organisation),
        ),
        Ask::OrgRead(organisation) => may_see_organisation(
            caller,
            there(organisation),
            role(organisation),
        ),
        Ask::Publish(name) | Ask::Write(name) | Ask::Owners(name) | Ask::Read(name) => {
            by_position(caller, ask, Position::in_rows(rows, caller, name))
        }
    }
}

fn by_position(caller: &Caller, ask: &Ask, at: Position) -> Result<Rule, Refusal>
    ensures { result ≡ allowed_at caller.now ask.now at }
{
    match *ask {
        Ask::Publish(name) => may_publish(caller, name.scope().is_some(), at),
        Ask::Write(_) => may_write(caller, at),
        Ask::Owners(_) => may_manage_maintainers(caller, at),
        Ask::Read(_) => may_read(at),
        Ask::Operate | Ask::OrgMembers(_) | Ask::OrgTeams(_) | Ask::OrgRead(_) => {
            Err(Refusal::NotFound)
        }
    }
}
