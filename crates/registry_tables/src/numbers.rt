//! Whether the numbers in columns are in range.

ghost use Rattle.std.specs.Prelude.{◌≡◌, ◌&&◌};
ghost use Rattle.registry_tables.specs.Inside.{Finds};
ghost use Rattle.registry_tables.specs.Numbers as spec;
ghost use Rattle.registry_tables.specs.Ranges.{TellsRanges, all_pass};
ghost use Rattle.registry_tables.specs.Spelled.{fourth_number, second_number, third_number};

use crate::passing::{RowTest, all_rows_pass};
use registry_names::{Fault, Moment};
use sqlite::{Alter, Error, Row, Transaction};

/// Whether each number that is stored for a role, a status, a level of a grant or a moment is one
/// that the registry writes: a role is 0, 1 or 2, a status 0 or 1, a level 1 or 2, and a moment is
/// from 0 to 253402300799.
///
/// Rows of five tables are read, but neither manifests nor archives.
pub fn numbers_are_in_range<S: Alter>(tx: &mut Transaction<'_, S>) -> Result<bool, Fault>
    ensures { Finds S.Store tx.old tx.new result TellsRanges }
{
    let roles = find_roles(tx)?;
    let statuses = find_statuses(tx)?;
    let levels = find_levels(tx)?;
    let live = find_live(tx)?;
    let spent = find_spent(tx)?;
    Ok(are_all(roles, statuses, levels, live, spent))
}

fn are_all(roles: bool, statuses: bool, levels: bool, live: bool, spent: bool) -> bool
    ensures { result ≡ (roles && (statuses && (levels && (live && spent)))) }
{
    roles && (statuses && (levels && (live && spent)))
}

fn find_roles<S: Alter>(tx: &mut Transaction<'_, S>) -> Result<bool, Fault>
    ensures { Finds S.Store tx.old tx.new result
        (λ fine c. fine ≡ all_pass spec.is_role c.members) }
{
    all_rows_pass::<RoleTest, S>(tx, "SELECT org, user, role FROM members ORDER BY org, user")
}

fn find_statuses<S: Alter>(tx: &mut Transaction<'_, S>) -> Result<bool, Fault>
    ensures { Finds S.Store tx.old tx.new result
        (λ fine c. fine ≡ all_pass spec.is_status c.packages) }
{
    all_rows_pass::<StatusTest, S>(tx, "SELECT name, status FROM packages ORDER BY name")
}

fn find_levels<S: Alter>(tx: &mut Transaction<'_, S>) -> Result<bool, Fault>
    ensures { Finds S.Store tx.old tx.new result
        (λ fine c. fine ≡ all_pass spec.is_level c.grants) }
{
    all_rows_pass::<LevelTest, S>(
        tx,
        "SELECT org, team, package, level FROM grants ORDER BY org, team, package",
    )
}

fn find_live<S: Alter>(tx: &mut Transaction<'_, S>) -> Result<bool, Fault>
    ensures { Finds S.Store tx.old tx.new result
        (λ fine c. fine ≡ all_pass (λ v. spec.is_moment v.published) c.versions) }
{
    all_rows_pass::<LiveTest, S>(
        tx,
        "SELECT package, version, published FROM versions ORDER BY package, version",
    )
}

fn find_spent<S: Alter>(tx: &mut Transaction<'_, S>) -> Result<bool, Fault>
    ensures { Finds S.Store tx.old tx.new result (λ fine c. fine
        ≡ all_pass (λ v. spec.is_moment v.published && spec.is_moment v.withdrawn) c.spent) }
{
    all_rows_pass::<SpentTest, S>(
        tx,
        "SELECT package, version, published, withdrawn FROM spent ORDER BY package, version",
    )
}

fn is_role(number: i64) -> bool
    ensures { result ≡ spec.is_role number }
{
    number == 0 || number == 1 || number == 2
}

fn is_status(number: i64) -> bool
    ensures { result ≡ spec.is_status number }
{
    number == 0 || number == 1
}

fn is_level(number: i64) -> bool
    ensures { result ≡ spec.is_level number }
{
    number == 1 || number == 2
}

fn is_moment(number: i64) -> bool
    ensures { result ≡ spec.is_moment number }
{
    Moment::new(number).is_some()
}

// That the third column is a role's number.
struct RoleTest;

impl RowTest for RoleTest {
    ghost passes = { λ row. spec.is_role (third_number row) };

    fn test(row: &Row) -> Result<bool, Error> {
        Ok(is_role(row.get(2)?))
    }
}

// That the second one is a status's.
struct StatusTest;

impl RowTest for StatusTest {
    ghost passes = { λ row. spec.is_status (second_number row) };

    fn test(row: &Row) -> Result<bool, Error> {
        Ok(is_status(row.get(1)?))
    }
}

// That the fourth one is a level's.
struct LevelTest;

impl RowTest for LevelTest {
    ghost passes = { λ row. spec.is_level (fourth_number row) };

    fn test(row: &Row) -> Result<bool, Error> {
        Ok(is_level(row.get(3)?))
    }
}

// That the third one is a moment's.
struct LiveTest;

impl RowTest for LiveTest {
    ghost passes = { λ row. spec.is_moment (third_number row) };

    fn test(row: &Row) -> Result<bool, Error> {
        Ok(is_moment(row.get(2)?))
    }
}

// That the third and the fourth one are moments'.
struct SpentTest;

impl RowTest for SpentTest {
    ghost passes = { λ row. spec.is_moment (third_number row) && spec.is_moment (fourth_number row) };

    fn test(row: &Row) -> Result<bool, Error> {
        let published = is_moment(row.get(2)?);
        let withdrawn = is_moment(row.get(3)?);
        Ok(published && withdrawn)
    }
}
