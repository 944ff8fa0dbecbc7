//! All rows of all tables.

ghost use Rattle.std.specs.Prelude.{◌≡◌, IfOk, IsErr, map};
ghost use Rattle.registry_rows.specs.Frames.{Stays};
ghost use Rattle.registry_tables.specs.Effects.{InForm, Loads};
ghost use Rattle.registry_check.specs.Counter.{counter_entry, counter_in};
ghost use Rattle.registry_check.specs.Loaded.{AreAccounts, AreGrades, AreGroups, AreMarks, ArePackages, AreTables, AreTimes, AreVersions, Finds, Tells};

use crate::archives::{Archives, Held};
use crate::counter::{Counter, Counts, counter_of};
use crate::numbers::{Levels, Moments, Roles, Statuses};
use crate::packages::{Grants, Maintainers, Published};
use crate::people::{Members, Organisations, TeamMembers, Teams, Tokens, Users};
use crate::releases::{Tags, Targets, Withdrawn};
use crate::tables::{Accounts, Grades, Groups, Marks, Packages, Tables, Times, Versions};
use crate::versions::{Live, Needs};
use registry_names::Fault;
use registry_rows::{RowKind, read, values_of_rows};
use sqlite::{Alter, Transaction, params};
use std::alloc::Global;

/// The members of organisations, each with the number of their role.
const MEMBERS: &str = "SELECT org, user, role FROM members ORDER BY org, user";

/// The rows of all tables, in the order of their keys.
pub(crate) fn load_tables<S: Alter>(
    alloc: Global,
    tx: &mut Transaction<'_, S>,
) -> Result<Tables, Fault>
    requires in_form { InForm S.Store tx.old }
    ensures stays { Stays S.Store tx.old tx.new }
    ensures loads { Tells S.Store tx.old tx.new result AreTables }
{
    let accounts = load_accounts(alloc, tx)?;
    let groups = load_groups(alloc, tx)?;
    let packages = load_packages(alloc, tx)?;
    let versions = load_versions(alloc, tx)?;
    let marks = load_marks(alloc, tx)?;
    let grades = load_grades(alloc, tx)?;
    let times = load_times(alloc, tx)?;
    let counter = load_counter(alloc, tx)?;
    Ok(Tables {
        accounts,
        groups,
        packages,
        versions,
        marks,
        grades,
        times,
        counter,
    })
}

fn load_accounts<S: Alter>(alloc: Global, tx: &mut Transaction<'_, S>) -> Result<Accounts, Fault>
    requires in_form { InForm S.Store tx.old }
    ensures stays { Stays S.Store tx.old tx.new }
    ensures loads { Loads S.Store tx.old tx.new result AreAccounts }
{
    let users = load::<Users, S>(alloc, tx, "SELECT name FROM users ORDER BY name")?;
    let tokens = load::<Tokens, S>(alloc, tx, "SELECT digest, user FROM tokens ORDER BY digest")?;
    let organisations = load::<Organisations, S>(alloc, tx, "SELECT name FROM orgs ORDER BY name")?;
    Accounts::new(users, tokens, organisations)
}

fn load_groups<S: Alter>(alloc: Global, tx: &mut Transaction<'_, S>) -> Result<Groups, Fault>
    requires in_form { InForm S.Store tx.old }
    ensures stays { Stays S.Store tx.old tx.new }
    ensures loads { Loads S.Store tx.old tx.new result AreGroups }
{
    let members = load::<Members, S>(alloc, tx, MEMBERS)?;
    let teams = load::<Teams, S>(alloc, tx, "SELECT org, team FROM teams ORDER BY org, team")?;
    let team_members = load::<TeamMembers, S>(
        alloc,
        tx,
        "SELECT org, team, user FROM team_members ORDER BY org, team, user",
    )?;
    Groups::new(members, teams, team_members)
}

fn load_packages<S: Alter>(alloc: Global, tx: &mut Transaction<'_, S>) -> Result<Packages, Fault>
    requires in_form { InForm S.Store tx.old }
    ensures stays { Stays S.Store tx.old tx.new }
    ensures loads { Loads S.Store tx.old tx.new result ArePackages }
{
    let published = load::<Published, S>(
        alloc,
        tx,
        "SELECT name, status FROM packages ORDER BY name",
    )?;
    let grants = load::<Grants, S>(
        alloc,
        tx,
        "SELECT org, team, package, level FROM grants ORDER BY org, team, package",
    )?;
    let maintainers = load::<Maintainers, S>(
        alloc,
        tx,
        "SELECT package, user FROM owners ORDER BY package, user",
    )?;
    Packages::new(published, grants, maintainers)
}

fn load_versions<S: Alter>(alloc: Global, tx: &mut Transaction<'_, S>) -> Result<Versions, Fault>
    requires in_form { InForm S.Store tx.old }
    ensures stays { Stays S.Store tx.old tx.new }
    ensures loads { Loads S.Store tx.old tx.new result AreVersions }
{
    let live = load::<Live, S>(
        alloc,
        tx,
        "SELECT package, version, published, manifest, deprecated, archive FROM versions ORDER BY package, version",
    )?;
    let needs = load::<Needs, S>(
        alloc,
        tx,
        "SELECT package, version, target, range FROM need_ranges ORDER BY package, version, target, range",
    )?;
    let held = load::<Held, S>(
        alloc,
        tx,
        "SELECT package, version, archive FROM held ORDER BY package, version",
    )?;
    let archives = load::<Archives, S>(
        alloc,
        tx,
        "SELECT id, integrity FROM archives ORDER BY id",
    )?;
    Versions::new(alloc, live, needs, held, archives)
}

fn load_marks<S: Alter>(alloc: Global, tx: &mut Transaction<'_, S>) -> Result<Marks, Fault>
    requires in_form { InForm S.Store tx.old }
    ensures stays { Stays S.Store tx.old tx.new }
    ensures loads { Loads S.Store tx.old tx.new result AreMarks }
{
    let tags = load::<Tags, S>(
        alloc,
        tx,
        "SELECT package, tag, version FROM tags ORDER BY package, tag",
    )?;
    let targets = load::<Targets, S>(
        alloc,
        tx,
        "SELECT package, version, target FROM needs ORDER BY package, version, target",
    )?;
    Marks::new(tags, targets)
}

fn load_grades<S: Alter>(alloc: Global, tx: &mut Transaction<'_, S>) -> Result<Grades, Fault>
    requires in_form { InForm S.Store tx.old }
    ensures stays { Stays S.Store tx.old tx.new }
    ensures loads { Tells S.Store tx.old tx.new result AreGrades }
{
    let roles = load::<Roles, S>(alloc, tx, MEMBERS)?;
    let statuses = load::<Statuses, S>(
        alloc,
        tx,
        "SELECT name, status FROM packages ORDER BY name",
    )?;
    let levels = load::<Levels, S>(
        alloc,
        tx,
        "SELECT org, team, package, level FROM grants ORDER BY org, team, package",
    )?;
    Ok(Grades {
        roles,
        statuses,
        levels,
    })
}

fn load_times<S: Alter>(alloc: Global, tx: &mut Transaction<'_, S>) -> Result<Times, Fault>
    requires in_form { InForm S.Store tx.old }
    ensures stays { Stays S.Store tx.old tx.new }
    ensures loads { Tells S.Store tx.old tx.new result AreTimes }
{
    let moments = load::<Moments, S>(
        alloc,
        tx,
        "SELECT package, version, published FROM versions ORDER BY package, version",
    )?;
    let spent = load::<Withdrawn, S>(
        alloc,
        tx,
        "SELECT package, version, published, withdrawn FROM spent ORDER BY package, version",
    )?;
    Ok(Times { moments, spent })
}

fn load_counter<S: Alter>(alloc: Global, tx: &mut Transaction<'_, S>) -> Result<Counter, Fault>
    requires in_form { InForm S.Store tx.old }
    ensures stays { Stays S.Store tx.old tx.new }
    ensures loads { Loads S.Store tx.old tx.new result
        (λ counter c. counter_entry counter ≡ counter_in c) }
{
    let rows = load::<Counts, S>(
        alloc,
        tx,
        "SELECT rowid, name, seq FROM sqlite_sequence ORDER BY rowid",
    )?;
    Ok(counter_of(&rows))
}

/// The rows that a query returns, as values of this kind.
pub(crate) fn load<K: RowKind, S: Alter>(
    alloc: Global,
    tx: &mut Transaction<'_, S>,
    text: &str,
) -> Result<Vec<K::Value>, Fault>
    ensures same_reference { tx.new.conn.ghost_name ≡ tx.old.conn.ghost_name }
    ensures finds { Finds S.Store text.now tx.old tx.new (λ rows. IfOk result (λ values.
        map K.seen values.items ≡ map K.spelled rows)) (IsErr result) }
{
    let rows = read(tx, text, params![])?;
    values_of_rows::<K>(alloc, &rows)
}
