//! All rules, tried on all rows.

ghost use Rattle.std.specs.Prelude.{◌≡◌, ◌++◌, IfOk, OnOk};
ghost use Rattle.registry_rows.specs.Frames.{Stays};
ghost use Rattle.registry_rows.specs.KeyKinds.{NumberMap};
ghost use Rattle.registry_tables.specs.Contents.{Archive, contents};
ghost use Rattle.registry_tables.specs.Effects.{InForm};
ghost use Rattle.registry_check.specs.Loaded.{Tells};
ghost use Rattle.registry_check.specs.Problems as spec;
ghost use Rattle.registry_check.specs.Right.{AreProblems, TellsRight, rows_at};
ghost use Rattle.registry_check.specs.Rows.{rows_of};

use crate::archives::{Held, push_archives};
use crate::checked::{push_broken, push_problems};
use crate::counter::{Counters, Numbers};
use crate::loads::load_tables;
use crate::named::push_needs;
use crate::names::{
    MaintainerForms, OrganisationForms, PackageForms, TeamForms, TokenForms, UserForms,
};
use crate::numbers::{Levels, Moments, Roles, Statuses};
use crate::packages::{Grants, Maintainers, Published};
use crate::people::{Members, Organisations, TeamMembers, Teams, Tokens};
use crate::problem::Problem;
use crate::releases::{Tags, Targets, VersionForms, Withdrawn};
use crate::tables::Tables;
use crate::texts::text_problems;
use crate::versions::Live;
use registry_names::Fault;
use sqlite::{Alter, Transaction};
use std::alloc::Global;

/// Tries all rules on everything that is stored, and returns what breaks one: first the rules of
/// references, needs and archives, and then those of form, each in the order of the tables and of
/// their keys. Where a text isn't UTF-8, it returns the rows with such texts alone, since no other
/// rule can be tried on them.
///
/// There is no problem exactly where the registry is right (`IsRight` of its specification):
/// everything holds that the promises of a request suppose of the tables. Nothing is changed. A fault
/// says nothing about what is stored.
///
/// All rows are held at once but for the bytes of archives, of which only those of one integrity are. The
/// time grows hardly faster than what is stored.
pub fn check<S: Alter>(alloc: Global, tx: &mut Transaction<'_, S>) -> Result<Vec<Problem>, Fault>
    requires in_form { InForm S.Store tx.old }
    ensures stays { Stays S.Store tx.old tx.new }
    ensures loads { Tells S.Store tx.old tx.new result (λ found db. AreProblems found.items db) }
    ensures met { Tells S.Store tx.old tx.new result (λ found db. TellsRight found.items db) }
{
    let unreadable = text_problems(alloc, tx)?;
    if unreadable.as_slice().is_empty() {
        check_rules(alloc, tx)
    } else {
        Ok(unreadable)
    }
}

// What breaks a rule where each text can be read.
fn check_rules<S: Alter>(alloc: Global, tx: &mut Transaction<'_, S>) -> Result<Vec<Problem>, Fault>
    requires in_form { InForm S.Store tx.old }
    ensures stays { Stays S.Store tx.old tx.new }
    ensures loads { Tells S.Store tx.old tx.new result
        (λ found db. found.items ≡ spec.problems (rows_at db) (contents db).archives) }
{
    let tables = load_tables(alloc, tx)?;
    let mut problems = reference_problems(alloc, &tables)?;
    push_archives(alloc, &mut problems, tx, &tables.versions.archives, &tables)?;
    push_forms(alloc, &mut problems, &tables)?;
    Ok(problems)
}

// What breaks a rule of references or needs.
fn reference_problems(alloc: Global, all: &Tables) -> Result<Vec<Problem>, Fault>
    ensures { IfOk result
        (λ problems. problems.items ≡ spec.reference_problems (rows_of all.now)) }
{
    let mut problems = Vec::new(alloc);
    push_people(alloc, &mut problems, all)?;
    push_packages(alloc, &mut problems, all)?;
    push_versions(alloc, &mut problems, all)?;
    Ok(problems)
}

// Adds what breaks a rule of form to what breaks the other rules.
fn push_forms(alloc: Global, problems: &mut Vec<Problem>, all: &Tables) -> Result<(), Fault>
    ensures { OnOk result ((archives : NumberMap Archive)
        → problems.old.items ≡ spec.premise_problems (rows_of all.now) archives
        → problems.new.items ≡ spec.problems (rows_of all.now) archives) }
{
    push_names(alloc, problems, all)?;
    push_numbers(alloc, problems, all)?;
    push_releases(alloc, problems, all)?;
    push_counts(alloc, problems, all)
}

fn push_people(alloc: Global, problems: &mut Vec<Problem>, all: &Tables) -> Result<(), Fault>
    ensures { OnOk result (problems.new.items
        ≡ problems.old.items ++ spec.token_problems (rows_of all.now)
        ++ spec.organisation_problems (rows_of all.now) ++ spec.member_problems (rows_of all.now)
        ++ spec.team_problems (rows_of all.now) ++ spec.team_member_problems (rows_of all.now)) }
{
    push_problems::<Tokens>(alloc, problems, &all.accounts.tokens, all)?;
    push_problems::<Organisations>(alloc, problems, &all.accounts.organisations, all)?;
    push_problems::<Members>(alloc, problems, &all.groups.members, all)?;
    push_problems::<Teams>(alloc, problems, &all.groups.teams, all)?;
    push_problems::<TeamMembers>(alloc, problems, &all.groups.team_members, all)
}

fn push_packages(alloc: Global, problems: &mut Vec<Problem>, all: &Tables) -> Result<(), Fault>
    ensures { OnOk result (problems.new.items
        ≡ problems.old.items ++ spec.published_problems (rows_of all.now)
        ++ spec.grant_problems (rows_of all.now) ++ spec.maintainer_problems (rows_of all.now)) }
{
    push_problems::<Published>(alloc, problems, &all.packages.published, all)?;
    push_problems::<Grants>(alloc, problems, &all.packages.grants, all)?;
    push_problems::<Maintainers>(alloc, problems, &all.packages.maintainers, all)
}

fn push_versions(alloc: Global, problems: &mut Vec<Problem>, all: &Tables) -> Result<(), Fault>
    ensures { OnOk result (problems.new.items
        ≡ problems.old.items ++ spec.live_problems (rows_of all.now)
        ++ spec.need_problems (rows_of all.now) ++ spec.held_problems (rows_of all.now)) }
{
    push_problems::<Live>(alloc, problems, &all.versions.live, all)?;
    push_needs(alloc, problems, &all.versions.needs, all)?;
    push_problems::<Held>(alloc, problems, &all.versions.held, all)
}

fn push_names(alloc: Global, problems: &mut Vec<Problem>, all: &Tables) -> Result<(), Fault>
    ensures { OnOk result (problems.new.items
        ≡ problems.old.items ++ spec.user_form_problems (rows_of all.now)
        ++ spec.token_form_problems (rows_of all.now)
        ++ spec.organisation_form_problems (rows_of all.now)
        ++ spec.team_form_problems (rows_of all.now)
        ++ spec.package_form_problems (rows_of all.now)
        ++ spec.maintainer_form_problems (rows_of all.now)) }
{
    push_problems::<UserForms>(alloc, problems, &all.accounts.users, all)?;
    push_problems::<TokenForms>(alloc, problems, &all.accounts.tokens, all)?;
    push_problems::<OrganisationForms>(alloc, problems, &all.accounts.organisations, all)?;
    push_problems::<TeamForms>(alloc, problems, &all.groups.teams, all)?;
    push_problems::<PackageForms>(alloc, problems, &all.packages.published, all)?;
    push_problems::<MaintainerForms>(alloc, problems, &all.packages.maintainers, all)
}

fn push_numbers(alloc: Global, problems: &mut Vec<Problem>, all: &Tables) -> Result<(), Fault>
    ensures { OnOk result (problems.new.items
        ≡ problems.old.items ++ spec.role_problems (rows_of all.now)
        ++ spec.status_problems (rows_of all.now) ++ spec.level_problems (rows_of all.now)
        ++ spec.moment_problems (rows_of all.now)) }
{
    push_problems::<Roles>(alloc, problems, &all.grades.roles, all)?;
    push_problems::<Statuses>(alloc, problems, &all.grades.statuses, all)?;
    push_problems::<Levels>(alloc, problems, &all.grades.levels, all)?;
    push_problems::<Moments>(alloc, problems, &all.times.moments, all)
}

fn push_releases(alloc: Global, problems: &mut Vec<Problem>, all: &Tables) -> Result<(), Fault>
    ensures { OnOk result (problems.new.items
        ≡ problems.old.items ++ spec.version_form_problems (rows_of all.now)
        ++ spec.spent_problems (rows_of all.now) ++ spec.tag_problems (rows_of all.now)
        ++ spec.target_problems (rows_of all.now)) }
{
    push_problems::<VersionForms>(alloc, problems, &all.versions.live, all)?;
    push_problems::<Withdrawn>(alloc, problems, &all.times.spent, all)?;
    push_problems::<Tags>(alloc, problems, &all.marks.tags, all)?;
    push_problems::<Targets>(alloc, problems, &all.marks.targets, all)
}

fn push_counts(alloc: Global, problems: &mut Vec<Problem>, all: &Tables) -> Result<(), Fault>
    ensures { OnOk result (problems.new.items
        ≡ problems.old.items ++ spec.counted_problems (rows_of all.now)
        ++ spec.counter_problems (rows_of all.now)) }
{
    push_problems::<Numbers>(alloc, problems, &all.versions.archives, all)?;
    push_broken::<Counters>(alloc, problems, &all.counter, all)
}
