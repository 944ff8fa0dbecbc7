//! Rows that are tried one after another.

ghost use Rattle.std.specs.Prelude.{◌≡◌, ◌++◌, List, IfOk, OnOk, map};
ghost use Rattle.registry_check.specs.Problems.{broken, fault_of, problems_of};
ghost use Rattle.registry_check.specs.Rows.{Rows, rows_of};
ghost use Rattle.registry_check.specs.declared.problem.Test.{Test as Tried};
ghost use Rattle.registry_check.specs.declared.problem.Thing.{Thing as About};

use crate::problem::{Problem, Test, Thing};
use crate::tables::Tables;
use registry_names::Fault;
use std::alloc::Global;

/// A kind of rows: what such a row is about, and the rules that are tried on it.
pub(crate) trait Checked {
    /// A row.
    type Row;

    /// What contracts see of a row: its key and its value.
    ghost Entry: { Type 0 };

    /// A row as contracts see it.
    ghost entry: { Self.Row → Entry };

    /// What a row is about.
    ghost about: { Entry → About };

    /// The rules for a row, each with whether it holds.
    ghost tried: { Rows → Entry → List Tried };

    /// What the row is about.
    fn thing(alloc: Global, row: &Self::Row) -> Result<Thing, Fault>
        ensures { IfOk result (λ thing. thing ≡ about (entry row.now)) };

    /// The rules for the row, each with whether it holds.
    fn tests(alloc: Global, row: &Self::Row, all: &Tables) -> Result<Vec<Test>, Fault>
        ensures { IfOk result (λ tests. tests.items ≡ tried (rows_of all.now) (entry row.now)) };
}

/// Adds the problems of these rows.
pub(crate) fn push_problems<K: Checked>(
    alloc: Global,
    problems: &mut Vec<Problem>,
    rows: &[K::Row],
    all: &Tables,
) -> Result<(), Fault>
    ensures { OnOk result (problems.new.items ≡ problems.old.items
        ++ problems_of K.about (K.tried (rows_of all.now)) (map K.entry rows.now)) }
{
    for row in rows {
        push_broken::<K>(alloc, problems, row, all)?;
    }
    Ok(())
}

/// Adds the rules that don't hold for a row.
pub(crate) fn push_broken<K: Checked>(
    alloc: Global,
    problems: &mut Vec<Problem>,
    row: &K::Row,
    all: &Tables,
) -> Result<(), Fault>
    ensures { OnOk result (problems.new.items ≡ problems.old.items
        ++ broken (K.about (K.entry row.now)) (K.tried (rows_of all.now) (K.entry row.now))) }
{
    let tests = K::tests(alloc, row, all)?;
    push_faults::<K>(alloc, problems, row, &tests)
}

fn push_faults<K: Checked>(
    alloc: Global,
    problems: &mut Vec<Problem>,
    row: &K::Row,
    tests: &[Test],
) -> Result<(), Fault>
    ensures { OnOk result (problems.new.items ≡ problems.old.items
        ++ broken (K.about (K.entry row.now)) tests.now) }
{
    for test in tests {
        push_fault::<K>(alloc, problems, row, *test)?;
    }
    Ok(())
}

fn push_fault<K: Checked>(
    alloc: Global,
    problems: &mut Vec<Problem>,
    row: &K::Row,
    test: Test,
) -> Result<(), Fault>
    ensures { OnOk result (problems.new.items ≡ problems.old.items
        ++ fault_of (K.about (K.entry row.now)) test) }
{
    if !test.holds {
        let thing = K::thing(alloc, row)?;
        let rule = test.rule;
        problems.push(Problem { rule, thing })?;
    }
    Ok(())
}
