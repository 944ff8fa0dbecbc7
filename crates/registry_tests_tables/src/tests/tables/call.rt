//! Cases on new tables, and what comes out of them.

ghost use Rattle.std.specs.Prelude.{◌≡◌, OnOk};
ghost use Rattle.sqlite.specs.Held.{state};
ghost use Rattle.sqlite.specs.Steps.{IsEmpty};
ghost use Rattle.registry_tests_tables.specs.Resting.{IsWhole};

use super::answers::answer;
use super::asked::Asked;
use super::text::{push, text_of};
use crate::outcome::same;
use registry_names::Fault;
use registry_tables::create;
use sqlite::{Alter, Connection, Row, Transaction};
use sqlite_value::value::ValueRef;
use std::alloc::Global;
use std::process::Abort;

/// Gives the name of its table for each row; for a need, the target and the range on which versions
/// depend. They are in byte order.
const TABLE_OF_EACH_ROW: &str =
    "SELECT 'users' FROM users UNION ALL SELECT 'tokens' FROM tokens UNION ALL SELECT 'orgs' FROM orgs UNION ALL SELECT 'members' FROM members UNION ALL SELECT 'teams' FROM teams UNION ALL SELECT 'team_members' FROM team_members UNION ALL SELECT 'packages' FROM packages UNION ALL SELECT 'grants' FROM grants UNION ALL SELECT 'owners' FROM owners UNION ALL SELECT 'versions' FROM versions UNION ALL SELECT 'spent' FROM spent UNION ALL SELECT 'tags' FROM tags UNION ALL SELECT 'needs' FROM needs UNION ALL SELECT 'meta' FROM meta UNION ALL SELECT target || ' ' || range FROM need_ranges UNION ALL SELECT 'held' FROM held UNION ALL SELECT 'archives' FROM archives ORDER BY 1";

/// Checks that all cases of a text come out as they say.
pub fn all_come_out(rt: &impl Abort, alloc: Global, cases: &str) {
    for case in cases.trim().split("\n\n") {
        let mut conn = Connection::open_in_memory(alloc).expect(rt, "a database");
        comes_out_on(rt, alloc, &mut conn, case).expect(rt, "tables");
    }
}

fn comes_out_on<S: Alter>(
    rt: &impl Abort,
    alloc: Global,
    conn: &mut Connection<S>,
    case: &str,
) -> Result<(), Fault>
    requires empty { IsEmpty (state S.Store conn.old) }
{
    let mut tx = conn.transaction();
    create(&mut tx)?;
    comes_out_inside(rt, alloc, &mut tx, case);
    Ok(())
}

fn comes_out_inside<S: Alter>(
    rt: &impl Abort,
    alloc: Global,
    tx: &mut Transaction<'_, S>,
    case: &str,
)
    requires whole { IsWhole S.Store tx.old }
    ensures same_reference { tx.new.conn.ghost_name ≡ tx.old.conn.ghost_name }
{
    let (lines, end) = case.split_once("\nthen ").unwrap_or((case, ""));
    all_answer(rt, alloc, tx, lines);
    ends(rt, alloc, tx, end);
}

/// Makes the calls of the lines after the first, each of which has to answer what stands after its
/// arrow, or nothing.
pub fn all_answer<S: Alter>(
    rt: &impl Abort,
    alloc: Global,
    tx: &mut Transaction<'_, S>,
    lines: &str,
)
    requires whole { IsWhole S.Store tx.old }
    ensures same_reference { tx.new.conn.ghost_name ≡ tx.old.conn.ghost_name }
    ensures whole { IsWhole S.Store tx.new }
{
    let (shows, lines) = lines.split_once('\n').expect(rt, lines);
    for line in lines.lines() {
        answers(rt, alloc, tx, shows, line);
    }
}

fn answers<S: Alter>(
    rt: &impl Abort,
    alloc: Global,
    tx: &mut Transaction<'_, S>,
    shows: &str,
    line: &str,
)
    requires whole { IsWhole S.Store tx.old }
    ensures same_reference { tx.new.conn.ghost_name ≡ tx.old.conn.ghost_name }
    ensures whole { IsWhole S.Store tx.new }
{
    let (line, wanted) = line.split_once(" ->").unwrap_or((line, ""));
    match told(rt, alloc, tx, line) {
        Ok(text) => same(rt, (shows, line), text.as_str(), wanted),
        Err(fault) => panic!(rt; "{shows}: {line} comes out as {fault:?}"),
    }
}

// What the line asks for is answered as a text.
fn told<S: Alter>(
    rt: &impl Abort,
    alloc: Global,
    tx: &mut Transaction<'_, S>,
    line: &str,
) -> Result<String, Fault>
    requires whole { IsWhole S.Store tx.old }
    ensures same_reference { tx.new.conn.ghost_name ≡ tx.old.conn.ghost_name }
    ensures whole { OnOk result (IsWhole S.Store tx.new) }
{
    let asked = Asked::of(rt, alloc, line);
    match answer(rt, alloc, tx, &asked) {
        Ok(loaded) => Ok(text_of(rt, alloc, &loaded)),
        Err(fault) => Err(fault),
    }
}

// What comes after the lines: nothing; a line that is a fault of the database; or a look at every row
// that is there.
fn ends<S: Alter>(rt: &impl Abort, alloc: Global, tx: &mut Transaction<'_, S>, end: &str)
    requires whole { IsWhole S.Store tx.old }
    ensures same_reference { tx.new.conn.ghost_name ≡ tx.old.conn.ghost_name }
{
    match end.split_once(' ') {
        Some(("fault", line)) => {
            let fault = told(rt, alloc, tx, line).err();
            same(rt, line, fault, Some(Fault::Database));
        }
        Some(("rows", wanted)) => {
            let rows = tx.query_all(TABLE_OF_EACH_ROW, &[]).expect(rt, "rows");
            same(rt, wanted, words_in(rt, alloc, &rows).as_str(), wanted);
        }
        _ => same(rt, "nothing follows", end, ""),
    }
}

// The words of the rows, with a space between them.
fn words_in(rt: &impl Abort, alloc: Global, rows: &[Row]) -> String {
    let mut text = String::new(alloc);
    for (place, row) in rows.iter().enumerate() {
        push(
            rt,
            &mut text,
            &[if place > 0 { " " } else { "" }, word_in(rt, row)],
        );
    }
    text
}

fn word_in<'r>(rt: &impl Abort, row: &'r Row) -> &'r str {
    match row.get_ref(0).expect(rt, "a word") {
        ValueRef::Text(word) => str::from_utf8(word).expect(rt, "a text"),
        _ => "",
    }
}
