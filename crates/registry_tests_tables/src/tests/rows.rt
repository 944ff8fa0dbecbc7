//! Statements, rows that are read as values of a struct, and the making of the registry's tables, each
//! on an empty database.

ghost use Rattle.std.specs.Prelude.{◌≡◌, false, ℕ, List, string_bytes};
ghost use Rattle.sqlite_value.specs.Order.{column};
ghost use Rattle.registry_rows.specs.Columns.{text_in, number_in};

use crate::outcome::same;
use crate::tests::schema::SCHEMA;
use registry_names::Fault;
use registry_rows::{RowKind, fault_of, read, value_of_first_row, values_of_rows, write};
use registry_tables::{create, opened};
use sqlite::{Alter, Connection, Constraint, Error, ErrorCode, Row, Transaction, params};
use std::alloc::Global;
use std::process::Abort;

#[derive(Drop)]
struct Count {
    word: String,
    times: u32,
}

impl RowKind for Count {
    type Value = Count;

    ghost Seen = { List ℕ × ℕ };

    ghost seen = { λ count. (string_bytes count.word, count.times) };

    ghost spelled = { λ r. (text_in (column r 0), number_in (column r 1)) };

    fn read(row: &Row) -> Result<Count, Error> {
        let word = row.get(0)?;
        let times = row.get(1)?;
        Ok(Count { word, times })
    }
}

/// Statements on a table of words with their times.
const COUNTS: &str = "
a table that is no table of the registry is written and read
write CREATE TABLE counts (word TEXT NOT NULL, times INTEGER NOT NULL, PRIMARY KEY (word)) STRICT -> done
read SELECT * FROM counts -> 0
all SELECT * FROM counts ->
first SELECT * FROM counts ->
put and 7 -> done
put the 9 -> done
put the 3 -> Database
read SELECT * FROM counts -> 2
all SELECT * FROM counts ORDER BY times DESC -> the:9 and:7
first SELECT * FROM counts -> and:7
all SELECT times, word FROM counts -> Database
first SELECT times, word FROM counts -> Database
first SELECT word, -1 FROM counts -> Database
read SELECT * FROM sums -> Database
write DELETE FROM sums -> Database
";

const BROKEN_KEY: Error = Error::SqliteFailure(ErrorCode::ConstraintViolation(
    Constraint::ForeignKey,
));

// A case has an empty database. Its first line is what it shows. Each other line is a call, and what
// comes out of it after an arrow; a text that breaks a foreign key has no arrow.
#[test]
fn statements_are_run(rt: HostRuntime) {
    for cases in [COUNTS, SCHEMA] {
        for case in cases.trim().split("\n\n") {
            let mut conn = Connection::open_in_memory(rt.alloc()).expect(&rt, "a database");
            comes_out_on(&rt, rt.alloc(), &mut conn, case);
        }
    }
}

fn comes_out_on<S: Alter>(rt: &impl Abort, alloc: Global, conn: &mut Connection<S>, case: &str)
    requires idle { conn.old.in_transaction ≡ false }
{
    let mut tx = conn.transaction();
    all_come_out(rt, alloc, &mut tx, case);
}

fn all_come_out<S: Alter>(rt: &impl Abort, alloc: Global, tx: &mut Transaction<'_, S>, case: &str)
    ensures same_reference { tx.new.conn.ghost_name ≡ tx.old.conn.ghost_name }
{
    let (shows, lines) = case.split_once('\n').expect(rt, case);
    for line in lines.lines() {
        comes_out(rt, alloc, tx, (shows, line));
    }
}

fn comes_out<S: Alter>(
    rt: &impl Abort,
    alloc: Global,
    tx: &mut Transaction<'_, S>,
    case: (&str, &str),
)
    ensures same_reference { tx.new.conn.ghost_name ≡ tx.old.conn.ghost_name }
{
    match case.1.split_once(" ->") {
        Some((call, wanted)) => match told(rt, alloc, tx, call) {
            Ok(text) => same(rt, case, text.trim(), wanted.trim()),
            Err(fault) => same(rt, case, fault.text(), wanted.trim()),
        },
        None => {
            let text = case.1.strip_prefix("break ").expect(rt, case.1);
            same(rt, case, tx.execute(text, &[]).err(), Some(BROKEN_KEY));
        }
    }
}

// What a call comes to. The first word says which call it is:
//
// - `create` makes the tables, and `schema` asks for the number of the schema.
// - `write` runs a text, and `put` puts a word with its times.
// - `read` counts the rows of a text. `all` reads them as words with their times, and `first` the first
//   of them.
fn told<S: Alter>(
    rt: &impl Abort,
    alloc: Global,
    tx: &mut Transaction<'_, S>,
    call: &str,
) -> Result<String, Fault>
    ensures same_reference { tx.new.conn.ghost_name ≡ tx.old.conn.ghost_name }
{
    let (does, text) = call.split_once(' ').expect(rt, call);
    match does {
        "create" => create(tx)?,
        "write" => write(tx, text, &[])?,
        "put" => put(rt, tx, text)?,
        "schema" => return schema_text(alloc, opened(tx)?),
        _ => return rows_text(rt, alloc, does, &read(tx, text, &[])?),
    }
    Ok(String::from_str(alloc, "done")?)
}

fn rows_text(rt: &impl Abort, alloc: Global, does: &str, rows: &[Row]) -> Result<String, Fault> {
    match does {
        "read" => {
            let count = rows.len();
            Ok(format!(in alloc; "{count}")?)
        }
        "all" => all_text(alloc, rows),
        "first" => first_text(alloc, rows),
        _ => panic!(rt; "{does} is no call"),
    }
}

fn put<S: Alter>(rt: &impl Abort, tx: &mut Transaction<'_, S>, row: &str) -> Result<(), Fault>
    ensures same_reference { tx.new.conn.ghost_name ≡ tx.old.conn.ghost_name }
{
    let (word, times) = row.split_once(' ').expect(rt, row);
    let times = times.parse::<i64>().ok().expect(rt, row);
    write(
        tx,
        "INSERT INTO counts VALUES (?1, ?2)",
        params![word, times],
    )
}

fn schema_text(alloc: Global, schema: Option<u32>) -> Result<String, Fault> {
    match schema {
        Some(number) => Ok(format!(in alloc; "{number}")?),
        None => Ok(String::from_str(alloc, "none")?),
    }
}

fn all_text(alloc: Global, rows: &[Row]) -> Result<String, Fault> {
    let counts = values_of_rows::<Count>(alloc, rows)?;
    let mut text = String::new(alloc);
    for count in &counts {
        push_count(alloc, &mut text, count)?;
    }
    Ok(text)
}

fn first_text(alloc: Global, rows: &[Row]) -> Result<String, Fault> {
    let first = value_of_first_row::<Count>(rows)?;
    let mut text = String::new(alloc);
    if let Some(count) = &first {
        push_count(alloc, &mut text, count)?;
    }
    Ok(text)
}

fn push_count(alloc: Global, text: &mut String, count: &Count) -> Result<(), Fault> {
    let word = count.word.as_str();
    let times = count.times;
    text.push_str(&format!(in alloc; " {word}:{times}")?)?;
    Ok(())
}

/// Errors of the database, and the fault of each.
static FAULTS: [(Error, Fault); 5] = [
    (Error::SqliteFailure(ErrorCode::OutOfMemory), Fault::Memory),
    (Error::SqliteFailure(ErrorCode::DiskFull), Fault::Database),
    (
        Error::SqliteFailure(ErrorCode::ConstraintViolation(Constraint::ForeignKey)),
        Fault::Database,
    ),
    (Error::IntegralValueOutOfRange(0), Fault::Database),
    (Error::InvalidColumnIndex(0), Fault::Database),
];

#[test]
fn errors_are_faults(rt: HostRuntime) {
    for (error, fault) in &FAULTS {
        same(&rt, *error, fault_of(*error), *fault);
    }
}
