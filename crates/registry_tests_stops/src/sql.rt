//! Databases: statements that change them, the rows that queries show, and adoptions.

ghost use Rattle.sqlite.specs.Held.{state};
ghost use Rattle.registry_desk.specs.Adopted.{CanBeAdopted};

use crate::checks::handed_back;
use crate::outcome::same;
use registry_tests_requests::Outcome;
use sqlite::types::ValueRef;
use sqlite::{Alter, Connection, Row};
use std::alloc::Global;
use std::process::Abort;

/// What a line begins with that is a query.
const QUERY: &str = "SELECT ";

/// What is done with a database.
#[derive(Clone, Copy)]
pub(crate) enum Work<'a> {
    /// Statements are run. The lines of the text that are queries show what stands after each, or the
    /// test ends.
    Runs(&'a [&'a str], &'a str),
    /// A registry takes it over. Where that fails, the fault is an outcome, and it is tried again.
    Adopts,
}

/// The outcomes of what is done, and the connection.
pub(crate) fn worked<S: Alter + Drop>(
    ends: &impl Abort,
    alloc: Global,
    connection: Connection<S>,
    work: Work,
) -> (Vec<Outcome>, Connection<S>)
    requires rises { CanBeAdopted (state S.Store connection) }
{
    let mut outcomes = Vec::new(alloc);
    let connection = match work {
        Work::Runs(statements, shows) => run(ends, alloc, connection, statements, shows),
        Work::Adopts => adopted_or_twice(ends, alloc, connection, &mut outcomes),
    };
    (outcomes, connection)
}

fn adopted_or_twice<S: Alter + Drop>(
    ends: &impl Abort,
    alloc: Global,
    connection: Connection<S>,
    faults: &mut Vec<Outcome>,
) -> Connection<S>
    requires rises { CanBeAdopted (state S.Store connection) }
{
    let connection = handed_back(ends, alloc, connection, faults);
    if faults.is_empty() {
        return connection;
    }
    handed_back(ends, alloc, connection, faults)
}

// The connection, after these statements were run, and the queries of the text showed what it says.
fn run<S: Alter>(
    ends: &impl Abort,
    alloc: Global,
    connection: Connection<S>,
    statements: &[&str],
    shows: &str,
) -> Connection<S> {
    let mut connection = connection;
    for text in statements {
        connection.execute_batch(text).expect(ends, text);
    }
    let mut shown = String::new(alloc);
    for line in shows.lines() {
        if line.starts_with(QUERY) {
            push_shown(ends, alloc, &mut connection, line, &mut shown);
        }
    }
    same(ends, "what is shown", shown.as_str(), shows);
    connection
}

// Adds a query and its rows.
fn push_shown<S: Alter>(
    ends: &impl Abort,
    alloc: Global,
    connection: &mut Connection<S>,
    query: &str,
    text: &mut String,
) {
    push(ends, text, query);
    push(ends, text, "\n");
    let rows = connection.query_all(query, &[]).expect(ends, query);
    for row in &rows {
        push_row(ends, alloc, text, row);
        push(ends, text, "\n");
    }
}

// Adds the values of a row. A blob is shown as its hexadecimal digits.
fn push_row(ends: &impl Abort, alloc: Global, text: &mut String, row: &Row) {
    for at in 0..row.column_count() {
        if at > 0 {
            push(ends, text, "|");
        }
        match row.get_ref(at).expect(ends, "a value") {
            ValueRef::Text(bytes) => push(ends, text, str::from_utf8(bytes).expect(ends, "a text")),
            ValueRef::Blob(bytes) => push_digits(ends, alloc, text, bytes),
            ValueRef::Int(number) => push_number(ends, alloc, text, number),
            _ => push(ends, text, "none"),
        }
    }
}

fn push_digits(ends: &impl Abort, alloc: Global, text: &mut String, bytes: &[u8]) {
    for byte in bytes {
        let digits = format!(in alloc; "{byte:02x}").expect(ends, "memory");
        push(ends, text, digits.as_str());
    }
}

fn push_number(ends: &impl Abort, alloc: Global, text: &mut String, number: i64) {
    let digits = format!(in alloc; "{number}").expect(ends, "memory");
    push(ends, text, digits.as_str());
}

fn push(ends: &impl Abort, text: &mut String, more: &str) {
    text.push_str(more).expect(ends, "memory");
}
