//! SQL that a story runs on the file of its registry, as another program could.

use crate::failure::{Stop, failed_with};
use crate::registry::DB;
use sqlite::types::ValueRef;
use sqlite::{Alter, Connection, Error, FileStore, Row};
use sqlite_disk::Disk;
use std::alloc::{AllocError, Global};

/// What a line begins with that is a query.
const QUERY: &str = "SELECT ";

/// Runs lines of SQL on the database in the file, which is made if it isn't there, and closes it.
/// Gives what the queries show, a line for each row with `|` between its values, and a line on the
/// first error, after which nothing is run.
pub fn sql_printed(rt: &HostRuntime, alloc: Global, sql: &[u8]) -> Result<String, Stop> {
    let Ok(sql) = str::from_utf8(sql) else {
        return Err(failed_with(alloc, "the SQL isn't UTF-8"));
    };
    let mut printed = String::new(alloc);
    let outcome = match Connection::open_with_sums(rt, DB) {
        Ok(connection) => run_and_close(alloc, connection, sql, &mut printed),
        Err(error) => Err(error),
    };
    if let Err(error) = outcome {
        printed.push_str(&format!(in alloc; "error: {error}\n")?)?;
    }
    Ok(printed)
}

fn run_and_close<D: Disk + Drop>(
    alloc: Global,
    connection: Connection<FileStore<D>>,
    sql: &str,
    printed: &mut String,
) -> Result<(), Error> {
    let (outcome, connection) = ran(alloc, connection, sql, printed);
    match connection.close() {
        Ok(()) => outcome,
        Err(error) => Err(error),
    }
}

fn ran<S: Alter + Drop>(
    alloc: Global,
    connection: Connection<S>,
    sql: &str,
    printed: &mut String,
) -> (Result<(), Error>, Connection<S>) {
    let mut connection = connection;
    let outcome = run_lines(alloc, &mut connection, sql, printed);
    (outcome, connection)
}

fn run_lines<S: Alter>(
    alloc: Global,
    connection: &mut Connection<S>,
    sql: &str,
    printed: &mut String,
) -> Result<(), Error> {
    for line in sql.lines() {
        if line.starts_with(QUERY) {
            let rows = connection.query_all(line, &[])?;
            push_rows(alloc, printed, &rows)?;
        } else {
            connection.execute_batch(line)?;
        }
    }
    Ok(())
}

fn push_rows(alloc: Global, printed: &mut String, rows: &[Row]) -> Result<(), Error> {
    for row in rows {
        for at in 0..row.column_count() {
            if at > 0 {
                printed.push('|')?;
            }
            push_value(alloc, printed, row.get_ref(at)?)?;
        }
        printed.push('\n')?;
    }
    Ok(())
}

// Adds a value. A blob is shown as its hexadecimal digits.
fn push_value(alloc: Global, printed: &mut String, value: ValueRef<'_>) -> Result<(), AllocError> {
    match value {
        ValueRef::Text(bytes) => printed.push_str(&String::from_utf8_lossy(alloc, bytes)?),
        ValueRef::Blob(bytes) => push_digits(alloc, printed, bytes),
        ValueRef::Int(number) => printed.push_str(&format!(in alloc; "{number}")?),
        _ => printed.push_str("none"),
    }
}

fn push_digits(alloc: Global, printed: &mut String, bytes: &[u8]) -> Result<(), AllocError> {
    for byte in bytes {
        printed.push_str(&format!(in alloc; "{byte:02x}")?)?;
    }
    Ok(())
}
