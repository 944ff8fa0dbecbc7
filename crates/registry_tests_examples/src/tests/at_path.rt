//! The file at a path, opened as any database.

use sqlite::{Alter, Connection, FileStore, Files};
use sqlite_disk::Disk;
use std::process::Abort;

/// Runs statements on the database in the file at the path.
pub(crate) fn change(rt: &HostRuntime, ends: &impl Abort, path: &str, statements: &str) {
    let _one = number_at(rt, ends, path, statements, "SELECT 1");
}

/// Runs statements on the database in the file at the path, and then a query: the first number of
/// its answer.
pub(crate) fn number_at(
    rt: &HostRuntime,
    ends: &impl Abort,
    path: &str,
    statements: &str,
    query: &str,
) -> u64 {
    match Connection::open(rt, path) {
        Ok(conn) => {
            let (number, _files) = number_in(ends, conn, statements, query);
            number
        }
        Err(error) => panic!(ends; "{path} isn't opened: {error:?}"),
    }
}

/// The same of a connection, which is closed afterwards, so that the file holds everything; and its
/// files.
pub(crate) fn number_in<D: Disk + Drop>(
    ends: &impl Abort,
    conn: Connection<FileStore<D>>,
    statements: &str,
    query: &str,
) -> (u64, Files<D>) {
    let mut conn = conn;
    let number = number_of(ends, &mut conn, statements, query);
    match conn.close_files() {
        Ok(files) => (number, files),
        Err((error, _)) => panic!(ends; "the file isn't closed: {error:?}"),
    }
}

fn number_of<S: Alter>(
    ends: &impl Abort,
    conn: &mut Connection<S>,
    statements: &str,
    query: &str,
) -> u64 {
    conn.execute_batch(statements).expect(ends, statements);
    let row = conn.query_row(query, &[]).expect(ends, query);
    row.get(0).expect(ends, query)
}
