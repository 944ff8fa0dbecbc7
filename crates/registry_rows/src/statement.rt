//! Statements inside a transaction. An error of the database is returned as a fault.

ghost use Rattle.std.specs.Prelude.{◌≡◌, IfErr, IfOk, OnErr, OnOk, false};
ghost use Rattle.sqlite.specs.Held.{state};
ghost use Rattle.sqlite.specs.State.{HasCleanDisk, Survives};
ghost use Rattle.sqlite.specs.Values.{bound};
ghost use Rattle.registry_rows.specs.Faults.{as_fault};
ghost use Rattle.registry_rows.specs.Frames.{CommitFails, IsCommitted, Stays, Wrote};
ghost use Rattle.registry_rows.specs.Ready.{Queried};

use registry_names::Fault;
use sqlite::types::ValueRef;
use sqlite::{Alter, Error, ErrorCode, Row, Transaction};

/// The fault for this error of the database: `Memory` where it had no memory left, and otherwise
/// `Database`.
pub fn fault_of(error: Error) -> Fault
    ensures { result ≡ as_fault error }
{
    match error {
        Error::SqliteFailure(ErrorCode::OutOfMemory) => Fault::Memory,
        _ => Fault::Database,
    }
}

/// Runs a statement that writes, with these parameters.
pub fn write<S: Alter>(
    tx: &mut Transaction<'_, S>,
    text: &str,
    params: &[ValueRef<'_>],
) -> Result<(), Fault>
    ensures stays { Stays S.Store tx.old tx.new }
    ensures wrote { OnOk result (Wrote text.now (bound params.now)
        (state S.Store tx.old.conn.now) (state S.Store tx.new.conn.now)) }
{
    match tx.execute(text, params) {
        Ok(_) => Ok(()),
        Err(error) => Err(fault_of(error)),
    }
}

/// Runs a query with these parameters, and returns its rows.
pub fn read<S: Alter>(
    tx: &mut Transaction<'_, S>,
    text: &str,
    params: &[ValueRef<'_>],
) -> Result<Vec<Row>, Fault>
    ensures same_reference { tx.new.conn.ghost_name ≡ tx.old.conn.ghost_name }
    ensures shown { IfOk result (λ rows. Queried text.now (bound params.now)
        (state S.Store tx.old.conn.now) (state S.Store tx.new.conn.now) rows.items) }
    ensures failed { OnErr result (Stays S.Store tx.old tx.new) }
{
    match tx.query_all(text, params) {
        Ok(rows) => Ok(rows),
        Err(error) => Err(fault_of(error)),
    }
}

/// Commits the transaction. An earlier failure that has ended it is a fault.
pub fn commit<S: Alter>(tx: Transaction<'_, S>) -> Result<(), Fault>
    ensures ended { tx.exit.0.now.in_transaction ≡ false }
    ensures ok { HasCleanDisk (state S.Store tx.exit.0.now) → OnOk result
        (IsCommitted (state S.Store tx.entry.conn.now) (state S.Store tx.exit.0.now)) }
    ensures err { HasCleanDisk (state S.Store tx.exit.0.now) → IfErr result
        (CommitFails (state S.Store tx.entry.conn.now) (state S.Store tx.exit.0.now)) }
    ensures survives { Survives (state S.Store tx.entry.conn.now) (state S.Store tx.exit.0.now)
        (λ db. db ≡ (state S.Store tx.entry.conn.now).now.trees) }
{
    match tx.commit() {
        Ok(()) => Ok(()),
        Err(error) => Err(fault_of(error)),
    }
}
