//! Walks over the live versions of a package, outside a transaction.

ghost use Rattle.std.specs.Prelude.{◌≡◌, IfOk, IsTrue, OnOk};
ghost use Rattle.std.specs.Borrow.{sem, RestsIfErr};
ghost use Rattle.sqlite.specs.Held.{state};
ghost use Rattle.sqlite.specs.State.{HasCleanDisk, IsUnchanged};
ghost use Rattle.sqlite.specs.declared.rows.stream.Rows.{Rows};
ghost use Rattle.sqlite_trees.specs.declared.store.Store.{Ghosts};
ghost use Rattle.sqlite.specs.contracts.connection.Connection.{the_row};
ghost use Rattle.registry_rows.specs.Ready.{Ready};
ghost use Rattle.registry_tables.specs.Schema.{schema};
ghost use Rattle.registry_tables.specs.Walks.{Begins, IsLeftAlone, Steps, reference, shown_by};

mod stage;
mod version_walk;

pub use self::version_walk::VersionWalk;
use crate::versions::{LIVE_VERSIONS, ListedVersion};
use registry_names::{Fault, Name};
use registry_packument::VersionRow;
use registry_rows::{fault_of, value_of_row};
use sqlite::{Alter, Connection, Error, Rows, params};

/// Asks for the live versions of a package, in byte order of their texts, each with its manifest and
/// its message. [`VersionWalk`] reads them.
///
/// The connection, which is open, is lent until the rows are dropped. Nothing that it shows is
/// changed, and nothing can be committed; but a failure of the disk may shut it.
pub fn walk_versions<'c, S: Alter>(
    conn: &'c mut Connection<S>,
    name: &Name,
) -> Result<Rows<'c, S>, Error>
    requires in_form { Ready schema (state S.Store conn.old) }
    requires unshut { HasCleanDisk (state S.Store conn.old)
        → IsTrue (state S.Store conn.old).is_open }
    ensures* refused { sem 𝓛 (RestsIfErr (the_row S.row S.Store) conn.entry (reference S.Store)
        result (λ last. IsLeftAlone (state S.Store conn.old) (state S.Store last))) }
    ensures same_reference { IfOk result (λ rows.
        reference S.Store rows ≡ conn.entry.ghost_name) }
    ensures left { IfOk result (λ rows.
        IsLeftAlone (state S.Store conn.old) (shown_by S.Store rows)) }
    ensures unchanged { IfOk result (λ rows. HasCleanDisk (shown_by S.Store rows)
        → IsUnchanged (state S.Store conn.old) (shown_by S.Store rows)) }
    ensures begun { IfOk result (λ rows. Begins S.Store name.now rows) }
{
    conn.query(LIVE_VERSIONS, params![name.text()])
}

/// The rows of a walk that [`walk_versions`] began. They stand behind a trait so that a
/// [`VersionWalk`] names no lifetime of theirs.
pub trait LiveRows {
    // What their database is stored in.
    ghost Disk: { Type 0 };

    ghost store: { Ghosts Disk };

    // The rows, as contracts see them.
    ghost rows: { Self → Rows Disk store };

    /// The next version, if there is one.
    fn step(&mut self) -> Result<Option<VersionRow>, Fault>
        ensures same_reference { (rows self.new).conn.ghost_name
            ≡ (rows self.old).conn.ghost_name }
        ensures ok { HasCleanDisk (state store (rows self.new).conn.now) → IfOk result
            (Steps store (rows self.old).conn.now (rows self.new).conn.now) }
        ensures same { HasCleanDisk (state store (rows self.new).conn.now)
            → OnOk result (IsUnchanged (state store (rows self.old).conn.now)
            (state store (rows self.new).conn.now)) }
        ensures left { IsLeftAlone (state store (rows self.old).conn.now)
            (state store (rows self.new).conn.now) };
}

impl<S: Alter> LiveRows for Rows<'_, S> {
    ghost Disk = { S };

    ghost store = { S.Store };

    ghost rows = { λ rows. rows };

    fn step(&mut self) -> Result<Option<VersionRow>, Fault> {
        step(self)
    }
}

// The next version of the walk.
fn step<S: Alter>(rows: &mut Rows<'_, S>) -> Result<Option<VersionRow>, Fault>
    ensures same_reference { rows.new.conn.ghost_name ≡ rows.old.conn.ghost_name }
    ensures ok { HasCleanDisk (state S.Store rows.new.conn.now)
        → IfOk result (Steps S.Store rows.old.conn.now rows.new.conn.now) }
    ensures same { HasCleanDisk (state S.Store rows.new.conn.now) → OnOk result
        (IsUnchanged (state S.Store rows.old.conn.now) (state S.Store rows.new.conn.now)) }
    ensures left { IsLeftAlone (state S.Store rows.old.conn.now)
        (state S.Store rows.new.conn.now) }
{
    match rows.next() {
        Ok(Some(row)) => Ok(Some(value_of_row::<ListedVersion>(row)?)),
        Ok(None) => Ok(None),
        Err(error) => Err(fault_of(error)),
    }
}
