//! The walk itself.

ghost use Rattle.std.specs.Prelude.{◌≡◌, ◌-◌, ◌^◌, None, IsTrue, map};
ghost use Rattle.sqlite.specs.Held.{state};
ghost use Rattle.sqlite.specs.State.{HasCleanDisk};
ghost use Rattle.registry_tables.specs.WalkLaws.{gone_nowhere, gone_through, rows_in_order};
ghost use Rattle.registry_tables.specs.Walks.{HasGoneOn, IsAt, as_rows, fault_at, rows_after};

use super::LiveRows;
use super::stage::Stage;
use registry_names::{Fault, Name};
use registry_packument::{VersionRow, VersionSource};
use std::alloc::Global;

/// A walk over the live versions of a package, in byte order of their texts, each with its manifest
/// and its message. It reads them one at a time, and changes nothing. What it has given at any time
/// is a prefix of them, and at its end it is all of them.
#[derive(Drop)]
pub struct VersionWalk<'r, R: LiveRows> {
    rows: &'r mut R,
    name: &'r Name,
    given: u64,
    stage: Stage,
    ghost at: { ∥ IsAt R.store name.now (R.rows rows.now).conn.now given stage ∥₁ },
    ghost unshut: { fault_at stage ≡ None
        → HasCleanDisk (state R.store (R.rows rows.now).conn.now)
        → IsTrue (state R.store (R.rows rows.now).conn.now).is_open },
}

impl<'r, R: LiveRows> VersionWalk<'r, R> {
    ghost use Rattle.registry_names.specs.Maps.{of, seen};
    ghost use Rattle.registry_tables.specs.Contents.{live_of};
    ghost use Rattle.registry_tables.specs.Effects.{stored};
    ghost use Rattle.registry_tables.specs.Spelled.{document, row_entry};
    ghost use Rattle.registry_tables.specs.Walking.{lent, rows_left, stopped_at};
    ghost use Rattle.registry_tables.specs.Walks.{Begins, shown_by};

    /// A walk over what [`walk_versions`](crate::walk_versions) asked for. It has given nothing yet.
    pub fn over(rows: &'r mut R, name: &'r Name) -> VersionWalk<'r, R>
        requires begun { Begins R.store name.now (R.rows rows.old) }
        ensures same_reference { (lent R.LiveRows result).ghost_name ≡ rows.entry.ghost_name }
        ensures same { (lent R.LiveRows result).now ≡ R.rows rows.old }
        ensures unstopped { stopped_at R.LiveRows result ≡ None }
        ensures all { map row_entry (rows_left R.LiveRows result) ≡ map (seen document)
            (of (live_of (stored (shown_by R.store (R.rows rows.old)))) name.now) }
    {
        VersionWalk {
            rows,
            name,
            given: 0,
            stage: Stage::Goes,
        }
    }
}

impl<R: LiveRows> VersionSource for VersionWalk<'_, R> {
    ghost rows = { λ walk.
        rows_after (state R.store (R.rows walk.rows.now).conn.now) walk.name.now walk.given };

    ghost stopped = { λ walk. fault_at walk.stage };

    ghost is_known = { λ walk.
        HasCleanDisk (state R.store (R.rows walk.rows.now).conn.now) };

    ghost most = { λ walk. 2 ^ 64 - walk.given };

    ghost leaves = { λ old new. HasGoneOn R.store (as_rows R.store R.rows old.rows)
        (as_rows R.store R.rows new.rows) (fault_at new.stage) };

    ghost ordered = { λ walk. rows_in_order (R.rows walk.rows.now) walk.name.now walk.given };

    ghost leaves_itself = { λ walk.
        gone_nowhere (as_rows R.store R.rows walk.rows) (fault_at walk.stage) walk.unshut };

    ghost leaves_through = { λ a b c. gone_through (as_rows R.store R.rows a.rows)
        (as_rows R.store R.rows b.rows) (as_rows R.store R.rows c.rows) (fault_at b.stage) (fault_at c.stage) };

    fn next(&mut self, _alloc: Global) -> Result<Option<VersionRow>, Fault> {
        match self.stage {
            Stage::Stopped(fault) => return Err(fault),
            Stage::Over => return Ok(None),
            Stage::Goes => {}
        }
        self.stage = Stage::Stopped(Fault::Database);
        let Some(given) = self.given.checked_add(1) else {
            return Err(Fault::Database);
        };
        match self.rows.step() {
            Ok(Some(row)) => {
                self.given = given;
                self.stage = Stage::Goes;
                Ok(Some(row))
            }
            Ok(None) => {
                self.stage = Stage::Over;
                Ok(None)
            }
            Err(fault) => {
                self.stage = Stage::Stopped(fault);
                Err(fault)
            }
        }
    }
}
