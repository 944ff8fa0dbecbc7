//! Sources of versions.

ghost use Rattle.std.specs.Prelude.{◌≡◌, ◌↔◌, ◌<◌, ℕ, ⊤, List, Option, Some, None, Err, length, IfOk, IfErr, IfSome, OnSome, IsTrue, MatchOption};
ghost use Rattle.std.specs.Ordering.{is_lt};
ghost use Rattle.registry_names.specs.Texts.{text_cmp};
ghost use Rattle.registry_names.specs.declared.stop.Fault.{Fault};
ghost use Rattle.registry_packument.specs.declared.packument.VersionRow.{VersionRow};
ghost use Rattle.registry_packument.specs.Sources.{Gives, IsInOrder};

use crate::packument::VersionRow;
use registry_names::Fault;
use std::alloc::Global;
use std::collections::VecDeque;

/// The versions of a package, given one after the other, in byte order of their texts, each once.
///
/// Contracts see the rows that are left, and the fault that the source stopped at, if any. They say
/// what it gives where that is known: a source that reads a disk knows it while no read fails.
pub trait VersionSource {
    // The rows that are left.
    ghost rows: { Self → List VersionRow };

    // The fault that it stopped at, which it answers from then on.
    ghost stopped: { Self → Option Fault };

    // What it has given is known, and so is what it gives next.
    ghost is_known: { Self → Type 0 } = { λ _. ⊤ };

    // How many rows it gives at most, also where they aren't known.
    ghost most: { Self → ℕ };

    // How reads leave what the source reads from.
    ghost leaves: { Self → Self → Type 0 } = { λ _ _. ⊤ };

    /// The next version. `None` where no version is left.
    ///
    /// After a fault it answers that fault again, and it stops only at a fault.
    fn next(&mut self, alloc: Global) -> Result<Option<VersionRow>, Fault>
        ensures gives { is_known self.new
            → IfOk result (λ row. Gives (rows self.old) row (rows self.new)) }
        ensures known { is_known self.new → is_known self.old }
        ensures ends { IfOk result (λ row. OnSome row (most self.new < most self.old)) }
        ensures stops { IfErr result (λ fault. stopped self.new ≡ Some fault) }
        ensures goes_on { IfOk result (λ _. stopped self.new ≡ None) }
        ensures again { IfSome (stopped self.old) (λ fault. result ≡ Err fault) }
        ensures behind { leaves self.old self.new };

    // The rows are in byte order of their versions, each once.
    ghost ordered: { (source : Self) → IsInOrder (rows source) };

    // Where nothing is read, what the source reads from is as it was.
    ghost leaves_itself: { (source : Self) → leaves source source };

    // Two reads, one after the other, leave it as both together do.
    ghost leaves_through: { (a b c : Self) → leaves a b → leaves b c → leaves a c };
}

/// Versions in memory, given one after the other.
#[derive(Drop)]
pub struct VersionRows {
    left: VecDeque<VersionRow>,
    ghost ordered: { IsInOrder left.items },
}

impl VersionRows {
    /// These rows as a source. `None` is returned exactly where the rows aren't in byte order of
    /// their versions, each once.
    pub fn new(rows: Vec<VersionRow>) -> Option<VersionRows>
        ensures { MatchOption result (¬ IsInOrder rows.items)
            (λ source. ⟦<VersionRows as VersionSource>⟧.rows source ≡ rows.items) }
    {
        if is_in_order(&rows) {
            Some(VersionRows {
                left: VecDeque::from(rows),
            })
        } else {
            None
        }
    }
}

// Whether the rows are in byte order of their versions, each once.
fn is_in_order(rows: &[VersionRow]) -> bool
    ensures { IsTrue result ↔ IsInOrder rows.now }
{
    rows.is_sorted_by(|row, next| is_before(row, next))
}

fn is_before(row: &VersionRow, next: &VersionRow) -> bool
    ensures { result ≡ is_lt (text_cmp row.now.version next.now.version) }
{
    row.version.as_str() < next.version.as_str()
}

impl VersionSource for VersionRows {
    ghost rows = { λ source. source.left.items };

    ghost stopped = { λ _. None };

    ghost most = { λ source. length source.left.items };

    ghost ordered = { λ source. source.ordered };

    ghost leaves_itself = { λ _. tt };

    ghost leaves_through = { λ _ _ _ _ _. tt };

    fn next(&mut self, _alloc: Global) -> Result<Option<VersionRow>, Fault> {
        Ok(self.left.pop_front())
    }
}
