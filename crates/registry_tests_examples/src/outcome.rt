//! What a test shows of a case that comes out differently than wanted.
//!
//! A test ends at the first such case, and where the system or the memory fails. So its other ways
//! out are few: on each, the prover follows all that is dropped.

use std::fmt::Debug;
use std::process::Abort;

/// Checks that a case comes out as wanted. Otherwise the test shows the case and both values.
pub fn same<C: Copy + Debug, T: Copy + Debug + PartialEq>(
    rt: &impl Abort,
    case: C,
    came_out: T,
    wanted: T,
) {
    if came_out != wanted {
        panic!(rt; "{case:?} comes out as {came_out:?}, and not as {wanted:?}");
    }
}
