//! How a case comes out, and what a test shows of one that comes out differently than wanted.
//!
//! A test ends at the first case that comes out differently, and where there is no memory.

use std::alloc::Global;
use std::fmt::{Debug, Display};
use std::process::Abort;

/// Checks that a case comes out as wanted. Otherwise the test shows the case and both values.
pub fn same<C: Copy + Debug, T: Copy + Debug + PartialEq>(
    rt: &impl Abort,
    case: C,
    came_out: T,
    wanted: T,
) {
    if came_out != wanted {
        panic!(rt; "{case:?} comes out as {came_out:?}, and not as {wanted:?}");
    }
}

/// Checks that a value is displayed as this text.
pub fn is_displayed<T: Display>(rt: &impl Abort, alloc: Global, value: &T, wanted: &str) {
    let came_out = format!(in alloc; "{value}").expect(rt, "memory");
    same(rt, wanted, came_out.as_str(), wanted);
}

/// Checks that `Debug` shows a value as this text.
pub fn is_shown<T: Debug>(rt: &impl Abort, alloc: Global, case: &str, value: &T, wanted: &str) {
    let came_out = format!(in alloc; "{value:?}").expect(rt, "memory");
    same(rt, case, came_out.as_str(), wanted);
}
