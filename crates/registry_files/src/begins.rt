//! What the files of a registry are opened from.

use sqlite::{Start, Unknown};

/// A start that there is for each open of a file. All that is proved of opens holds for every one.
pub trait Begins: Start {
    fn begin() -> Self;
}

/// The start of the machine's own files, whatever they hold.
impl Begins for Unknown {
    fn begin() -> Unknown {
        Unknown
    }
}
