//! What stands before a packument that is sent.

ghost use Rattle.std.specs.Prelude.{◌≡◌, ℕ, List, IfErr, IfOk};
ghost use Rattle.registry_names.specs.declared.stop.Fault.TheVariants.{Memory};

use registry_names::{Fault, Refusal, Text};
use std::alloc::Global;

/// What opens a packument that is sent: a text by its length alone, such as the head of a response.
pub trait Opener {
    // The text that stands before this many bytes.
    ghost opens: { Self → ℕ → List ℕ };

    /// The text that stands before a packument of this many bytes. `Memory` is returned when no
    /// memory is left.
    fn opening(&self, alloc: Global, len: u64) -> Result<Text, Fault>
        ensures ok { IfOk result (λ text. text ≡ opens self.now len) }
        ensures err { IfErr result (λ fault. fault ≡ Memory) };
}

/// How a packument was sent.
#[derive(Clone, Copy, Debug, PartialEq, Eq)]
pub enum Sent {
    /// It is refused, and nothing was written.
    Refused(Refusal),
    /// What opens it and the packument were written.
    Whole,
    /// A write failed. A prefix of these was written.
    WriteFault,
    /// The machine failed. A prefix of these was written, of at least one byte where it has
    /// started.
    Broken {
        /// What failed.
        fault: Fault,
        /// Whether a byte was written.
        has_started: bool,
    },
}
