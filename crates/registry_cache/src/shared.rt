//! What many owners share.

ghost use Rattle.std.specs.Prelude.{◌≡◌, List, ℕ, IfOk, length};

use std::alloc::AllocError;

/// Bytes with many owners, none of which copies or changes them.
pub trait Shared: Drop + Sized {
    // The bytes.
    ghost bytes: { Self → List ℕ };

    /// The number of bytes.
    fn len(&self) -> usize
        ensures { result ≡ length (bytes self.now) };

    /// The same bytes for one more owner. They aren't copied.
    ///
    /// An error is returned where the number of owners can't be counted any more.
    fn share(&self) -> Result<Self, AllocError>
        ensures { IfOk result (λ s. bytes s ≡ bytes self.now) };
}
