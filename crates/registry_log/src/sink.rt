//! Where lines are written.

ghost use Rattle.std.specs.Prelude.{◌≤◌, length};

/// A place for lines, such as a file.
pub trait LineSink {
    /// Writes these bytes after those that are there, and returns how many were written: a prefix
    /// of them, which may be empty. It must not wait.
    fn append(&mut self, bytes: &[u8]) -> usize
        ensures { result ≤ length bytes.now };
}
