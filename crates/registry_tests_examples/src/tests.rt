//! Registries in memory, in files, and in the program.
//!
//! Only one function names a registry over a store of its own, as `Registry::open` gives it, and
//! hands it to a function over any disk or any store: its check takes a quarter of a minute for each
//! call that takes or gives such a registry.

mod archives;
mod asking;
mod at_path;
mod both_ways;
mod files;
mod in_files;
mod lies;
mod lists;
mod log;
mod program;
mod revised;
mod sent;
mod served;
mod together;
