//! Registries of older schemas become registries of schema 3, with the same users, packages,
//! versions and tags.
//!
//! Schema 1 has an archive in the row of its version, and only the targets of what a version needs.
//! Schema 2 has each archive once, and schema 3 the ranges of the needs, too. What is made here of
//! an older schema is what a registry of schema 3 would have: [`migrate`] makes it inside the
//! caller's transaction, and nothing is kept until that is committed. [`older_schema`] tells which
//! of the older schemas a database has.
#![tactic(auto)]

mod archives;
mod migration;
mod needs;
mod number;
mod older;
mod same;
mod tables;
mod versions;

pub use crate::migration::migrate;
pub use crate::older::{Older, older_schema};
pub use crate::same::is_same_schema;
