//! Documents: npm's claims about a package that it read, and what each of them asks for.
//!
//! npm deprecates, unpublishes a version and changes maintainers by sending back what it read, with
//! one thing changed. [`judge`] says which one: a deprecation, a withdrawal, a maintainer more or
//! less, or nothing where the document says what is there already. A document that differs in
//! anything else is refused, and so is one of another [`Revision`] than the present one. Nothing
//! here asks the registry for anything.
#![tactic(auto)]

mod asked;
mod document;
mod fronts;
mod judging;
pub mod laws;
mod names;
mod news;
mod owners;
mod package;
mod revision;
mod tags;
mod value;
mod versions;

pub use crate::asked::Asked;
pub use crate::document::{Document, Kind};
pub use crate::fronts::{front, shown};
pub use crate::judging::{Present, judge};
pub use crate::revision::Revision;
