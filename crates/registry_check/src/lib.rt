//! What opening a registry can't find out: whether everything that the tables hold is as requests
//! suppose.
//!
//! Each row of each table is tried by its rules, such as that an organisation has an owner, or that
//! the stored needs of a version are those of its manifest. What breaks a rule is returned as a
//! [`Problem`]. Where there is no problem, all premises of a request hold.
#![tactic(auto)]

mod archives;
mod checked;
mod counter;
mod forms;
mod keys;
mod kinds;
pub mod laws;
mod loads;
mod manifest;
mod named;
mod names;
mod numbers;
mod order;
mod packages;
mod people;
mod problem;
mod releases;
mod rule;
mod scope;
mod search;
mod tables;
mod texts;
mod versions;
mod whole;

pub use crate::problem::{Problem, Thing};
pub use crate::rule::Rule;
pub use crate::texts::TextTable;
pub use crate::whole::check;
