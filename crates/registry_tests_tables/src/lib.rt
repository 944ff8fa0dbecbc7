//! Tests of the calls on rows and tables, one by one, on a database in memory.
//!
//! They need only the tables, so the gate proves them at the same time as the crates that are above
//! the tables.
#![tactic(auto)]

#[cfg(test)]
mod outcome;
#[cfg(test)]
mod tests;
