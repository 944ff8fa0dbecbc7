//! Laws of SQL by parts of keys and across tables, over any schema and any store ([`laws`]): what
//! DELETE and SELECT by some texts of a key make and show of the map that a table's rows give,
//! what ON DELETE CASCADE takes from other tables, and which entries a join of two tables shows.
//! The crate has no table and no text of the registry.
#![tactic(auto)]

pub mod laws;
