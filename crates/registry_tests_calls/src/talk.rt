//! Whole connections.

pub mod connections;
mod packuments;
