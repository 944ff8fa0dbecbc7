//! Cases as texts, and their runners.

mod rows;
mod schema;
mod tables;
