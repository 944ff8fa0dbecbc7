//! Histories of accepted commands: what they leave, what they say, and what a run of requests makes
//! of one. The crate has only definitions and their laws, and nothing of where packages are kept.
//!
//! A history has its newest entry first. What it says of a thing is read by the last entry that
//! speaks of it, and that this is what the rules leave is a law.
#![tactic(auto)]

pub mod laws;
