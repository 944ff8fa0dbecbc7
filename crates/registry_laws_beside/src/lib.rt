//! A registry whose server answers commands, too: everything that it is asked is one run. This
//! crate has only definitions and their laws.
#![tactic(auto)]

pub mod laws;
