//! Hidden packages: to somebody who doesn't read a package the registry is as if nobody had ever
//! touched it, except by three kinds of request. The crate has only definitions and their laws, and
//! nothing of where packages are kept.
#![tactic(auto)]

pub mod laws;
