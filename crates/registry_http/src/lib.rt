//! The registry over HTTP/1.1: the service that answers HTTP requests, each in a transaction of its own
//! or commands that came together in one.
//!
//! A [`RegistryService`] is served by `registry_service::serve`, one connection after the other, or
//! turn by turn, many connections at once. Its turns are one run of the registry.
#![tactic(auto)]

pub mod laws;
mod service;

pub use crate::service::RegistryService;
