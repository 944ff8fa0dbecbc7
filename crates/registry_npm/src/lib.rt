//! npm's own requests over HTTP, where a server serves them: those of `npm access`, `org`, `team`,
//! `owner`, `whoami`, `profile`, `logout` and `ping`, beside the registry's own routes.
//!
//! A request of npm's own leads to one request of the registry or several, which are asked in one turn,
//! so that nothing comes between them ([`npm_turn`]). Which requests it leads to, and what is answered
//! of their outcomes, is in `specs/Npm`, by cases on the route. Every other request means what it means
//! without this crate ([`laws`]).
//!
//! Who accepts an abbreviated packument is shown that, and everybody else the full one with its revision
//! and the maintainers. The full one has its revision as entity tag, and an abbreviated packument or an
//! archive the digest of its bytes (`specs/Labels`), so that none is sent again to those who have it.
#![tactic(auto)]

mod asked;
mod body;
mod caller;
mod collaborators;
mod commands;
mod documents;
mod following;
mod forms;
mod labels;
pub mod laws;
mod packages;
mod path;
mod revisions;
mod rights;
mod service;
mod shown;
mod told;
mod turning;
mod users;

pub use crate::service::NpmService;
pub use crate::turning::npm_turn;
