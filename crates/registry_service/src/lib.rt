//! What an HTTP request asks of the registry, and what an outcome of the registry is in HTTP.
//!
//! [`request_of`] forms the request that a whole HTTP request spells, or returns the first refusal
//! of its form: of its route, of the values of its path from left to right, of its body, and then
//! of its authorization.
#![tactic(auto)]

mod action;
mod answer;
mod body;
mod caller;
mod command;
mod from_path;
mod heading;
pub mod laws;
mod path_values;
mod request;
mod responding;
mod sending;
mod serving;
mod told;
mod turning;

pub use crate::answer::{Answer, Body, Fronted};
pub use crate::caller::credential;
pub use crate::command::is_command;
pub use crate::request::request_of;
pub use crate::sending::PackumentService;
pub use crate::serving::{Clock, Served, serve};
pub use crate::told::Told;
pub use crate::turning::{
    AnsweredCommand, End, HttpService, REQUESTS_PER_CONNECTION, Service, Turned, turn, turn_away,
    turn_starved, turn_told, turn_with,
};
