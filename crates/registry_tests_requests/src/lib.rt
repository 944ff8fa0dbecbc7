//! What the tests of whole registries share: requests as lines of text, and what a registry answers
//! to them.
#![tactic(auto)]

mod outcomes;
mod queries;
mod requests;

pub use crate::outcomes::{Outcome, answers_together, outcome_of, outcomes_of, outcomes_together};
pub use crate::queries::QUERIES;
pub use crate::requests::{push_requests, request_of, requests_of};
