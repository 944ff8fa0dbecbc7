//! Requests and responses as bytes.

mod media_ranges;
pub mod reader;
mod requests;
mod responses;
mod tags;
