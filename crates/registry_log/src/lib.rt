//! A log of the requests that a registry answered over HTTP, and of the commands beside its server,
//! with one line for each.
//!
//! A [`LoggedService`] is a registry as a service, with or without a log. Contracts see the
//! registry alone, so everything that is promised of it is promised with a log, too. What a turn
//! answered is an [`Entry`], whose line has seven columns whatever a client sent ([`laws`]). Lines
//! wait in a buffer of fixed size, and are written once in each round of turns. Before that, the users
//! of requests that the registry wasn't asked are looked up. Lines that can't be written are lost, and
//! the log says so once it can be written again.
#![tactic(auto)]

mod column;
mod entry;
pub mod laws;
mod log;
mod log_clock;
mod logged_service;
mod sink;
mod target;
mod unnamed;
mod waiting;

pub use crate::entry::{Entry, Kind};
pub use crate::log::Log;
pub use crate::log_clock::LogClock;
pub use crate::logged_service::LoggedService;
pub use crate::sink::LineSink;
pub use crate::waiting::{WAITING_LIMIT, Waiting};
