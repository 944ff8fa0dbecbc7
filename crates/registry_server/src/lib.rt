//! Connections served by turns, by one thread.
//!
//! Up to [`CONNECTION_COUNT`] connections are open at once. A [`Server`] waits until some of them
//! have something to give or take, and visits these one after the other: a visit reads what has
//! come, answers one whole request, and sends as much of the response as the socket takes at once.
//! So requests are answered one after the other, by one service, and a slow connection holds up no
//! other.
//!
//! Small commands that are whole in the same round are answered together, after all other visits of
//! the round, as if each was asked alone, in the order of their places; and then each response is
//! sent. So they may share what each alone would wait for, such as a sync of the disk. These are
//! commands whose connections hold at most [`COMMAND_LIMIT`] bytes, and at most [`GROUP_LIMIT`] bytes
//! together. Other commands are answered in the visit in which they have come whole.
//!
//! A connection without its socket is a [`ConnectionState`]: it knows what came and what isn't sent
//! yet, and its turns are those of `registry_service`. No contract says what sockets give.
#![tactic(auto)]

mod clocks;
mod connection;
mod gates;
mod group;
mod guests;
pub mod laws;
mod listener;
mod local_socket;
mod outgoing;
mod phase;
mod pool;
mod server;
mod socket;
mod state;

pub use crate::connection::{BODY_LEAST, Connection, Visit};
pub use crate::group::{COMMAND_LIMIT, GROUP_LIMIT};
pub use crate::guests::{FIRST_GUEST, GUEST_TOKENS, Guests, NoGuests};
pub use crate::listener::{ListenAt, UNCOUNTED};
pub use crate::local_socket::{LocalSocket, SocketFile};
pub use crate::outgoing::{Outgoing, left_of};
pub use crate::phase::{
    DRAIN_LIMIT, IDLE_LIMIT, LEAST_RATE, Phase, REQUEST_TIME_LIMIT, RESPONSE_LIMIT, Stage,
    WAIT_LIMIT,
};
pub use crate::pool::{CONNECTION_COUNT, ConnectionPool, READ_TOGETHER, ROOM_LIMIT};
pub use crate::server::{Ended, Server};
pub use crate::socket::{Flow, Socket};
pub use crate::state::{ConnectionState, Progress};
