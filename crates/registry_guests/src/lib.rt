//! Guests of a server: commands of the machine that reach the registry beside it.
//!
//! A guest sends one message and gets one answer. A message is the arguments of a command line, as
//! they are, and the bytes of the file that they name or of the input that they read. It is read as
//! exactly what was sent; its turn asks the service at most once; and the answer is what the program
//! prints where it has the registry itself.
//!
//! Whoever may be a guest may also hold the server, so that the file and its log can be copied as
//! they lie while commands wait, or stop it. Neither asks the service anything.
#![tactic(auto)]

mod asking;
mod command_listener;
mod command_output;
mod command_reply;
mod control;
mod control_session;
mod fault;
mod folder;
mod guest;
mod guest_pool;
mod guest_socket;
mod held;
mod holding;
mod identity;
pub mod laws;
mod noting;
mod reading;
mod socket_listener;
mod turning;
mod unsent;
mod writing;

pub use crate::asking::{ask, connect_to_server};
pub use crate::command_listener::CommandListener;
pub use crate::command_output::CommandOutput;
pub use crate::command_reply::{CommandReply, parse_reply};
pub use crate::control::Control;
pub use crate::control_session::{ControlSession, HOLD_LIMIT, SILENCE_LIMIT};
pub use crate::fault::{Malformed, ReadError};
pub use crate::folder::folder_of;
pub use crate::guest::{GUEST_TIME_LIMIT, Guest, MESSAGE_LIMIT};
pub use crate::guest_pool::{GUEST_COUNT, GuestPool};
pub use crate::guest_socket::GuestSocket;
pub use crate::held::Hold;
pub use crate::holding::{hold, stop};
pub use crate::identity::{has_other_file, is_served};
pub use crate::reading::{CommandMessage, read};
pub use crate::turning::turn;
pub use crate::unsent::Unsent;
pub use crate::writing::{fits, write};
