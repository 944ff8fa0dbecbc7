//! The sockets by which commands reach a server, in a real folder. The server's side and its clients
//! take turns in one process.

pub mod client;
mod commands;
pub mod files;
mod folders;
mod server;
mod stage;
