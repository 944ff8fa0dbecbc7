//! Tests of the sockets by which commands reach a server, and of a whole server, over loopback and
//! over these sockets. The server and its clients take turns in one thread: the clients act where the
//! server reads its clock, or asks its service.
//!
//! No contract says what folders, sockets and clocks of the system give, so these tests see what is
//! done with them.
#![tactic(auto)]

#[cfg(test)]
mod beside;
#[cfg(test)]
mod both;
#[cfg(test)]
mod client;
#[cfg(test)]
mod clock;
#[cfg(test)]
mod full;
#[cfg(test)]
mod groups;
#[cfg(test)]
mod guests;
#[cfg(test)]
mod late;
#[cfg(test)]
mod outcome;
#[cfg(test)]
mod rounds;
#[cfg(test)]
mod service;
