//! Tests of the public calls that need no database: that they succeed where there is memory, which
//! no contract says, and what they return in cases that are worked out by hand or by another
//! program.
//!
//! They are here, and not in the crates, because the gate proves a crate again together with its
//! tests.
#![tactic(auto)]

#[cfg(test)]
mod access;
#[cfg(test)]
mod arguments;
#[cfg(test)]
mod crowd;
#[cfg(test)]
mod digests;
#[cfg(test)]
mod documents;
#[cfg(test)]
mod ends;
#[cfg(test)]
mod errands;
#[cfg(test)]
mod guests;
#[cfg(test)]
mod json;
#[cfg(test)]
mod names;
#[cfg(test)]
mod npm;
#[cfg(test)]
mod outcome;
#[cfg(test)]
mod packument;
#[cfg(test)]
mod parts;
#[cfg(test)]
mod printed;
#[cfg(test)]
mod publish;
#[cfg(test)]
mod ranges;
#[cfg(test)]
mod routes;
#[cfg(test)]
mod rules;
#[cfg(test)]
mod server;
#[cfg(test)]
mod talk;
#[cfg(test)]
mod texts;
#[cfg(test)]
mod together;
#[cfg(test)]
mod tokens;
#[cfg(test)]
mod told;
#[cfg(test)]
mod wire;
