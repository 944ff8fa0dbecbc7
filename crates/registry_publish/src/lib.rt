//! What a publication asks for, read from the body that an npm client sends.
//!
//! A form is read exactly where the body has one: its parts are the body's own, its manifest is
//! written as compact JSON that reads back to the same value, and its archive is decoded. Every
//! other body is refused, each with the first reason that holds for it.
#![tactic(auto)]

mod access;
mod attachment;
mod body;
mod dependencies;
mod dist_tags;
mod floats;
mod form;
mod integrity;
mod json;
mod members;
mod need;
mod token;

pub use crate::dependencies::needs_of;
pub use crate::floats::has_float;
pub use crate::form::PublishForm;
pub use crate::integrity::integrity_of;
pub use crate::need::Need;
pub use crate::token::TokenDigest;
