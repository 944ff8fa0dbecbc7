//! The program's arguments and its output: what a command line means and asks for, and what is
//! printed of an answer.
#![tactic(auto)]

mod action;
mod argument_values;
mod arguments;
mod command;
mod errands;
mod from_argument;
mod meaning;
mod printed;
mod printing;
mod reading;
mod subcommand;
mod tokens;
mod usage;

pub use crate::action::action_of;
pub use crate::arguments::Arguments;
pub use crate::errands::{Errand, NewToken, Serving, errand_of};
pub use crate::meaning::{Line, Who};
pub use crate::printed::{Printed, render};
pub use crate::printing::{print_reply, print_token};
pub use crate::reading::line;
pub use crate::tokens::{TOKEN_BYTES, different_bytes_make_different_tokens, token_of};
pub use crate::usage::Usage;
