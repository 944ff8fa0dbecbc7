//! The values that every other crate of the registry uses: names, versions, tags, messages and
//! moments, each a type whose values are exactly the texts or numbers in form; the refusals and
//! faults that an answer can be, with their texts; texts and bytes as contracts see them; the
//! methods of HTTP's requests and the size of a body; and readers and writers of bytes.
//!
//! A value exists exactly for a text in form, and its text is the text that was read.
#![tactic(auto)]

mod blob;
mod body;
mod dist_tag;
mod form;
mod ident;
pub mod laws;
mod message;
mod method;
mod moment;
mod name;
mod refusal;
mod status;
mod stop;
mod streams;
mod tag;
mod text;
mod version;

pub use crate::blob::Blob;
pub use crate::body::BODY_LIMIT;
pub use crate::dist_tag::DistTag;
pub use crate::ident::Ident;
pub use crate::message::Message;
pub use crate::method::Method;
pub use crate::moment::Moment;
pub use crate::name::Name;
pub use crate::refusal::{Refusal, Rule};
pub use crate::status::Status;
pub use crate::stop::{Fault, Stop};
pub use crate::streams::{
    ByteIn, ByteOut, FromRead, RETRY_LIMIT, ReadFailed, ReadStop, ToWrite, WriteFailed, read_whole,
    write_whole,
};
pub use crate::tag::{LATEST, TagText};
pub use crate::text::Text;
pub use crate::version::{GREATEST_NUMBER, Ver};
