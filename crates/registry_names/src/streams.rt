//! Byte streams: where a part of the registry reads from and writes to.

mod byte_in;
mod byte_out;
mod from_read;
mod reading;
mod to_write;
mod writing;

pub use byte_in::{ByteIn, ReadFailed};
pub use byte_out::{ByteOut, WriteFailed};
pub use from_read::FromRead;
pub use reading::{RETRY_LIMIT, ReadStop, read_whole};
pub use to_write::ToWrite;
pub use writing::write_whole;
