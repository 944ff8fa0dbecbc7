//! What was answered is there after a stop, and what an older registry held; no service goes on over a
//! disk that failed, and no byte is read that wasn't written.

mod adoption;
mod migrations;
mod service;
mod spoiled;
mod stops;
