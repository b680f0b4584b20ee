//! Reads requests from a connection's bytes, in any pieces, and makes the bytes of replies.
#![tactic(auto)]

mod ask;
mod buffer;
mod parsing;
mod reading;
mod replies;

pub use reading::{Fed, MAX_HEAD, Reading};
pub use replies::{NO_MEMORY_REPLY, no_memory_reply, reply};
