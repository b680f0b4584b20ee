//! Bytes on their way over a socket: queues of them, writes that take what there is room for, and where a request's head ends.
#![tactic(auto)]

mod heads;
mod queue;
mod writing;

pub use heads::{head_end, next_head};
pub use queue::ByteQueue;
pub use writing::{CutOff, write_ready};
