//! What happened outside of a run, in its order: a log that only clauses read and that takes no memory.
#![tactic(auto)]

mod event;
mod log;
mod stream;
mod trace;

pub use event::WireEvent;
pub use log::Log;
pub use stream::Stream;
pub use trace::Trace;
