//! Many sockets at once: a loop waits until the system reports some of them, and lets each of these have its turn.
#![tactic(auto)]

mod accepting;
mod connections;
mod event_loop;
mod pace;
mod peer;
mod piece;
mod waits;

pub use accepting::listen_at;
pub use connections::Signal;
pub use event_loop::EventLoop;
pub use peer::News;
pub use piece::Piece;
pub use waits::Waits;
