//! The command `replay`: the site over the events of a script.
#![tactic(auto)]

mod laws;
mod replaying;
mod script;

pub use laws::replays_end_well;
pub use replaying::replay;
