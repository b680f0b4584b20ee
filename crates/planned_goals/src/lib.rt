//! The goals of a search for the rows of a chain, in the order of a plan, kept from one question to
//! the next; and which goal the search takes next.
#![tactic(auto)]

mod counts;
mod follow;
mod plans;
mod wanted;

pub use counts::{fewest, literal_at};
pub use plans::{KeptPlan, goals_of};
pub use wanted::Wanted;
