//! What links tell of many rows: the values that aggregates look at, and what they tell of them.
#![tactic(auto)]

mod numbers;
mod parts;
mod telling;

pub use parts::part_target;
pub use telling::told;
