//! The order in which a search uses conditions.
#![tactic(auto)]

mod cost;
mod counts;
mod prices;
mod shape;
mod steps;

pub use counts::counts_of;
pub use steps::{StepList, a_plan_is_the_only_one, plan};
