//! One page of a site, made from what it asks of the data: `Click`.
#![tactic(auto)]

mod asked;
mod click;
mod known;
mod memo;
mod recall;

pub use click::{Click, Given};
