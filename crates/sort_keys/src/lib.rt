//! Values as keys compare them, each text folded once, and look-ups in ascending values.
#![tactic(auto)]

mod ascending;
mod key;
mod orders;

pub use ascending::is_among;
pub use key::{Key, lesser};
