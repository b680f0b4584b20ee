//! Automata of path expressions, with one state for each position: each place at which a label or
//! wildcard is.
//!
//! An automaton's meaning is its table: what is at each position, where a word may begin and end, and which position
//! may be right after which. `Automaton::of` alone speaks of the expression; what searches, speaks of the table.
#![tactic(auto)]

mod build;
mod position_set;
mod tables;

pub use position_set::{MAX_POSITIONS, PositionSet};
pub use rpe::Rpe;
pub use tables::{Automaton, RpeRefusal};
