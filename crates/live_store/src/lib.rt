//! A store that takes edits: the index of a graph as it was, next to layers of what came and of
//! what went since.
#![tactic(auto)]

mod answers;
mod changes;
mod counts;
mod lists;
mod live;
mod nodes;
mod told;
mod touched;

pub use live::LiveStore;
