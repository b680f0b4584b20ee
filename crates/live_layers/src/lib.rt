//! What came to a graph, or went from it, since some time: edges in four orders and members in two,
//! which take one change at a time.
#![tactic(auto)]

mod edges;
mod groups;
mod layer;
mod members;
mod orders;
mod picks;

pub use layer::Layer;
