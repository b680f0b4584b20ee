//! The graph of a first query's site over data, over which a second query may be asked.
#![tactic(auto)]

mod graph;
mod listed;
mod made;
mod names;

pub use graph::site_data;
pub use made::composed_data;
pub use names::collect_names;
