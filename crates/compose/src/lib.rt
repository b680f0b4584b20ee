//! The graph of a site, over which a second query may be asked.
#![tactic(auto)]

mod collected;
mod edges;
mod graph;
mod laws;
mod links;
mod names;
mod nodes;

pub use graph::site_graph;
pub use laws::encodings_differ;
pub use names::{encoded, node_name};
