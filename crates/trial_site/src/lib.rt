//! The site of a trial: its data, and its query and templates, whose texts the program has in
//! itself.
#![tactic(auto)]

mod data;
mod laws;
mod texts;

pub use data::{made_graph, node_name};
pub use laws::{a_trials_query_is_accepted, a_trials_templates_are_accepted};
pub use texts::{made_query, made_templates};
