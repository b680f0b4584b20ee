//! What a query and a file of templates ask for, at each place of their texts.
#![tactic(auto)]

mod blocks;
mod claims;
mod clauses;
mod conditions;
mod further;
mod markup;
mod tags;
mod words;

pub use blocks::claims_of_query;
pub use claims::claims_of_templates;
pub use further::further_labels;
