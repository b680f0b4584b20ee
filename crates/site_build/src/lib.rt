//! The whole site of a query: all terms, links and collected values, kept in ascending lists.
#![tactic(auto)]

mod ascending;
mod collected;
mod contents;
mod joins;
mod made;
mod ordered;
mod picked;
mod ranges;
mod repeats;
mod sums;
mod terms;
mod whole;

pub use contents::Contents;
pub use ordered::{Joined, Put};
pub use ranges::Range;
pub use whole::Whole;
