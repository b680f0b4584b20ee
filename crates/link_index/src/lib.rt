//! The links of a query, by the functions at which they start: made once, and asked by halves.
#![tactic(auto)]

mod gathered;
mod index;
mod names;
mod sorted;

pub use gathered::{ArcLink, QuotedLink};
pub use index::LinkIndex;
pub use names::NameSet;
