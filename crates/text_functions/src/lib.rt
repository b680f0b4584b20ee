//! The functions of a query's conditions.
#![tactic(auto)]

mod arithmetic;
mod calls;
mod characters;
mod cuts;
mod decimals;
mod folding;
mod joins;
mod numbers;
mod parts_of_texts;
mod quotients;
mod replacing;
mod results;
mod splits;
mod texts;
mod words;

pub use calls::values;
pub use folding::fold;
