//! The rows of a chain, over any store: `StoreAsker` is an `Asker`.
#![tactic(auto)]

mod row;
mod search;
mod some_rows;
mod store_asker;
mod witness;

pub use search::{chain_answers, chain_finds};
pub use store_asker::StoreAsker;
