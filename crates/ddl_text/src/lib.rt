//! Data texts: from bytes to the statements that they spell.
#![tactic(auto)]

mod reading;
mod text;
mod tree;

pub use reading::{field_at, statements};
pub use text::{next_statement, statements_of};
pub use tree::{Content, Entries, Entry, Field, Fields, Given, Kind, KindWord, Statement, Words};
