//! Edits of the data as texts.
#![tactic(auto)]

mod reading;
mod text;

pub use reading::spelled;
pub use text::{an_edit_has_one_answer, read_edit};
