//! The events of a run as a text.
#![tactic(auto)]

mod reading;
mod text;

pub use reading::phrases;
pub use text::{a_script_has_one_answer, read_script};
