//! The reader of integrity constraints.
#![tactic(auto)]

mod checks;
mod reading;
mod refusal;
mod text;

pub use reading::Phrase;
pub use refusal::ConstraintRefusal;
pub use text::{a_text_has_one_answer, parse_constraints};
