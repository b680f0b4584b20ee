//! A data file of any format, by the end of its path.
#![tactic(auto)]

mod format;
mod laws;
mod numbered;
mod reading;
mod refusal;
mod rules;

pub use format::{Format, format_of};
pub use laws::a_data_file_has_one_answer;
pub use numbered::{NumberedFault, told_of_text};
pub use reading::read_source;
pub use refusal::SourceRefusal;
pub use rules::SourceRules;
