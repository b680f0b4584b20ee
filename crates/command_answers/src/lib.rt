//! The answers of the commands that are answered by a text or by a report.
#![tactic(auto)]

mod laws;
mod reports;
mod texts;

pub use laws::{reports_are_decided, texts_are_decided};
pub use reports::report_answer;
pub use texts::text_answer;
