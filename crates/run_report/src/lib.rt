//! The line and the number of each status, the type of a report: a text, and whether all is well,
//! and a put that the log of a run notes.
#![tactic(auto)]

mod lines;
mod puts;
mod reports;
mod status;

pub use lines::report;
pub use puts::put_noted;
pub use reports::Report;
pub use status::{PageKind, Place, Status};
