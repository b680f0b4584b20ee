//! Data texts read into a graph, and a graph written as one data text.
#![tactic(auto)]

mod answers;
mod collections;
mod conflict;
mod groups;
mod kinds;
mod part;
mod plain;
mod reading;
mod refusal;
mod writing;

pub use ddl_text::Kind;
pub use reading::read_ddl;
pub use refusal::DdlRefusal;
pub use writing::write_ddl;
