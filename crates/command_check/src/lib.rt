//! The command `check`: the constraints of a file over every data graph, or with `--here` in a
//! query's site over data.
#![tactic(auto)]

mod all;
mod constraint_file;
mod finding;
mod here;
mod laws;
mod lines;
mod query_file;
mod site_oracle;
mod verdict_laws;
mod verdicts;

pub use all::check_all;
pub use constraint_file::load_constraints;
pub use here::check_here;
pub use laws::{answers_are_decided, reports_are_decided};
pub use site_oracle::SiteOracle;
pub use verdicts::{Verdicts, verdicts_of};
