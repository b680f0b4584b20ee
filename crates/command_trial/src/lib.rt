//! The command `trial`: made data, served and counted.
#![tactic(auto)]

mod counts;
mod laws;
mod lines;
mod requests;
mod running;
mod site;

pub use laws::{a_trial_has_one_text, trials_are_decided};
pub use running::trial;
