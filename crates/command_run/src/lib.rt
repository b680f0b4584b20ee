//! The program's public calls: `GivenWords::read` reads the command of the words, once; `waits_of`
//! says how long the wire is to wait, `log_of` which file its replies are noted in, and `run_main` runs
//! the command over files, outputs and that wire, and gives the exit code. `end_without_log` ends a
//! run whose file of replies can't be opened.
#![tactic(auto)]

mod given;
mod lent;
mod no_log;
mod no_words;
mod top;
mod whole;

pub use given::GivenWords;
pub use no_log::end_without_log;
pub use no_words::NoWords;
pub use top::strudel;
pub use whole::{log_of, run_main, waits_of};
