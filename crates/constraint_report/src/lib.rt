//! Whether a query's whole site meets integrity constraints, and the lines that say so.
#![tactic(auto)]

mod here;
mod laws;
mod lines;
mod pages;
mod reach;
mod report;

pub use report::report_of;
