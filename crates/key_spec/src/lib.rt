//! How values are put in order by keys. This crate holds definitions and laws alone.
#![tactic(auto)]
