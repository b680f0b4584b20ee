//! Tests of the lists of a site's files.
#![tactic(auto)]

#[cfg(test)]
mod lists;
