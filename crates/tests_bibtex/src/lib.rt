//! Tests of BibTeX texts.
#![tactic(auto)]

#[cfg(test)]
mod checks;
#[cfg(test)]
mod graphs;
#[cfg(test)]
mod lenient;
#[cfg(test)]
mod refused;
#[cfg(test)]
mod stated;
#[cfg(test)]
mod titles;
