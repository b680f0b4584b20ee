//! Tests of database files.
#![tactic(auto)]

#[cfg(test)]
mod checks;
#[cfg(test)]
mod databases;
#[cfg(test)]
mod graphs;
#[cfg(test)]
mod refused;
#[cfg(test)]
mod stated;
