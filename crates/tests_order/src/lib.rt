//! Tests of the graphs that ORDERs make.
#![tactic(auto)]

#[cfg(test)]
mod asked;
#[cfg(test)]
mod read;
#[cfg(test)]
mod refused;
#[cfg(test)]
mod worked;
