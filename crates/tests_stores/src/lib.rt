//! Tests of both stores, and of the walks over them.
#![tactic(auto)]

#[cfg(test)]
mod calls;
#[cfg(test)]
mod inputs;
#[cfg(test)]
mod large;
#[cfg(test)]
mod printed;
#[cfg(test)]
mod walk_rows;
