//! Tests of queries and of their sites.
#![tactic(auto)]

#[cfg(test)]
mod chains;
#[cfg(test)]
mod composed;
#[cfg(test)]
mod encodings;
#[cfg(test)]
mod inputs;
#[cfg(test)]
mod links;
#[cfg(test)]
mod looked;
#[cfg(test)]
mod plans;
#[cfg(test)]
mod printed;
#[cfg(test)]
mod refused;
#[cfg(test)]
mod reports;
#[cfg(test)]
mod rows;
#[cfg(test)]
mod sites;
