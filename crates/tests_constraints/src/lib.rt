//! Tests of what constraints stand on.
#![tactic(auto)]

#[cfg(test)]
mod checks;
#[cfg(test)]
mod counterexamples;
#[cfg(test)]
mod included;
#[cfg(test)]
mod lines;
#[cfg(test)]
mod long;
#[cfg(test)]
mod texts;
#[cfg(test)]
mod verdicts;
