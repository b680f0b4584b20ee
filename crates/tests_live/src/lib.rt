//! Tests of edits of the data.
#![tactic(auto)]

#[cfg(test)]
mod checks;
#[cfg(test)]
mod footprints;
#[cfg(test)]
mod kept_pages;
#[cfg(test)]
mod mirrored;
#[cfg(test)]
mod numbers;
#[cfg(test)]
mod random_edits;
#[cfg(test)]
mod same_answers;
#[cfg(test)]
mod texts;
#[cfg(test)]
mod touched;
