//! Tests of texts that are read: tokens, words of path expressions and of commands, data of every
//! format, and queries; and of usages.
#![tactic(auto)]

#[cfg(test)]
mod checks;
#[cfg(test)]
mod commands;
#[cfg(test)]
mod path_words;
#[cfg(test)]
mod queries;
#[cfg(test)]
mod sources;
#[cfg(test)]
mod tokens;
