//! What `trial N` makes, asks and prints. Definitions, no engine.
#![tactic(auto)]

/// How many replies have a page, how many have none, and how many bytes the pages have. One page's length may take all of
/// 64 bits, so the sum has 128.
#[derive(Clone, Copy)]
pub struct Counts {
    pub ok: u64,
    pub missing: u64,
    pub bytes: u128,
}

/// What an entry says: its number, its year, and the numbers of two authors, who may be one.
#[derive(Clone, Copy)]
pub struct Entry {
    pub number: u64,
    pub year: u64,
    pub first: u64,
    pub second: u64,
}
