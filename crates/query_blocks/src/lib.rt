//! A query's blocks as engines use them (`QueryBlock`, `QueryBlocks`), and the root of its site.
#![tactic(auto)]

mod root;

pub use root::root_of;
use struql_ast::{Chain, Collect, Link, SkolemTerm};

/// A block's clauses, and its conditions after those of the blocks round it.
pub struct QueryBlock {
    pub chain: Chain,
    pub creates: Vec<SkolemTerm>,
    pub links: Vec<Link>,
    pub collects: Vec<Collect>,
}

// Written out, so that it is proved here once, and not again in each crate that drops one.
impl Drop for QueryBlock {
    fn drop(self) {
        let QueryBlock {
            chain: _chain,
            creates: _creates,
            links: _links,
            collects: _collects,
        } = self;
    }
}

/// All blocks of a checked query, in the text's order.
pub struct QueryBlocks {
    pub version: u8,
    pub blocks: Vec<QueryBlock>,
}

// Written out, so that it is proved here once, and not again in each crate that drops one.
impl Drop for QueryBlocks {
    fn drop(self) {
        let QueryBlocks {
            version: _version,
            blocks: _blocks,
        } = self;
    }
}
