// Stores of texts, with `'` for each quote, and what both of them must answer.
use crate::printed::quoted;
use index_store::IndexStore;
use list_store::ListStore;
use sd_ddl::read_ddl;
use sd_graph::{Graph, GraphBuilder, PROGRAM_LIMITS, Sizes};
use std::alloc::Global;
use std::test::Fail;

// The most bytes of a text here.
const LIMIT: u64 = 4096;

/// The bibliography of two publications.
pub const BIBLIOGRAPHY: &str =
    "object pub1 in Publications { title 'Strudel' year 1998 author 'Mary' author 'Dan' } object pub2 in \
        Publications { title 'Lorel <1>' year 1997 author 'Dan' }";

/// How each store is called where a row fails.
pub const PLAIN: &str = "the plain store";

pub const INDEXED: &str = "the program's store";

/// What a row's call answers.
pub enum Answer {
    /// A list as it is printed, with `'` for each quote.
    List(&'static str),
    Test(bool),
    Count(u64),
    Sizes(Sizes),
}

fn graph_of(alloc: Global, text: &str) -> Result<Graph, Fail> {
    let text = quoted(alloc, text)?;
    let mut builder = GraphBuilder::new(alloc, PROGRAM_LIMITS);
    read_ddl(alloc, text.as_slice(), LIMIT, &mut builder)?;
    Ok(builder.finish(alloc)?)
}

/// The plain store of the graph that a data text states.
pub fn list_of(alloc: Global, text: &str) -> Result<ListStore, Fail> {
    Ok(ListStore::of(alloc, graph_of(alloc, text)?)?)
}

/// The program's store of the graph that a data text states.
pub fn index_of(alloc: Global, text: &str) -> Result<IndexStore, Fail> {
    Ok(IndexStore::of(alloc, graph_of(alloc, text)?)?)
}

/// Fails with the store and the row's number where the row doesn't hold.
pub fn check(holds: bool, store: &str, row: usize) -> Result<(), Fail> {
    if holds {
        return Ok(());
    }
    Err(Fail::new(format_args!("{store}: row {row}, counted from 0")))
}
