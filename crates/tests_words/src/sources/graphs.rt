// Graphs as data texts.
use crate::checks::check_text;
use sd_ddl::write_ddl;
use sd_graph::{GraphBuilder, Limits, MAX_EDGES, MAX_NODES};
use std::alloc::Global;
use std::test::Fail;

/// An empty graph, to which at most these nodes and edges are added, and no more than the program's limits.
pub fn graph_for(alloc: Global, nodes: u64, edges: u64) -> GraphBuilder {
    let limits = Limits {
        nodes: nodes.min(MAX_NODES),
        edges: edges.min(MAX_EDGES),
    };
    GraphBuilder::new(alloc, limits)
}

/// Compares the finished graph of the row with this text, as a data text, where the row has one.
pub fn check_graph(
    alloc: Global,
    text: &[u8],
    graph: GraphBuilder,
    wanted: Option<&str>,
) -> Result<(), Fail> {
    let Some(wanted) = wanted else {
        return Ok(());
    };
    let graph = graph.finish(alloc)?;
    let mut found = Vec::new(alloc);
    write_ddl(alloc, &graph, &mut found)?;
    check_text(text, &found, wanted.as_bytes())
}
