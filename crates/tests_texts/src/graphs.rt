// Graphs as data texts.
use crate::checks::check_text;
use sd_ddl::write_ddl;
use sd_graph::{Graph, GraphBuilder, Limits, MAX_EDGES, MAX_NODES};
use sd_value::NoMemory;
use std::alloc::Global;
use std::test::Fail;

/// An empty graph, to which at most these nodes and edges are added, and no more than the program's limits.
pub fn graph_for(alloc: Global, nodes: u64, edges: u64) -> GraphBuilder {
    let limits = Limits {
        nodes: nodes.min(MAX_NODES),
        edges: edges.min(MAX_EDGES),
    };
    GraphBuilder::new(alloc, limits)
}

fn text_of(alloc: Global, graph: &Graph) -> Result<Vec<u8>, NoMemory> {
    let mut text = Vec::new(alloc);
    write_ddl(alloc, graph, &mut text)?;
    Ok(text)
}

/// Compares the finished graph, as a data text.
pub fn check_graph(alloc: Global, graph: GraphBuilder, wanted: &[u8]) -> Result<(), Fail> {
    let graph = graph.finish(alloc)?;
    check_text(&text_of(alloc, &graph)?, wanted)
}
