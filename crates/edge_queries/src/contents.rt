// The values and the labels of a graph, as its nodes and edges give them.
ghost use Rattle.std.specs.Prelude.{◌≡◌, ◌++◌, IfOk, OnOk, map};
ghost use Rattle.graph_spec.specs.DataGraph.{node, IsWellFormed};

use sd_graph::{Edge, Graph};
use sd_value::{Datum, NoMemory, Str, Value, copy};
use std::alloc::Global;

/// The declared nodes and the edges' ends as they are, with repeats.
pub fn all_values(alloc: Global, graph: &Graph) -> Result<Vec<Value>, NoMemory>
    ensures values { IfOk result (λ values. values.items
        ≡ map node graph.now.nodes ++ map (λ e. e.to) graph.now.edges) }
    ensures well_formed { IsWellFormed graph.now }
{
    let mut values = node_values(alloc, graph.nodes())?;
    push_ends(alloc, graph.edges(), &mut values)?;
    Ok(values)
}

/// The edges' labels as they are, with repeats.
pub fn all_labels(alloc: Global, graph: &Graph) -> Result<Vec<Str>, NoMemory>
    ensures { IfOk result (λ labels. labels.items ≡ map (λ e. e.label) graph.now.edges) }
{
    edge_labels(alloc, graph.edges())
}

fn node_values(alloc: Global, nodes: &[Str]) -> Result<Vec<Value>, NoMemory>
    ensures { IfOk result (λ values. values.items ≡ map node nodes.now) }
{
    let mut values = Vec::new(alloc);
    for name in nodes {
        values.push(Value::Data(Datum::Node(name.copy(alloc)?)))?;
    }
    Ok(values)
}

fn push_ends(alloc: Global, edges: &[Edge], values: &mut Vec<Value>) -> Result<(), NoMemory>
    ensures { OnOk result (values.new.items ≡ values.old.items ++ map (λ e. e.to) edges.now) }
{
    for edge in edges {
        values.push(copy(alloc, &edge.to)?)?;
    }
    Ok(())
}

fn edge_labels(alloc: Global, edges: &[Edge]) -> Result<Vec<Str>, NoMemory>
    ensures { IfOk result (λ labels. labels.items ≡ map (λ e. e.label) edges.now) }
{
    let mut labels = Vec::new(alloc);
    for edge in edges {
        labels.push(edge.label.copy(alloc)?)?;
    }
    Ok(labels)
}
