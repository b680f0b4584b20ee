// The positions of a graph's edges, by label and by end.
ghost use Rattle.std.specs.Prelude.{◌≡◌, ◌<◌, ◌≤◌, ◌+◌, ◌++◌, ◌^◌, List, IfOk, OnOk, All, length, map};
ghost use Rattle.sd_value.specs.Order.{bytes_cmp, value_cmp};
ghost use Rattle.graph_spec.specs.DataGraph.{node};
ghost use Rattle.graph_spec.specs.declared.Edge.{Edge as AnyEdge};
ghost use Rattle.edge_queries.specs.Ordered.{by_end_cmp, by_label_cmp};
ghost use Rattle.index_store.specs.Indexed.{edge_at, IsOrder};
ghost use Rattle.index_store.specs.Ranks.{targets, AreRanks, AreOrderedAs};

use crate::ranks::{Ranked, at_places, by_rank, ranks_of};
use sd_graph::Edge;
use sd_value::{Datum, NoMemory, Str, Value};
use std::alloc::Global;

/// The ranks of edges' labels.
pub(crate) fn label_ranks(alloc: Global, edges: &[Edge]) -> Result<Ranked, NoMemory>
    requires { length edges.now < 2 ^ 32 }
    ensures { IfOk result (λ r.
        AreRanks bytes_cmp (map (λ e. e.label) edges.now) r.firsts.items r.ranks.items) }
{
    let mut labels = Vec::with_capacity(alloc, edges.len())?;
    for edge in edges {
        labels.push(&edge.label)?;
    }
    ranks_of(alloc, labels.as_slice())
}

/// The labels of edges at the positions.
pub(crate) fn labels_at(
    alloc: Global,
    edges: &[Edge],
    positions: &[u32],
) -> Result<Vec<Str>, NoMemory>
    requires { All (λ i. i < length edges.now) positions.now }
    ensures { IfOk result
        (λ labels. labels.items ≡ map (λ i. (edge_at edges.now i).label) positions.now) }
{
    let mut labels = Vec::with_capacity(alloc, positions.len())?;
    for position in positions {
        labels.push(edges[*position as usize].label.copy(alloc)?)?;
    }
    Ok(labels)
}

/// Nodes as values.
pub(crate) fn node_values(alloc: Global, nodes: &[Str]) -> Result<Vec<Value>, NoMemory>
    ensures { IfOk result (λ values. values.items ≡ map node nodes.now) }
{
    let mut values = Vec::with_capacity(alloc, nodes.len())?;
    for name in nodes {
        values.push(Value::Data(Datum::Node(name.copy(alloc)?)))?;
    }
    Ok(values)
}

fn push_ends<'a>(edges: &'a [Edge], values: &mut Vec<&'a Value>) -> Result<(), NoMemory>
    ensures { OnOk result (targets values.new.items
        ≡ targets values.old.items ++ map (λ e. e.to) edges.now) }
{
    for edge in edges {
        values.push(&edge.to)?;
    }
    Ok(())
}

/// The ranks of nodes and then of edges' ends.
pub(crate) fn value_ranks(
    alloc: Global,
    nodes: &[Value],
    edges: &[Edge],
) -> Result<Ranked, NoMemory>
    requires { length nodes.now + length edges.now < 2 ^ 32 }
    ensures { IfOk result (λ r. AreRanks value_cmp (nodes.now ++ map (λ e. e.to) edges.now)
        r.firsts.items r.ranks.items) }
{
    let mut values = Vec::with_capacity(alloc, nodes.len() + edges.len())?;
    for node in nodes {
        values.push(node)?;
    }
    push_ends(edges, &mut values)?;
    ranks_of(alloc, values.as_slice())
}

/// The positions of edges by end, then label, then start, from those by label. The ranks are those of the ends.
pub(crate) fn by_end(alloc: Global, ranks: &[u32], by_label: &[u32]) -> Result<Vec<u32>, NoMemory>
    requires fits { All (λ i. i < length ranks.now) by_label.now }
    requires small { length by_label.now ≤ 2 ^ 32 }
    ensures order { IfOk result (λ order. (es : List AnyEdge) → IsOrder by_label_cmp es by_label.now
        → AreOrderedAs value_cmp (map (λ e. e.to) es) ranks.now
        → IsOrder by_end_cmp es order.items) }
    ensures short { IfOk result (λ order. length order.items ≤ length by_label.now) }
{
    let ends = at_places(alloc, ranks, by_label)?;
    let places = by_rank(alloc, ends.as_slice())?;
    at_places(alloc, by_label, places.as_slice())
}
