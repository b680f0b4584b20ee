// The values and the labels of a graph.
ghost use Rattle.std.specs.Prelude.{IfOk};
ghost use Rattle.sd_value.specs.Ascending.{ListsExactly};
ghost use Rattle.sd_value.specs.Order.{bytes_cmp, value_cmp};
ghost use Rattle.graph_spec.specs.DataGraph.{IsValueOf, IsLabelOf};

use edge_queries::{all_labels, all_values};
use sd_graph::Graph;
use sd_value::{NoMemory, Str, Value, sort_and_dedup};
use std::alloc::Global;

/// What a node variable may be in a graph, ascending: the declared nodes, and the atoms at edges' ends.
pub fn values_of(alloc: Global, graph: &Graph) -> Result<Vec<Value>, NoMemory>
    ensures { IfOk result (λ values. ListsExactly value_cmp (IsValueOf graph.now) values.items) }
{
    let mut values = all_values(alloc, graph)?;
    sort_and_dedup(&mut values);
    Ok(values)
}

/// The labels of a graph's edges, ascending.
pub fn labels_of(alloc: Global, graph: &Graph) -> Result<Vec<Str>, NoMemory>
    ensures { IfOk result (λ labels. ListsExactly bytes_cmp (IsLabelOf graph.now) labels.items) }
{
    let mut labels = all_labels(alloc, graph)?;
    sort_and_dedup(&mut labels);
    Ok(labels)
}
