//! What a data graph answers, however it is kept: the trait `Store`.
#![tactic(auto)]

ghost use Rattle.std.specs.Prelude.{◌≡◌, ◌↔◌, IfOk, IsTrue, ℕ, length};
ghost use Rattle.sd_value.specs.Ascending.{ListsExactly};
ghost use Rattle.sd_value.specs.Order.{bytes_cmp, value_cmp};
ghost use Rattle.graph_spec.specs.DataGraph.{DataGraph, IsWellFormed, HasEdge, IsValueOf, IsLabelOf};
ghost use Rattle.graph_spec.specs.Orders.{edge_cmp, step_cmp};
ghost use Rattle.graph_spec.specs.Steps.{IsStepFrom, IsStepTo, IsStart, IsLabelled, IsMemberValue, IsCountOf};
ghost use Rattle.store.specs.First.{AreFirst};

use graph_spec::{Edge, Step};
use sd_value::{NoMemory, Str, Value};
use std::alloc::Global;

/// How large a data graph is: its declared nodes, its edges without members, the values that a node variable may be,
/// and its labels.
#[derive(Clone, Copy, Debug, PartialEq, Eq)]
pub struct Sizes {
    pub nodes: u64,
    pub edges: u64,
    pub values: u64,
    pub labels: u64,
}

/// What answers questions on a data graph. Each list is strictly ascending, and the only error is out of memory.
pub trait Store {
    ghost graph: { Self → DataGraph };

    /// The ends of the edges from a value by a label.
    fn out(&self, alloc: Global, from: &Value, label: &Str) -> Result<Vec<Value>, NoMemory>
        ensures { IfOk result
            (λ ends. ListsExactly value_cmp
            (HasEdge (graph self.now) from.now label.now) ends.items) };

    /// The edges from a value, by label and then end.
    fn out_all(&self, alloc: Global, from: &Value) -> Result<Vec<Step>, NoMemory>
        ensures { IfOk result
            (λ steps. ListsExactly step_cmp (IsStepFrom (graph self.now) from.now) steps.items) };

    /// The edges to a value, by label and then start. A step's end is the edge's start.
    fn incoming(&self, alloc: Global, to: &Value) -> Result<Vec<Step>, NoMemory>
        ensures { IfOk result
            (λ steps. ListsExactly step_cmp (IsStepTo (graph self.now) to.now) steps.items) };

    /// The starts of the edges to a value by a label.
    fn incoming_by(&self, alloc: Global, to: &Value, label: &Str) -> Result<Vec<Value>, NoMemory>
        ensures { IfOk result
            (λ starts. ListsExactly value_cmp
            (IsStart (graph self.now) to.now label.now) starts.items) };

    /// The edges of a label, by start and then end.
    fn edges_by(&self, alloc: Global, label: &Str) -> Result<Vec<Edge>, NoMemory>
        ensures { IfOk result
            (λ edges. ListsExactly edge_cmp (IsLabelled (graph self.now) label.now) edges.items) };

    /// The nodes of a collection.
    fn members(&self, alloc: Global, collection: &Str) -> Result<Vec<Value>, NoMemory>
        ensures { IfOk result
            (λ nodes. ListsExactly value_cmp
            (IsMemberValue (graph self.now) collection.now) nodes.items) };

    /// What a node variable may be: the declared nodes, and the atoms at the ends of edges.
    fn values(&self, alloc: Global) -> Result<Vec<Value>, NoMemory>
        ensures { IfOk result
            (λ values. ListsExactly value_cmp (IsValueOf (graph self.now)) values.items) };

    /// The labels of edges.
    fn labels(&self, alloc: Global) -> Result<Vec<Str>, NoMemory>
        ensures { IfOk result
            (λ labels. ListsExactly bytes_cmp (IsLabelOf (graph self.now)) labels.items) };

    /// Whether there is this edge.
    fn has_edge(&self, from: &Value, label: &Str, to: &Value) -> bool
        ensures { IsTrue result ↔ HasEdge (graph self.now) from.now label.now to.now };

    /// Whether the value is a node of the collection.
    fn is_member(&self, collection: &Str, value: &Value) -> bool
        ensures { IsTrue result ↔ IsMemberValue (graph self.now) collection.now value.now };

    /// Whether a node variable may be the value.
    fn is_value(&self, value: &Value) -> bool
        ensures { IsTrue result ↔ IsValueOf (graph self.now) value.now };

    /// Whether some edge has the label.
    fn is_label(&self, label: &Str) -> bool
        ensures { IsTrue result ↔ IsLabelOf (graph self.now) label.now };

    /// How large the graph is. The graph is well formed, which this call reports too.
    fn sizes(&self) -> Sizes
        ensures nodes { result.nodes ≡ length (graph self.now).nodes }
        ensures edges { result.edges ≡ length (graph self.now).edges }
        ensures values { IsCountOf value_cmp (IsValueOf (graph self.now)) result.values }
        ensures labels { IsCountOf bytes_cmp (IsLabelOf (graph self.now)) result.labels }
        ensures well_formed { IsWellFormed (graph self.now) };

    /// How many edges have the label.
    fn edges_of(&self, label: &Str) -> u64
        ensures { IsCountOf edge_cmp (IsLabelled (graph self.now) label.now) result };

    /// How many nodes the collection has.
    fn members_of(&self, collection: &Str) -> u64
        ensures { IsCountOf value_cmp (IsMemberValue (graph self.now) collection.now) result };

    /// How many ends the edges from a value by a label have.
    fn count_out(&self, from: &Value, label: &Str) -> u64
        ensures { IsCountOf value_cmp (HasEdge (graph self.now) from.now label.now) result };

    /// How many starts the edges to a value by a label have.
    fn count_incoming(&self, to: &Value, label: &Str) -> u64
        ensures { IsCountOf value_cmp (IsStart (graph self.now) to.now label.now) result };

    /// How many edges there are from a value.
    fn degree_out(&self, from: &Value) -> u64
        ensures { IsCountOf step_cmp (IsStepFrom (graph self.now) from.now) result };

    /// How many edges there are to a value.
    fn degree_incoming(&self, to: &Value) -> u64
        ensures { IsCountOf step_cmp (IsStepTo (graph self.now) to.now) result };

    /// The first ends of the edges from a value by a label, at most `most`.
    fn first_out(
        &self,
        alloc: Global,
        from: &Value,
        label: &Str,
        most: usize,
    ) -> Result<Vec<Value>, NoMemory>
        ensures { IfOk result
            (λ ends. AreFirst most value_cmp
            (HasEdge (graph self.now) from.now label.now) ends.items) };

    /// The first starts of the edges to a value by a label, at most `most`.
    fn first_incoming(
        &self,
        alloc: Global,
        to: &Value,
        label: &Str,
        most: usize,
    ) -> Result<Vec<Value>, NoMemory>
        ensures { IfOk result
            (λ starts. AreFirst most value_cmp
            (IsStart (graph self.now) to.now label.now) starts.items) };

    /// The first edges of a label, by start and then end, at most `most`.
    fn first_edges(&self, alloc: Global, label: &Str, most: usize) -> Result<Vec<Edge>, NoMemory>
        ensures { IfOk result
            (λ edges. AreFirst most edge_cmp
            (IsLabelled (graph self.now) label.now) edges.items) };

    /// The first nodes of a collection, at most `most`.
    fn first_members(
        &self,
        alloc: Global,
        collection: &Str,
        most: usize,
    ) -> Result<Vec<Value>, NoMemory>
        ensures { IfOk result
            (λ nodes. AreFirst most value_cmp
            (IsMemberValue (graph self.now) collection.now) nodes.items) };

    /// The first values that a node variable may be, at most `most`.
    fn first_values(&self, alloc: Global, most: usize) -> Result<Vec<Value>, NoMemory>
        ensures { IfOk result
            (λ values. AreFirst most value_cmp (IsValueOf (graph self.now)) values.items) };
}
