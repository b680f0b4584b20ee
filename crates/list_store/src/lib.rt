//! The plain store: it looks through all edges. Tests compare the indexed store with it.
#![tactic(auto)]

ghost use Rattle.std.specs.Prelude.{◌≡◌, IfOk};

mod contents;

use contents::{labels_of, values_of};
use edge_queries::{
    EdgeAt, Incoming, IncomingBy, Labelled, MemberAt, Members, NameAt, Out, OutAll, ValueAt,
};
use list_lookup::{any, count, first, has, scan};
use sd_graph::{Edge, Graph, Sizes, Step, Store};
use sd_value::{NoMemory, Str, Value, copied_list, sort_and_dedup};
use std::alloc::Global;
use std::marker::Model;

/// The plain store of a graph. It looks through all edges or members for each question, so it is for small graphs and
/// for comparison.
#[derive(Debug)]
pub struct ListStore {
    graph: Graph,
    values: Vec<Value>,
    labels: Vec<Str>,
}

// Written out, so that it is proved here once, and not again in each crate that drops one.
impl Drop for ListStore {
    fn drop(self) {
        let ListStore {
            graph: _graph,
            values: _values,
            labels: _labels,
        } = self;
    }
}

impl Model for ListStore {
    ghost use Rattle.graph_spec.specs.DataGraph.{DataGraph};
    ghost use Rattle.edge_queries.specs.Contents.{IsStored};

    ghost Value = { DataGraph };

    ghost view = { λ s. s.graph };

    ghost invariant = { λ s. IsStored s.graph s.values.items s.labels.items };
}

impl ListStore {
    /// The store of the graph.
    pub fn of(alloc: Global, graph: Graph) -> Result<ListStore, NoMemory>
        ensures { IfOk result (λ store. store ≡ graph) }
    {
        let values = values_of(alloc, &graph)?;
        let labels = labels_of(alloc, &graph)?;
        Ok(ListStore {
            graph,
            values,
            labels,
        })
    }
}

impl Store for ListStore {
    ghost graph = { λ s. s };

    fn out(&self, alloc: Global, from: &Value, label: &Str) -> Result<Vec<Value>, NoMemory> {
        scan(alloc, self.graph.edges(), &Out { from, label })
    }

    fn out_all(&self, alloc: Global, from: &Value) -> Result<Vec<Step>, NoMemory> {
        scan(alloc, self.graph.edges(), &OutAll { from })
    }

    fn incoming(&self, alloc: Global, to: &Value) -> Result<Vec<Step>, NoMemory> {
        let mut steps = scan(alloc, self.graph.edges(), &Incoming { to })?;
        sort_and_dedup(&mut steps);
        Ok(steps)
    }

    fn incoming_by(&self, alloc: Global, to: &Value, label: &Str) -> Result<Vec<Value>, NoMemory> {
        let mut starts = scan(alloc, self.graph.edges(), &IncomingBy { to, label })?;
        sort_and_dedup(&mut starts);
        Ok(starts)
    }

    fn edges_by(&self, alloc: Global, label: &Str) -> Result<Vec<Edge>, NoMemory> {
        scan(alloc, self.graph.edges(), &Labelled { label })
    }

    fn members(&self, alloc: Global, collection: &Str) -> Result<Vec<Value>, NoMemory> {
        scan(alloc, self.graph.member_pairs(), &Members { collection })
    }

    fn values(&self, alloc: Global) -> Result<Vec<Value>, NoMemory> {
        copied_list(alloc, self.values.as_slice())
    }

    fn labels(&self, alloc: Global) -> Result<Vec<Str>, NoMemory> {
        copied_list(alloc, self.labels.as_slice())
    }

    fn has_edge(&self, from: &Value, label: &Str, to: &Value) -> bool {
        any(self.graph.edges(), &EdgeAt { from, label, to })
    }

    fn is_member(&self, collection: &Str, value: &Value) -> bool {
        any(self.graph.member_pairs(), &MemberAt { collection, value })
    }

    fn is_value(&self, value: &Value) -> bool {
        has(self.values.as_slice(), &ValueAt { value })
    }

    fn is_label(&self, label: &Str) -> bool {
        has(self.labels.as_slice(), &NameAt { name: label })
    }

    fn sizes(&self) -> Sizes {
        Sizes {
            nodes: self.graph.nodes().len() as u64,
            edges: self.graph.edges().len() as u64,
            values: self.values.len() as u64,
            labels: self.labels.len() as u64,
        }
    }

    fn edges_of(&self, label: &Str) -> u64 {
        count(self.graph.edges(), &Labelled { label })
    }

    fn members_of(&self, collection: &Str) -> u64 {
        count(self.graph.member_pairs(), &Members { collection })
    }

    fn count_out(&self, from: &Value, label: &Str) -> u64 {
        count(self.graph.edges(), &Out { from, label })
    }

    fn count_incoming(&self, to: &Value, label: &Str) -> u64 {
        count(self.graph.edges(), &IncomingBy { to, label })
    }

    fn degree_out(&self, from: &Value) -> u64 {
        count(self.graph.edges(), &OutAll { from })
    }

    fn degree_incoming(&self, to: &Value) -> u64 {
        count(self.graph.edges(), &Incoming { to })
    }

    fn first_out(
        &self,
        alloc: Global,
        from: &Value,
        label: &Str,
        most: usize,
    ) -> Result<Vec<Value>, NoMemory> {
        let mut ends = self.out(alloc, from, label)?;
        ends.truncate(most);
        Ok(ends)
    }

    fn first_incoming(
        &self,
        alloc: Global,
        to: &Value,
        label: &Str,
        most: usize,
    ) -> Result<Vec<Value>, NoMemory> {
        let mut starts = self.incoming_by(alloc, to, label)?;
        starts.truncate(most);
        Ok(starts)
    }

    fn first_edges(&self, alloc: Global, label: &Str, most: usize) -> Result<Vec<Edge>, NoMemory> {
        let mut edges = self.edges_by(alloc, label)?;
        edges.truncate(most);
        Ok(edges)
    }

    fn first_members(
        &self,
        alloc: Global,
        collection: &Str,
        most: usize,
    ) -> Result<Vec<Value>, NoMemory> {
        let mut nodes = self.members(alloc, collection)?;
        nodes.truncate(most);
        Ok(nodes)
    }

    fn first_values(&self, alloc: Global, most: usize) -> Result<Vec<Value>, NoMemory> {
        copied_list(alloc, first(self.values.as_slice(), most))
    }
}
