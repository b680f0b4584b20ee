//! The indexed store of the program: the edges by start, their positions by end and by label, where
//! the edges of each value and label and the members of each collection begin and end, and for each
//! node a place that it may have among members.
#![tactic(auto)]

ghost use Rattle.std.specs.Prelude.{◌≡◌, ◌↔◌, ◌<◌, ◌+◌, IfOk, IsTrue, All, length, map};
ghost use Rattle.std.specs.List.Sorted.{IsStrictlySortedBy};
ghost use Rattle.sd_value.specs.Order.{bytes_cmp};
ghost use Rattle.graph_spec.specs.DataGraph.{IsWellFormed};
ghost use Rattle.edge_queries.specs.Places.{at_start, at_end, at_label, at_start_label, at_end_label, at_collection};
ghost use Rattle.edge_queries.specs.Ordered.{by_end_cmp, by_label_cmp};
ghost use Rattle.list_lookup.specs.Picked.{in_place};
ghost use Rattle.index_store.specs.Indexed.{value_at, IsNodeOf, ArePicked};

mod named;
mod orders;
mod positions;
mod ranks;
mod slots;
mod spans;

use crate::named::{Named, has_named, member_places};
use crate::orders::{by_end, label_ranks, labels_at, node_values, value_ranks};
use crate::positions::{AtPositions, give_at};
use crate::ranks::{Ranked, by_rank};
use crate::slots::Slots;
use crate::spans::{
    Span, collections_of, in_span, spans_collected, spans_from, spans_labelled, spans_to,
};
use edge_queries::{EdgeAt, Incoming, IncomingBy, Labelled, Members, NameAt, Out, OutAll};
use list_lookup::{first, give_all, has, part};
use sd_graph::{Edge, Graph, Member, Sizes, Step, Store};
use sd_value::{Datum, NoMemory, Str, Value, copied_list, copy};
use std::alloc::Global;
use std::marker::Model;

/// A graph with the positions of its edges in two more orders, its labels, and where each of its values is: below the
/// number of nodes a node, and from there on an edge's end. Names are shared and not copied.
#[derive(Debug)]
pub struct IndexStore {
    graph: Graph,
    by_end: Vec<u32>,
    by_label: Vec<u32>,
    values: Vec<u32>,
    labels: Vec<Str>,
    // Where each value is among `values`, by hash; of each node the edges from it, and of each value those to it, by
    // their positions in `by_end`.
    slots: Slots,
    from: Vec<Span>,
    to: Vec<Span>,
    // Of each label its edges by `by_label`, and of each collection its members.
    of_label: Vec<Span>,
    collections: Vec<Str>,
    of_collection: Vec<Span>,
    // Of each node where it is among the members of a collection that has it, and 0 where none has.
    places: Vec<u32>,
}

// Written out, so that it is proved here once, and not again in each crate that drops one.
impl Drop for IndexStore {
    fn drop(self) {
        let IndexStore {
            graph: _graph,
            by_end: _by_end,
            by_label: _by_label,
            values: _values,
            labels: _labels,
            slots: _slots,
            from: _from,
            to: _to,
            of_label: _of_label,
            collections: _collections,
            of_collection: _of_collection,
            places: _places,
        } = self;
    }
}

impl Model for IndexStore {
    ghost use Rattle.graph_spec.specs.DataGraph.{DataGraph};
    ghost use Rattle.index_store.specs.Indexed.{IsIndexed};

    ghost Value = { DataGraph };

    ghost view = { λ s. s.graph };

    ghost invariant = { λ s. IsIndexed s.graph s.by_end.items s.by_label.items s.values.items
        s.labels.items s.collections.items s.from.items s.to.items s.of_label.items
        s.of_collection.items };
}

impl IndexStore {
    /// The store of the graph. Positions in a graph, which is within the program's limits, are numbers of 32 bits.
    pub fn of(alloc: Global, graph: Graph) -> Result<IndexStore, NoMemory>
        ensures { IfOk result (λ store. store ≡ graph) }
    {
        let nodes = graph.nodes();
        let edges = graph.edges();
        let members = graph.member_pairs();
        let label_ranks = label_ranks(alloc, edges)?;
        let labels = labels_at(alloc, edges, label_ranks.firsts.as_slice())?;
        let by_label = by_rank(alloc, label_ranks.ranks.as_slice())?;
        let node_values = node_values(alloc, nodes)?;
        let Ranked { firsts, ranks } = value_ranks(alloc, node_values.as_slice(), edges)?;
        let by_end = by_end(alloc, &ranks.as_slice()[nodes.len()..], by_label.as_slice())?;
        let values = firsts;
        let nodes = node_values.as_slice();
        let slots = Slots::of(alloc, nodes, edges, values.as_slice())?;
        let from = spans_from(alloc, nodes, edges)?;
        let to = spans_to(alloc, nodes, edges, values.as_slice(), by_end.as_slice())?;
        let of_label = spans_labelled(alloc, labels.as_slice(), edges, by_label.as_slice())?;
        let collections = collections_of(alloc, members)?;
        let of_collection = spans_collected(alloc, collections.as_slice(), members)?;
        let places = member_places(alloc, &graph, &slots, values.as_slice())?;
        Ok(IndexStore {
            graph,
            by_end,
            by_label,
            values,
            labels,
            slots,
            from,
            to,
            of_label,
            collections,
            of_collection,
            places,
        })
    }

    // The edges from the value.
    fn edges_from(&self, from: &Value) -> &[Edge]
        ensures edges { result.now ≡ in_place (at_start from.now) self.now.edges }
        ensures well_formed { IsWellFormed self.now }
    {
        let edges = self.graph.edges();
        let values = self.values.as_slice();
        let spans = self.from.as_slice();
        if let Some(number) = self.slots.find(&self.graph, values, from) {
            let place = values[number] as usize;
            if place < spans.len() {
                return in_span(edges, &spans[place]);
            }
        }
        part(edges, &OutAll { from })
    }

    // The edges from the value by the label.
    fn edges_out(&self, from: &Value, label: &Str) -> &[Edge]
        ensures edges { result.now ≡ in_place (at_start_label from.now label.now) self.now.edges }
        ensures well_formed { IsWellFormed self.now }
    {
        part(self.edges_from(from), &Labelled { label })
    }

    // The positions of the edges to the value.
    fn edges_to(&self, to: &Value) -> &[u32]
        ensures positions { ArePicked by_end_cmp self.now.edges (at_end to.now) result.now }
        ensures well_formed { IsWellFormed self.now }
    {
        let values = self.values.as_slice();
        if let Some(number) = self.slots.find(&self.graph, values, to) {
            return in_span(self.by_end.as_slice(), &self.to[number]);
        }
        let edges = self.graph.edges();
        let query = Incoming { to };
        part(
            self.by_end.as_slice(),
            &AtPositions {
                edges,
                query: &query,
            },
        )
    }

    // The positions of the edges to the value by the label.
    fn edges_in(&self, to: &Value, label: &Str) -> &[u32]
        ensures positions { ArePicked by_end_cmp self.now.edges
            (at_end_label to.now label.now) result.now }
        ensures well_formed { IsWellFormed self.now }
    {
        let edges = self.graph.edges();
        let query = Labelled { label };
        part(
            self.edges_to(to),
            &AtPositions {
                edges,
                query: &query,
            },
        )
    }

    /// The graph that the store has.
    pub fn graph(&self) -> &Graph
        ensures { result.now ≡ self.now }
    {
        &self.graph
    }

    // The positions of the edges of the label.
    fn edges_labelled(&self, label: &Str) -> &[u32]
        ensures positions { ArePicked by_label_cmp self.now.edges (at_label label.now) result.now }
        ensures well_formed { IsWellFormed self.now }
    {
        if let Ok(number) = self.labels.binary_search(label) {
            return in_span(self.by_label.as_slice(), &self.of_label[number]);
        }
        let edges = self.graph.edges();
        let query = Labelled { label };
        part(
            self.by_label.as_slice(),
            &AtPositions {
                edges,
                query: &query,
            },
        )
    }

    // The members of the collection.
    fn members_in(&self, collection: &Str) -> &[Member]
        ensures members { result.now ≡ in_place (at_collection collection.now) self.now.members }
        ensures well_formed { IsWellFormed self.now }
    {
        let members = self.graph.member_pairs();
        if let Ok(number) = self.collections.binary_search(collection) {
            return in_span(members, &self.of_collection[number]);
        }
        part(members, &Members { collection })
    }

    // Where the node may be among the members of a collection.
    fn member_place(&self, node: &Value) -> Option<usize> {
        let values = self.values.as_slice();
        let number = self.slots.find(&self.graph, values, node)?;
        let node = values.get(number)?;
        let place = self.places.as_slice().get(*node as usize)?;
        Some(*place as usize)
    }
}

impl Store for IndexStore {
    ghost graph = { λ s. s };

    fn out(&self, alloc: Global, from: &Value, label: &Str) -> Result<Vec<Value>, NoMemory> {
        give_all(alloc, self.edges_out(from, label), &Out { from, label })
    }

    fn out_all(&self, alloc: Global, from: &Value) -> Result<Vec<Step>, NoMemory> {
        give_all(alloc, self.edges_from(from), &OutAll { from })
    }

    fn incoming(&self, alloc: Global, to: &Value) -> Result<Vec<Step>, NoMemory> {
        let edges = self.graph.edges();
        give_at(alloc, edges, self.edges_to(to), &Incoming { to })
    }

    fn incoming_by(&self, alloc: Global, to: &Value, label: &Str) -> Result<Vec<Value>, NoMemory> {
        let edges = self.graph.edges();
        let query = IncomingBy { to, label };
        give_at(alloc, edges, self.edges_in(to, label), &query)
    }

    fn edges_by(&self, alloc: Global, label: &Str) -> Result<Vec<Edge>, NoMemory> {
        let edges = self.graph.edges();
        give_at(
            alloc,
            edges,
            self.edges_labelled(label),
            &Labelled { label },
        )
    }

    fn members(&self, alloc: Global, collection: &Str) -> Result<Vec<Value>, NoMemory> {
        let query = Members { collection };
        give_all(alloc, self.members_in(collection), &query)
    }

    fn values(&self, alloc: Global) -> Result<Vec<Value>, NoMemory> {
        values_at(alloc, &self.graph, self.values.as_slice())
    }

    fn labels(&self, alloc: Global) -> Result<Vec<Str>, NoMemory> {
        copied_list(alloc, self.labels.as_slice())
    }

    fn has_edge(&self, from: &Value, label: &Str, to: &Value) -> bool {
        has(self.edges_from(from), &EdgeAt { from, label, to })
    }

    fn is_member(&self, collection: &Str, value: &Value) -> bool {
        match value {
            Value::Data(Datum::Node(name)) => {
                has_named(self.members_in(collection), self.member_place(value), name)
            }
            Value::Data(Datum::Int(_) | Datum::Text(_) | Datum::Url(_) | Datum::File(_)) => false,
            Value::Page(_) => false,
        }
    }

    fn is_value(&self, value: &Value) -> bool {
        let values = self.values.as_slice();
        match self.slots.find(&self.graph, values, value) {
            Some(_) => true,
            None => is_node(self.graph.nodes(), value) || self.degree_incoming(value) > 0,
        }
    }

    fn is_label(&self, label: &Str) -> bool {
        has(self.labels.as_slice(), &NameAt { name: label })
    }

    fn sizes(&self) -> Sizes {
        Sizes {
            nodes: self.graph.nodes().len() as u64,
            edges: self.graph.edges().len() as u64,
            values: self.values.len() as u64,
            labels: self.labels.len() as u64,
        }
    }

    fn edges_of(&self, label: &Str) -> u64 {
        self.edges_labelled(label).len() as u64
    }

    fn members_of(&self, collection: &Str) -> u64 {
        self.members_in(collection).len() as u64
    }

    fn count_out(&self, from: &Value, label: &Str) -> u64 {
        self.edges_out(from, label).len() as u64
    }

    fn count_incoming(&self, to: &Value, label: &Str) -> u64 {
        self.edges_in(to, label).len() as u64
    }

    fn degree_out(&self, from: &Value) -> u64 {
        self.edges_from(from).len() as u64
    }

    fn degree_incoming(&self, to: &Value) -> u64 {
        self.edges_to(to).len() as u64
    }

    fn first_out(
        &self,
        alloc: Global,
        from: &Value,
        label: &Str,
        most: usize,
    ) -> Result<Vec<Value>, NoMemory> {
        let query = Out { from, label };
        give_all(alloc, first(self.edges_out(from, label), most), &query)
    }

    fn first_incoming(
        &self,
        alloc: Global,
        to: &Value,
        label: &Str,
        most: usize,
    ) -> Result<Vec<Value>, NoMemory> {
        let edges = self.graph.edges();
        let query = IncomingBy { to, label };
        give_at(alloc, edges, first(self.edges_in(to, label), most), &query)
    }

    fn first_edges(&self, alloc: Global, label: &Str, most: usize) -> Result<Vec<Edge>, NoMemory> {
        let edges = self.graph.edges();
        let query = Labelled { label };
        give_at(
            alloc,
            edges,
            first(self.edges_labelled(label), most),
            &query,
        )
    }

    fn first_members(
        &self,
        alloc: Global,
        collection: &Str,
        most: usize,
    ) -> Result<Vec<Value>, NoMemory> {
        let query = Members { collection };
        give_all(alloc, first(self.members_in(collection), most), &query)
    }

    fn first_values(&self, alloc: Global, most: usize) -> Result<Vec<Value>, NoMemory> {
        values_at(alloc, &self.graph, first(self.values.as_slice(), most))
    }
}

// Whether the value is one of the nodes.
fn is_node(nodes: &[Str], value: &Value) -> bool
    requires { IsStrictlySortedBy bytes_cmp nodes.now }
    ensures { IsTrue result ↔ IsNodeOf nodes.now value.now }
{
    match value {
        Value::Data(Datum::Node(name)) => has(nodes, &NameAt { name }),
        Value::Data(Datum::Int(_) | Datum::Text(_) | Datum::Url(_) | Datum::File(_)) => false,
        Value::Page(_) => false,
    }
}

// The values at places among the nodes and then the edges' ends.
fn values_at(alloc: Global, graph: &Graph, places: &[u32]) -> Result<Vec<Value>, NoMemory>
    requires { All (λ i. i < length graph.now.nodes + length graph.now.edges) places.now }
    ensures { IfOk result (λ values. values.items ≡ map (value_at graph.now) places.now) }
{
    let nodes = graph.nodes();
    let edges = graph.edges();
    let mut values = Vec::with_capacity(alloc, places.len())?;
    for place in places {
        let at = *place as usize;
        values.push(if at < nodes.len() {
            Value::Data(Datum::Node(nodes[at].copy(alloc)?))
        } else {
            copy(alloc, &edges[at - nodes.len()].to)?
        })?;
    }
    Ok(values)
}
