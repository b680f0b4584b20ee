// How large the graph is after an edit.
ghost use Rattle.std.specs.Prelude.{◌≡◌, ◌⊎◌, ◌↔◌, ◌&&◌, ◌<◌, ◌^◌, IsTrue, length, Contains};
ghost use Rattle.sd_value.specs.Order.{bytes_cmp, value_cmp};
ghost use Rattle.graph_spec.specs.DataGraph.{DataGraph, IsWellFormed, IsValueOf, IsLabelOf};
ghost use Rattle.graph_spec.specs.Steps.{IsCountOf};
ghost use Rattle.edit_spec.specs.Edited.{Edited, IsOfData, HasNodeAfter};
ghost use Rattle.live_layers.specs.Items.{HasItem};
ghost use Rattle.live_store.specs.Live.{GraphIsTold, AreSmall, IsAtom};
ghost use Rattle.live_store.specs.Counts.{OneEdge, OneMember, HasOneMore, HasNodes};

use crate::changes::puts;
use crate::counts::recount;
use crate::live::LiveStore;
use crate::nodes::node_of;
use edit_spec::Edit;
use graph_spec::{Edge, Member};
use sd_graph::{Sizes, Store};
use sd_value::{Datum, Str, Value};

/// How large the graph is.
#[derive(Clone, Copy, Debug)]
pub(crate) struct Told {
    pub(crate) sizes: Sizes,
    pub(crate) members: u64,
}

// Whether the value is no node.
fn is_atom(value: &Value) -> bool
    ensures { IsTrue result ↔ IsAtom value.now }
{
    match value {
        Value::Data(Datum::Node(_)) => false,
        Value::Data(Datum::Int(_) | Datum::Text(_) | Datum::Url(_) | Datum::File(_)) => true,
        Value::Page(_) => true,
    }
}

fn both(one: bool, other: bool) -> bool
    ensures { result ≡ (one && other) }
{
    one && other
}

impl LiveStore {
    // How large the graph is. All its numbers are small, as it is within the program's limits.
    fn counts(&self) -> Told
        ensures told { GraphIsTold self.now.graph result }
        ensures small { AreSmall result }
        ensures well_formed { IsWellFormed self.now.graph }
    {
        self.told
    }

    // Whether the name is one of the graph's nodes, or that of the edge's start.
    fn is_named(&self, edge: &Edge, name: &Str) -> bool
        ensures { IsTrue result
            ↔ (Contains self.now.graph.nodes name.now ⊎ (name.now ≡ edge.now.from)) }
    {
        self.has_node(name) || name.cmp(&edge.from).is_eq()
    }

    // How many nodes there are with one more.
    fn nodes_with_one(&self, name: &Str) -> u64
        ensures count { IsCountOf bytes_cmp (HasOneMore self.now.graph name.now) result }
        ensures small { result < 2 ^ 33 }
    {
        let before = self.counts();
        let is_there = self.has_node(name);
        recount(before.sizes.nodes, is_there, true)
    }

    // How many nodes there are with the edge's end, of so many with its start.
    fn with_end(&self, edge: &Edge, nodes: u64) -> u64
        requires count { IsCountOf bytes_cmp (HasOneMore self.now.graph edge.now.from) nodes }
        requires small { nodes < 2 ^ 33 }
        ensures count { IsCountOf bytes_cmp (HasNodes self.now.graph edge.now) result }
        ensures small { result < 2 ^ 34 }
    {
        match node_of(&edge.to) {
            Some(name) => {
                let is_there = self.is_named(edge, name);
                recount(nodes, is_there, true)
            }
            None => nodes,
        }
    }

    // How many nodes there are with those of an edge.
    fn nodes_with(&self, edge: &Edge) -> u64
        ensures count { IsCountOf bytes_cmp (HasNodes self.now.graph edge.now) result }
        ensures small { result < 2 ^ 34 }
    {
        let nodes = self.nodes_with_one(&edge.from);
        self.with_end(edge, nodes)
    }

    // How many nodes there are after an edit.
    fn nodes_after(&self, edit: &Edit) -> u64
        ensures count { IsCountOf bytes_cmp (HasNodeAfter self.now.graph edit.now) result }
        ensures small { result < 2 ^ 34 }
    {
        match edit {
            Edit::Add(edge) => self.nodes_with(edge),
            Edit::Enter(member) => self.nodes_with_one(&member.node),
            Edit::Remove(_) | Edit::Leave(_) => self.counts().sizes.nodes,
        }
    }

    // How many values there are once an edge is there or isn't, with so many nodes.
    fn values_after(&self, edge: &Edge, was: bool, is: bool, nodes: u64) -> u64
        requires there { IsTrue was ↔ Contains self.now.graph.edges edge.now }
        requires small { nodes < 2 ^ 34 }
        ensures { (H : DataGraph) → IsWellFormed H
            → OneEdge self.now.graph H edge.now is → length H.nodes ≡ nodes
            → IsCountOf value_cmp (IsValueOf H) result }
    {
        let before = self.counts();
        let degree = self.degree_incoming(&edge.to);
        let left = recount(degree, was, is);
        let atom = is_atom(&edge.to);
        let before_atoms = before.sizes.values - before.sizes.nodes;
        let was_atom = both(atom, degree > 0);
        let atoms = recount(before_atoms, was_atom, both(atom, left > 0));
        atoms + nodes
    }

    // How many labels there are once an edge is there or isn't.
    fn labels_after(&self, edge: &Edge, was: bool, is: bool) -> u64
        requires { IsTrue was ↔ Contains self.now.graph.edges edge.now }
        ensures { (H : DataGraph) → OneEdge self.now.graph H edge.now is
            → IsCountOf bytes_cmp (IsLabelOf H) result }
    {
        let before = self.counts();
        let edges = self.edges_of(&edge.label);
        let left = recount(edges, was, is);
        recount(before.sizes.labels, edges > 0, left > 0)
    }

    // How large the graph is once an edge is there or isn't, with so many nodes.
    fn told_with_edge(&self, edge: &Edge, was: bool, is: bool, nodes: u64) -> Told
        requires there { IsTrue was ↔ Contains self.now.graph.edges edge.now }
        requires small { nodes < 2 ^ 34 }
        ensures { (H : DataGraph) → IsWellFormed H
            → OneEdge self.now.graph H edge.now is → length H.nodes ≡ nodes
            → H.members ≡ self.now.graph.members → GraphIsTold H result }
    {
        let before = self.counts();
        let edges = recount(before.sizes.edges, was, is);
        let values = self.values_after(edge, was, is, nodes);
        let labels = self.labels_after(edge, was, is);
        Told {
            sizes: Sizes {
                nodes,
                edges,
                values,
                labels,
            },
            members: before.members,
        }
    }

    // How large the graph is once a member is there or isn't, with so many nodes.
    fn told_with_member(&self, member: &Member, was: bool, is: bool, nodes: u64) -> Told
        requires there { IsTrue was ↔ Contains self.now.graph.members member.now }
        requires small { nodes < 2 ^ 34 }
        ensures { (H : DataGraph) → IsWellFormed H
            → OneMember self.now.graph H member.now is → length H.nodes ≡ nodes
            → H.edges ≡ self.now.graph.edges → GraphIsTold H result }
    {
        let before = self.counts();
        let members = recount(before.members, was, is);
        let before_atoms = before.sizes.values - before.sizes.nodes;
        Told {
            sizes: Sizes {
                nodes,
                edges: before.sizes.edges,
                values: before_atoms + nodes,
                labels: before.sizes.labels,
            },
            members,
        }
    }

    /// How large the graph is after an edit.
    pub(crate) fn told_after(&self, edit: &Edit) -> Told
        requires { IsOfData edit.now }
        ensures { (H : DataGraph) → Edited self.now.graph edit.now H → GraphIsTold H result }
    {
        // With its size a store says that its graph is well formed.
        let _sizes = self.sizes();
        let was = self.has_item(edit);
        let is = puts(edit);
        let nodes = self.nodes_after(edit);
        match edit {
            Edit::Add(edge) => self.told_with_edge(edge, was, is, nodes),
            Edit::Remove(edge) => self.told_with_edge(edge, was, is, nodes),
            Edit::Enter(member) => self.told_with_member(member, was, is, nodes),
            Edit::Leave(member) => self.told_with_member(member, was, is, nodes),
        }
    }
}
