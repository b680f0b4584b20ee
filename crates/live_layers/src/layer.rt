// The edges and members that came to a graph, or that went from it.
ghost use Rattle.std.specs.Prelude.{◌≡◌, ◌↔◌, IfOk, OnOk, OnErr, IsTrue, Contains, if◌then◌else◌};
ghost use Rattle.sd_value.specs.Ascending.{ListsExactly};
ghost use Rattle.sd_value.specs.Order.{value_cmp};
ghost use Rattle.graph_spec.specs.declared.Edge.{Edge as AnyEdge};
ghost use Rattle.graph_spec.specs.DataGraph.{HasEdge};
ghost use Rattle.graph_spec.specs.Orders.{edge_cmp, step_cmp};
ghost use Rattle.graph_spec.specs.Steps.{IsStepFrom, IsStepTo, IsStart, IsLabelled, IsMemberValue, IsCountOf};
ghost use Rattle.graph_spec.specs.Statement.{empty_graph};
ghost use Rattle.live_layers.specs.Items.{HasItem, items_with, items_without};

use crate::edges::Edges;
use crate::members::Members;
use crate::picks::{count, pick, size};
use edge_queries::{
    EdgeAt, Incoming, IncomingBy, Labelled, MemberAt, Members as MembersOf, Out, OutAll,
};
use edit_spec::Edit;
use graph_spec::{Edge, Step};
use sd_value::{NoMemory, Str, Value};
use std::alloc::Global;
use std::marker::Model;

/// Edges and members, and no declared nodes. Each change, and where a question's answer begins, costs time logarithmic
/// in their number.
#[derive(Debug)]
pub struct Layer {
    edges: Edges,
    members: Members,
}

// Written out, so that it is proved here once, and not again in each crate that drops one.
impl Drop for Layer {
    fn drop(self) {
        let Layer {
            edges: _edges,
            members: _members,
        } = self;
    }
}

impl Model for Layer {
    ghost use Rattle.graph_spec.specs.DataGraph.{DataGraph};
    ghost use Rattle.live_layers.specs.Items.{layer_graph};

    ghost Value = { DataGraph };

    ghost view = { λ l. layer_graph l.edges l.members };
}

impl Layer {
    /// Nothing.
    pub fn new(alloc: Global) -> Layer
        ensures { result ≡ empty_graph }
    {
        Layer {
            edges: Edges::new(alloc),
            members: Members::new(alloc),
        }
    }

    /// Puts in what the edit is of, or takes it out. On `Err` nothing has changed.
    pub fn change(&mut self, alloc: Global, edit: &Edit, put: bool) -> Result<(), NoMemory>
        ensures changed { OnOk result (self.new
            ≡ (if put then items_with edit.now self.old else items_without edit.now self.old)) }
        ensures kept { OnErr result (self.new ≡ self.old) }
    {
        match edit {
            Edit::Add(edge) | Edit::Remove(edge) => {
                if put {
                    return self.edges.put(alloc, edge);
                }
                self.edges.take(edge);
                Ok(())
            }
            Edit::Enter(member) | Edit::Leave(member) => {
                if put {
                    return self.members.put(alloc, member);
                }
                self.members.take(member);
                Ok(())
            }
        }
    }

    /// Whether it has what the edit is of.
    pub fn has_item(&self, edit: &Edit) -> bool
        ensures { IsTrue result ↔ HasItem self.now edit.now }
    {
        match edit {
            Edit::Add(edge) | Edit::Remove(edge) => self.edges.has(edge),
            Edit::Enter(member) | Edit::Leave(member) => self.members.has(member),
        }
    }

    /// Values, among them the end of each edge.
    pub fn ends(&self, alloc: Global) -> Result<Vec<Value>, NoMemory>
        ensures { IfOk result (λ ends. (e : AnyEdge) → Contains self.now.edges e
            → Contains ends.items e.to) }
    {
        self.edges.ends(alloc)
    }

    /// Names, among them the label of each edge.
    pub fn labels(&self, alloc: Global) -> Result<Vec<Str>, NoMemory>
        ensures { IfOk result (λ labels. (e : AnyEdge) → Contains self.now.edges e
            → Contains labels.items e.label) }
    {
        self.edges.labels(alloc)
    }

    /// The ends of the edges from a value by a label.
    pub fn out(&self, alloc: Global, from: &Value, label: &Str) -> Result<Vec<Value>, NoMemory>
        ensures { IfOk result
            (λ ends. ListsExactly value_cmp
            (HasEdge self.now from.now label.now) ends.items) }
    {
        pick(alloc, self.edges.from(from), &Out { from, label })
    }

    /// The edges from a value, by label and then end.
    pub fn out_all(&self, alloc: Global, from: &Value) -> Result<Vec<Step>, NoMemory>
        ensures { IfOk result
            (λ steps. ListsExactly step_cmp (IsStepFrom self.now from.now) steps.items) }
    {
        pick(alloc, self.edges.from(from), &OutAll { from })
    }

    /// The edges to a value, by label and then start. A step's end is the edge's start.
    pub fn incoming(&self, alloc: Global, to: &Value) -> Result<Vec<Step>, NoMemory>
        ensures { IfOk result
            (λ steps. ListsExactly step_cmp (IsStepTo self.now to.now) steps.items) }
    {
        pick(alloc, self.edges.to(to), &Incoming { to })
    }

    /// The starts of the edges to a value by a label.
    pub fn incoming_by(
        &self,
        alloc: Global,
        to: &Value,
        label: &Str,
    ) -> Result<Vec<Value>, NoMemory>
        ensures { IfOk result
            (λ starts. ListsExactly value_cmp (IsStart self.now to.now label.now) starts.items) }
    {
        pick(alloc, self.edges.to(to), &IncomingBy { to, label })
    }

    /// The edges of a label, by start and then end.
    pub fn edges_by(&self, alloc: Global, label: &Str) -> Result<Vec<Edge>, NoMemory>
        ensures { IfOk result
            (λ edges. ListsExactly edge_cmp (IsLabelled self.now label.now) edges.items) }
    {
        pick(alloc, self.edges.labelled(label), &Labelled { label })
    }

    /// The nodes of a collection.
    pub fn members(&self, alloc: Global, collection: &Str) -> Result<Vec<Value>, NoMemory>
        ensures { IfOk result
            (λ nodes. ListsExactly value_cmp
            (IsMemberValue self.now collection.now) nodes.items) }
    {
        let members = self.members.collected(collection);
        pick(alloc, members, &MembersOf { collection })
    }

    /// Whether there is this edge.
    pub fn has_edge(&self, from: &Value, label: &Str, to: &Value) -> bool
        ensures { IsTrue result ↔ HasEdge self.now from.now label.now to.now }
    {
        count(self.edges.from(from), &EdgeAt { from, label, to }) > 0
    }

    /// Whether the value is a node of the collection.
    pub fn is_member(&self, collection: &Str, value: &Value) -> bool
        ensures { IsTrue result ↔ IsMemberValue self.now collection.now value.now }
    {
        let members = self.members.collected(collection);
        count(members, &MemberAt { collection, value }) > 0
    }

    /// How many edges have the label.
    pub fn edges_of(&self, label: &Str) -> u64
        ensures { IsCountOf edge_cmp (IsLabelled self.now label.now) result }
    {
        size(self.edges.labelled(label))
    }

    /// How many nodes the collection has.
    pub fn members_of(&self, collection: &Str) -> u64
        ensures { IsCountOf value_cmp (IsMemberValue self.now collection.now) result }
    {
        size(self.members.collected(collection))
    }

    /// How many ends the edges from a value by a label have.
    pub fn count_out(&self, from: &Value, label: &Str) -> u64
        ensures { IsCountOf value_cmp (HasEdge self.now from.now label.now) result }
    {
        count(self.edges.from(from), &Out { from, label })
    }

    /// How many starts the edges to a value by a label have.
    pub fn count_incoming(&self, to: &Value, label: &Str) -> u64
        ensures { IsCountOf value_cmp (IsStart self.now to.now label.now) result }
    {
        count(self.edges.to(to), &IncomingBy { to, label })
    }

    /// How many edges there are from a value.
    pub fn degree_out(&self, from: &Value) -> u64
        ensures { IsCountOf step_cmp (IsStepFrom self.now from.now) result }
    {
        size(self.edges.from(from))
    }

    /// How many edges there are to a value.
    pub fn degree_incoming(&self, to: &Value) -> u64
        ensures { IsCountOf step_cmp (IsStepTo self.now to.now) result }
    {
        size(self.edges.to(to))
    }
}
