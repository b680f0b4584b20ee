//! The queries on edges and members that both stores use, and lists of all values and labels.
#![tactic(auto)]

ghost use Rattle.std.specs.Prelude.{◌≡◌, IfOk};
ghost use Rattle.sd_value.specs.Order.{value_cmp};
ghost use Rattle.graph_spec.specs.DataGraph.{node};
ghost use Rattle.edge_queries.specs.Places.{at_start, at_label, at_end, at_start_label, at_edge, at_end_label};
ghost use Rattle.edge_queries.specs.Places.{at_collection, at_member, step_from, step_to};

mod contents;
mod itself;

pub use contents::{all_labels, all_values};
use graph_spec::{Edge, Member, Step};
pub use itself::{NameAt, ValueAt};
use list_lookup::Query;
use sd_value::{Copied, Datum, NoMemory, Str, Value, copy};
use std::alloc::Global;
use std::cmp::Ordering;

// The order of a node, reported by its name, and a value.
#[tactic(auto, unfolding(sd_value::specs::Order::value_cmp, sd_value::specs::Order::datum_cmp))]
fn compare_node(name: &Str, value: &Value) -> Ordering
    ensures { result ≡ value_cmp (node name.now) value.now }
{
    match value {
        Value::Data(Datum::Node(other)) => name.cmp(other),
        Value::Data(_) => Ordering::Greater,
        Value::Page(_) => Ordering::Less,
    }
}

// The node of the name, as a value.
fn node_value(alloc: Global, name: &Str) -> Result<Value, NoMemory>
    ensures { IfOk result (λ value. value ≡ node name.now) }
{
    Ok(Value::Data(Datum::Node(name.copy(alloc)?)))
}

/// The edges from a value, as steps.
#[derive(Debug, Drop)]
pub struct OutAll<'a> {
    pub from: &'a Value,
}

impl<'a> Query<Edge> for OutAll<'a> {
    type Given = Step;

    ghost at = { λ q e. at_start q.from.now e };

    ghost gives = { λ e. step_from e };

    fn place(&self, item: &Edge) -> Ordering {
        compare_node(&item.from, self.from)
    }

    fn give(&self, alloc: Global, item: &Edge) -> Result<Step, NoMemory> {
        Ok(Step {
            label: item.label.copy(alloc)?,
            end: copy(alloc, &item.to)?,
        })
    }
}

/// The ends of the edges from a value by a label.
#[derive(Debug, Drop)]
pub struct Out<'a> {
    pub from: &'a Value,
    pub label: &'a Str,
}

impl<'a> Query<Edge> for Out<'a> {
    type Given = Value;

    ghost at = { λ q e. at_start_label q.from.now q.label.now e };

    ghost gives = { λ e. e.to };

    fn place(&self, item: &Edge) -> Ordering {
        compare_node(&item.from, self.from).then(item.label.cmp(self.label))
    }

    fn give(&self, alloc: Global, item: &Edge) -> Result<Value, NoMemory> {
        copy(alloc, &item.to)
    }
}

/// One edge.
#[derive(Debug, Drop)]
pub struct EdgeAt<'a> {
    pub from: &'a Value,
    pub label: &'a Str,
    pub to: &'a Value,
}

impl<'a> Query<Edge> for EdgeAt<'a> {
    type Given = Edge;

    ghost at = { λ q e. at_edge q.from.now q.label.now q.to.now e };

    ghost gives = { λ e. e };

    fn place(&self, item: &Edge) -> Ordering {
        let rest = item.label.cmp(self.label).then(item.to.cmp(self.to));
        compare_node(&item.from, self.from).then(rest)
    }

    fn give(&self, alloc: Global, item: &Edge) -> Result<Edge, NoMemory> {
        item.copied(alloc)
    }
}

/// The edges to a value, as steps: a step's end is the edge's start.
#[derive(Debug, Drop)]
pub struct Incoming<'a> {
    pub to: &'a Value,
}

impl<'a> Query<Edge> for Incoming<'a> {
    type Given = Step;

    ghost at = { λ q e. at_end q.to.now e };

    ghost gives = { λ e. step_to e };

    fn place(&self, item: &Edge) -> Ordering {
        item.to.cmp(self.to)
    }

    fn give(&self, alloc: Global, item: &Edge) -> Result<Step, NoMemory> {
        Ok(Step {
            label: item.label.copy(alloc)?,
            end: node_value(alloc, &item.from)?,
        })
    }
}

/// The starts of the edges to a value by a label.
#[derive(Debug, Drop)]
pub struct IncomingBy<'a> {
    pub to: &'a Value,
    pub label: &'a Str,
}

impl<'a> Query<Edge> for IncomingBy<'a> {
    type Given = Value;

    ghost at = { λ q e. at_end_label q.to.now q.label.now e };

    ghost gives = { λ e. node e.from };

    fn place(&self, item: &Edge) -> Ordering {
        item.to.cmp(self.to).then(item.label.cmp(self.label))
    }

    fn give(&self, alloc: Global, item: &Edge) -> Result<Value, NoMemory> {
        node_value(alloc, &item.from)
    }
}

/// The edges of a label.
#[derive(Debug, Drop)]
pub struct Labelled<'a> {
    pub label: &'a Str,
}

impl<'a> Query<Edge> for Labelled<'a> {
    type Given = Edge;

    ghost at = { λ q e. at_label q.label.now e };

    ghost gives = { λ e. e };

    fn place(&self, item: &Edge) -> Ordering {
        item.label.cmp(self.label)
    }

    fn give(&self, alloc: Global, item: &Edge) -> Result<Edge, NoMemory> {
        item.copied(alloc)
    }
}

/// The nodes of a collection.
#[derive(Debug, Drop)]
pub struct Members<'a> {
    pub collection: &'a Str,
}

impl<'a> Query<Member> for Members<'a> {
    type Given = Value;

    ghost at = { λ q m. at_collection q.collection.now m };

    ghost gives = { λ m. node m.node };

    fn place(&self, item: &Member) -> Ordering {
        item.collection.cmp(self.collection)
    }

    fn give(&self, alloc: Global, item: &Member) -> Result<Value, NoMemory> {
        node_value(alloc, &item.node)
    }
}

/// A value as a node of a collection.
#[derive(Debug, Drop)]
pub struct MemberAt<'a> {
    pub collection: &'a Str,
    pub value: &'a Value,
}

impl<'a> Query<Member> for MemberAt<'a> {
    type Given = Value;

    ghost at = { λ q m. at_member q.collection.now q.value.now m };

    ghost gives = { λ m. node m.node };

    fn place(&self, item: &Member) -> Ordering {
        item.collection
            .cmp(self.collection)
            .then(compare_node(&item.node, self.value))
    }

    fn give(&self, alloc: Global, item: &Member) -> Result<Value, NoMemory> {
        node_value(alloc, &item.node)
    }
}
