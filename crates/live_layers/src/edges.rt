// A set of edges, in four orders.
ghost use Rattle.std.specs.Prelude.{◌≡◌, ◌↔◌, OnOk, OnErr, IfOk, IsTrue, Contains, []};
ghost use Rattle.std.specs.BTreeMap.{is_at};
ghost use Rattle.std.specs.BTreeSet.{insert_key};
ghost use Rattle.std.specs.Set.{remove_key};
ghost use Rattle.std.specs.Option.{option_copied};
ghost use Rattle.sd_value.specs.Ascending.{ListsExactly};
ghost use Rattle.graph_spec.specs.declared.Edge.{Edge as AnyEdge};
ghost use Rattle.graph_spec.specs.DataGraph.{node};
ghost use Rattle.graph_spec.specs.Orders.{edge_cmp};
ghost use Rattle.live_layers.specs.Grouped.{elements, node_name, AreOrders, AreNear};

use crate::orders::Orders;
use graph_spec::Edge;
use sd_value::{Copied, Datum, NoMemory, Str, Value};
use std::alloc::Global;
use std::collections::BTreeSet;
use std::marker::Model;

/// Edges, as they are ordered, and by start, by end and by label.
#[derive(Debug, Drop)]
pub(crate) struct Edges {
    all: BTreeSet<Edge>,
    orders: Orders,
}

impl Model for Edges {
    ghost use Rattle.std.specs.Prelude.{List};
    ghost use Rattle.graph_spec.specs.declared.Edge.{Edge as SomeEdge};
    ghost use Rattle.live_layers.specs.Grouped.{AreOrders};

    ghost Value = { List SomeEdge };

    ghost view = { λ s. s.all.keys };

    ghost invariant = { λ s. AreOrders s.all.keys s.orders };
}

// The name of a value that is a node.
fn start_of(value: &Value) -> Option<&Str>
    ensures { option_copied result ≡ node_name value.now }
{
    match value {
        Value::Data(Datum::Node(name)) => Some(name),
        Value::Data(Datum::Int(_) | Datum::Text(_) | Datum::Url(_) | Datum::File(_)) => None,
        Value::Page(_) => None,
    }
}

// Puts an edge into each of the sets. On `Err` some of the orders may have it.
fn insert(
    alloc: Global,
    all: &mut BTreeSet<Edge>,
    orders: &mut Orders,
    edge: &Edge,
) -> Result<(), NoMemory>
    requires { AreOrders all.old.keys orders.old }
    ensures put { OnOk result (all.new.keys ≡ insert_key edge_cmp all.old.keys edge.now) }
    ensures orders { OnOk result (AreOrders all.new.keys orders.new) }
    ensures kept { OnErr result (all.new.keys ≡ all.old.keys) }
    ensures some { OnErr result (AreNear edge.now all.old.keys orders.new) }
{
    let copied = edge.copied(alloc)?;
    orders.put(alloc, edge)?;
    all.insert(copied)?;
    Ok(())
}

impl Edges {
    /// No edges.
    pub(crate) fn new(alloc: Global) -> Edges
        ensures { result ≡ [] }
    {
        Edges {
            all: BTreeSet::new(alloc),
            orders: Orders::new(alloc),
        }
    }

    /// Puts an edge in. On `Err` nothing has changed.
    pub(crate) fn put(&mut self, alloc: Global, edge: &Edge) -> Result<(), NoMemory>
        ensures put { OnOk result (self.new ≡ insert_key edge_cmp self.old edge.now) }
        ensures kept { OnErr result (self.new ≡ self.old) }
    {
        // With its size a set says that it is in order.
        let _size = self.all.len();
        if self.all.contains(edge) {
            return Ok(());
        }
        match insert(alloc, &mut self.all, &mut self.orders, edge) {
            Ok(()) => Ok(()),
            Err(error) => {
                // The edge was in none of the orders, so what has it now is put back by taking it out.
                self.orders.take(edge);
                Err(error)
            }
        }
    }

    /// Takes an edge out.
    pub(crate) fn take(&mut self, edge: &Edge)
        ensures { self.new ≡ remove_key (is_at (edge_cmp edge.now)) self.old }
    {
        // With its size a set says that it is in order.
        let _size = self.all.len();
        self.all.remove(edge);
        self.orders.take(edge);
    }

    /// Whether an edge is one of them.
    pub(crate) fn has(&self, edge: &Edge) -> bool
        ensures { IsTrue result ↔ Contains self.now edge.now }
    {
        self.all.contains(edge)
    }

    /// The edges from a value.
    pub(crate) fn from(&self, from: &Value) -> Option<&BTreeSet<Edge>>
        ensures { ListsExactly edge_cmp
            (λ (e : AnyEdge). Contains self.now e × (node e.from ≡ from.now))
            (elements (option_copied result)) }
    {
        match start_of(from) {
            Some(name) => self.orders.by_start.at(name),
            None => None,
        }
    }

    /// The edges to a value.
    pub(crate) fn to(&self, to: &Value) -> Option<&BTreeSet<Edge>>
        ensures { ListsExactly edge_cmp
            (λ (e : AnyEdge). Contains self.now e × (e.to ≡ to.now))
            (elements (option_copied result)) }
    {
        self.orders.by_end.at(to)
    }

    /// The edges of a label.
    pub(crate) fn labelled(&self, label: &Str) -> Option<&BTreeSet<Edge>>
        ensures { ListsExactly edge_cmp
            (λ (e : AnyEdge). Contains self.now e × (e.label ≡ label.now))
            (elements (option_copied result)) }
    {
        self.orders.by_label.at(label)
    }

    /// Values, among them the end of each edge.
    pub(crate) fn ends(&self, alloc: Global) -> Result<Vec<Value>, NoMemory>
        ensures { IfOk result (λ ends. (e : AnyEdge) → Contains self.now e
            → Contains ends.items e.to) }
    {
        self.orders.by_end.keys(alloc)
    }

    /// Names, among them the label of each edge.
    pub(crate) fn labels(&self, alloc: Global) -> Result<Vec<Str>, NoMemory>
        ensures { IfOk result (λ labels. (e : AnyEdge) → Contains self.now e
            → Contains labels.items e.label) }
    {
        self.orders.by_label.keys(alloc)
    }
}
