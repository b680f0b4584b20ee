// Edges by start, by end and by label.
ghost use Rattle.std.specs.Prelude.{OnOk, OnErr, List, Contains, []};
ghost use Rattle.std.specs.BTreeSet.{insert_key};
ghost use Rattle.graph_spec.specs.declared.Edge.{Edge as AnyEdge};
ghost use Rattle.graph_spec.specs.Orders.{edge_cmp};
ghost use Rattle.live_layers.specs.Grouped.{AreOrders, AreNear};

use crate::groups::Groups;
use graph_spec::Edge;
use sd_value::{NoMemory, Str, Value};
use std::alloc::Global;

/// Edges by start, by end and by label.
#[derive(Debug, Drop)]
pub(crate) struct Orders {
    pub(crate) by_start: Groups<Str, Edge>,
    pub(crate) by_end: Groups<Value, Edge>,
    pub(crate) by_label: Groups<Str, Edge>,
}

impl Orders {
    /// No edges.
    pub(crate) fn new(alloc: Global) -> Orders
        ensures { AreOrders [] result }
    {
        Orders {
            by_start: Groups::new(alloc),
            by_end: Groups::new(alloc),
            by_label: Groups::new(alloc),
        }
    }

    /// Puts an edge into each. On `Err` some may have it.
    pub(crate) fn put(&mut self, alloc: Global, edge: &Edge) -> Result<(), NoMemory>
        ensures all { OnOk result ((es : List AnyEdge) → AreOrders es self.old
            → AreOrders (insert_key edge_cmp es edge.now) self.new) }
        ensures some { OnErr result ((es : List AnyEdge) → AreOrders es self.old
            → AreNear edge.now es self.new) }
    {
        self.by_start.put(alloc, &edge.from, edge)?;
        self.by_end.put(alloc, &edge.to, edge)?;
        self.by_label.put(alloc, &edge.label, edge)?;
        Ok(())
    }

    /// Takes an edge out of each, whichever have it.
    pub(crate) fn take(&mut self, edge: &Edge)
        ensures { (es : List AnyEdge) → AreNear edge.now es self.old
            → (Contains es edge.now → ⊥) → AreOrders es self.new }
    {
        self.by_start.take(&edge.from, edge);
        self.by_end.take(&edge.to, edge);
        self.by_label.take(&edge.label, edge);
    }
}
