// The values and labels that edits may have touched, and those of them that are there now.
ghost use Rattle.std.specs.Prelude.{◌≡◌, IfOk, OnOk, map, Contains, [], ◌∷◌};
ghost use Rattle.std.specs.List.Sorted.{IsStrictlySortedBy};
ghost use Rattle.sd_value.specs.Order.{bytes_cmp, value_cmp};
ghost use Rattle.graph_spec.specs.DataGraph.{Name, node, IsValueOf, IsLabelOf};
ghost use Rattle.graph_spec.specs.declared.Edge.{Edge as AnyEdge};
ghost use Rattle.live_store.specs.Shift.{Pushed};
ghost use Rattle.live_store.specs.Live.{AreEnds, AreLabels};

use crate::live::LiveStore;
use live_layers::Layer;
use sd_graph::Store;
use sd_value::{Datum, NoMemory, Str, Value, copy, sort_and_dedup};
use std::alloc::Global;
use std::collections::BTreeSet;

// The nodes as values.
fn node_values(alloc: Global, nodes: &BTreeSet<Str>) -> Result<Vec<Value>, NoMemory>
    ensures { IfOk result (λ values. values.items ≡ map node nodes.now.keys) }
{
    let mut values = Vec::new(alloc);
    for name in nodes.iter() {
        values.push(Value::Data(Datum::Node(name.copy(alloc)?)))?;
    }
    Ok(values)
}

/// The nodes, and values among which are the ends of both layers' edges, in order.
pub(crate) fn touched_values(
    alloc: Global,
    came: &Layer,
    gone: &Layer,
    nodes: &BTreeSet<Str>,
) -> Result<Vec<Value>, NoMemory>
    ensures { IfOk result
        (λ values. AreEnds came.now gone.now nodes.now.keys values.items) }
{
    let mut values = node_values(alloc, nodes)?;
    values.append(&mut came.ends(alloc)?)?;
    values.append(&mut gone.ends(alloc)?)?;
    sort_and_dedup(&mut values);
    Ok(values)
}

/// Names among which are the labels of both layers' edges, in order.
pub(crate) fn touched_labels(
    alloc: Global,
    came: &Layer,
    gone: &Layer,
) -> Result<Vec<Str>, NoMemory>
    ensures { IfOk result (λ labels. AreLabels came.now gone.now labels.items) }
{
    let mut labels = came.labels(alloc)?;
    labels.append(&mut gone.labels(alloc)?)?;
    sort_and_dedup(&mut labels);
    Ok(labels)
}

impl LiveStore {
    // Pushes a value, if it is one now.
    fn push_value(
        &self,
        alloc: Global,
        value: &Value,
        values: &mut Vec<Value>,
    ) -> Result<(), NoMemory>
        ensures { OnOk result (Pushed (λ v. v) (IsValueOf self.now.graph) (value.now ∷ [])
            values.old.items values.new.items) }
    {
        if self.is_value(value) {
            values.push(copy(alloc, value)?)?;
            return Ok(());
        }
        Ok(())
    }

    /// Those that are values now.
    pub(crate) fn values_among(
        &self,
        alloc: Global,
        touched: &[Value],
    ) -> Result<Vec<Value>, NoMemory>
        ensures { IfOk result
            (λ values. Pushed (λ v. v) (IsValueOf self.now.graph) touched.now [] values.items) }
    {
        let mut values = Vec::new(alloc);
        for value in touched {
            self.push_value(alloc, value, &mut values)?;
        }
        Ok(values)
    }

    // Pushes a label, if it is one now.
    fn push_label(&self, alloc: Global, label: &Str, labels: &mut Vec<Str>) -> Result<(), NoMemory>
        ensures { OnOk result (Pushed (λ l. l) (IsLabelOf self.now.graph) (label.now ∷ [])
            labels.old.items labels.new.items) }
    {
        if self.is_label(label) {
            labels.push(label.copy(alloc)?)?;
            return Ok(());
        }
        Ok(())
    }

    /// Those that are labels now.
    pub(crate) fn labels_among(&self, alloc: Global, touched: &[Str]) -> Result<Vec<Str>, NoMemory>
        ensures { IfOk result
            (λ labels. Pushed (λ l. l) (IsLabelOf self.now.graph) touched.now [] labels.items) }
    {
        let mut labels = Vec::new(alloc);
        for label in touched {
            self.push_label(alloc, label, &mut labels)?;
        }
        Ok(labels)
    }
}
