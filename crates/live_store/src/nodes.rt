// The nodes that edits declare.
ghost use Rattle.std.specs.Prelude.{◌≡◌, ◌⊎◌, IfOk, OnErr};
ghost use Rattle.std.specs.List.Sorted.{IsStrictlySortedBy};
ghost use Rattle.std.specs.Option.{option_copied};
ghost use Rattle.sd_value.specs.Order.{bytes_cmp};
ghost use Rattle.graph_spec.specs.DataGraph.{node};
ghost use Rattle.sd_graph.specs.Undone.{without, without_end, IsUndoneBy};
ghost use Rattle.live_layers.specs.Grouped.{node_name};
ghost use Rattle.live_store.specs.Live.{IsNodeOf, NewNames, restored};

use crate::lists::is_among;
use edit_spec::Edit;
use graph_spec::Edge;
use index_store::IndexStore;
use sd_value::{Datum, NoMemory, Str, Value};
use std::alloc::Global;
use std::collections::BTreeSet;

/// Which of an edit's nodes are new: that of its edge's start or its member, and that of its edge's end.
#[derive(Clone, Copy, Debug)]
pub(crate) struct Declared {
    pub(crate) start: bool,
    pub(crate) end: bool,
}

/// The name of a value that is a node.
pub(crate) fn node_of(value: &Value) -> Option<&Str>
    ensures { option_copied result ≡ node_name value.now }
{
    match value {
        Value::Data(Datum::Node(name)) => Some(name),
        Value::Data(Datum::Int(_) | Datum::Text(_) | Datum::Url(_) | Datum::File(_)) => None,
        Value::Page(_) => None,
    }
}

// Adds a name, unless the store declares it, and reports whether it is new. On `Err` nothing has changed.
fn add_name(
    alloc: Global,
    base: &IndexStore,
    names: &mut BTreeSet<Str>,
    name: &Str,
) -> Result<bool, NoMemory>
    requires { IsStrictlySortedBy bytes_cmp names.old.keys }
    ensures new { IfOk result (λ _.
        NewNames base.now (λ n. n ≡ name.now) names.old.keys names.new.keys) }
    ensures undone { IfOk result (λ added.
        IsUndoneBy name.now added names.old.keys names.new.keys) }
    ensures ordered { IfOk result (λ _. IsStrictlySortedBy bytes_cmp names.new.keys) }
    ensures kept { OnErr result (names.new.keys ≡ names.old.keys) }
{
    if is_among(base.graph().nodes(), name) {
        return Ok(false);
    }
    let added = names.insert(name.copy(alloc)?)?;
    Ok(added)
}

// The same of a value that may be a node.
fn add_end(
    alloc: Global,
    base: &IndexStore,
    names: &mut BTreeSet<Str>,
    value: &Value,
) -> Result<bool, NoMemory>
    requires { IsStrictlySortedBy bytes_cmp names.old.keys }
    ensures new { IfOk result (λ _.
        NewNames base.now (λ n. value.now ≡ node n) names.old.keys names.new.keys) }
    ensures undone { IfOk result (λ added.
        without_end value.now added names.new.keys ≡ names.old.keys) }
    ensures ordered { IfOk result (λ _. IsStrictlySortedBy bytes_cmp names.new.keys) }
    ensures kept { OnErr result (names.new.keys ≡ names.old.keys) }
{
    match node_of(value) {
        Some(name) => add_name(alloc, base, names, name),
        None => Ok(false),
    }
}

// Takes a name out again, if it was added.
fn forget_name(names: &mut BTreeSet<Str>, name: &Str, added: bool)
    ensures { names.new.keys ≡ without name.now added names.old.keys }
{
    if added {
        names.remove(name);
    }
}

// The same of a value that may be a node.
fn forget_end(names: &mut BTreeSet<Str>, value: &Value, added: bool)
    ensures { names.new.keys ≡ without_end value.now added names.old.keys }
{
    if let Some(name) = node_of(value) {
        forget_name(names, name, added);
    }
}

// Adds the nodes of an edge. On `Err` nothing has changed.
fn declare_ends(
    alloc: Global,
    base: &IndexStore,
    names: &mut BTreeSet<Str>,
    edge: &Edge,
) -> Result<Declared, NoMemory>
    requires { IsStrictlySortedBy bytes_cmp names.old.keys }
    ensures new { IfOk result (λ _.
        NewNames base.now (λ n. (n ≡ edge.now.from) ⊎ (edge.now.to ≡ node n))
        names.old.keys names.new.keys) }
    ensures undone { IfOk result (λ declared. without edge.now.from declared.start
        (without_end edge.now.to declared.end names.new.keys) ≡ names.old.keys) }
    ensures ordered { IfOk result (λ _. IsStrictlySortedBy bytes_cmp names.new.keys) }
    ensures kept { OnErr result (names.new.keys ≡ names.old.keys) }
{
    let start = add_name(alloc, base, names, &edge.from)?;
    match add_end(alloc, base, names, &edge.to) {
        Ok(end) => Ok(Declared { start, end }),
        Err(error) => {
            forget_name(names, &edge.from, start);
            Err(error)
        }
    }
}

// Adds the node of a member. On `Err` nothing has changed.
fn declare_node(
    alloc: Global,
    base: &IndexStore,
    names: &mut BTreeSet<Str>,
    name: &Str,
) -> Result<Declared, NoMemory>
    requires { IsStrictlySortedBy bytes_cmp names.old.keys }
    ensures new { IfOk result (λ _.
        NewNames base.now (λ n. n ≡ name.now) names.old.keys names.new.keys) }
    ensures undone { IfOk result (λ declared.
        without name.now declared.start names.new.keys ≡ names.old.keys) }
    ensures ordered { IfOk result (λ _. IsStrictlySortedBy bytes_cmp names.new.keys) }
    ensures kept { OnErr result (names.new.keys ≡ names.old.keys) }
{
    let start = add_name(alloc, base, names, name)?;
    Ok(Declared { start, end: false })
}

/// Adds the nodes that an edit declares and the store does not. On `Err` nothing has changed.
pub(crate) fn declare(
    alloc: Global,
    base: &IndexStore,
    names: &mut BTreeSet<Str>,
    edit: &Edit,
) -> Result<Declared, NoMemory>
    requires { IsStrictlySortedBy bytes_cmp names.old.keys }
    ensures new { IfOk result (λ _.
        NewNames base.now (IsNodeOf edit.now) names.old.keys names.new.keys) }
    ensures undone { IfOk result (λ declared.
        restored edit.now declared names.new.keys ≡ names.old.keys) }
    ensures ordered { IfOk result (λ _. IsStrictlySortedBy bytes_cmp names.new.keys) }
    ensures kept { OnErr result (names.new.keys ≡ names.old.keys) }
{
    match edit {
        Edit::Add(edge) => declare_ends(alloc, base, names, edge),
        Edit::Enter(member) => declare_node(alloc, base, names, &member.node),
        Edit::Remove(_) | Edit::Leave(_) => Ok(Declared {
            start: false,
            end: false,
        }),
    }
}

/// Takes out again what was added.
pub(crate) fn forget(names: &mut BTreeSet<Str>, edit: &Edit, declared: Declared)
    ensures { names.new.keys ≡ restored edit.now declared names.old.keys }
{
    match edit {
        Edit::Add(edge) => {
            forget_end(names, &edge.to, declared.end);
            forget_name(names, &edge.from, declared.start);
        }
        Edit::Enter(member) => forget_name(names, &member.node, declared.start),
        Edit::Remove(_) | Edit::Leave(_) => {}
    }
}
