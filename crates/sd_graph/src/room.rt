// Adding an element to one of two sets that have one limit together.
ghost use Rattle.std.specs.Prelude.{◌≡◌, ◌+◌, ◌<◌, ◌^◌, IsTrue, length, if◌then◌else◌};
ghost use Rattle.std.specs.Result.{is_ok};
ghost use Rattle.std.specs.BTreeSet.{insert_key};
ghost use Rattle.sd_graph.specs.Statement.{Fits, Refuses};
ghost use Rattle.sd_graph.specs.Gathered.{elements, IsInOrder, IsSettled};

use crate::gathered::Gathered;
use crate::{GraphRefusal, Limits, over};
use sd_value::Copied;
use std::alloc::{AllocFailed, Global};
use std::collections::BTreeSet;

// Why an element has no room in its set: `nodes` is the number of nodes then, and `others` that of the other set's
// elements. It is looked for only where there is no room for one element more.
fn no_room<K: Copied>(
    limits: Limits,
    nodes: usize,
    set: &BTreeSet<K>,
    others: usize,
    key: &K,
) -> Option<GraphRefusal>
    requires { others < 2 ^ 63 }
    ensures { Refuses limits nodes
        (length (insert_key K.cmp set.now.keys key.now) + others) result }
{
    let size = set.len() as u64 + others as u64;
    if nodes as u64 <= limits.nodes && size < limits.edges {
        return None;
    }
    let more = if set.contains(key) { 0 } else { 1 };
    over(limits, nodes as u64, size + more)
}

// Puts an element into a set that is in order, if there is room. On `Err` nothing has changed.
fn put_ordered<K: Copied>(
    limits: Limits,
    nodes: usize,
    set: &mut BTreeSet<K>,
    others: usize,
    key: K,
) -> Result<(), GraphRefusal>
    requires { others < 2 ^ 63 }
    ensures keys { set.new.keys
        ≡ (if is_ok result then insert_key K.cmp set.old.keys key else set.old.keys) }
    ensures fits { Fits limits nodes (length (insert_key K.cmp set.old.keys key) + others) result }
{
    if let Some(refusal) = no_room(limits, nodes, set, others, &key) {
        return Err(refusal);
    }
    match set.insert(key) {
        Ok(_) => Ok(()),
        Err(AllocFailed { value: _refused }) => Err(GraphRefusal::NoMemory),
    }
}

// Whether two sets are surely below their limit. Only a true answer means something.
fn is_below<K: Copied, J: Copied>(set: &Gathered<K>, others: &Gathered<J>, limit: u64) -> bool
    ensures below { IsTrue result
        → length (elements K.cmp set.now) + length (elements J.cmp others.now) < limit }
    ensures set { IsInOrder K.cmp set.now }
    ensures others { IsInOrder J.cmp others.now }
{
    set.at_most().saturating_add(others.at_most()) < limit
}

// The same for sets that are in order.
fn put_settled<K: Copied, J: Copied>(
    limits: Limits,
    nodes: usize,
    set: &mut Gathered<K>,
    others: &Gathered<J>,
    key: K,
) -> Result<(), GraphRefusal>
    requires set { IsSettled set.old }
    requires others { IsSettled others.now }
    ensures keys { elements K.cmp set.new
        ≡ (if is_ok result then insert_key K.cmp (elements K.cmp set.old) key
        else elements K.cmp set.old) }
    ensures fits { Fits limits nodes
        (length (insert_key K.cmp (elements K.cmp set.old) key) + length
        (elements J.cmp others.now)) result }
{
    put_ordered(limits, nodes, &mut set.ordered, others.ordered.len(), key)
}

/// Puts an element into its set, if there is room for it beside the other set's. `nodes` is the number of nodes then.
/// On `Err` nothing has changed.
pub(crate) fn put<K: Copied, J: Copied>(
    alloc: Global,
    limits: Limits,
    nodes: usize,
    set: &mut Gathered<K>,
    others: &mut Gathered<J>,
    key: K,
) -> Result<(), GraphRefusal>
    ensures others { elements J.cmp others.new ≡ elements J.cmp others.old }
    ensures keys { elements K.cmp set.new
        ≡ (if is_ok result then insert_key K.cmp (elements K.cmp set.old) key
        else elements K.cmp set.old) }
    ensures fits { Fits limits nodes
        (length (insert_key K.cmp (elements K.cmp set.old) key) + length
        (elements J.cmp others.old)) result }
{
    let has_room = is_below(set, others, limits.edges);
    if has_room && nodes as u64 <= limits.nodes {
        set.push(key)?;
        return Ok(());
    }
    set.settle(alloc)?;
    others.settle(alloc)?;
    put_settled(limits, nodes, set, others, key)
}
