// The members of a collection in the order of their keys.
ghost use Rattle.std.specs.Prelude.{◌≡◌, IfOk, refl, map, Contains};
ghost use Rattle.std.specs.Ordering.{eq_by_cmp, as_partial_cmp};
ghost use Rattle.std.specs.Cmp.{partial_equiv_from_equiv, eq_by_cmp_equiv};
ghost use Rattle.std.specs.Cmp.{partial_order_from_agreeing_total};
ghost use Rattle.graph_spec.specs.DataGraph.{HasMember, node};
ghost use Rattle.sd_value.specs.Ascending.{ListsExactly};
ghost use Rattle.key_spec.specs.Keys.{keyed_cmp, turned_cmp, folded_text};
ghost use Rattle.order_spec.specs.Order.{in_order, nodes_in};
ghost use Rattle.graph_order.specs.Known.{IsKnown};
ghost use Rattle.sort_keys.specs.Keys.{key_cmp};
ghost use Rattle.graph_order.specs.Keys.{key_by, ranked, ranked_by, down_cmp, ranked_cmp};
ghost use Rattle.order_spec.specs.Read.{order_of};
ghost use Rattle.graph_order.specs.KeyLaws.{ranked_cmp-total, ranked_cmp-exact};

use crate::Order;
use crate::keys::Known;
use sd_graph::{Graph, Member};
use sd_value::{Datum, ExactOrd, NoMemory, Str, Value, sort_and_dedup};
use sort_keys::Key;
use std::alloc::Global;
use std::cmp::Ordering;

/// A member with its key, which counts upwards or downwards.
#[derive(Debug, Drop)]
pub(crate) struct Ranked {
    up: Option<Key>,
    down: Option<Key>,
    node: Str,
}

// What has no key comes last.
fn compare(turned: bool, a: &Option<Key>, b: &Option<Key>) -> Ordering
    ensures { result ≡ keyed_cmp (turned_cmp turned key_cmp) a.now b.now }
{
    match (a, b) {
        (Some(a), Some(b)) => { if turned { b.compare(a) } else { a.compare(b) } }
        (Some(_), None) => Ordering::Less,
        (None, Some(_)) => Ordering::Greater,
        (None, None) => Ordering::Equal,
    }
}

// By the keys that count downwards, ties by node.
fn compare_down(a: &Ranked, b: &Ranked) -> Ordering
    ensures { result ≡ down_cmp a.now b.now }
{
    match compare(true, &a.down, &b.down) {
        Ordering::Less => Ordering::Less,
        Ordering::Equal => a.node.cmp(&b.node),
        Ordering::Greater => Ordering::Greater,
    }
}

impl PartialEq for Ranked {
    ghost eq = { eq_by_cmp ranked_cmp };

    ghost laws = { partial_equiv_from_equiv (eq_by_cmp_equiv ranked_cmp-total) };

    fn eq(&self, other: &Ranked) -> bool {
        self.cmp(other).is_eq()
    }
}

impl Eq for Ranked {
    ghost laws = { eq_by_cmp_equiv ranked_cmp-total };
}

impl PartialOrd for Ranked {
    ghost partial_cmp = { as_partial_cmp ranked_cmp };

    ghost laws = { partial_order_from_agreeing_total ranked_cmp ranked_cmp-total (λ a b. refl)
        (λ a b. refl) };

    fn partial_cmp(&self, other: &Ranked) -> Option<Ordering> {
        Some(self.cmp(other))
    }
}

impl Ord for Ranked {
    ghost cmp = { ranked_cmp };

    ghost total = { ranked_cmp-total };

    ghost matches_partial_cmp = { λ a b. refl };

    ghost matches_eq = { λ a b. refl };

    fn cmp(&self, other: &Ranked) -> Ordering {
        match compare(false, &self.up, &other.up) {
            Ordering::Less => Ordering::Less,
            Ordering::Equal => compare_down(self, other),
            Ordering::Greater => Ordering::Greater,
        }
    }
}

impl ExactOrd for Ranked {
    ghost exact = { ranked_cmp-exact };
}

impl Ranked {
    fn new(descend: bool, key: Option<Key>, node: Str) -> Ranked
        ensures { result ≡ ranked descend key node }
    {
        let (up, down) = if descend { (None, key) } else { (key, None) };
        Ranked { up, down, node }
    }
}

// A member with its key.
fn ranked_member(
    alloc: Global,
    known: &Known<'_>,
    descend: bool,
    name: &Str,
) -> Result<Ranked, NoMemory>
    requires known { IsKnown known.now }
    requires declared { Contains known.now.graph.now.nodes name.now }
    ensures { IfOk result (λ r. r ≡ ranked descend
        (key_by known.now.by_fold known.now.graph.now known.now.word.now (node name.now))
        name.now) }
{
    let value = Value::Data(Datum::Node(name.copy(alloc)?));
    let key = known.of(alloc, &value)?;
    let node = name.copy(alloc)?;
    Ok(Ranked::new(descend, key, node))
}

// The members of the collection with their keys.
fn ranked_members(
    alloc: Global,
    known: &Known<'_>,
    descend: bool,
    collection: &Str,
) -> Result<Vec<Ranked>, NoMemory>
    requires { IsKnown known.now }
    ensures { IfOk result (λ rs. rs.items ≡ map
        (ranked_by descend known.now.by_fold known.now.graph.now known.now.word.now)
        (nodes_in known.now.graph.now collection.now)) }
{
    let mut members = Vec::new(alloc);
    for member in known.graph().member_pairs() {
        if member.collection == *collection {
            members.push(ranked_member(alloc, known, descend, &member.node)?)?;
        }
    }
    Ok(members)
}

// The members without their keys.
fn names_of(alloc: Global, members: &[Ranked]) -> Result<Vec<Str>, NoMemory>
    ensures { IfOk result (λ ns. ns.items ≡ map (λ r. r.node) members.now) }
{
    let mut names = Vec::with_capacity(alloc, members.len())?;
    for member in members {
        names.push(member.node.copy(alloc)?)?;
    }
    Ok(names)
}

/// The members of an ORDER's collection, in the order.
pub(crate) fn members_in_order(
    alloc: Global,
    graph: &Graph,
    order: &Order,
) -> Result<Vec<Str>, NoMemory>
    ensures { IfOk result (λ ns.
        ns.items ≡ in_order folded_text graph.now (order_of order.now)) }
{
    let known = Known::by(alloc, order.fold, graph, order.word.as_slice())?;
    let mut members = ranked_members(alloc, &known, order.descend, &order.collection)?;
    sort_and_dedup(&mut members);
    names_of(alloc, members.as_slice())
}
