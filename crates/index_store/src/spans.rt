// Where the items in the place of a query begin and end.
ghost use Rattle.std.specs.Prelude.{◌≡◌, ◌<◌, ◌≤◌, ◌+◌, ◌-◌, ◌++◌, ◌^◌, true, false, IfOk, All};
ghost use Rattle.std.specs.Prelude.{length, map, take, drop, slice_index_or};
ghost use Rattle.std.specs.List.{AllWithin};
ghost use Rattle.std.specs.List.Sorted.{IsStrictlySortedBy};
ghost use Rattle.sd_value.specs.declared.Value.{Value as AnyValue};
ghost use Rattle.graph_spec.specs.Orders.{edge_cmp, member_cmp};
ghost use Rattle.edge_queries.specs.Ordered.{by_end_cmp, by_label_cmp};
ghost use Rattle.edge_queries.specs.Places.{at_start, at_end, at_label, at_collection};
ghost use Rattle.list_lookup.specs.Picked.{passes, EndsAt, IsPlaced};
ghost use Rattle.index_store.specs.Indexed.{edges_at, AreSpans, IsSpanOf, IsOrder};
ghost use Rattle.index_store.specs.Ranks.{item_at};

use crate::positions::AtPositions;
use edge_queries::{Incoming, Labelled, Members, OutAll};
use list_lookup::Query;
use sd_graph::{Edge, Member};
use sd_value::{NoMemory, Str, Value};
use std::alloc::Global;
use std::cmp::Ordering;

/// A part of a list: from `start` on, before `end`.
#[derive(Clone, Copy, Debug)]
pub(crate) struct Span {
    pub start: u32,
    pub end: u32,
}

/// The items of the span.
pub(crate) fn in_span<'a, T>(items: &'a [T], span: &Span) -> &'a [T]
    requires { (span.now.start ≤ span.now.end) × (span.now.end ≤ length items.now) }
    ensures { result.now ≡ take (span.now.end - span.now.start) (drop span.now.start items.now) }
{
    &items[span.start as usize..span.end as usize]
}

fn is_passed(order: Ordering, through: bool) -> bool
    ensures { result ≡ passes through order }
{
    order.is_lt() || through && order.is_eq()
}

// Where a look for the end of what is below the query's place may begin, or in it too: near, where that is not past it.
fn start_near<T, Q: Query<T>>(items: &[T], near: usize, query: &Q, through: bool) -> usize
    requires { IsPlaced (Q.at query.now) items.now }
    ensures { (result ≤ length items.now)
        × AllWithin (λ item. passes through (Q.at query.now item) ≡ true) items.now 0 result }
{
    if near == 0 || near > items.len() {
        return 0;
    }
    if is_passed(query.place(&items[near - 1]), through) {
        near
    } else {
        0
    }
}

// Where the items end that are below the query's place, or in it too. They are gone through from near on.
fn end_near<T, Q: Query<T>>(items: &[T], near: usize, query: &Q, through: bool) -> usize
    requires { IsPlaced (Q.at query.now) items.now }
    ensures { EndsAt (λ item. passes through (Q.at query.now item)) items.now result }
{
    let mut at = start_near(items, near, query, through);
    while at < items.len() {
        if !is_passed(query.place(&items[at]), through) {
            return at;
        }
        at += 1;
    }
    at
}

// The span of what lies in the query's place. It is looked for from near on.
fn span_near<T, Q: Query<T>>(items: &[T], near: usize, query: &Q) -> Span
    requires placed { IsPlaced (Q.at query.now) items.now }
    requires small { length items.now < 2 ^ 32 }
    ensures { IsSpanOf (Q.at query.now) items.now result }
{
    let start = end_near(items, near, query, false);
    let end = end_near(items, start, query, true);
    Span {
        start: start as u32,
        end: end as u32,
    }
}

/// For each node the span of the edges from it.
pub(crate) fn spans_from(
    alloc: Global,
    nodes: &[Value],
    edges: &[Edge],
) -> Result<Vec<Span>, NoMemory>
    requires ascending { IsStrictlySortedBy edge_cmp edges.now }
    requires small { length edges.now < 2 ^ 32 }
    ensures { IfOk result (λ spans. AreSpans at_start nodes.now edges.now spans.items) }
{
    let mut spans = Vec::with_capacity(alloc, nodes.len())?;
    let mut near = 0;
    for node in nodes {
        let span = span_near(edges, near, &OutAll { from: node });
        near = span.end as usize;
        spans.push(span)?;
    }
    Ok(spans)
}

/// The value at a place among nodes and then edges' ends.
pub(crate) fn value_in<'a>(nodes: &'a [Value], edges: &'a [Edge], place: usize) -> &'a Value
    requires { place < length nodes.now + length edges.now }
    ensures { (d : AnyValue)
        → slice_index_or (nodes.now ++ map (λ e. e.to) edges.now) place d ≡ result.now }
{
    if place < nodes.len() {
        &nodes[place]
    } else {
        &edges[place - nodes.len()].to
    }
}

/// For each of the values at these places the span of the edges to it, of their positions in the order by end.
pub(crate) fn spans_to(
    alloc: Global,
    nodes: &[Value],
    edges: &[Edge],
    places: &[u32],
    by_end: &[u32],
) -> Result<Vec<Span>, NoMemory>
    requires places { All (λ i. i < length nodes.now + length edges.now) places.now }
    requires order { IsOrder by_end_cmp edges.now by_end.now }
    requires small { length by_end.now < 2 ^ 32 }
    ensures { IfOk result (λ spans. (d : AnyValue)
        → AreSpans at_end (map (item_at (nodes.now ++ map (λ e. e.to) edges.now) d) places.now)
        (edges_at edges.now by_end.now) spans.items) }
{
    let mut spans = Vec::with_capacity(alloc, places.len())?;
    let mut near = 0;
    for place in places {
        let to = value_in(nodes, edges, *place as usize);
        let query = Incoming { to };
        let span = span_near(
            by_end,
            near,
            &AtPositions {
                edges,
                query: &query,
            },
        );
        near = span.end as usize;
        spans.push(span)?;
    }
    Ok(spans)
}

/// For each label the span of its edges, of their positions in the order by label.
pub(crate) fn spans_labelled(
    alloc: Global,
    labels: &[Str],
    edges: &[Edge],
    by_label: &[u32],
) -> Result<Vec<Span>, NoMemory>
    requires order { IsOrder by_label_cmp edges.now by_label.now }
    requires small { length by_label.now < 2 ^ 32 }
    ensures { IfOk result (λ spans.
        AreSpans at_label labels.now (edges_at edges.now by_label.now) spans.items) }
{
    let mut spans = Vec::with_capacity(alloc, labels.len())?;
    let mut near = 0;
    for label in labels {
        let query = Labelled { label };
        let span = span_near(
            by_label,
            near,
            &AtPositions {
                edges,
                query: &query,
            },
        );
        near = span.end as usize;
        spans.push(span)?;
    }
    Ok(spans)
}

/// The collections of members, each once where the members are in order.
pub(crate) fn collections_of(alloc: Global, members: &[Member]) -> Result<Vec<Str>, NoMemory> {
    let mut collections = Vec::new(alloc);
    for place in 0..members.len() {
        let collection = &members[place].collection;
        if place == 0 || members[place - 1].collection != *collection {
            collections.push(collection.copy(alloc)?)?;
        }
    }
    Ok(collections)
}

/// For each of the collections the span of its members.
pub(crate) fn spans_collected(
    alloc: Global,
    collections: &[Str],
    members: &[Member],
) -> Result<Vec<Span>, NoMemory>
    requires ascending { IsStrictlySortedBy member_cmp members.now }
    requires small { length members.now < 2 ^ 32 }
    ensures { IfOk result (λ spans.
        AreSpans at_collection collections.now members.now spans.items) }
{
    let mut spans = Vec::with_capacity(alloc, collections.len())?;
    let mut near = 0;
    for collection in collections {
        let span = span_near(members, near, &Members { collection });
        near = span.end as usize;
        spans.push(span)?;
    }
    Ok(spans)
}
