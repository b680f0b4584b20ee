//! Looks through lists: all items, or the part of an ordered list that a query picks.
#![tactic(auto)]

ghost use Rattle.std.specs.Prelude.{◌≡◌, ◌↔◌, IfOk, IsTrue, true, length, map, take};
ghost use Rattle.std.specs.Ordering.{is_eq};
ghost use Rattle.std.specs.declared.cmp.Ordering.{Ordering};
ghost use Rattle.list_lookup.specs.Picked.{in_place, picked, IsPlaced, passes, EndsAt, EndsBy, HasOne};

use sd_value::NoMemory;
use std::alloc::Global;
use std::cmp::Ordering;

/// A query over items of a list. It has a place in their order, and gives something of each item there.
pub trait Query<T> {
    type Given;

    ghost at: { Self → T → Ordering };

    ghost gives: { T → Self.Given };

    /// Where the item lies: below the query's place, in it, or above it.
    fn place(&self, item: &T) -> Ordering
        ensures { result ≡ at self.now item.now };

    /// What the query gives of an item.
    fn give(&self, alloc: Global, item: &T) -> Result<Self::Given, NoMemory>
        ensures { IfOk result (λ given. given ≡ gives item.now) };
}

/// What the query picks from items in any order.
pub fn scan<T, Q: Query<T>>(
    alloc: Global,
    items: &[T],
    query: &Q,
) -> Result<Vec<Q::Given>, NoMemory>
where
    Q::Given: Drop,
    ensures { IfOk result (λ found. found.items ≡ picked (Q.at query.now) Q.gives items.now) }
{
    let mut found = Vec::new(alloc);
    for item in items {
        if query.place(item).is_eq() {
            found.push(query.give(alloc, item)?)?;
        }
    }
    Ok(found)
}

/// How many items lie in the query's place, in any order.
pub fn count<T, Q: Query<T>>(items: &[T], query: &Q) -> u64
    ensures { result ≡ length (in_place (Q.at query.now) items.now) }
{
    let mut number = 0;
    for item in items {
        if query.place(item).is_eq() {
            number += 1;
        }
    }
    number
}

/// The items in the query's place, of items that are ordered by it. Where they start is found by halves, and where they
/// end by doubling from there, so that a short part costs one search.
pub fn part<'a, T, Q: Query<T>>(items: &'a [T], query: &Q) -> &'a [T]
    requires { IsPlaced (Q.at query.now) items.now }
    ensures { result.now ≡ in_place (Q.at query.now) items.now }
{
    let start = first_past(items, query, false);
    let rest = &items[start..];
    let near = reach(rest, query);
    let end = first_past(&rest[..near], query, true);
    &rest[..end]
}

// A length from which on no item is below the query's place or in it: at most twice as many as are, and one.
fn reach<T, Q: Query<T>>(items: &[T], query: &Q) -> usize
    requires { IsPlaced (Q.at query.now) items.now }
    ensures { EndsBy (λ item. passes true (Q.at query.now item)) items.now result }
{
    let mut near = 1;
    while near < items.len() {
        if !is_passed(query.place(&items[near]), true) {
            return near;
        }
        near = near.saturating_mul(2);
    }
    items.len()
}

// Where the items end that are below the query's place, or those in it too.
fn first_past<T, Q: Query<T>>(items: &[T], query: &Q, through: bool) -> usize
    requires { IsPlaced (Q.at query.now) items.now }
    ensures { EndsAt (λ item. passes through (Q.at query.now item)) items.now result }
{
    let mut low = 0;
    let mut high = items.len();
    while low < high {
        let middle = low + (high - low) / 2;
        if is_passed(query.place(&items[middle]), through) {
            low = middle + 1;
        } else {
            high = middle;
        }
    }
    low
}

fn is_passed(order: Ordering, through: bool) -> bool
    ensures { result ≡ passes through order }
{
    order.is_lt() || through && order.is_eq()
}

/// The first items, at most `most`.
pub fn first<T>(items: &[T], most: usize) -> &[T]
    ensures { result.now ≡ take most items.now }
{
    if most < items.len() {
        &items[..most]
    } else {
        items
    }
}

/// What the query gives of each item.
pub fn give_all<T, Q: Query<T>>(
    alloc: Global,
    items: &[T],
    query: &Q,
) -> Result<Vec<Q::Given>, NoMemory>
where
    Q::Given: Drop,
    ensures { IfOk result (λ given. given.items ≡ map Q.gives items.now) }
{
    let mut given = Vec::with_capacity(alloc, items.len())?;
    for item in items {
        given.push(query.give(alloc, item)?)?;
    }
    Ok(given)
}

/// Whether an item lies in the query's place, of items in any order.
pub fn any<T, Q: Query<T>>(items: &[T], query: &Q) -> bool
    ensures { IsTrue result ↔ HasOne (Q.at query.now) items.now }
{
    for item in items {
        if query.place(item).is_eq() {
            return true;
        }
    }
    false
}

/// Whether an item lies in the query's place, of items that are ordered by it.
pub fn has<T, Q: Query<T>>(items: &[T], query: &Q) -> bool
    requires { IsPlaced (Q.at query.now) items.now }
    ensures { IsTrue result ↔ HasOne (Q.at query.now) items.now }
{
    !part(items, query).is_empty()
}
