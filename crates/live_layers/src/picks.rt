// Queries over the items of a group.
ghost use Rattle.std.specs.Prelude.{◌≡◌, IfOk, Contains, length};
ghost use Rattle.std.specs.Option.{option_copied};
ghost use Rattle.sd_value.specs.Ascending.{ListsExactly};
ghost use Rattle.list_lookup.specs.Picked.{in_place, picked};
ghost use Rattle.live_layers.specs.Grouped.{elements};

use list_lookup::Query;
use sd_value::{ExactOrd, NoMemory, sort_and_dedup};
use std::alloc::Global;
use std::collections::BTreeSet;

// What the query gives of each item in its place.
fn scan<E: Ord, Q: Query<E>>(
    alloc: Global,
    items: &BTreeSet<E>,
    query: &Q,
) -> Result<Vec<Q::Given>, NoMemory>
where
    Q::Given: Drop,
    ensures { IfOk result (λ found. found.items ≡ picked (Q.at query.now) Q.gives items.now.keys) }
{
    let mut found = Vec::new(alloc);
    for item in items.iter() {
        if query.place(item).is_eq() {
            found.push(query.give(alloc, item)?)?;
        }
    }
    Ok(found)
}

// What the query gives of each item in its place, where there is a group.
fn scan_any<E: Ord, Q: Query<E>>(
    alloc: Global,
    items: Option<&BTreeSet<E>>,
    query: &Q,
) -> Result<Vec<Q::Given>, NoMemory>
where
    Q::Given: Drop,
    ensures { IfOk result (λ found. found.items
        ≡ picked (Q.at query.now) Q.gives (elements (option_copied items.entry))) }
{
    match items {
        Some(items) => scan(alloc, items, query),
        None => Ok(Vec::new(alloc)),
    }
}

/// What the query picks from a group, in order.
pub(crate) fn pick<E: Ord, Q: Query<E>>(
    alloc: Global,
    items: Option<&BTreeSet<E>>,
    query: &Q,
) -> Result<Vec<Q::Given>, NoMemory>
where
    Q::Given: ExactOrd + Drop,
    ensures { IfOk result (λ found. ListsExactly Q.Given.cmp
        (Contains (picked (Q.at query.now) Q.gives (elements (option_copied items.entry))))
        found.items) }
{
    let mut found = scan_any(alloc, items, query)?;
    sort_and_dedup(&mut found);
    Ok(found)
}

// How many items lie in the query's place.
fn count_in<E: Ord, Q: Query<E>>(items: &BTreeSet<E>, query: &Q) -> u64
    ensures { result ≡ length (in_place (Q.at query.now) items.now.keys) }
{
    let mut number = 0;
    for item in items.iter() {
        if query.place(item).is_eq() {
            number += 1;
        }
    }
    number
}

/// How many items of a group lie in the query's place.
pub(crate) fn count<E: Ord, Q: Query<E>>(items: Option<&BTreeSet<E>>, query: &Q) -> u64
    ensures { result
        ≡ length (in_place (Q.at query.now) (elements (option_copied items.entry))) }
{
    match items {
        Some(items) => count_in(items, query),
        None => 0,
    }
}

/// How many items a group has.
pub(crate) fn size<E: Ord>(items: Option<&BTreeSet<E>>) -> u64
    ensures { result ≡ length (elements (option_copied items.entry)) }
{
    match items {
        Some(items) => items.len() as u64,
        None => 0,
    }
}
