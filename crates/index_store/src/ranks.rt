// Items by numbers: where each distinct one first is, in order, and the rank of each among them.
ghost use Rattle.std.specs.Prelude.{◌≡◌, ◌≢◌, ◌<◌, ◌≤◌, ◌^◌, ◌%◌, ◌∷◌, ◌++◌, [], ℕ, Some, IfOk, OnOk, All, Contains};
ghost use Rattle.std.specs.Prelude.{length, map, slice_get, slice_index, refl, if◌then◌else◌};
ghost use Rattle.std.specs.Ordering.{eq_by_cmp, as_partial_cmp, nat_cmp};
ghost use Rattle.std.specs.Cmp.{partial_equiv_from_equiv, eq_by_cmp_equiv};
ghost use Rattle.std.specs.Cmp.{partial_order_from_agreeing_total};
ghost use Rattle.sd_value.specs.Ascending.{ListsExactly};
ghost use Rattle.index_store.specs.Ranks.{targets, rank_cmp, keyed_cmp, keyed_cmp-total};
ghost use Rattle.index_store.specs.Ranks.{IsInOrder, IsMerged, AreApart, AreFirsts, AreRanks, AreKeyed, AreJoined};

use indexmap::IndexSet;
use sd_value::{ExactOrd, NoMemory};
use std::alloc::Global;
use std::cmp::Ordering;
use std::hash::Hash;

/// The places where each distinct item first is, in the items' order, and each item's rank among these.
#[derive(Debug, Drop)]
pub(crate) struct Ranked {
    pub firsts: Vec<u32>,
    pub ranks: Vec<u32>,
}

// The places where each distinct item first is, and for each item that of the first equal one.
#[derive(Debug, Drop)]
struct Firsts {
    firsts: Vec<u32>,
    originals: Vec<u32>,
}

// The number of an item in a set, and whether it is new there.
fn number_of<'a, K: ExactOrd + Hash>(
    set: &mut IndexSet<&'a K>,
    item: &'a K,
) -> Result<(usize, bool), NoMemory>
    ensures keys { IfOk result (λ r. targets set.new.keys
        ≡ (if r.1 then targets set.old.keys ++ item.now ∷ [] else targets set.old.keys)) }
    ensures number { IfOk result (λ r. slice_get (targets set.new.keys) r.0 ≡ Some item.now) }
    ensures apart { IfOk result (λ _. AreApart (targets set.new.keys)) }
{
    Ok(set.insert_full(item)?)
}

// One more place, if its item is new.
fn push_if(places: &mut Vec<u32>, place: u32, is_new: bool) -> Result<(), NoMemory>
    ensures { OnOk result (places.new.items
        ≡ (if is_new then places.old.items ++ place ∷ [] else places.old.items)) }
{
    if is_new {
        places.push(place)?;
    }
    Ok(())
}

// Looks each item up once.
fn first_places<K: ExactOrd + Hash>(alloc: Global, items: &[&K]) -> Result<Firsts, NoMemory>
    requires { length items.now < 2 ^ 32 }
    ensures { IfOk result (λ f. AreFirsts (targets items.now) f.firsts.items f.originals.items) }
{
    let mut set = IndexSet::new(alloc);
    let mut firsts = Vec::new(alloc);
    let mut originals = Vec::with_capacity(alloc, items.len())?;
    for place in 0..items.len() {
        let (number, is_new) = number_of(&mut set, items[place])?;
        push_if(&mut firsts, place as u32, is_new)?;
        originals.push(firsts[number])?;
    }
    Ok(Firsts { firsts, originals })
}

// An item and its place, in the order of the items and then of the places.
#[derive(Debug, Drop)]
struct Keyed<'a, K> {
    key: &'a K,
    place: u32,
}

impl<'a, K: ExactOrd> PartialEq for Keyed<'a, K> {
    ghost eq = { eq_by_cmp (keyed_cmp K.cmp) };

    ghost laws = { partial_equiv_from_equiv (eq_by_cmp_equiv (keyed_cmp-total K.total)) };

    fn eq(&self, other: &Keyed<'a, K>) -> bool {
        self.cmp(other).is_eq()
    }
}

impl<'a, K: ExactOrd> Eq for Keyed<'a, K> {
    ghost laws = { eq_by_cmp_equiv (keyed_cmp-total K.total) };
}

impl<'a, K: ExactOrd> PartialOrd for Keyed<'a, K> {
    ghost partial_cmp = { as_partial_cmp (keyed_cmp K.cmp) };

    ghost laws = { partial_order_from_agreeing_total (keyed_cmp K.cmp) (keyed_cmp-total K.total)
        (λ a b. refl) (λ a b. refl) };

    fn partial_cmp(&self, other: &Keyed<'a, K>) -> Option<Ordering> {
        Some(self.cmp(other))
    }
}

impl<'a, K: ExactOrd> Ord for Keyed<'a, K> {
    ghost cmp = { keyed_cmp K.cmp };

    ghost total = { keyed_cmp-total K.total };

    ghost matches_partial_cmp = { λ a b. refl };

    ghost matches_eq = { λ a b. refl };

    fn cmp(&self, other: &Keyed<'a, K>) -> Ordering {
        self.key.cmp(other.key).then(self.place.cmp(&other.place))
    }
}

// The items at the places, in their order.
fn with_keys<'a, K: ExactOrd>(
    alloc: Global,
    items: &[&'a K],
    places: &[u32],
) -> Result<Vec<Keyed<'a, K>>, NoMemory>
    requires { All (λ i. i < length items.now) places.now }
    ensures { IfOk result (λ keyed. AreKeyed (targets items.now) places.now keyed.items) }
{
    let mut keyed = Vec::with_capacity(alloc, places.len())?;
    for place in places {
        keyed.push(Keyed {
            key: items[*place as usize],
            place: *place,
        })?;
    }
    Ok(keyed)
}

// Makes the items strictly ascending. Of those that tie one is left. A sort of few runs is a matter of merging them.
fn merge_sort<T: Ord + Drop>(items: &mut Vec<T>) -> Result<(), NoMemory>
    ensures { OnOk result (IsMerged T.cmp items.old.items items.new.items) }
{
    items.sort()?;
    items.dedup();
    Ok(())
}

fn places_of<'a, K>(alloc: Global, keyed: &[Keyed<'a, K>]) -> Result<Vec<u32>, NoMemory>
    ensures { IfOk result (λ places. places.items ≡ map (λ k. k.place) keyed.now) }
{
    let mut places = Vec::with_capacity(alloc, keyed.len())?;
    for one in keyed {
        places.push(one.place)?;
    }
    Ok(places)
}

// The places in the order of the items there.
fn in_order<K: ExactOrd>(alloc: Global, items: &[&K], places: &[u32]) -> Result<Vec<u32>, NoMemory>
    requires { All (λ i. i < length items.now) places.now }
    ensures { IfOk result
        (λ order. IsInOrder K.cmp (targets items.now) places.now order.items) }
{
    let mut keyed = with_keys(alloc, items, places)?;
    merge_sort(&mut keyed)?;
    places_of(alloc, keyed.as_slice())
}

// For each number that is in the list, where it is there. The list is of numbers below `count`.
fn inverse(alloc: Global, order: &[u32], count: usize) -> Result<Vec<u32>, NoMemory>
    requires fits { All (λ i. i < count) order.now }
    requires small { length order.now ≤ 2 ^ 32 }
    requires apart { (a b : ℕ) → a < b → b < length order.now
        → slice_index order.now a ≢ slice_index order.now b }
    ensures long { IfOk result (λ ranks. length ranks.items ≡ count) }
    ensures back { IfOk result (λ ranks. (r : ℕ) → r < length order.now
        → slice_index ranks.items (slice_index order.now r) ≡ r) }
{
    let mut ranks = Vec::from_elem(alloc, 0u32, count)?;
    for rank in 0..order.len() {
        ranks[order[rank] as usize] = rank as u32;
    }
    Ok(ranks)
}

/// The numbers at the places of a list.
pub(crate) fn at_places(
    alloc: Global,
    numbers: &[u32],
    places: &[u32],
) -> Result<Vec<u32>, NoMemory>
    requires { All (λ k. k < length numbers.now) places.now }
    ensures { IfOk result (λ chosen. chosen.items ≡ map (slice_index numbers.now) places.now) }
{
    let mut chosen = Vec::with_capacity(alloc, places.len())?;
    for place in places {
        chosen.push(numbers[*place as usize])?;
    }
    Ok(chosen)
}

/// The distinct items in order, by where each first is, and the rank of each item.
pub(crate) fn ranks_of<K: ExactOrd + Hash>(alloc: Global, items: &[&K]) -> Result<Ranked, NoMemory>
    requires { length items.now < 2 ^ 32 }
    ensures { IfOk result
        (λ r. AreRanks K.cmp (targets items.now) r.firsts.items r.ranks.items) }
{
    let found = first_places(alloc, items)?;
    let firsts = in_order(alloc, items, found.firsts.as_slice())?;
    let inverse = inverse(alloc, firsts.as_slice(), items.len())?;
    let ranks = at_places(alloc, inverse.as_slice(), found.originals.as_slice())?;
    Ok(Ranked { firsts, ranks })
}

// The rank of each place of a list and behind it the place, as one number.
fn joined(alloc: Global, ranks: &[u32]) -> Result<Vec<u64>, NoMemory>
    requires { length ranks.now ≤ 2 ^ 32 }
    ensures joined { IfOk result
        (λ joined. AreJoined ranks.now (length ranks.now) joined.items) }
    ensures long { IfOk result (λ joined. length joined.items ≡ length ranks.now) }
{
    let mut joined = Vec::with_capacity(alloc, ranks.len())?;
    for place in 0..ranks.len() {
        joined.push(ranks[place] as u64 * 0x1_0000_0000 + place as u64)?;
    }
    Ok(joined)
}

// The numbers in order, each once.
fn sort_numbers(numbers: &mut Vec<u64>)
    ensures sorted { ListsExactly nat_cmp (Contains numbers.old.items) numbers.new.items }
    ensures short { length numbers.new.items ≤ length numbers.old.items }
{
    numbers.sort_unstable();
    numbers.dedup();
}

// The places that are in joined numbers.
fn joined_places(alloc: Global, joined: &[u64]) -> Result<Vec<u32>, NoMemory>
    ensures { IfOk result (λ places. places.items ≡ map (λ j. j % 4294967296) joined.now) }
{
    let mut places = Vec::with_capacity(alloc, joined.len())?;
    for number in joined {
        places.push((*number % 0x1_0000_0000) as u32)?;
    }
    Ok(places)
}

/// The places of a list of ranks: by rank, and then as they are.
pub(crate) fn by_rank(alloc: Global, ranks: &[u32]) -> Result<Vec<u32>, NoMemory>
    requires { length ranks.now ≤ 2 ^ 32 }
    ensures order { IfOk result (λ order.
        ListsExactly (rank_cmp ranks.now) (λ i. i < length ranks.now) order.items) }
    ensures short { IfOk result (λ order. length order.items ≤ length ranks.now) }
{
    let mut joined = joined(alloc, ranks)?;
    sort_numbers(&mut joined);
    joined_places(alloc, joined.as_slice())
}
