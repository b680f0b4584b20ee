// Sets that are put in order late.
ghost use Rattle.std.specs.Prelude.{◌≡◌, ◌≤◌, ◌<◌, IfOk, OnOk, [], length, Contains, if◌then◌else◌};
ghost use Rattle.std.specs.Result.{is_ok};
ghost use Rattle.std.specs.BTreeSet.{insert_key};
ghost use Rattle.std.specs.List.Sorted.{IsStrictlySortedBy};
ghost use Rattle.sd_value.specs.Ascending.{ListsExactly};
ghost use Rattle.sd_graph.specs.Gathered.{elements, insert_all, IsInOrder, IsSettled};

use sd_value::{Copied, NoMemory, copied_list};
use std::alloc::Global;
use std::collections::BTreeSet;

// How far back a new element is moved to its place among the latest.
const NEAR: usize = 8;

/// A set whose elements are only collected at first. They are put in order at the end, or once their number matters:
/// sorting runs that are in order nearly costs less than a search for each element.
#[derive(Debug, Drop)]
pub(crate) struct Gathered<K: Ord> {
    pub(crate) ordered: BTreeSet<K>,
    /// What came since, with repeats, roughly in order.
    fresh: Vec<K>,
}

// Where a new element goes, so that those which come together are in order: behind the last element near the end that
// isn't above it. Where there is none it begins a new run at the end.
fn place<K: Copied>(items: &[K], key: &K) -> usize
    ensures { result ≤ length items.now }
{
    let nearest = items.len().saturating_sub(NEAR);
    let mut at = items.len();
    'places: while nearest < at {
        if key.cmp(&items[at - 1]).is_ge() {
            return at;
        }
        at -= 1;
    }
    items.len()
}

// The elements of a list, ascending, each once.
fn ascending<K: Copied>(items: Vec<K>) -> Result<Vec<K>, NoMemory>
    ensures { IfOk result (λ list. ListsExactly K.cmp (Contains items.items) list.items) }
{
    let mut list = items;
    list.sort()?;
    list.dedup();
    Ok(list)
}

// The elements of a set, ascending.
fn listed<K: Copied>(alloc: Global, set: BTreeSet<K>) -> Result<Vec<K>, NoMemory>
    ensures { IfOk result (λ items. items.items ≡ set.keys) }
{
    let mut items = Vec::with_capacity(alloc, set.len())?;
    for key in set {
        items.push(key)?;
    }
    Ok(items)
}

// Inserts copies of these elements, on `Err` some of them.
fn insert_copies<K: Copied>(
    alloc: Global,
    ordered: &mut BTreeSet<K>,
    fresh: &[K],
) -> Result<(), NoMemory>
    requires { IsStrictlySortedBy K.cmp ordered.old.keys }
    ensures all { OnOk result (ordered.new.keys ≡ insert_all K.cmp ordered.old.keys fresh.now) }
    ensures some { insert_all K.cmp ordered.new.keys fresh.now
        ≡ insert_all K.cmp ordered.old.keys fresh.now }
{
    for key in fresh {
        ordered.insert(key.copied(alloc)?)?;
    }
    Ok(())
}

// An equal set.
fn copied<K: Copied>(alloc: Global, set: &BTreeSet<K>) -> Result<BTreeSet<K>, NoMemory>
    ensures { IfOk result (λ copied. copied.keys ≡ set.now.keys) }
{
    let mut copied = BTreeSet::new(alloc);
    for key in set.iter() {
        copied.insert(key.copied(alloc)?)?;
    }
    Ok(copied)
}

impl<K: Copied> Gathered<K> {
    /// The empty set.
    pub(crate) fn new(alloc: Global) -> Gathered<K>
        ensures { elements K.cmp result ≡ [] }
    {
        Gathered {
            ordered: BTreeSet::new(alloc),
            fresh: Vec::new(alloc),
        }
    }

    /// A number that there are no more elements than, unless it is the largest. It is found without a look at them.
    pub(crate) fn at_most(&self) -> u64
        ensures bound { result < u64.MAX → length (elements K.cmp self.now) ≤ result }
        ensures ordered { IsInOrder K.cmp self.now }
    {
        (self.ordered.len() as u64).saturating_add(self.fresh.len() as u64)
    }

    /// Adds an element. On `Err` nothing has changed.
    pub(crate) fn push(&mut self, key: K) -> Result<(), NoMemory>
        requires { IsInOrder K.cmp self.old }
        ensures { elements K.cmp self.new
            ≡ (if is_ok result then insert_key K.cmp (elements K.cmp self.old) key
            else elements K.cmp self.old) }
    {
        let at = place(self.fresh.as_slice(), &key);
        self.fresh.insert(at, key)?;
        Ok(())
    }

    /// Puts all elements in order. The set stays what it is, also on `Err`.
    pub(crate) fn settle(&mut self, alloc: Global) -> Result<(), NoMemory>
        requires { IsInOrder K.cmp self.old }
        ensures same { elements K.cmp self.new ≡ elements K.cmp self.old }
        ensures settled { OnOk result (IsSettled self.new) }
    {
        insert_copies(alloc, &mut self.ordered, self.fresh.as_slice())?;
        self.fresh.clear();
        Ok(())
    }

    /// An equal set. Its texts share their bytes with this one's.
    pub(crate) fn copy(&self, alloc: Global) -> Result<Gathered<K>, NoMemory>
        ensures { IfOk result (λ copied. elements K.cmp copied ≡ elements K.cmp self.now) }
    {
        let ordered = copied(alloc, &self.ordered)?;
        let fresh = copied_list(alloc, self.fresh.as_slice())?;
        Ok(Gathered { ordered, fresh })
    }

    /// The elements, ascending.
    pub(crate) fn into_list(self, alloc: Global) -> Result<Vec<K>, NoMemory>
        ensures { IfOk result (λ list. list.items ≡ elements K.cmp self) }
    {
        let mut set = self;
        if set.ordered.len() == 0 {
            let list = ascending(set.fresh)?;
            return Ok(list);
        }
        set.settle(alloc)?;
        listed(alloc, set.ordered)
    }
}
