// Lists from which something went and to which something came.
ghost use Rattle.std.specs.Prelude.{◌≡◌, ◌↔◌, ◌⊎◌, ◌≤◌, ◌+◌, ◌-◌, IfOk, IsTrue, Contains, take};
ghost use Rattle.std.specs.BTreeMap.{is_at};
ghost use Rattle.std.specs.List.{list_any};
ghost use Rattle.std.specs.List.Sorted.{IsStrictlySortedBy};
ghost use Rattle.sd_value.specs.Ascending.{ListsExactly};
ghost use Rattle.live_store.specs.Shift.{IsShifted};

use list_lookup::{Query, has};
use sd_value::{ExactOrd, NoMemory, sort_and_dedup};
use std::alloc::Global;
use std::cmp::Ordering;

// One item in a list in its order.
#[derive(Drop)]
struct ItemAt<'a, K> {
    item: &'a K,
}

impl<'a, K: ExactOrd> Query<K> for ItemAt<'a, K> {
    type Given = ();

    ghost at = { λ q x. K.cmp x q.item.now };

    ghost gives = { λ x. tt };

    fn place(&self, item: &K) -> Ordering {
        item.cmp(self.item)
    }

    fn give(&self, _alloc: Global, _item: &K) -> Result<(), NoMemory> {
        Ok(())
    }
}

/// Whether the item is one of a list's in its order.
pub(crate) fn is_among<K: ExactOrd>(items: &[K], item: &K) -> bool
    requires { IsStrictlySortedBy K.cmp items.now }
    ensures is { IsTrue result ↔ Contains items.now item.now }
    ensures test { result ≡ list_any (is_at (K.cmp item.now)) items.now }
{
    has(items, &ItemAt { item })
}

/// The items without those that went, and with those that came. The items and those that went are in their order.
pub(crate) fn shifted<K: ExactOrd + Drop>(
    base: Vec<K>,
    gone: Vec<K>,
    came: Vec<K>,
) -> Result<Vec<K>, NoMemory>
    requires base { IsStrictlySortedBy K.cmp base.items }
    requires gone { IsStrictlySortedBy K.cmp gone.items }
    ensures { IfOk result
        (λ items. ListsExactly K.cmp (IsShifted base.items gone.items came.items) items.items) }
{
    // Most questions are of what no edit touched.
    if gone.is_empty() && came.is_empty() {
        return Ok(base);
    }
    let mut items = base;
    let mut more = came;
    items.retain(
        |item|
            requires { IsStrictlySortedBy K.cmp gone.items }
        { !is_among(gone.as_slice(), item) },
    );
    items.append(&mut more)?;
    sort_and_dedup(&mut items);
    Ok(items)
}

/// The first items, at most `most`.
pub(crate) fn first_of<K: Drop>(items: Vec<K>, most: usize) -> Vec<K>
    ensures { result.items ≡ take most items.items }
{
    let mut items = items;
    items.truncate(most);
    items
}

/// How many are left of a number of which some went, and to which some came: at most `most`.
pub(crate) fn left(most: u64, base: u64, gone: u64, came: u64) -> u64
    requires within { gone ≤ base }
    requires fits { base - gone + came ≤ most }
    ensures { result ≡ base - gone + came }
{
    base - gone + came
}

/// Whether something is there of which it is known whether it was there, went and came.
pub(crate) fn is_left(base: bool, gone: bool, came: bool) -> bool
    ensures { IsTrue result ↔ (IsTrue came ⊎ (IsTrue base × (IsTrue gone → ⊥))) }
{
    came || base && !gone
}
