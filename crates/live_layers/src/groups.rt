// Items by what they belong to.
ghost use Rattle.std.specs.Prelude.{◌≡◌, OnOk, IfOk, OnErr, IfSome, IfNone, [], false};
ghost use Rattle.std.specs.BTreeMap.{is_at, keys};
ghost use Rattle.std.specs.BTreeSet.{insert_key};
ghost use Rattle.std.specs.Set.{remove_key};
ghost use Rattle.std.specs.List.Sorted.{IsStrictlySortedBy};
ghost use Rattle.live_layers.specs.Grouped.{group};

use sd_value::{Copied, NoMemory};
use std::alloc::Global;
use std::collections::{BTreeMap, BTreeSet};

/// Items by what they belong to, each group in order. A group that was emptied is as one that never was.
#[derive(Debug, Drop)]
pub(crate) struct Groups<K: Ord, E: Ord> {
    pub(crate) of: BTreeMap<K, BTreeSet<E>>,
}

impl<K: Copied, E: Copied> Groups<K, E> {
    /// No items.
    pub(crate) fn new(alloc: Global) -> Groups<K, E>
        ensures { (k : K) → group K.cmp result k ≡ [] }
    {
        Groups {
            of: BTreeMap::new(alloc),
        }
    }

    /// One more item of a group. On `Err` each group is what it was.
    pub(crate) fn put(&mut self, alloc: Global, key: &K, item: &E) -> Result<(), NoMemory>
        ensures here { OnOk result (group K.cmp self.new key.now
            ≡ insert_key E.cmp (group K.cmp self.old key.now) item.now) }
        ensures others { (k : K) → is_at (K.cmp key.now) k ≡ false
            → group K.cmp self.new k ≡ group K.cmp self.old k }
        ensures kept { OnErr result
            (group K.cmp self.new key.now ≡ group K.cmp self.old key.now) }
    {
        let copied = item.copied(alloc)?;
        let items = self
            .of
            .entry(key.copied(alloc)?)?
            .or_insert(BTreeSet::new(alloc));
        items.insert(copied)?;
        Ok(())
    }

    /// One item of a group less.
    pub(crate) fn take(&mut self, key: &K, item: &E)
        ensures here { group K.cmp self.new key.now
            ≡ remove_key (is_at (E.cmp item.now)) (group K.cmp self.old key.now) }
        ensures others { (k : K) → is_at (K.cmp key.now) k ≡ false
            → group K.cmp self.new k ≡ group K.cmp self.old k }
        ensures ascend { IsStrictlySortedBy E.cmp (group K.cmp self.old key.now) }
    {
        if let Some(items) = self.of.get_mut(key) {
            // With its size a set says that it is in order.
            let _size = items.len();
            items.remove(item);
        }
    }

    /// The items of a group, if there are any.
    pub(crate) fn at(&self, key: &K) -> Option<&BTreeSet<E>>
        ensures some { IfSome result (λ items. items.now.keys ≡ group K.cmp self.now key.now) }
        ensures none { IfNone result (group K.cmp self.now key.now ≡ []) }
        ensures ascend { IsStrictlySortedBy E.cmp (group K.cmp self.now key.now) }
    {
        match self.of.get(key) {
            Some(items) => {
                // With its size a set says that it is in order.
                let _size = items.len();
                Some(items)
            }
            None => None,
        }
    }

    /// What the groups are found by.
    pub(crate) fn keys(&self, alloc: Global) -> Result<Vec<K>, NoMemory>
        ensures { IfOk result (λ found. found.items ≡ keys self.now.of) }
    {
        let mut found = Vec::with_capacity(alloc, self.of.len())?;
        for key in self.of.keys() {
            found.push(key.copied(alloc)?)?;
        }
        Ok(found)
    }
}
