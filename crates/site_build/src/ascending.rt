// The items of sets, in their order.
ghost use Rattle.std.specs.Prelude.{◌≡◌, IfOk, Contains};
ghost use Rattle.std.specs.List.{IsDistinct};
ghost use Rattle.sd_value.specs.Ascending.{ListsExactly};

use indexmap::IndexSet;
use sd_value::{ExactOrd, NoMemory};
use std::alloc::Global;
use std::hash::Hash;

fn listed<K: ExactOrd + Hash + Drop>(alloc: Global, set: IndexSet<K>) -> Result<Vec<K>, NoMemory>
    ensures same { IfOk result (λ items. items.items ≡ set.keys) }
    ensures distinct { IfOk result (λ items. IsDistinct K.eq items.items) }
{
    let mut items = Vec::with_capacity(alloc, set.len())?;
    for key in set {
        items.push(key)?;
    }
    Ok(items)
}

/// The items of a set, ascending. They are put in order by a merge of the runs in which they came.
pub(crate) fn ascending<K: ExactOrd + Hash + Drop>(
    alloc: Global,
    set: IndexSet<K>,
) -> Result<Vec<K>, NoMemory>
    ensures { IfOk result (λ items. ListsExactly K.cmp (Contains set.keys) items.items) }
{
    let mut items = listed(alloc, set)?;
    items.sort()?;
    Ok(items)
}
