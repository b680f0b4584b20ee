// Copies of values and of lists.
ghost use Rattle.std.specs.Prelude.{◌≡◌, IfOk};

use crate::{ExactOrd, NoMemory, Str, Value, copy};
use std::alloc::Global;

/// What an ordered set has, what its groups are found by, or what a list has.
pub trait Copied: ExactOrd + Drop {
    /// An equal one. Its texts share their bytes with this one's.
    fn copied(&self, alloc: Global) -> Result<Self, NoMemory>
        ensures { IfOk result (λ copied. copied ≡ self.now) };
}

impl Copied for Str {
    fn copied(&self, alloc: Global) -> Result<Str, NoMemory> {
        self.copy(alloc)
    }
}

impl Copied for Value {
    fn copied(&self, alloc: Global) -> Result<Value, NoMemory> {
        copy(alloc, self)
    }
}

/// Equal ones in the same order.
pub fn copied_list<K: Copied>(alloc: Global, items: &[K]) -> Result<Vec<K>, NoMemory>
    ensures { IfOk result (λ copied. copied.items ≡ items.now) }
{
    let mut copied = Vec::with_capacity(alloc, items.len())?;
    for item in items {
        copied.push(item.copied(alloc)?)?;
    }
    Ok(copied)
}
