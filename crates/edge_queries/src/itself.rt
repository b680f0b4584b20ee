// Values and names in ascending lists.
ghost use Rattle.sd_value.specs.Order.{bytes_cmp, value_cmp};

use list_lookup::Query;
use sd_value::{NoMemory, Str, Value, copy};
use std::alloc::Global;
use std::cmp::Ordering;

/// A value in a list of values.
#[derive(Debug, Drop)]
pub struct ValueAt<'a> {
    pub value: &'a Value,
}

impl<'a> Query<Value> for ValueAt<'a> {
    type Given = Value;

    ghost at = { λ q v. value_cmp v q.value.now };

    ghost gives = { λ v. v };

    fn place(&self, item: &Value) -> Ordering {
        item.cmp(self.value)
    }

    fn give(&self, alloc: Global, item: &Value) -> Result<Value, NoMemory> {
        copy(alloc, item)
    }
}

/// A name in a list of names.
#[derive(Debug, Drop)]
pub struct NameAt<'a> {
    pub name: &'a Str,
}

impl<'a> Query<Str> for NameAt<'a> {
    type Given = Str;

    ghost at = { λ q n. bytes_cmp n q.name.now };

    ghost gives = { λ n. n };

    fn place(&self, item: &Str) -> Ordering {
        item.cmp(self.name)
    }

    fn give(&self, alloc: Global, item: &Str) -> Result<Str, NoMemory> {
        item.copy(alloc)
    }
}
