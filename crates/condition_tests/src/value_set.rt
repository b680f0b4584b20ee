// Sets of values, as ascending lists.
ghost use Rattle.std.specs.Prelude.{◌≡◌, ◌↔◌, IsTrue, Contains};
ghost use Rattle.std.specs.List.Sorted.{IsStrictlySortedBy};
ghost use Rattle.sd_value.specs.declared.Value.{Value as AnyValue};
ghost use Rattle.sd_value.specs.Order.{value_cmp};

use sd_value::{Value, sort_and_dedup};
use std::marker::Model;

/// Whether the value is one of ascending ones.
pub fn is_among(values: &[Value], value: &Value) -> bool
    ensures { IsStrictlySortedBy value_cmp values.now
        → IsTrue result ↔ Contains values.now value.now }
{
    values.binary_search(value).is_ok()
}

/// The constants of an `in`, ascending.
#[derive(Drop)]
pub struct ValueSet {
    items: Vec<Value>,
}

impl Model for ValueSet {
    ghost use Rattle.std.specs.Prelude.{List};
    ghost use Rattle.std.specs.List.Sorted.{IsStrictlySortedBy};
    ghost use Rattle.sd_value.specs.declared.Value.{Value as AnyValue};
    ghost use Rattle.sd_value.specs.Order.{value_cmp};

    ghost Value = { List AnyValue };

    ghost view = { λ s. s.items.items };

    ghost invariant = { λ s. IsStrictlySortedBy value_cmp s.items.items };
}

impl ValueSet {
    /// The set of these values.
    pub fn of(items: Vec<Value>) -> ValueSet
        ensures { (v : AnyValue) → Contains result v ↔ Contains items.items v }
    {
        let mut items = items;
        sort_and_dedup(&mut items);
        ValueSet { items }
    }

    /// The values, each once.
    pub fn items(&self) -> &[Value]
        ensures { result.now ≡ self.now }
    {
        self.items.as_slice()
    }

    /// Whether the value is in the set.
    pub fn has(&self, value: &Value) -> bool
        ensures { IsTrue result ↔ Contains self.now value.now }
    {
        is_among(self.items.as_slice(), value)
    }
}
