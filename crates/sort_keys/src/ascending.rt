// Look-ups in ascending values.
ghost use Rattle.std.specs.Prelude.{◌↔◌, IsTrue, Contains};
ghost use Rattle.std.specs.List.Sorted.{IsStrictlySortedBy};
ghost use Rattle.sd_value.specs.Order.{value_cmp};

use sd_value::Value;

/// Whether the value is one of ascending ones.
pub fn is_among(values: &[Value], value: &Value) -> bool
    ensures { IsStrictlySortedBy value_cmp values.now
        → IsTrue result ↔ Contains values.now value.now }
{
    values.binary_search(value).is_ok()
}
