// The row of a search that has come to its end.
ghost use Rattle.std.specs.Prelude.{◌≡◌, IfOk};
ghost use Rattle.condition_tests.specs.Known.{known_part};

use query_spec::Row;
use sd_value::{NoMemory, Value, copy};
use std::alloc::Global;

// The row of the values that are known.
pub(crate) fn row_of(alloc: Global, current: &[Option<Value>]) -> Result<Row, NoMemory>
    ensures { IfOk result (λ row. row ≡ known_part current.now) }
{
    let mut values = Vec::with_capacity(alloc, current.len())?;
    for known in current {
        if let Some(value) = known {
            values.push(copy(alloc, value)?)?;
        }
    }
    Ok(Row::new(values))
}
