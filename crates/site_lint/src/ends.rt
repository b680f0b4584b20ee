//! Ends of the data's edges.

ghost use Rattle.std.specs.Prelude.{◌≡◌, IfOk};
ghost use Rattle.lint_spec.specs.Mistakes.{is_active_value, has_active_end};

use address::is_active;
use graph_spec::Edge;
use sd_value::{Datum, NoMemory, Value};
use std::alloc::Global;

// Whether the value is an active address.
fn is_active_value(alloc: Global, value: &Value) -> Result<bool, NoMemory>
    ensures { IfOk result (λ active. active ≡ is_active_value value.now) }
{
    match value {
        Value::Data(Datum::Url(text)) | Value::Data(Datum::File(text)) => {
            is_active(alloc, text.bytes())
        }
        _ => Ok(false),
    }
}

/// Whether one of the edges ends at an active address.
/// # Errors
/// Out of memory.
pub fn has_active_end(alloc: Global, edges: &[Edge]) -> Result<bool, NoMemory>
    ensures { IfOk result (λ active. active ≡ has_active_end edges.now) }
{
    for edge in edges {
        if is_active_value(alloc, &edge.to)? {
            return Ok(true);
        }
    }
    Ok(false)
}
