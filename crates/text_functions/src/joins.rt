//! Texts one after another.
ghost use Rattle.std.specs.Prelude.{◌≡◌, IfOk};
ghost use Rattle.std.specs.Option.{option_map};
ghost use Rattle.std.specs.String.{string_bytes};
ghost use Rattle.function_spec.specs.declared.Function.TheVariants.{Join};
ghost use Rattle.function_spec.specs.Functions.{Gives, joined};
ghost use Rattle.text_functions.specs.Told.{Tells};

use crate::results::text_value;
use sd_value::{NoMemory, Value};
use std::alloc::Global;
use value_texts::text_of;

// The texts of all values, one after another, if all have texts.
fn joined(alloc: Global, values: &[Value]) -> Result<Option<String>, NoMemory>
    ensures { IfOk result (λ r. option_map string_bytes r ≡ joined values.now) }
{
    let mut text = String::new(alloc);
    for value in values {
        let Some(part) = text_of(alloc, value)? else {
            return Ok(None);
        };
        text.push_str(part.as_str())?;
    }
    Ok(Some(text))
}

/// The texts of 2 to 16 values, one after another.
pub fn join(alloc: Global, values: &[Value]) -> Result<Option<Value>, NoMemory>
    ensures { IfOk result (Tells (Gives Join values.now)) }
{
    if values.len() < 2 {
        return Ok(None);
    }
    if values.len() > 16 {
        return Ok(None);
    }
    let Some(text) = joined(alloc, values)? else {
        return Ok(None);
    };
    let value = text_value(alloc, text.as_bytes())?;
    Ok(value)
}
