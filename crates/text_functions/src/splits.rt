//! The parts of a text around another one.
ghost use Rattle.std.specs.Prelude.{◌<◌, IfOk, OnOk, length};
ghost use Rattle.sd_value.specs.Ascending.{ListsExactly};
ghost use Rattle.sd_value.specs.Gathered.{Gathered};
ghost use Rattle.sd_value.specs.Order.{value_cmp};
ghost use Rattle.function_spec.specs.declared.Function.TheVariants.{Split};
ghost use Rattle.function_spec.specs.Functions.{Gives, OfTexts, IsFilledText};
ghost use Rattle.function_spec.specs.Words.{trim};
ghost use Rattle.text_functions.specs.Told.{Adds};

use crate::cuts::parts;
use crate::results::{filled_value, two_texts};
use crate::words::trim;
use sd_value::{NoMemory, Value, sort_and_dedup};
use std::alloc::Global;

// The trimmed part, if something is left of it.
fn push_trimmed(alloc: Global, part: &str, values: &mut Vec<Value>) -> Result<(), NoMemory>
    ensures { OnOk result (Adds (IsFilledText (trim part.now)) values.old.items values.new.items) }
{
    let trimmed = trim(alloc, part.as_bytes())?;
    let Some(value) = filled_value(alloc, trimmed.as_slice())? else {
        return Ok(());
    };
    values.push(value)?;
    Ok(())
}

// The trimmed parts, without empty ones.
fn trimmed_values(alloc: Global, parts: &[&str]) -> Result<Vec<Value>, NoMemory>
    ensures { IfOk result (λ vs.
        Gathered (λ p v. IsFilledText (trim p.now) v) parts.now vs.items) }
{
    let mut values = Vec::new(alloc);
    for part in parts {
        push_trimmed(alloc, part, &mut values)?;
    }
    Ok(values)
}

fn split_in(alloc: Global, text: &str, part: &str) -> Result<Vec<Value>, NoMemory>
    requires { 0 < length part.now }
    ensures { IfOk result (λ vs.
        ListsExactly value_cmp (OfTexts Split (text.now, part.now)) vs.items) }
{
    let found = parts(alloc, text, part)?;
    let mut values = trimmed_values(alloc, found.as_slice())?;
    sort_and_dedup(&mut values);
    Ok(values)
}

/// The different parts of the first text around each of the second in it, trimmed, in the order of values.
pub fn split(alloc: Global, values: &[Value]) -> Result<Vec<Value>, NoMemory>
    ensures { IfOk result (λ vs. ListsExactly value_cmp (Gives Split values.now) vs.items) }
{
    let nothing = Vec::new(alloc);
    let Some((text, part)) = two_texts(alloc, values)? else {
        return Ok(nothing);
    };
    if part.as_str().is_empty() {
        return Ok(nothing);
    }
    let found = split_in(alloc, text.as_str(), part.as_str())?;
    Ok(found)
}
