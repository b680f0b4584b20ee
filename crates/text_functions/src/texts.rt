//! Functions of one text.
ghost use Rattle.std.specs.Prelude.{◌≡◌, ◌<◌, IfOk, length, pos};
ghost use Rattle.function_spec.specs.declared.Function.TheVariants.{Lower, Upper, Fold, Slug, Trim, Length, Number};
ghost use Rattle.function_spec.specs.Functions.{Gives, IsInt};
ghost use Rattle.text_functions.specs.Told.{Tells};

use crate::characters::count;
use crate::folding::fold as folded;
use crate::numbers::number as spelled;
use crate::results::{filled_value, int_value, one_text, text_value};
use crate::words::{dashed, trim as trimmed};
use sd_value::{NoMemory, Value};
use std::alloc::Global;

/// The text of the one value in lower case, if it has one that is not too long.
pub fn lower(alloc: Global, values: &[Value]) -> Result<Option<Value>, NoMemory>
    ensures { IfOk result (Tells (Gives Lower values.now)) }
{
    let Some(text) = one_text(alloc, values)? else {
        return Ok(None);
    };
    let made = text.as_str().to_lowercase(alloc)?;
    let value = text_value(alloc, made.as_bytes())?;
    Ok(value)
}

/// The text of the one value in upper case, if it has one that is not too long.
pub fn upper(alloc: Global, values: &[Value]) -> Result<Option<Value>, NoMemory>
    ensures { IfOk result (Tells (Gives Upper values.now)) }
{
    let Some(text) = one_text(alloc, values)? else {
        return Ok(None);
    };
    let made = text.as_str().to_uppercase(alloc)?;
    let value = text_value(alloc, made.as_bytes())?;
    Ok(value)
}

/// The text of the one value without marks and case, if it has one that is not too long.
pub fn fold(alloc: Global, values: &[Value]) -> Result<Option<Value>, NoMemory>
    ensures { IfOk result (Tells (Gives Fold values.now)) }
{
    let Some(text) = one_text(alloc, values)? else {
        return Ok(None);
    };
    let made = folded(alloc, text.as_str())?;
    let value = text_value(alloc, made.as_bytes())?;
    Ok(value)
}

/// The text of the one value as a slug, if something is left of it.
pub fn slug(alloc: Global, values: &[Value]) -> Result<Option<Value>, NoMemory>
    ensures { IfOk result (Tells (Gives Slug values.now)) }
{
    let Some(text) = one_text(alloc, values)? else {
        return Ok(None);
    };
    let plain = folded(alloc, text.as_str())?;
    let made = dashed(alloc, plain.as_bytes())?;
    let value = filled_value(alloc, made.as_slice())?;
    Ok(value)
}

/// The text of the one value trimmed, if it has one that is not too long.
pub fn trim(alloc: Global, values: &[Value]) -> Result<Option<Value>, NoMemory>
    ensures { IfOk result (Tells (Gives Trim values.now)) }
{
    let Some(text) = one_text(alloc, values)? else {
        return Ok(None);
    };
    let made = trimmed(alloc, text.as_bytes())?;
    let value = text_value(alloc, made.as_slice())?;
    Ok(value)
}

/// How many characters the text of the one value has.
pub fn length(alloc: Global, values: &[Value]) -> Result<Option<Value>, NoMemory>
    ensures { IfOk result (Tells (Gives Length values.now)) }
{
    let Some(text) = one_text(alloc, values)? else {
        return Ok(None);
    };
    let value = count_value(count(text.as_str()));
    Ok(value)
}

// The Int of a count.
fn count_value(count: usize) -> Option<Value>
    ensures { Tells (IsInt (pos count)) result }
{
    match i64::try_from(count) {
        Ok(count) => int_value(count),
        Err(_) => None,
    }
}

/// The number that the text of the one value spells, if it spells one of 64 bits.
pub fn number(alloc: Global, values: &[Value]) -> Result<Option<Value>, NoMemory>
    ensures { IfOk result (Tells (Gives Number values.now)) }
{
    let Some(text) = one_text(alloc, values)? else {
        return Ok(None);
    };
    let digits = trimmed(alloc, text.as_bytes())?;
    let Some(number) = spelled(digits.as_slice()) else {
        return Ok(None);
    };
    Ok(int_value(number))
}
