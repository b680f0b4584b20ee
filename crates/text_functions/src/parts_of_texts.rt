//! Functions of a text and a count, and of a text and one to look for.
ghost use Rattle.std.specs.Prelude.{◌≡◌, ◌<◌, IfOk, length};
ghost use Rattle.function_spec.specs.declared.Function.TheVariants.{First, Last, Rest, Before, After};
ghost use Rattle.function_spec.specs.Functions.{Gives, OfTexts};
ghost use Rattle.text_functions.specs.Told.{Tells};

use crate::characters::{first as first_of, last as last_of, rest as rest_of};
use crate::cuts::cut;
use crate::results::{text_and_count, text_value, two_texts};
use sd_value::{NoMemory, Value};
use std::alloc::Global;

/// The first characters of a text, as many as the second value says.
pub fn first(alloc: Global, values: &[Value]) -> Result<Option<Value>, NoMemory>
    ensures { IfOk result (Tells (Gives First values.now)) }
{
    let Some((text, n)) = text_and_count(alloc, values)? else {
        return Ok(None);
    };
    let made = first_of(text.as_str(), n);
    let value = text_value(alloc, made.as_bytes())?;
    Ok(value)
}

/// The last characters of a text, as many as the second value says.
pub fn last(alloc: Global, values: &[Value]) -> Result<Option<Value>, NoMemory>
    ensures { IfOk result (Tells (Gives Last values.now)) }
{
    let Some((text, n)) = text_and_count(alloc, values)? else {
        return Ok(None);
    };
    let made = last_of(text.as_str(), n);
    let value = text_value(alloc, made.as_bytes())?;
    Ok(value)
}

/// A text without its first characters, as many as the second value says.
pub fn rest(alloc: Global, values: &[Value]) -> Result<Option<Value>, NoMemory>
    ensures { IfOk result (Tells (Gives Rest values.now)) }
{
    let Some((text, n)) = text_and_count(alloc, values)? else {
        return Ok(None);
    };
    let made = rest_of(text.as_str(), n);
    let value = text_value(alloc, made.as_bytes())?;
    Ok(value)
}

fn before_in(alloc: Global, text: &str, part: &str) -> Result<Option<Value>, NoMemory>
    ensures { IfOk result (Tells (OfTexts Before (text.now, part.now))) }
{
    let Some((front, _)) = cut(text, part) else {
        return Ok(None);
    };
    let value = text_value(alloc, front.as_bytes())?;
    Ok(value)
}

fn after_in(alloc: Global, text: &str, part: &str) -> Result<Option<Value>, NoMemory>
    ensures { IfOk result (Tells (OfTexts After (text.now, part.now))) }
{
    let Some((_, back)) = cut(text, part) else {
        return Ok(None);
    };
    let value = text_value(alloc, back.as_bytes())?;
    Ok(value)
}

/// What is before the first of the second text in the first one.
pub fn before(alloc: Global, values: &[Value]) -> Result<Option<Value>, NoMemory>
    ensures { IfOk result (Tells (Gives Before values.now)) }
{
    let Some((text, part)) = two_texts(alloc, values)? else {
        return Ok(None);
    };
    if part.as_str().is_empty() {
        return Ok(None);
    }
    let value = before_in(alloc, text.as_str(), part.as_str())?;
    Ok(value)
}

/// What is after the first of the second text in the first one.
pub fn after(alloc: Global, values: &[Value]) -> Result<Option<Value>, NoMemory>
    ensures { IfOk result (Tells (Gives After values.now)) }
{
    let Some((text, part)) = two_texts(alloc, values)? else {
        return Ok(None);
    };
    if part.as_str().is_empty() {
        return Ok(None);
    }
    let value = after_in(alloc, text.as_str(), part.as_str())?;
    Ok(value)
}
