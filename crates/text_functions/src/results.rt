//! Values that a function gives, and the texts and numbers that it takes.
ghost use Rattle.std.specs.Prelude.{◌≡◌, ◌<◌, ◌≤◌, IfOk, MatchOption, length, pos};
ghost use Rattle.std.specs.Option.{option_map};
ghost use Rattle.std.specs.String.{string_bytes};
ghost use Rattle.value_texts.specs.Texts.{text_of};
ghost use Rattle.function_spec.specs.Functions.{IsText, IsFilledText, IsInt, longest, number_of, count_of, one_text, two, three};
ghost use Rattle.text_functions.specs.Told.{Tells};

use sd_value::{Datum, NoMemory, Str, Value};
use std::alloc::Global;
use value_texts::text_of;

// How many bytes a Text has at most that a function gives.
pub(crate) const LONGEST: usize = 1048576;

/// The Text of these bytes, if they are not too many.
pub(crate) fn text_value(alloc: Global, text: &[u8]) -> Result<Option<Value>, NoMemory>
    ensures { IfOk result (Tells (IsText text.now)) }
{
    if LONGEST < text.len() {
        return Ok(None);
    }
    let text = Str::new(alloc, text)?;
    Ok(Some(Value::Data(Datum::Text(text))))
}

/// The Int.
pub(crate) fn int_value(n: i64) -> Option<Value>
    ensures { Tells (IsInt n) result }
{
    Some(Value::Data(Datum::Int(n)))
}

/// The number of a value: only an Int has one.
pub(crate) fn number_of(value: &Value) -> Option<i64>
    ensures { result ≡ number_of value.now }
{
    match value {
        Value::Data(Datum::Int(n)) => Some(*n),
        _ => None,
    }
}

/// The number of a value that counts something.
pub(crate) fn count_of(value: &Value) -> Option<u64>
    ensures { result ≡ count_of value.now }
{
    let n = number_of(value)?;
    if n < 0 {
        return None;
    }
    Some(n as u64)
}

/// The text of one value.
pub(crate) fn one_text(alloc: Global, values: &[Value]) -> Result<Option<String>, NoMemory>
    ensures { IfOk result (λ r. option_map string_bytes r ≡ one_text values.now) }
{
    let [value] = values else {
        return Ok(None);
    };
    let text = text_of(alloc, value)?;
    Ok(text)
}

/// A text and a count.
pub(crate) fn text_and_count(
    alloc: Global,
    values: &[Value],
) -> Result<Option<(String, u64)>, NoMemory>
    ensures { IfOk result (λ r.
        option_map (λ p. (string_bytes p.0, p.1)) r ≡ two text_of count_of values.now) }
{
    let [value, count] = values else {
        return Ok(None);
    };
    let text = text_of(alloc, value)?;
    Ok(text.zip(count_of(count)))
}

/// Two texts.
pub(crate) fn two_texts(
    alloc: Global,
    values: &[Value],
) -> Result<Option<(String, String)>, NoMemory>
    ensures { IfOk result (λ r.
        option_map (λ p. (string_bytes p.0, string_bytes p.1)) r ≡ two text_of text_of values.now) }
{
    let [value, other] = values else {
        return Ok(None);
    };
    let text = text_of(alloc, value)?;
    let other = text_of(alloc, other)?;
    Ok(text.zip(other))
}

/// Two numbers.
pub(crate) fn two_numbers(values: &[Value]) -> Option<(i64, i64)>
    ensures { result ≡ two number_of number_of values.now }
{
    let [first, second] = values else {
        return None;
    };
    number_of(first).zip(number_of(second))
}

/// The Text of these bytes, if there are some and not too many.
pub(crate) fn filled_value(alloc: Global, text: &[u8]) -> Result<Option<Value>, NoMemory>
    ensures { IfOk result (Tells (IsFilledText text.now)) }
{
    if text.is_empty() {
        return Ok(None);
    }
    let value = text_value(alloc, text)?;
    Ok(value)
}

/// Three texts.
pub(crate) fn three_texts(
    alloc: Global,
    values: &[Value],
) -> Result<Option<((String, String), String)>, NoMemory>
    ensures { IfOk result (λ r.
        option_map (λ p. ((string_bytes p.0.0, string_bytes p.0.1), string_bytes p.1)) r
        ≡ three text_of values.now) }
{
    let [value, other, third] = values else {
        return Ok(None);
    };
    let text = text_of(alloc, value)?;
    let other = text_of(alloc, other)?;
    let third = text_of(alloc, third)?;
    Ok(text.zip(other).zip(third))
}

/// Two texts and a count.
pub(crate) fn two_texts_and_count(
    alloc: Global,
    values: &[Value],
) -> Result<Option<((String, String), u64)>, NoMemory>
    ensures { IfOk result (λ r.
        option_map (λ p. ((string_bytes p.0.0, string_bytes p.0.1), p.1)) r
        ≡ three count_of values.now) }
{
    let [value, other, count] = values else {
        return Ok(None);
    };
    let text = text_of(alloc, value)?;
    let other = text_of(alloc, other)?;
    Ok(text.zip(other).zip(count_of(count)))
}
