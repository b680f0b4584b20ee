// The value of a field.
ghost use Rattle.std.specs.Prelude.{◌≡◌, IfOk, IsTrue, Some, None, true, if◌then◌else◌};
ghost use Rattle.source_steps.specs.Fields.{is_integer, number_of, value_of as field_value};
ghost use Rattle.source_steps.specs.Links.{is_link as is_a_link, text_value as value_of_text};

use itoa::Buffer;
use sd_value::{Datum, NoMemory, Str, Value};
use std::alloc::Global;
use std::str;

// Whether the field begins as an integer's decimal form does, and isn't longer than one. Most texts don't.
fn may_be_integer(field: &[u8]) -> bool
    ensures { is_integer field.now ≡ true → IsTrue result }
{
    match field {
        [] => false,
        [first, ..] => field.len() <= 20 && (*first == b'-' || first.is_ascii_digit()),
    }
}

/// The integer of 64 bits whose decimal form the field is.
pub fn integer_of(field: &[u8]) -> Option<i64>
    ensures { result ≡ (if is_integer field.now then Some (number_of field.now) else None) }
{
    if !may_be_integer(field) {
        return None;
    }
    let Ok(text) = str::from_utf8(field) else {
        return None;
    };
    let Ok(number) = text.parse::<i64>() else {
        return None;
    };
    let mut buffer = Buffer::new();
    if buffer.format(number).as_bytes() == field {
        Some(number)
    } else {
        None
    }
}

// Whether a text begins with `http://` or `https://`.
fn is_link(text: &[u8]) -> bool
    ensures { result ≡ is_a_link text.now }
{
    text.starts_with(b"http://") || text.starts_with(b"https://")
}

/// The value of a text: if links are URLs, a URL of a text that begins with `http://` or
/// `https://`, and else the text.
pub fn text_value(links: bool, text: Str) -> Value
    ensures { result ≡ value_of_text links text }
{
    if links && is_link(text.bytes()) {
        Value::Data(Datum::Url(text))
    } else {
        Value::Data(Datum::Text(text))
    }
}

/// The value of a field that isn't empty: the integer whose decimal form it is, and else that of a
/// text, which shares the field's bytes.
pub fn value_of(alloc: Global, links: bool, field: &Str) -> Result<Value, NoMemory>
    ensures { IfOk result (λ v. v ≡ field_value links field.now) }
{
    match integer_of(field.bytes()) {
        Some(number) => Ok(Value::Data(Datum::Int(number))),
        None => Ok(text_value(links, field.copy(alloc)?)),
    }
}
