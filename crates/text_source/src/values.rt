// The values that a field of front matter has.
ghost use Rattle.std.specs.Prelude.{◌≡◌, ◌++◌, OnOk, IfOk, option_map, None, false};
ghost use Rattle.std.specs.List.{flat_map};
ghost use Rattle.text_source.specs.Values as specs;

use sd_value::{Datum, NoMemory, Str};
use source_steps::integer_of;
use std::alloc::Global;

/// Space, tab and carriage return: what may stand round a value within a line.
pub(crate) fn is_blank(b: u8) -> bool
    ensures { result ≡ specs.is_blank b }
{
    b == b' ' || b == b'\t' || b == b'\r'
}

/// Without the blanks at the front.
pub(crate) fn after_blanks(bytes: &[u8]) -> &[u8]
    ensures { result.now ≡ specs.after_blanks bytes.now }
{
    let mut rest = bytes;
    'bytes: while let Some((b, later)) = rest.split_first() {
        if !is_blank(*b) {
            return rest;
        }
        rest = later;
    }
    rest
}

// Without the blanks at the end.
fn before_blanks(bytes: &[u8]) -> &[u8]
    ensures { result.now ≡ specs.before_blanks bytes.now }
{
    let mut rest = bytes;
    'bytes: while let Some((b, earlier)) = rest.split_last() {
        if !is_blank(*b) {
            return rest;
        }
        rest = earlier;
    }
    rest
}

/// Without the blanks at both ends.
pub(crate) fn trimmed(bytes: &[u8]) -> &[u8]
    ensures { result.now ≡ specs.trimmed bytes.now }
{
    before_blanks(after_blanks(bytes))
}

// What stands between these two bytes, where they are the first and the last.
fn enclosed(first: u8, last: u8, bytes: &[u8]) -> Option<&[u8]>
    ensures { option_map (λ inner. inner.now) result ≡ specs.enclosed first last bytes.now }
{
    let (b, later) = bytes.split_first()?;
    let (c, inner) = later.split_last()?;
    if *b == first && *c == last {
        Some(inner)
    } else {
        None
    }
}

// The Int that is spelled, or else the Text.
fn unquoted(alloc: Global, bytes: &[u8]) -> Result<Datum, NoMemory>
    ensures { IfOk result (λ d. d ≡ specs.quoted_or None bytes.now) }
{
    match integer_of(bytes) {
        Some(number) => Ok(Datum::Int(number)),
        None => Ok(Datum::Text(Str::new(alloc, bytes)?)),
    }
}

// Adds the value of these bytes without blanks at their ends, if there are any.
fn push_value(alloc: Global, bytes: &[u8], values: &mut Vec<Datum>) -> Result<(), NoMemory>
    ensures { OnOk result
        (values.new.items ≡ values.old.items ++ specs.trimmed_values bytes.now) }
{
    if bytes.is_empty() {
        return Ok(());
    }
    let value = match enclosed(b'"', b'"', bytes) {
        Some(text) => Datum::Text(Str::new(alloc, text)?),
        None => unquoted(alloc, bytes)?,
    };
    values.push(value)?;
    Ok(())
}

fn quoting_after(quoting: bool, b: u8) -> bool
    ensures { result ≡ specs.quoting_after quoting b }
{
    if b == b'"' { !quoting } else { quoting }
}

// Adds the values between commas that stand outside of quotes.
fn push_parts(alloc: Global, list: &[u8], values: &mut Vec<Datum>) -> Result<(), NoMemory>
    ensures { OnOk result (values.new.items
        ≡ values.old.items ++ flat_map specs.one_value (specs.parts_from false list.now)) }
{
    let mut part = Vec::new(alloc);
    let mut quoting = false;
    let mut rest = list;
    'bytes: while let Some((b, later)) = rest.split_first() {
        if *b == b',' && !quoting {
            push_value(alloc, trimmed(part.as_slice()), values)?;
            part = Vec::new(alloc);
        } else {
            part.push(*b)?;
            quoting = quoting_after(quoting, *b);
        }
        rest = later;
    }
    push_value(alloc, trimmed(part.as_slice()), values)
}

/// The values of a field's text without blanks at its ends: those of a list, or the one value.
pub(crate) fn values_of(alloc: Global, bytes: &[u8]) -> Result<Vec<Datum>, NoMemory>
    ensures { IfOk result (λ v. v.items ≡ specs.values_of bytes.now) }
{
    let mut values = Vec::new(alloc);
    match enclosed(b'[', b']', bytes) {
        Some(list) => push_parts(alloc, list, &mut values)?,
        None => push_value(alloc, bytes, &mut values)?,
    }
    Ok(values)
}
