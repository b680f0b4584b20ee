// What the lines of front matter say.
ghost use Rattle.std.specs.Prelude.{◌≡◌, ◌++◌, ◌≤◌, OnOk, option_map, None, length};
ghost use Rattle.text_source.specs.Lines.{lines_of, before_fence};
ghost use Rattle.text_source.specs.Front as specs;
ghost use Rattle.text_source.specs.Values.{values_of as values_in};
ghost use Rattle.text_source.specs.Scans.{kind_read, now_of, TakesLine, SaysAll};

use crate::facts::Fact;
use crate::lines::{cut, is_fence};
use crate::refusal::TextFileRefusal;
use crate::values::{after_blanks, is_blank, trimmed, values_of};
use sd_value::{NoMemory, Str};
use std::alloc::Global;

/// What a line is.
pub(crate) enum Kind<'a> {
    /// Empty, or a comment.
    Passed,
    /// One more value of the label above.
    Item(&'a [u8]),
    /// A label, and its value.
    Field(&'a [u8], &'a [u8]),
    Other,
}

fn is_comment(line: &[u8]) -> bool
    ensures { result ≡ specs.is_comment line.now }
{
    match line {
        [b'#', ..] => true,
        _ => false,
    }
}

// Whether nothing or a blank is next.
fn is_apart(bytes: &[u8]) -> bool
    ensures { result ≡ specs.is_apart bytes.now }
{
    match bytes {
        [] => true,
        [b, ..] => is_blank(*b),
    }
}

// What follows a `-` that stands apart.
fn item_of(bytes: &[u8]) -> Option<&[u8]>
    ensures { option_map (λ value. value.now) result ≡ specs.item_of bytes.now }
{
    match bytes {
        [b'-', rest @ ..] if is_apart(rest) => Some(trimmed(rest)),
        _ => None,
    }
}

// Whether a line may not begin so.
fn is_inner(line: &[u8]) -> bool
    ensures { result ≡ specs.is_inner line.now }
{
    match line {
        [] => false,
        [b, ..] => is_blank(*b) || *b == b'-',
    }
}

// What stands after the first colon that stands apart from it.
fn after_colon(line: &[u8]) -> Option<&[u8]>
    ensures { option_map (λ rest. rest.now) result ≡ specs.after_colon line.now }
{
    let mut rest = line;
    'bytes: while let Some((b, later)) = rest.split_first() {
        if *b == b':' && is_apart(later) {
            return Some(later);
        }
        rest = later;
    }
    None
}

// A label that isn't empty, and its value.
fn field_of(line: &[u8]) -> Kind<'_>
    ensures { kind_read result ≡ specs.field_of line.now }
{
    let Some(rest) = after_colon(line) else {
        return Kind::Other;
    };
    let label = &line[..line.len() - rest.len() - 1];
    if label.is_empty() {
        return Kind::Other;
    }
    Kind::Field(trimmed(label), trimmed(rest))
}

fn kind_of(line: &[u8]) -> Kind<'_>
    ensures { kind_read result ≡ specs.kind_of line.now }
{
    let shown = after_blanks(line);
    if is_comment(line) || shown.is_empty() {
        return Kind::Passed;
    }
    if let Some(value) = item_of(shown) {
        return Kind::Item(value);
    }
    if is_inner(line) {
        return Kind::Other;
    }
    field_of(line)
}

// An edge to each value of the label, at this place.
fn push_values(
    alloc: Global,
    at: u64,
    label: &[u8],
    value: &[u8],
    said: &mut Vec<Fact>,
) -> Result<(), NoMemory>
    ensures { OnOk result (said.new.items
        ≡ said.old.items ++ specs.stated at label.now (values_in value.now)) }
{
    let name = Str::new(alloc, label)?;
    let values = values_of(alloc, value)?;
    let mut rest = values.as_slice();
    'values: while let Some((datum, later)) = rest.split_first() {
        said.push(Fact::Edge(at, name.copy(alloc)?, datum.copy(alloc)?))?;
        rest = later;
    }
    Ok(())
}

// Adds what a line says, and gives the label that the lines below may give more values.
fn take_line<'a>(
    alloc: Global,
    at: u64,
    above: Option<&'a [u8]>,
    line: &'a [u8],
    said: &mut Vec<Fact>,
) -> Result<Option<&'a [u8]>, TextFileRefusal>
    ensures { TakesLine at (now_of above.entry) line.now said.old.items said.new.items
        result }
{
    match kind_of(line) {
        Kind::Passed => Ok(above),
        Kind::Item(value) => {
            let Some(label) = above else {
                return Err(TextFileRefusal::Expected(at));
            };
            push_values(alloc, at, label, value, said)?;
            Ok(above)
        }
        Kind::Field(label, value) => {
            push_values(alloc, at, label, value, said)?;
            Ok(if value.is_empty() { Some(label) } else { None })
        }
        Kind::Other => Err(TextFileRefusal::Expected(at)),
    }
}

/// Adds what the lines up to the first fence say, of the last bytes of a file of so many.
pub(crate) fn read_front(
    alloc: Global,
    size: u64,
    text: &[u8],
    said: &mut Vec<Fact>,
) -> Result<(), TextFileRefusal>
    requires { length text.now ≤ size }
    ensures { SaysAll (specs.said None (before_fence (lines_of size text.now)))
        said.old.items said.new.items result }
{
    let mut above = None;
    let mut left = Some(text);
    'lines: while let Some(rest) = left {
        let (line, next) = cut(rest);
        if is_fence(line) {
            return Ok(());
        }
        above = take_line(alloc, size - rest.len() as u64, above, line, said)?;
        left = next;
    }
    Ok(())
}
