//! Tags that are misspelled.

ghost use Rattle.std.specs.Prelude.{◌≡◌, ◌+◌, ◌<◌, ◌^◌, ◌++◌, IfOk, length, map, drop};
ghost use Rattle.std.specs.Char.{to_ascii_uppercase};
ghost use Rattle.lint_spec.specs.TemplateClaims.{is_element_to_small, is_element_to_strong};
ghost use Rattle.lint_spec.specs.TemplateClaims.{is_element_to_svg, is_element};
ghost use Rattle.lint_spec.specs.TemplateClaims.{starts_capital, is_unknown_name};
ghost use Rattle.lint_spec.specs.TemplateClaims.{without_slash, is_unknown_tag, is_misspelled};
ghost use Rattle.lint_spec.specs.TemplateClaims.{misspelled, tag_claims};

use crate::words::push;
use lint_spec::{Asked, Claim};
use sd_value::NoMemory;
use std::alloc::Global;
use template_items::begins_tag;

fn is_element_to_small(bytes: &[u8]) -> bool
    ensures { result ≡ is_element_to_small bytes.now }
{
    bytes.starts_with(b"SAMP")
        || bytes.starts_with(b"SCRIPT")
        || bytes.starts_with(b"SEARCH")
        || bytes.starts_with(b"SECTION")
        || bytes.starts_with(b"SELECT")
        || bytes.starts_with(b"SLOT")
        || bytes.starts_with(b"SMALL")
}

fn is_element_to_strong(bytes: &[u8]) -> bool
    ensures { result ≡ is_element_to_strong bytes.now }
{
    bytes.starts_with(b"SOURCE")
        || bytes.starts_with(b"SPACER")
        || bytes.starts_with(b"SPAN")
        || bytes.starts_with(b"STRIKE")
        || bytes.starts_with(b"STRONG")
}

fn is_element_to_svg(bytes: &[u8]) -> bool
    ensures { result ≡ is_element_to_svg bytes.now }
{
    bytes.starts_with(b"STYLE")
        || bytes.starts_with(b"SUB")
        || bytes.starts_with(b"SUMMARY")
        || bytes.starts_with(b"SUP")
        || bytes.starts_with(b"SVG")
}

fn is_element(bytes: &[u8]) -> bool
    ensures { result ≡ is_element bytes.now }
{
    is_element_to_small(bytes) || is_element_to_strong(bytes) || is_element_to_svg(bytes)
}

fn starts_capital(bytes: &[u8]) -> bool
    ensures { result ≡ starts_capital bytes.now }
{
    match bytes {
        [] => false,
        [b, ..] => *b >= b'A' && *b <= b'Z',
    }
}

fn is_unknown_name(bytes: &[u8]) -> bool
    ensures { result ≡ is_unknown_name bytes.now }
{
    match bytes {
        [] => false,
        [b, later @ ..] => *b == b'S' && starts_capital(later) && !is_element(bytes),
    }
}

fn without_slash(bytes: &[u8]) -> &[u8]
    ensures { result.now ≡ without_slash bytes.now }
{
    match bytes {
        [] => bytes,
        [b, later @ ..] => { if *b == b'/' { later } else { bytes } }
    }
}

fn is_unknown_tag(bytes: &[u8]) -> bool
    ensures { result ≡ is_unknown_tag bytes.now }
{
    match bytes {
        [] => false,
        [b, later @ ..] => *b == b'<' && is_unknown_name(without_slash(later)),
    }
}

// Adds the tag with which a text begins, if it is misspelled.
fn push_tag(found: &mut Vec<Claim>, at: u64, text: &[u8], capitals: &[u8]) -> Result<(), NoMemory>
    requires { capitals.now ≡ map to_ascii_uppercase text.now }
    ensures { IfOk result (λ _. found.new.items ≡ found.old.items ++ misspelled at text.now) }
{
    if is_misspelled(text, capitals) {
        push(found, Asked::Tag, at)
    } else {
        Ok(())
    }
}

fn is_misspelled(text: &[u8], capitals: &[u8]) -> bool
    requires { capitals.now ≡ map to_ascii_uppercase text.now }
    ensures { result ≡ is_misspelled text.now }
{
    begins_tag(capitals) || is_unknown_tag(text)
}

// Adds the tags with which a text begins at any of its bytes, by the text in capitals.
fn push_from(found: &mut Vec<Claim>, at: u64, text: &[u8], capitals: &[u8]) -> Result<(), NoMemory>
    requires few { at + length text.now < 2 ^ 64 }
    requires same { capitals.now ≡ map to_ascii_uppercase text.now }
    ensures { IfOk result (λ _. found.new.items ≡ found.old.items ++ tag_claims at text.now) }
{
    let mut place = at;
    let mut rest = text;
    let mut high = capitals;
    'text: loop {
        let [_, later @ ..] = rest else {
            return Ok(());
        };
        push_tag(found, place, rest, high)?;
        place += 1;
        rest = later;
        high = after_first(high);
    }
}

fn after_first(bytes: &[u8]) -> &[u8]
    ensures { result.now ≡ drop 1 bytes.now }
{
    match bytes {
        [] => bytes,
        [_, later @ ..] => later,
    }
}

// The bytes with capitals for small letters.
fn capitals(alloc: Global, text: &[u8]) -> Result<Vec<u8>, NoMemory>
    ensures { IfOk result (λ found. found.items ≡ map to_ascii_uppercase text.now) }
{
    let mut found = Vec::with_capacity(alloc, text.len())?;
    for b in text {
        found.push(b.to_ascii_uppercase())?;
    }
    Ok(found)
}

/// Adds the tags that a text at this place has in other letters, and those that there aren't.
pub(crate) fn push_tags(
    alloc: Global,
    found: &mut Vec<Claim>,
    at: u64,
    text: &[u8],
) -> Result<(), NoMemory>
    requires { at + length text.now < 2 ^ 64 }
    ensures { IfOk result (λ _. found.new.items ≡ found.old.items ++ tag_claims at text.now) }
{
    let capitals = capitals(alloc, text)?;
    push_from(found, at, text, &capitals)
}
