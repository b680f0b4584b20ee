// Texts of fields as people read them.
ghost use Rattle.std.specs.Prelude.{◌≡◌, IfOk, map, option_map};
ghost use Rattle.bibtex_source.specs.Readable as specs;

use crate::rules::BibRules;
use crate::values::{texts_of, tidy};
use bibtex_bytes::lowered;
use bibtex_spec::Field;
use sd_value::{NoMemory, Str};
use std::alloc::Global;
use tex_text::readable;

/// What TeX shows of a text, with one space for each run of blanks.
pub(crate) fn plain(alloc: Global, text: &[u8]) -> Result<Str, NoMemory>
    ensures { IfOk result (λ s. s ≡ specs.plain text.now) }
{
    let shown = readable(alloc, text)?;
    tidy(alloc, shown.bytes())
}

fn early_month(word: &[u8]) -> Option<&'static [u8]>
    ensures { option_map (λ x. x.now) result ≡ specs.early_month word.now }
{
    if word == b"jan".as_slice() || word == b"january".as_slice() {
        Some(b"1")
    } else if word == b"feb".as_slice() || word == b"february".as_slice() {
        Some(b"2")
    } else if word == b"mar".as_slice() || word == b"march".as_slice() {
        Some(b"3")
    } else if word == b"apr".as_slice() || word == b"april".as_slice() {
        Some(b"4")
    } else if word == b"may".as_slice() {
        Some(b"5")
    } else if word == b"jun".as_slice() || word == b"june".as_slice() {
        Some(b"6")
    } else {
        None
    }
}

fn late_month(word: &[u8]) -> Option<&'static [u8]>
    ensures { option_map (λ x. x.now) result ≡ specs.late_month word.now }
{
    if word == b"jul".as_slice() || word == b"july".as_slice() {
        Some(b"7")
    } else if word == b"aug".as_slice() || word == b"august".as_slice() {
        Some(b"8")
    } else if word == b"sep".as_slice() || word == b"september".as_slice() {
        Some(b"9")
    } else if word == b"oct".as_slice() || word == b"october".as_slice() {
        Some(b"10")
    } else if word == b"nov".as_slice() || word == b"november".as_slice() {
        Some(b"11")
    } else if word == b"dec".as_slice() || word == b"december".as_slice() {
        Some(b"12")
    } else {
        None
    }
}

// A text without a full stop at its end.
fn without_stop(alloc: Global, text: &[u8]) -> Result<Vec<u8>, NoMemory>
    ensures { IfOk result (λ v. v.items ≡ specs.without_stop text.now) }
{
    let mut kept = Vec::new(alloc);
    let mut rest = text;
    'bytes: while let [b, later @ ..] = rest {
        if later.is_empty() && *b == b'.' {
            return Ok(kept);
        }
        kept.push(*b)?;
        rest = later;
    }
    Ok(kept)
}

// A month's number, or the text itself.
fn month_text(alloc: Global, text: Str) -> Result<Str, NoMemory>
    ensures { IfOk result (λ s. s ≡ specs.month_text text) }
{
    let kept = without_stop(alloc, text.bytes())?;
    let word = lowered(alloc, kept.as_slice())?;
    if let Some(number) = early_month(word.as_slice()) {
        let number = Str::new(alloc, number)?;
        return Ok(number);
    }
    if let Some(number) = late_month(word.as_slice()) {
        let number = Str::new(alloc, number)?;
        return Ok(number);
    }
    Ok(text)
}

// A text of the field of this name.
fn read_text(alloc: Global, name: &Str, text: &Str) -> Result<Str, NoMemory>
    ensures { IfOk result (λ s. s ≡ specs.read_text name.now text.now) }
{
    let shown = plain(alloc, text.bytes())?;
    if name.bytes() == b"month".as_slice() {
        return month_text(alloc, shown);
    }
    Ok(shown)
}

fn read_texts(alloc: Global, name: &Str, texts: &[Str]) -> Result<Vec<Str>, NoMemory>
    ensures { IfOk result (λ v. v.items ≡ map (specs.read_text name.now) texts.now) }
{
    let mut found = Vec::new(alloc);
    let mut rest = texts;
    'texts: while let Some((text, more)) = rest.split_first() {
        let read = read_text(alloc, name, text)?;
        found.push(read)?;
        rest = more;
    }
    Ok(found)
}

/// The texts that a field gives by the rules.
pub(crate) fn field_texts(
    alloc: Global,
    rules: BibRules,
    field: &Field,
) -> Result<Vec<Str>, NoMemory>
    ensures { IfOk result (λ v. v.items ≡ specs.field_texts rules field.now.name field.now.text) }
{
    let texts = texts_of(alloc, field)?;
    if !rules.readable {
        return Ok(texts);
    }
    read_texts(alloc, &field.name, texts.as_slice())
}
