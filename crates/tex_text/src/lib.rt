//! Text of TeX as people read it.
#![tactic(auto)]

ghost use Rattle.std.specs.Prelude.{◌≡◌, IfOk};
ghost use Rattle.tex_text.specs.Shown.{shown as all_shown, composed as all_composed, readable as all_readable};

mod accents;
mod elements;
mod letters;

pub use accents::Accents;
use elements::element;
use sd_value::{NoMemory, Str};
use std::alloc::Global;
use std::str;
use unicode_normalization::to_nfc;

// What the elements of a text show.
fn shown(alloc: Global, bytes: &[u8]) -> Result<Vec<u8>, NoMemory>
    ensures { IfOk result (λ v. v.items ≡ all_shown bytes.now) }
{
    let mut text = Vec::with_capacity(alloc, bytes.len())?;
    let mut accents = Accents::Nothing;
    let mut rest = bytes;
    'elements: while let Some((b, later)) = rest.split_first() {
        let (waiting, after) = element(alloc, &mut text, accents, *b, later)?;
        accents = waiting;
        rest = after;
    }
    Ok(text)
}

// The text with letters and their accents as one character, if it is UTF-8.
fn composed(alloc: Global, bytes: Vec<u8>) -> Result<Str, NoMemory>
    ensures { IfOk result (λ s. s ≡ all_composed bytes.items) }
{
    if let Ok(text) = str::from_utf8(bytes.as_slice()) {
        let whole = to_nfc(alloc, text)?;
        let normal = Str::new(alloc, whole.as_bytes())?;
        return Ok(normal);
    }
    let other = Str::of(alloc, bytes)?;
    Ok(other)
}

/// What TeX shows of a text: braces are dropped, accents and letters by their commands are characters of Unicode,
/// composed (NFC), dashes and quotes are their signs, and a command of letters is dropped before a brace, or else shows
/// its letters.
pub fn readable(alloc: Global, bytes: &[u8]) -> Result<Str, NoMemory>
    ensures { IfOk result (λ s. s ≡ all_readable bytes.now) }
{
    let text = shown(alloc, bytes)?;
    composed(alloc, text)
}
