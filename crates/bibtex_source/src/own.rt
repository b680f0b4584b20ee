// The bytes of the file that an entry is.
ghost use Rattle.std.specs.Prelude.{◌≡◌, [], ℕ, List, IfOk, drop, take, if◌then◌else◌};
ghost use Rattle.bibtex_source.specs.Source as specs;
ghost use Rattle.bibtex_spec.specs.declared.Spot.TheVariants.{Outside as OutsideItems};

use crate::clearing::passed;
use crate::source::Reading;
use bibtex_spec::Spot;
use sd_value::{NoMemory, Str};
use std::alloc::Global;

// The first bytes, at most so many.
fn front(bytes: &[u8], count: usize) -> &[u8]
    ensures { result.now ≡ take count bytes.now }
{
    if count >= bytes.len() {
        return bytes;
    }
    let (before, _) = bytes.split_at(count);
    before
}

// What comes after so many bytes.
fn back(bytes: &[u8], count: usize) -> &[u8]
    ensures { result.now ≡ drop count bytes.now }
{
    if count >= bytes.len() {
        return &[];
    }
    let (_, after) = bytes.split_at(count);
    after
}

// What stands before the last `@`.
fn before_mark(bytes: &[u8]) -> &[u8]
    ensures { result.now ≡ specs.before_mark bytes.now }
{
    let mut rest = bytes;
    'bytes: while let Some((b, earlier)) = rest.split_last() {
        if *b == b'@' {
            return earlier;
        }
        rest = earlier;
    }
    rest
}

fn is_outside(spot: Spot) -> bool
    ensures { (bytes : List ℕ) → specs.until_outside spot bytes ≡ (if result then [] else bytes) }
{
    match spot {
        Spot::Outside => true,
        Spot::Word(_) => false,
        Spot::BeforeKey(_) => false,
        Spot::Key(_) => false,
        Spot::Body(_) => false,
        Spot::Text(_, _, _) => false,
    }
}

// The bytes of the file up to the end of the item that begins with this text.
fn item_bytes(alloc: Global, text: &[u8], file: &[u8]) -> Result<Vec<u8>, NoMemory>
    ensures { IfOk result (λ v. v.items ≡ specs.item_bytes OutsideItems text.now file.now) }
{
    let mut own = Vec::new(alloc);
    let mut spot = Spot::Outside;
    let mut left = text;
    let mut rest = file;
    'bytes: while let Some((b, later)) = left.split_first() {
        let Some((c, after)) = rest.split_first() else {
            return Ok(own);
        };
        own.push(*c)?;
        let (_, next) = passed(alloc, spot, *b, later)?;
        if is_outside(next) {
            return Ok(own);
        }
        spot = next;
        left = later;
        rest = after;
    }
    Ok(own)
}

/// The file's bytes of the entry whose key is at this place.
pub(crate) fn own_bytes(alloc: Global, reading: &Reading, at: u64) -> Result<Str, NoMemory>
    ensures { IfOk result (λ s. s ≡ specs.own_bytes (specs.seen reading.now) at) }
{
    let start = before_mark(front(reading.text, at as usize)).len();
    let bytes = item_bytes(alloc, back(reading.text, start), back(reading.file, start))?;
    Str::of(alloc, bytes)
}
