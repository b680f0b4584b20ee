// The text of a value, and the texts that a field gives.
ghost use Rattle.std.specs.Prelude.{◌≡◌, ◌<◌, ◌-◌, ◌^◌, ◌++◌, ◌∷◌, ◌&&◌, nat_eq, ◌≤◌, IsTrue, length, IfOk, OnOk, List, ℕ, map};
ghost use Rattle.bibtex_spec.specs.Values as specs;

use bibtex_bytes::{behind_blanks, is_blank};
use bibtex_spec::Field;
use sd_value::{NoMemory, Str};
use std::alloc::Global;

// A byte, with a space before it if one is owed.
fn push_spaced(text: &mut Vec<u8>, owed: bool, b: u8) -> Result<(), NoMemory>
    ensures { OnOk result (text.new.items ≡ text.old.items ++ specs.spaced_byte owed b) }
{
    if owed {
        text.extend_from_slice(&[b' ', b])?;
        return Ok(());
    }
    text.extend_from_slice(&[b])?;
    Ok(())
}

// A byte that may be a blank, and whether a space is owed behind it.
fn push_tidy(text: &mut Vec<u8>, owed: bool, b: u8) -> Result<bool, NoMemory>
    ensures { IfOk result (λ now. (later : List ℕ)
        → text.new.items ++ specs.tidy_from now later
        ≡ text.old.items ++ specs.tidy_from owed (b ∷ later)) }
{
    if is_blank(b) {
        return Ok(true);
    }
    push_spaced(text, owed, b)?;
    Ok(false)
}

/// A text with a space for each run of blanks, and none at its ends.
pub(crate) fn tidy(alloc: Global, bytes: &[u8]) -> Result<Str, NoMemory>
    ensures { IfOk result (λ s. s ≡ specs.tidy bytes.now) }
{
    let mut text = Vec::new(alloc);
    let mut owed = false;
    let mut rest = behind_blanks(bytes);
    'bytes: while let [b, later @ ..] = rest {
        owed = push_tidy(&mut text, owed, *b)?;
        rest = later;
    }
    Str::of(alloc, text)
}

/// Whether a macro's text may stand behind what its value has before it.
#[tactic(auto, unfolding(bibtex_spec::specs::Values::has_room))]
pub(crate) fn has_room(before: &[u8], text: &[u8]) -> bool
    ensures { result ≡ specs.has_room before.now text.now }
{
    before.len() as u64 + text.len() as u64 <= 1_048_576
}

fn begins_and(bytes: &[u8]) -> bool
    ensures is { result ≡ specs.begins_and bytes.now }
    ensures four { IsTrue result → 4 ≤ length bytes.now }
{
    match bytes {
        [b' ', b'a', b'n', b'd', b' ', ..] => true,
        _ => false,
    }
}

/// How many braces are open behind a byte.
pub(crate) fn depth_behind(depth: u64, b: u8) -> u64
    requires { depth < 2 ^ 64 - 1 }
    ensures { result ≡ specs.depth_behind depth b }
{
    if b == b'{' {
        depth + 1
    } else if b == b'}' {
        depth.saturating_sub(1)
    } else {
        depth
    }
}

// Whether an ` and ` outside braces begins here.
fn splits(depth: u64, rest: &[u8]) -> bool
    ensures is { result ≡ (nat_eq depth 0 && specs.begins_and rest.now) }
    ensures four { IsTrue result → 4 ≤ length rest.now }
{
    depth == 0 && begins_and(rest)
}

/// The parts of a text between each ` and ` outside braces, each without spaces at its ends.
fn tidy_parts(alloc: Global, text: &[u8]) -> Result<Vec<Str>, NoMemory>
    ensures { IfOk result (λ v. v.items ≡ map specs.tidy (specs.parts text.now)) }
{
    let mut parts = Vec::new(alloc);
    let mut part = Vec::new(alloc);
    let mut depth = 0;
    let mut rest = text;
    'bytes: while let Some((b, later)) = rest.split_first() {
        if splits(depth, rest) {
            parts.push(tidy(alloc, part.as_slice())?)?;
            part = Vec::new(alloc);
            let (_, behind) = rest.split_at(4);
            rest = behind;
        } else {
            part.push(*b)?;
            depth = depth_behind(depth, *b);
            rest = later;
        }
    }
    parts.push(tidy(alloc, part.as_slice())?)?;
    Ok(parts)
}

fn names_people(name: &Str) -> bool
    ensures { result ≡ specs.names_people name.now }
{
    name.bytes() == b"author".as_slice() || name.bytes() == b"editor".as_slice()
}

/// The texts that a field gives: each of its people, or the whole text.
pub(crate) fn texts_of(alloc: Global, field: &Field) -> Result<Vec<Str>, NoMemory>
    ensures { IfOk result (λ v. v.items ≡ specs.texts_of field.now.name field.now.text) }
{
    if names_people(&field.name) {
        return tidy_parts(alloc, field.text.bytes());
    }
    let mut texts = Vec::new(alloc);
    texts.push(field.text.copy(alloc)?)?;
    Ok(texts)
}
