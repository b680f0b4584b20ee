//! Texts in which each run of some bytes is one mark.
ghost use Rattle.std.specs.Prelude.{◌≡◌, ◌++◌, ◌∷◌, ◌==◌, if◌then◌else◌, IfOk, OnOk, length, map};
ghost use Rattle.std.specs.List.{filter, join_with_byte};
ghost use Rattle.function_spec.specs.Words.{is_blank, is_other, is_filled, trim, dashed};

use sd_value::NoMemory;
use std::alloc::Global;

fn is_blank(byte: u8) -> bool
    ensures { result ≡ is_blank byte }
{
    byte == b' ' || byte == b'\t' || byte == b'\n' || byte == b'\r'
}

fn is_other(byte: u8) -> bool
    ensures { result ≡ is_other byte }
{
    !((b'a' <= byte && byte <= b'z') || (b'0' <= byte && byte <= b'9'))
}

// One word more, after a mark if it is not the first; an empty one adds nothing.
fn push_word(text: &mut Vec<u8>, word: &[u8], mark: u8) -> Result<(), NoMemory>
    ensures { OnOk result (text.new.items ≡
        (if is_filled word.now then
        (if length text.old.items == 0 then word.now
        else text.old.items ++ (mark ∷ word.now))
        else text.old.items)) }
{
    if word.is_empty() {
        return Ok(());
    }
    if !text.is_empty() {
        text.push(mark)?;
    }
    text.extend_from_slice(word)?;
    Ok(())
}

// The words that are not empty, with a mark between each two.
fn joined(alloc: Global, words: &[&[u8]], mark: u8) -> Result<Vec<u8>, NoMemory>
    ensures { IfOk result (λ t.
        t.items ≡ join_with_byte mark (filter is_filled (map (λ w. w.now) words.now))) }
{
    let mut text = Vec::new(alloc);
    for word in words {
        push_word(&mut text, word, mark)?;
    }
    Ok(text)
}

/// The text with each run of blanks as one space, and none at either end.
pub fn trim(alloc: Global, text: &[u8]) -> Result<Vec<u8>, NoMemory>
    ensures { IfOk result (λ t. t.items ≡ trim text.now) }
{
    let words: Vec<&[u8]> = text.split(|byte| is_blank(*byte)).collect(alloc)?;
    let trimmed = joined(alloc, &words, b' ')?;
    Ok(trimmed)
}

/// The text with each run of others than a to z and digits as one dash, and none at either end.
pub fn dashed(alloc: Global, text: &[u8]) -> Result<Vec<u8>, NoMemory>
    ensures { IfOk result (λ t. t.items ≡ dashed text.now) }
{
    let words: Vec<&[u8]> = text.split(|byte| is_other(*byte)).collect(alloc)?;
    let dashed = joined(alloc, &words, b'-')?;
    Ok(dashed)
}
