// The lines of a text.
ghost use Rattle.std.specs.Prelude.{◌≡◌, ◌<◌, ◌∷◌, [], ℕ, length, option_map, IfOk, IfSome, codes};
ghost use Rattle.std.specs.Str.{bytes_eq};
ghost use Rattle.text_source.specs.Lines.{is_at_feed as at_feed};
ghost use Rattle.text_source.specs.Cuts.{after_feed as after_feed_of, without_return as returned, Cuts, plain, Closes, Splits};

use sd_value::{NoMemory, Str};
use std::alloc::Global;

// What follows the first line feed.
fn after_feed(text: &[u8]) -> Option<&[u8]>
    ensures { option_map (λ rest. rest.now) result ≡ after_feed_of text.now }
{
    let mut rest = text;
    'bytes: while let Some((b, later)) = rest.split_first() {
        if *b == b'\n' {
            return Some(later);
        }
        rest = later;
    }
    None
}

// Without a carriage return at its end.
fn without_return(line: &[u8]) -> &[u8]
    ensures { result.now ≡ returned line.now }
{
    let Some((b, front)) = line.split_last() else {
        return line;
    };
    if *b == b'\r' { front } else { line }
}

/// The first line of a text without its end, and what follows its end, where it has one.
pub(crate) fn cut(text: &[u8]) -> (&[u8], Option<&[u8]>)
    ensures cuts { (size : ℕ)
        → Cuts size text.now result.0.now (option_map (λ rest. rest.now) result.1) }
    ensures shorter { IfSome result.1 (λ rest. length rest.now < length text.now) }
{
    match after_feed(text) {
        None => (text, None),
        Some(rest) => {
            let front = &text[..text.len() - rest.len() - 1];
            (without_return(front), Some(rest))
        }
    }
}

/// Three signs, as they stand before and after front matter.
pub(crate) fn is_fence(line: &[u8]) -> bool
    ensures { result ≡ bytes_eq line.now (codes "---") }
{
    line == b"---".as_slice()
}

// What follows the first fence of these lines, where there is one.
fn after_fence(text: &[u8]) -> Option<Option<&[u8]>>
    ensures { (size : ℕ)
        → Closes size text.now (option_map (option_map (λ rest. rest.now)) result) }
{
    let mut left = Some(text);
    'lines: while let Some(rest) = left {
        let (line, next) = cut(rest);
        if is_fence(line) {
            return Some(next);
        }
        left = next;
    }
    None
}

/// The lines from the first of the front matter on, where there is one, and the text itself.
pub(crate) fn split(text: &[u8]) -> (Option<&[u8]>, &[u8])
    ensures splits { (size : ℕ)
        → Splits size text.now (option_map (λ front. front.now) result.0) result.1.now }
    ensures within { IfSome result.0 (λ front. length front.now < length text.now) }
{
    let (line, next) = cut(text);
    if !is_fence(line) {
        return (None, text);
    }
    let Some(lines) = next else {
        return (None, text);
    };
    match after_fence(lines) {
        None => (None, text),
        Some(None) => (Some(lines), &[]),
        Some(Some(own)) => (Some(lines), own),
    }
}

fn is_at_feed(bytes: &[u8]) -> bool
    ensures { result ≡ at_feed bytes.now }
{
    match bytes {
        [b'\n', ..] => true,
        _ => false,
    }
}

/// The text with CR LF as LF.
pub(crate) fn plain_text(alloc: Global, text: &[u8]) -> Result<Str, NoMemory>
    ensures { IfOk result (λ s. s ≡ plain text.now) }
{
    let mut plain = Vec::with_capacity(alloc, text.len())?;
    let mut rest = text;
    'bytes: while let Some((b, later)) = rest.split_first() {
        if *b != b'\r' || !is_at_feed(later) {
            plain.push(*b)?;
        }
        rest = later;
    }
    Str::of(alloc, plain)
}
