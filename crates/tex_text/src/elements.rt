// The elements of a text of TeX.
ghost use Rattle.std.specs.Prelude.{◌≡◌, ◌++◌, ◌≤◌, IfOk, IfSome, length, option_map};
ghost use Rattle.bibtex_spec.specs.Bytes.{run, behind, is_letter as is_a_letter};
ghost use Rattle.tex_text.specs.Letters.{word_letter as word_letter_of, word_accent as word_accent_of, sign_accent as sign_accent_of};
ghost use Rattle.tex_text.specs.Elements as specs;
ghost use Rattle.tex_text.specs.Shown.{IsShown};

use crate::accents::Accents;
use crate::letters::{added, put_accents, put_letter, sign_accent, word_accent, word_letter};
use bibtex_bytes::{behind_blanks, is_blank, is_letter, written_letters};
use sd_value::NoMemory;
use std::alloc::Global;

// The bytes behind this one, if it comes next.
fn after(mark: u8, bytes: &[u8]) -> Option<&[u8]>
    ensures is { option_map (λ x. x.now) result ≡ specs.after mark bytes.now }
    ensures shorter { IfSome result (λ x. length x.now ≤ length bytes.now) }
{
    match bytes {
        [b, later @ ..] if *b == mark => Some(later),
        _ => None,
    }
}

// Behind one `-`.
fn dash_element<'a>(text: &mut Vec<u8>, rest: &'a [u8]) -> Result<&'a [u8], NoMemory>
    ensures is { IfOk result (λ x. IsShown (specs.second_dash rest.now (specs.after 45 rest.now))
        text.old.items text.new.items Accents.Nothing x.now) }
    ensures shorter { IfOk result (λ x. length x.now ≤ length rest.now) }
{
    let Some(later) = after(b'-', rest) else {
        text.extend_from_slice(b"-")?;
        return Ok(rest);
    };
    let Some(last) = after(b'-', later) else {
        text.extend_from_slice(b"\xe2\x80\x93")?;
        return Ok(later);
    };
    text.extend_from_slice(b"\xe2\x80\x94")?;
    Ok(last)
}

// Behind one quote.
fn quote_element<'a>(
    text: &mut Vec<u8>,
    b: u8,
    double: &[u8],
    rest: &'a [u8],
) -> Result<&'a [u8], NoMemory>
    ensures is { IfOk result (λ x. IsShown (specs.quote b double.now rest.now (specs.after b rest.now))
        text.old.items text.new.items Accents.Nothing x.now) }
    ensures shorter { IfOk result (λ x. length x.now ≤ length rest.now) }
{
    match after(b, rest) {
        Some(later) => {
            text.extend_from_slice(double)?;
            Ok(later)
        }
        None => {
            text.push(b)?;
            Ok(rest)
        }
    }
}

// A byte with no accent before it.
fn plain_element<'a>(text: &mut Vec<u8>, b: u8, rest: &'a [u8]) -> Result<&'a [u8], NoMemory>
    ensures is { IfOk result (λ x. IsShown (specs.plain_element b rest.now)
        text.old.items text.new.items Accents.Nothing x.now) }
    ensures shorter { IfOk result (λ x. length x.now ≤ length rest.now) }
{
    if b == b'~' {
        text.push(b' ')?;
        Ok(rest)
    } else if b == b'-' {
        dash_element(text, rest)
    } else if b == b'`' {
        quote_element(text, b'`', b"\xe2\x80\x9c", rest)
    } else if b == b'\'' {
        quote_element(text, b'\'', b"\xe2\x80\x9d", rest)
    } else {
        text.push(b)?;
        Ok(rest)
    }
}

fn goes_on(b: u8) -> bool
    ensures { result ≡ specs.goes_on b }
{
    b >= 128 && b <= 191
}

// The bytes of a character but its first.
fn put_rest_of_character<'a>(text: &mut Vec<u8>, bytes: &'a [u8]) -> Result<&'a [u8], NoMemory>
    ensures is { IfOk result (λ x. (text.new.items ≡ text.old.items ++ run specs.goes_on bytes.now)
        × (x.now ≡ behind specs.goes_on bytes.now)) }
    ensures shorter { IfOk result (λ x. length x.now ≤ length bytes.now) }
{
    let mut rest = bytes;
    'bytes: while let [b, later @ ..] = rest {
        if !goes_on(*b) {
            return Ok(rest);
        }
        text.push(*b)?;
        rest = later;
    }
    Ok(rest)
}

// A byte with accents before it.
fn accented_element<'a>(
    text: &mut Vec<u8>,
    accents: Accents,
    b: u8,
    rest: &'a [u8],
) -> Result<(Accents, &'a [u8]), NoMemory>
    ensures is { IfOk result (λ x. IsShown (specs.accented_element accents b rest.now)
        text.old.items text.new.items x.0 x.1.now) }
    ensures shorter { IfOk result (λ x. length x.1.now ≤ length rest.now) }
{
    if is_blank(b) {
        return Ok((accents, rest));
    }
    text.push(b)?;
    let later = put_rest_of_character(text, rest)?;
    put_accents(text, accents)?;
    Ok((Accents::Nothing, later))
}

// A command of letters that is no accent.
fn named_element<'a>(
    text: &mut Vec<u8>,
    accents: Accents,
    word: &[u8],
    rest: &'a [u8],
) -> Result<(Accents, &'a [u8]), NoMemory>
    ensures is { IfOk result (λ x. IsShown (specs.named_element accents word.now rest.now
        (word_letter_of word.now)) text.old.items text.new.items x.0 x.1.now) }
    ensures shorter { IfOk result (λ x. length x.1.now ≤ length rest.now) }
{
    if let Some(letter) = word_letter(word) {
        put_letter(text, accents, word, letter)?;
        put_accents(text, accents)?;
        return Ok((Accents::Nothing, behind_blanks(rest)));
    }
    if let [b'{', ..] = rest {
        return Ok((accents, rest));
    }
    text.extend_from_slice(word)?;
    put_accents(text, accents)?;
    Ok((Accents::Nothing, rest))
}

fn word_element<'a>(
    alloc: Global,
    text: &mut Vec<u8>,
    accents: Accents,
    bytes: &'a [u8],
) -> Result<(Accents, &'a [u8]), NoMemory>
    ensures is { IfOk result (λ x. IsShown (specs.word_element accents (run is_a_letter bytes.now)
        (behind is_a_letter bytes.now) (word_accent_of (run is_a_letter bytes.now)))
        text.old.items text.new.items x.0 x.1.now) }
    ensures shorter { IfOk result (λ x. length x.1.now ≤ length bytes.now) }
{
    let (word, rest) = written_letters(alloc, bytes)?;
    if let Some(accent) = word_accent(word.as_slice()) {
        return Ok((added(accent, accents), rest));
    }
    named_element(text, accents, word.as_slice(), rest)
}

// What is behind `{}`, if it comes next.
fn after_nothing(bytes: &[u8]) -> Option<&[u8]>
    ensures is { option_map (λ x. x.now) result ≡ specs.after_nothing bytes.now }
    ensures shorter { IfSome result (λ x. length x.now ≤ length bytes.now) }
{
    match bytes {
        [b'{', later @ ..] => after(b'}', later),
        _ => None,
    }
}

// A sign behind a backslash.
fn sign_element<'a>(
    text: &mut Vec<u8>,
    accents: Accents,
    b: u8,
    rest: &'a [u8],
) -> Result<(Accents, &'a [u8]), NoMemory>
    ensures is { IfOk result (λ x. IsShown (specs.sign_element accents b rest.now (sign_accent_of b))
        text.old.items text.new.items x.0 x.1.now) }
    ensures shorter { IfOk result (λ x. length x.1.now ≤ length rest.now) }
{
    let Some(accent) = sign_accent(b) else {
        text.push(b)?;
        put_accents(text, accents)?;
        return Ok((Accents::Nothing, rest));
    };
    let Some(later) = after_nothing(rest) else {
        return Ok((added(accent, accents), rest));
    };
    text.push(b)?;
    put_accents(text, accents)?;
    Ok((Accents::Nothing, later))
}

fn begins_word(bytes: &[u8]) -> bool
    ensures { result ≡ specs.begins_word bytes.now }
{
    match bytes {
        [] => false,
        [b, ..] => is_letter(*b),
    }
}

// What is behind a backslash.
fn command<'a>(
    alloc: Global,
    text: &mut Vec<u8>,
    accents: Accents,
    bytes: &'a [u8],
) -> Result<(Accents, &'a [u8]), NoMemory>
    ensures is { IfOk result (λ x. IsShown (specs.command accents bytes.now)
        text.old.items text.new.items x.0 x.1.now) }
    ensures shorter { IfOk result (λ x. length x.1.now ≤ length bytes.now) }
{
    if begins_word(bytes) {
        return word_element(alloc, text, accents, bytes);
    }
    match bytes {
        [] => Ok((accents, bytes)),
        [b, later @ ..] => sign_element(text, accents, *b, later),
    }
}

fn other_element<'a>(
    text: &mut Vec<u8>,
    accents: Accents,
    b: u8,
    rest: &'a [u8],
) -> Result<(Accents, &'a [u8]), NoMemory>
    ensures is { IfOk result (λ x. IsShown (specs.other_element accents b rest.now)
        text.old.items text.new.items x.0 x.1.now) }
    ensures shorter { IfOk result (λ x. length x.1.now ≤ length rest.now) }
{
    match accents {
        Accents::Nothing => {
            let later = plain_element(text, b, rest)?;
            Ok((Accents::Nothing, later))
        }
        _ => accented_element(text, accents, b, rest),
    }
}

/// Appends what the element shows that begins with this byte, with these accents before it, and gives the accents that
/// wait and the bytes behind it.
pub(crate) fn element<'a>(
    alloc: Global,
    text: &mut Vec<u8>,
    accents: Accents,
    b: u8,
    rest: &'a [u8],
) -> Result<(Accents, &'a [u8]), NoMemory>
    ensures is { IfOk result (λ x. IsShown (specs.element accents b rest.now)
        text.old.items text.new.items x.0 x.1.now) }
    ensures shorter { IfOk result (λ x. length x.1.now ≤ length rest.now) }
{
    if b == b'\\' {
        command(alloc, text, accents, rest)
    } else if b == b'{' {
        Ok((accents, rest))
    } else if b == b'}' {
        Ok((Accents::Nothing, rest))
    } else {
        other_element(text, accents, b, rest)
    }
}
