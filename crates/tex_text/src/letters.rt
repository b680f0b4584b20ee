// TeX's letters and accents.
ghost use Rattle.std.specs.Prelude.{◌≡◌, ◌++◌, IfOk, option_map};
ghost use Rattle.tex_text.specs.Letters as specs;

use crate::accents::Accents;
use sd_value::NoMemory;

fn small_letter(word: &[u8]) -> Option<&'static [u8]>
    ensures { option_map (λ x. x.now) result ≡ specs.small_letter word.now }
{
    if word == b"ss".as_slice() {
        Some(b"\xc3\x9f")
    } else if word == b"o".as_slice() {
        Some(b"\xc3\xb8")
    } else if word == b"aa".as_slice() {
        Some(b"\xc3\xa5")
    } else if word == b"ae".as_slice() {
        Some(b"\xc3\xa6")
    } else if word == b"oe".as_slice() {
        Some(b"\xc5\x93")
    } else if word == b"l".as_slice() {
        Some(b"\xc5\x82")
    } else if word == b"i".as_slice() {
        Some(b"\xc4\xb1")
    } else if word == b"j".as_slice() {
        Some(b"\xc8\xb7")
    } else if word == b"th".as_slice() {
        Some(b"\xc3\xbe")
    } else if word == b"dh".as_slice() {
        Some(b"\xc3\xb0")
    } else {
        None
    }
}

fn large_letter(word: &[u8]) -> Option<&'static [u8]>
    ensures { option_map (λ x. x.now) result ≡ specs.large_letter word.now }
{
    if word == b"O".as_slice() {
        Some(b"\xc3\x98")
    } else if word == b"AA".as_slice() {
        Some(b"\xc3\x85")
    } else if word == b"AE".as_slice() {
        Some(b"\xc3\x86")
    } else if word == b"OE".as_slice() {
        Some(b"\xc5\x92")
    } else if word == b"L".as_slice() {
        Some(b"\xc5\x81")
    } else if word == b"TH".as_slice() {
        Some(b"\xc3\x9e")
    } else if word == b"DH".as_slice() {
        Some(b"\xc3\x90")
    } else {
        None
    }
}

/// The letter that a command is.
pub(crate) fn word_letter(word: &[u8]) -> Option<&'static [u8]>
    ensures { option_map (λ x. x.now) result ≡ specs.word_letter word.now }
{
    match small_letter(word) {
        Some(letter) => Some(letter),
        None => large_letter(word),
    }
}

/// The accent of a sign behind a backslash.
pub(crate) fn sign_accent(b: u8) -> Option<u8>
    ensures { result ≡ specs.sign_accent b }
{
    if b == b'`' {
        Some(128)
    } else if b == b'\'' {
        Some(129)
    } else if b == b'^' {
        Some(130)
    } else if b == b'~' {
        Some(131)
    } else if b == b'=' {
        Some(132)
    } else if b == b'.' {
        Some(135)
    } else if b == b'"' {
        Some(136)
    } else {
        None
    }
}

fn letter_accent(b: u8) -> Option<u8>
    ensures { result ≡ specs.letter_accent b }
{
    if b == b'u' {
        Some(134)
    } else if b == b'r' {
        Some(138)
    } else if b == b'H' {
        Some(139)
    } else if b == b'v' {
        Some(140)
    } else if b == b'd' {
        Some(163)
    } else if b == b'c' {
        Some(167)
    } else if b == b'k' {
        Some(168)
    } else if b == b'b' {
        Some(177)
    } else {
        None
    }
}

/// The accent that a command is.
pub(crate) fn word_accent(word: &[u8]) -> Option<u8>
    ensures { result ≡ specs.word_accent word.now }
{
    match word {
        [b] => letter_accent(*b),
        _ => None,
    }
}

/// With one accent more, which is nearer to the letter.
pub(crate) fn added(accent: u8, accents: Accents) -> Accents
    ensures { result ≡ specs.added accent accents }
{
    match accents {
        Accents::Nothing => Accents::One(accent),
        Accents::One(a) => Accents::Two(accent, a),
        Accents::Two(a, _) => Accents::Two(accent, a),
    }
}

/// Appends accents as combining characters.
pub(crate) fn put_accents(text: &mut Vec<u8>, accents: Accents) -> Result<(), NoMemory>
    ensures { IfOk result (λ _. text.new.items ≡ text.old.items ++ specs.accents_text accents) }
{
    match accents {
        Accents::Nothing => {}
        Accents::One(a) => text.extend_from_slice(&[204, a])?,
        Accents::Two(a, b) => text.extend_from_slice(&[204, a, 204, b])?,
    }
    Ok(())
}

/// Appends a letter of this name: under accents `ı` and `ȷ` have none of their own.
pub(crate) fn put_letter(
    text: &mut Vec<u8>,
    accents: Accents,
    word: &[u8],
    letter: &[u8],
) -> Result<(), NoMemory>
    ensures { IfOk result (λ _. text.new.items
        ≡ text.old.items ++ specs.letter_under accents word.now letter.now) }
{
    match accents {
        Accents::Nothing => text.extend_from_slice(letter)?,
        _ => {
            if word == b"i".as_slice() || word == b"j".as_slice() {
                text.extend_from_slice(word)?;
            } else {
                text.extend_from_slice(letter)?;
            }
        }
    }
    Ok(())
}
