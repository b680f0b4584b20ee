//! Where in HTML a place of a template is.

ghost use Rattle.std.specs.Prelude.{◌≡◌, ◌∷◌, List, ℕ};
ghost use Rattle.lint_spec.specs.Markup as specs;

use lint_spec::Markup;
use template_items::is_blank;

// Whether the bytes begin with the word, in letters of either case.
fn begins_word(word: &[u8], bytes: &[u8]) -> bool
    ensures { result ≡ specs.begins_word word.now bytes.now }
{
    let mut left = word;
    let mut rest = bytes;
    'word: loop {
        let [letter, letters @ ..] = left else {
            return true;
        };
        let [byte, later @ ..] = rest else {
            return false;
        };
        if byte.to_ascii_lowercase() != *letter {
            return false;
        }
        left = letters;
        rest = later;
    }
}

fn is_raw(bytes: &[u8]) -> bool
    ensures { result ≡ specs.is_raw bytes.now }
{
    begins_word(b"script", bytes) || begins_word(b"style", bytes)
}

fn is_run(bytes: &[u8]) -> bool
    ensures { result ≡ specs.is_run bytes.now }
{
    begins_word(b"on", bytes) || begins_word(b"style", bytes)
}

fn ends_raw(bytes: &[u8]) -> bool
    ensures { result ≡ specs.ends_raw bytes.now }
{
    begins_word(b"/script", bytes) || begins_word(b"/style", bytes)
}

fn starts_tag(bytes: &[u8]) -> bool
    ensures { result ≡ specs.starts_tag bytes.now }
{
    match bytes {
        [] => false,
        [b, ..] => {
            (*b >= b'A' && *b <= b'Z')
                || (*b >= b'a' && *b <= b'z')
                || *b == b'_'
                || *b == b'/'
                || *b == b'!'
        }
    }
}

// What follows the end of a tag.
fn inside(raw: bool) -> Markup
    ensures { result ≡ specs.inside raw }
{
    if raw { Markup::Raw } else { Markup::Content }
}

// Where a byte leads within a tag, with the bytes after it.
fn step_in_tag(raw: bool, runs: bool, byte: u8, later: &[u8]) -> Markup
    ensures { result ≡ specs.step (Markup.Tag raw runs) byte later.now }
{
    if byte == b'>' {
        inside(raw)
    } else if byte == b'=' {
        Markup::Value { raw, runs }
    } else if is_blank(byte) || byte == b'/' {
        Markup::Tag {
            raw,
            runs: is_run(later),
        }
    } else {
        Markup::Tag { raw, runs }
    }
}

// The same after the `=` of an attribute.
fn step_in_value(raw: bool, runs: bool, byte: u8) -> Markup
    ensures { (later : List ℕ) → result ≡ specs.step (Markup.Value raw runs) byte later }
{
    if byte == b'>' {
        inside(raw)
    } else if is_blank(byte) {
        Markup::Value { raw, runs }
    } else if byte == b'"' {
        Markup::Quoted {
            raw,
            runs,
            double: true,
        }
    } else if byte == b'\'' {
        Markup::Quoted {
            raw,
            runs,
            double: false,
        }
    } else {
        Markup::Unquoted { raw }
    }
}

// The same in a value without quotes.
fn step_unquoted(raw: bool, byte: u8, later: &[u8]) -> Markup
    ensures { result ≡ specs.step (Markup.Unquoted raw) byte later.now }
{
    if byte == b'>' {
        inside(raw)
    } else if is_blank(byte) {
        Markup::Tag {
            raw,
            runs: is_run(later),
        }
    } else {
        Markup::Unquoted { raw }
    }
}

// Where a byte leads, with the bytes after it.
fn step(place: Markup, byte: u8, later: &[u8]) -> Markup
    ensures { result ≡ specs.step place byte later.now }
{
    match place {
        Markup::Content => {
            if byte == b'<' && starts_tag(later) {
                Markup::Tag {
                    raw: is_raw(later),
                    runs: false,
                }
            } else {
                Markup::Content
            }
        }
        Markup::Raw => {
            if byte == b'<' && ends_raw(later) {
                Markup::Tag {
                    raw: false,
                    runs: false,
                }
            } else {
                Markup::Raw
            }
        }
        Markup::Tag { raw, runs } => step_in_tag(raw, runs, byte, later),
        Markup::Value { raw, runs } => step_in_value(raw, runs, byte),
        Markup::Unquoted { raw } => step_unquoted(raw, byte, later),
        Markup::Quoted { raw, runs, double } => {
            let quote = if double { b'"' } else { b'\'' };
            if byte == quote {
                Markup::Tag { raw, runs: false }
            } else {
                Markup::Quoted { raw, runs, double }
            }
        }
    }
}

/// Where a text leads.
pub(crate) fn after_text(place: Markup, text: &[u8]) -> Markup
    ensures { result ≡ specs.after_text place text.now }
{
    let mut here = place;
    let mut rest = text;
    'text: loop {
        let [byte, later @ ..] = rest else {
            return here;
        };
        here = step(here, *byte, later);
        rest = later;
    }
}

/// Where a value leads that is shown there.
pub(crate) fn after_value(place: Markup) -> Markup
    ensures { result ≡ specs.after_value place }
{
    match place {
        Markup::Value { raw, .. } => Markup::Unquoted { raw },
        _ => place,
    }
}

/// Whether what is shown there may be read as more than text.
pub(crate) fn is_unsafe(place: Markup) -> bool
    ensures { result ≡ specs.is_unsafe place }
{
    match place {
        Markup::Content => false,
        Markup::Quoted { runs, .. } => runs,
        _ => true,
    }
}
