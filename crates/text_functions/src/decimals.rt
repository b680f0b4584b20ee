//! Decimals, whose mark moves to the right.
ghost use Rattle.std.specs.Prelude.{◌≡◌, ◌++◌, ◌∷◌, ◌==◌, ◌≤◌, if◌then◌else◌, ℕ, ℤ, List, [], IfOk, MatchOption, drop};
ghost use Rattle.std.specs.Bool.{MatchBool};
ghost use Rattle.std.specs.Char.{is_ascii_digit};
ghost use Rattle.std.specs.List.{list_all, list_any};
ghost use Rattle.std.specs.Str.Parse.{IsNumeral, starts_with_minus, without_leading_sign};
ghost use Rattle.function_spec.specs.declared.Function.TheVariants.{Decimal};
ghost use Rattle.function_spec.specs.Functions.{Gives, IsInt};
ghost use Rattle.function_spec.specs.Numbers.{is_numeric, IsMark, HasDigits, IsDecimal, places, signed_as};
ghost use Rattle.text_functions.specs.Told.{Tells};

use crate::cuts::cut;
use crate::numbers::number;
use crate::results::{int_value, two_texts_and_count};
use sd_value::{NoMemory, Value};
use std::alloc::Global;

// The greatest number of places that a mark moves.
const MOST_PLACES: u64 = 18;

fn is_numeric(byte: u8) -> bool
    ensures { result ≡ is_numeric byte }
{
    (b'0' <= byte && byte <= b'9') || byte == b'+' || byte == b'-'
}

fn has_numeric(text: &[u8]) -> bool
    ensures { result ≡ list_any is_numeric text.now }
{
    text.iter().any(|byte| is_numeric(*byte))
}

fn is_mark(text: &[u8]) -> bool
    ensures { MatchBool result (IsMark text.now) (¬ (IsMark text.now)) }
{
    if text.is_empty() {
        return false;
    }
    !has_numeric(text)
}

fn are_digits(text: &[u8]) -> bool
    ensures { result ≡ list_all is_ascii_digit text.now }
{
    text.iter().all(|byte| byte.is_ascii_digit())
}

fn is_numeral(text: &[u8]) -> bool
    ensures { MatchBool result (IsNumeral 10 text.now) (¬ (IsNumeral 10 text.now)) }
{
    if text.is_empty() {
        return false;
    }
    are_digits(text)
}

// The text without its sign, if it begins with one.
fn without_sign(text: &[u8]) -> &[u8]
    ensures { result.now ≡ without_leading_sign text.now }
{
    match text {
        [b'-', digits @ ..] => digits,
        [b'+', digits @ ..] => digits,
        _ => text,
    }
}

// The digits before and after the mark in a text with or without a sign.
fn digits<'a>(text: &'a str, mark: &str) -> Option<(&'a [u8], &'a [u8])>
    requires { IsMark mark.now }
    ensures { MatchOption result
        ((whole part : List ℕ) → HasDigits mark.now (without_leading_sign text.now) whole part → ⊥)
        (λ r. HasDigits mark.now (without_leading_sign text.now) r.0.now r.1.now) }
{
    let Some((front, back)) = cut(text, mark) else {
        let alone = without_sign(text.as_bytes());
        if !is_numeral(alone) {
            return None;
        }
        return Some((alone, b""));
    };
    let whole = without_sign(front.as_bytes());
    if !is_numeral(whole) {
        return None;
    }
    let part = back.as_bytes();
    if !is_numeral(part) {
        return None;
    }
    Some((whole, part))
}

// Whether zeros alone are past the first n digits.
fn are_zeros_past(digits: &[u8], n: usize) -> bool
    ensures { result ≡ list_all (λ d. d == 48) (drop n digits.now) }
{
    digits.iter().skip(n).all(|digit| *digit == b'0')
}

// The first n digits, filled up with zeros.
fn places(alloc: Global, digits: &[u8], n: usize) -> Result<Vec<u8>, NoMemory>
    requires { n ≤ 18 }
    ensures { IfOk result (λ p. p.items ≡ places n digits.now) }
{
    let mut places = Vec::new(alloc);
    places.extend_from_slice(digits)?;
    places.resize(digits.len() + n, b'0')?;
    places.truncate(n);
    Ok(places)
}

// The minus with which the text begins, or nothing.
fn minus_of(text: &[u8]) -> &'static [u8]
    ensures { result.now ≡ (if starts_with_minus text.now then 45 ∷ [] else []) }
{
    match text {
        [b'-', ..] => b"-",
        _ => b"",
    }
}

// The digits with the sign of the text and the mark n places on.
fn moved(
    alloc: Global,
    text: &[u8],
    whole: &[u8],
    part: &[u8],
    n: usize,
) -> Result<Vec<u8>, NoMemory>
    requires { n ≤ 18 }
    ensures { IfOk result (λ m.
        m.items ≡ signed_as text.now (whole.now ++ places n part.now)) }
{
    let mut moved = Vec::new(alloc);
    moved.extend_from_slice(minus_of(text))?;
    moved.extend_from_slice(whole)?;
    let places = places(alloc, part, n)?;
    moved.extend_from_slice(places.as_slice())?;
    Ok(moved)
}

// The Int of a decimal with its mark n places on.
fn decimal_in(alloc: Global, text: &str, mark: &str, n: usize) -> Result<Option<Value>, NoMemory>
    requires mark { IsMark mark.now }
    requires few { n ≤ 18 }
    ensures { IfOk result (Tells (λ v.
        (z : ℤ) × IsDecimal text.now mark.now n z × IsInt z v)) }
{
    let Some((whole, part)) = digits(text, mark) else {
        return Ok(None);
    };
    if !are_zeros_past(part, n) {
        return Ok(None);
    }
    let digits = moved(alloc, text.as_bytes(), whole, part, n)?;
    let Some(number) = number(digits.as_slice()) else {
        return Ok(None);
    };
    Ok(int_value(number))
}

/// The number that a decimal is with its mark some places to the right, if it is one of 64 bits.
pub fn decimal(alloc: Global, values: &[Value]) -> Result<Option<Value>, NoMemory>
    ensures { IfOk result (Tells (Gives Decimal values.now)) }
{
    let Some((texts, n)) = two_texts_and_count(alloc, values)? else {
        return Ok(None);
    };
    if !is_mark(texts.1.as_bytes()) {
        return Ok(None);
    }
    if n > MOST_PLACES {
        return Ok(None);
    }
    let value = decimal_in(alloc, texts.0.as_str(), texts.1.as_str(), n as usize)?;
    Ok(value)
}
