//! The numbers of options, and of a trial.

ghost use Rattle.std.specs.Prelude.{◌≡◌, IfSome, MatchOption, length, true, option_map};
ghost use Rattle.std.specs.Char.{is_ascii_digit};
ghost use Rattle.std.specs.List.{list_all};
ghost use Rattle.std.specs.Str.Parse.{digits_value};
ghost use Rattle.command_spec.specs.Numbers as specs;
ghost use Rattle.command_spec.specs.Ranges.{IsFrom1To};
ghost use Rattle.clap.specs.Words.{found_of, rows_of};
ghost use Rattle.command_words.specs.Parsed as parsed;

use clap::ArgMatches;
use command_spec::{NumberOption, ValueOption};
use std::str;

fn are_digits(text: &[u8]) -> bool
    ensures { result ≡ list_all is_ascii_digit text.now }
{
    text.iter().all(|byte| byte.is_ascii_digit())
}

fn is_numeral(text: &[u8]) -> bool
    ensures { result ≡ specs.is_numeral text.now }
{
    text.len() <= 10 && are_digits(text)
}

/// The number that at most 10 digits write, if there are any.
fn value_of(text: &[u8]) -> Option<u64>
    requires { specs.is_numeral text.now ≡ true }
    ensures { MatchOption result (length text.now ≡ 0) (λ value. value ≡ digits_value 10 text.now) }
{
    match str::from_utf8(text) {
        Ok(text) => text.parse().ok(),
        Err(_) => None,
    }
}

fn within(most: u64, value: u64) -> Option<u64>
    ensures exact { result ≡ specs.within most value }
    ensures range { IfSome result (IsFrom1To most) }
{
    if 1 <= value && value <= most {
        Some(value)
    } else {
        None
    }
}

/// A number of 1 to 10 digits, from 1 to `most`.
pub fn number(most: u64, text: &[u8]) -> Option<u64>
    ensures exact { result ≡ specs.number most text.now }
    ensures range { IfSome result (IsFrom1To most) }
{
    if !is_numeral(text) {
        return None;
    }
    match value_of(text) {
        Some(value) => within(most, value),
        None => None,
    }
}

/// The text of the option, where it is given.
pub fn text_in<'m>(option: ValueOption, matches: &'m ArgMatches<'_>) -> Option<&'m str>
    ensures { option_map (λ text. text.now) result
        ≡ parsed.found (rows_of (found_of matches.now)) option }
{
    matches.get_str(option.name())
}

/// The number of the option: its default where it isn't given, and nothing where its value is no such number.
pub fn number_of(option: NumberOption, matches: &ArgMatches<'_>) -> Option<u64>
    ensures exact { result
        ≡ specs.number_of option (parsed.found (rows_of (found_of matches.now))) }
    ensures range { IfSome result (IsFrom1To (specs.greatest option)) }
{
    match text_in(ValueOption::Number(option), matches) {
        None => Some(option.otherwise()),
        Some(text) => number(option.greatest(), text.as_bytes()),
    }
}
