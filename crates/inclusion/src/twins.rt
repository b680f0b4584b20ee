// Numbers, and the texts that spell them.

ghost use Rattle.std.specs.Prelude.{◌≡◌, ℤ, MatchOption};
ghost use Rattle.std.specs.Fmt.{signed_decimal};
ghost use Rattle.std.specs.Str.Parse.{signed_digits_value};
ghost use Rattle.inclusion.specs.SpelledTable.{spells as is_spelled, has_twin as is_twin, IsShort};

use itoa::Buffer;
use sd_value::{Datum, Str, Value};

/// Whether the text is what is printed of the number.
pub fn spells(n: i64, text: &Str) -> bool
    ensures { result ≡ is_spelled n text.now }
{
    let mut buffer = Buffer::new();
    buffer.format(n).as_bytes() == text.bytes()
}

// The number that the text spells, if it is what is printed of one.
fn number_in(text: &[u8]) -> Option<i64>
    ensures { MatchOption result ((n : ℤ) → IsShort n → text.now ≡ signed_decimal n → ⊥)
        (λ n. n ≡ signed_digits_value 10 text.now) }
{
    match str::from_utf8(text) {
        Ok(text) => text.parse::<i64>().ok(),
        Err(_) => None,
    }
}

fn is_number(text: &Str) -> bool
    ensures { result ≡ is_spelled (signed_digits_value 10 text.now) text.now }
{
    match number_in(text.bytes()) {
        Some(n) => spells(n, text),
        None => false,
    }
}

/// Whether the value is a number, or what is printed of one.
pub fn has_twin(value: &Value) -> bool
    ensures { result ≡ is_twin value.now }
{
    match value {
        Value::Data(datum) => match datum {
            Datum::Int(n) => {
                let _n = *n;
                true
            }
            Datum::Text(text) => is_number(text),
            _ => false,
        },
        Value::Page(_) => false,
    }
}
