//! The sum of the numbers of pairs.
ghost use Rattle.std.specs.Prelude.{◌≡◌, MatchOption, [], ◌∷◌};
ghost use Rattle.std.specs.Option.{SomeIff};
ghost use Rattle.std.specs.Int.{w64};
ghost use Rattle.std.specs.Int.RustNames.{FitsSigned};
ghost use Rattle.site_spec.specs.Site.{pair_number};
ghost use Rattle.aggregate_values.specs.Sums.{HasSum, sum_of};

use sd_value::{Datum, Value};

// The number of a pair, if its second value is one.
fn number_of(part: &Value) -> Option<i64>
    ensures { MatchOption result (pair_number part.now ≡ []) (λ n. pair_number part.now ≡ n ∷ []) }
{
    let Value::Page(pair) = part else {
        return None;
    };
    match pair.args.items() {
        [_, Datum::Int(number)] => Some(*number),
        _ => None,
    }
}

// The same number, if it has 64 bits.
fn narrow(wide: i128) -> Option<i64>
    ensures { SomeIff result (FitsSigned w64 wide) wide }
{
    match i64::try_from(wide) {
        Ok(narrow) => Some(narrow),
        Err(_) => None,
    }
}

/// The sum of the numbers of the pairs, if there is one and the sum has 64 bits.
pub(crate) fn sum(parts: &[Value]) -> Option<i64>
    ensures { SomeIff result (HasSum parts.now) (sum_of parts.now) }
{
    let mut total: i128 = 0;
    let mut found = false;
    for i in 0..parts.len() {
        if let Some(number) = number_of(&parts[i]) {
            total += number as i128;
            found = true;
        }
    }
    if !found {
        return None;
    }
    let sum = narrow(total);
    sum
}
