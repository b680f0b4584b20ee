//! Quotients rounded down.
ghost use Rattle.std.specs.Prelude.{◌≡◌, ◌≢◌, ℤ, pos};
ghost use Rattle.std.specs.Option.{SomeIff};
ghost use Rattle.std.specs.Int.{w64};
ghost use Rattle.std.specs.Int.RustNames.{FitsSigned};
ghost use Rattle.function_spec.specs.Numbers.{quotient, remainder};

// The same number, if it has 64 bits.
fn narrow(wide: i128) -> Option<i64>
    ensures { SomeIff result (FitsSigned w64 wide) wide }
{
    match i64::try_from(wide) {
        Ok(narrow) => Some(narrow),
        Err(_) => None,
    }
}

fn wide_quotient(a: i64, b: i64) -> i128
    requires { b ≢ pos 0 }
    ensures { result ≡ quotient a b }
{
    let (wide_a, wide_b) = (a as i128, b as i128);
    if b < 0 {
        return (-wide_a).div_euclid(-wide_b);
    }
    wide_a.div_euclid(wide_b)
}

/// The quotient rounded down, if it has 64 bits.
pub fn quotient(a: i64, b: i64) -> Option<i64>
    requires { b ≢ pos 0 }
    ensures { SomeIff result (FitsSigned w64 (quotient a b)) (quotient a b) }
{
    let quotient = narrow(wide_quotient(a, b));
    quotient
}

/// What is left of the first by the second, which has the second's sign unless it is 0.
pub fn remainder(a: i64, b: i64) -> Option<i64>
    requires { b ≢ pos 0 }
    ensures { SomeIff result (FitsSigned w64 (remainder a b)) (remainder a b) }
{
    let remainder = narrow(wide_remainder(a, b));
    remainder
}

fn wide_remainder(a: i64, b: i64) -> i128
    requires { b ≢ pos 0 }
    ensures { result ≡ remainder a b }
{
    let (wide_a, wide_b) = (a as i128, b as i128);
    if b < 0 {
        return -((-wide_a).rem_euclid(-wide_b));
    }
    wide_a.rem_euclid(wide_b)
}
