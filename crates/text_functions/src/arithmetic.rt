//! Functions of two numbers.
ghost use Rattle.std.specs.Prelude.{◌≡◌, ℤ};
ghost use Rattle.std.specs.Int.{w64};
ghost use Rattle.std.specs.Int.RustNames.{FitsSigned};
ghost use Rattle.std.specs.Option.{SomeIff};
ghost use Rattle.function_spec.specs.declared.Function.TheVariants.{Plus, Minus, Times, Div, Mod};
ghost use Rattle.function_spec.specs.Functions.{Gives, IsInt};
ghost use Rattle.text_functions.specs.Told.{Tells};

use crate::quotients::{quotient, remainder};
use crate::results::{int_value, two_numbers};
use sd_value::Value;

// The Int of a number that has 64 bits.
fn checked_value(n: Option<i64>) -> Option<Value>
    ensures { (z : ℤ) → SomeIff n (FitsSigned w64 z) z → Tells (IsInt z) result }
{
    match n {
        Some(n) => int_value(n),
        None => None,
    }
}

/// The sum of two numbers, if it has 64 bits.
pub fn plus(values: &[Value]) -> Option<Value>
    ensures { Tells (Gives Plus values.now) result }
{
    let Some((a, b)) = two_numbers(values) else {
        return None;
    };
    let value = checked_value(a.checked_add(b));
    value
}

/// The difference of two numbers, if it has 64 bits.
pub fn minus(values: &[Value]) -> Option<Value>
    ensures { Tells (Gives Minus values.now) result }
{
    let Some((a, b)) = two_numbers(values) else {
        return None;
    };
    let value = checked_value(a.checked_sub(b));
    value
}

/// The product of two numbers, if it has 64 bits.
pub fn times(values: &[Value]) -> Option<Value>
    ensures { Tells (Gives Times values.now) result }
{
    let Some((a, b)) = two_numbers(values) else {
        return None;
    };
    let value = checked_value(a.checked_mul(b));
    value
}

/// The quotient of two numbers rounded down, if there is one that has 64 bits.
pub fn div(values: &[Value]) -> Option<Value>
    ensures { Tells (Gives Div values.now) result }
{
    let Some((a, b)) = two_numbers(values) else {
        return None;
    };
    if b == 0 {
        return None;
    }
    let value = checked_value(quotient(a, b));
    value
}

/// What is left of the first number by the second, which is not 0.
pub fn modulo(values: &[Value]) -> Option<Value>
    ensures { Tells (Gives Mod values.now) result }
{
    let Some((a, b)) = two_numbers(values) else {
        return None;
    };
    if b == 0 {
        return None;
    }
    let value = checked_value(remainder(a, b));
    value
}
