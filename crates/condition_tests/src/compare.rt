// Comparisons, and tests of kinds.
ghost use Rattle.std.specs.Prelude.{◌≡◌, ◌↔◌, ℕ, ℤ, Some, IfOk, IsTrue, Contains, ◌++◌};
ghost use Rattle.std.specs.declared.cmp.Ordering.{Ordering as PlainOrdering};
ghost use Rattle.sd_value.specs.declared.Value.{Value as Item};
ghost use Rattle.query_spec.specs.Holds.{AreTwins, IsTwinOf, IsEqual, StandIn, Compares, HasKind};
ghost use Rattle.std.specs.Ordering.{int_cmp};
ghost use Rattle.std.specs.Fmt.{signed_decimal};
ghost use Rattle.condition_tests.specs.Meaning.{IsOneOf};
ghost use Rattle.condition_tests.specs.Comparing.{IsInRange, Allows};

use crate::value_set::ValueSet;
use query_spec::{Op, Test};
use sd_value::{Datum, NoMemory, Str, Value, copy};
use std::alloc::Global;
use std::cmp::Ordering;
use value_texts::texts_hold;

pub(crate) fn has_kind(test: Test, v: &Value) -> bool
    ensures { IsTrue result ↔ HasKind test v.now }
{
    match (test, v) {
        (Test::IsInt, Value::Data(Datum::Int(_))) => true,
        (Test::IsText, Value::Data(Datum::Text(_))) => true,
        (Test::IsUrl, Value::Data(Datum::Url(_))) => true,
        (Test::IsFile, Value::Data(Datum::File(_))) => true,
        (Test::IsNode, Value::Data(Datum::Node(_))) => true,
        _ => false,
    }
}

// Whether the text is the number's twin.
fn are_twins(alloc: Global, version: u8, n: i64, text: &Str) -> Result<bool, NoMemory>
    ensures { IfOk result (λ b. IsTrue b ↔ AreTwins version n text.now) }
{
    if version < 2 {
        return Ok(false);
    }
    let spelled = format!(in alloc; "{n}")?;
    Ok(spelled.as_bytes() == text.bytes())
}

// The number that the text spells, if it spells one as it is printed.
fn number_in(text: &[u8]) -> Option<i64>
    ensures { (n : ℤ) → text.now ≡ signed_decimal n → IsInRange n → result ≡ Some n }
{
    match str::from_utf8(text) {
        Ok(text) => text.parse::<i64>().ok(),
        Err(_) => None,
    }
}

// The number whose twin the text is.
fn twin_number(alloc: Global, version: u8, text: &Str) -> Result<Option<i64>, NoMemory>
    ensures { IfOk result (λ r. (n : ℤ) → AreTwins version n text.now ↔ (r ≡ Some n)) }
{
    let Some(n) = number_in(text.bytes()) else {
        return Ok(None);
    };
    if are_twins(alloc, version, n, text)? {
        Ok(Some(n))
    } else {
        Ok(None)
    }
}

fn is_twin_of(alloc: Global, version: u8, u: &Value, v: &Value) -> Result<bool, NoMemory>
    ensures { IfOk result (λ b. IsTrue b ↔ IsTwinOf version u.now v.now) }
{
    match (u, v) {
        (Value::Data(Datum::Int(n)), Value::Data(Datum::Text(s))) => Ok(are_twins(
            alloc, version, *n, s,
        )?),
        (Value::Data(Datum::Text(s)), Value::Data(Datum::Int(n))) => Ok(are_twins(
            alloc, version, *n, s,
        )?),
        _ => Ok(false),
    }
}

// Whether the values are equal under the version.
fn is_equal(alloc: Global, version: u8, u: &Value, v: &Value) -> Result<bool, NoMemory>
    ensures { IfOk result (λ b. IsTrue b ↔ IsEqual version u.now v.now) }
{
    let same = *u == *v;
    let twins = is_twin_of(alloc, version, u, v)?;
    Ok(same || twins)
}

// Whether the value equals one of the constants: it is there, or its twin is.
pub(crate) fn is_one_of(
    alloc: Global,
    version: u8,
    constants: &ValueSet,
    v: &Value,
) -> Result<bool, NoMemory>
    ensures { IfOk result (λ b. IsTrue b ↔ IsOneOf version constants.now v.now) }
{
    if constants.has(v) {
        return Ok(true);
    }
    match twin_of(alloc, version, v)? {
        Some(twin) => Ok(constants.has(&twin)),
        None => Ok(false),
    }
}

fn compare_numbers(m: &i64, n: &i64) -> Ordering
    ensures { result ≡ int_cmp m.now n.now }
{
    m.cmp(n)
}

// How a number is to a text, by the number whose twin the text is.
fn number_to_text(
    alloc: Global,
    version: u8,
    m: &i64,
    text: &Str,
) -> Result<Option<Ordering>, NoMemory>
    ensures { IfOk result (λ r. (o : PlainOrdering)
        → ((n : ℤ) × AreTwins version n text.now × (int_cmp m.now n ≡ o)) ↔ (r ≡ Some o)) }
{
    match twin_number(alloc, version, text)? {
        Some(n) => Ok(Some(compare_numbers(m, &n))),
        None => Ok(None),
    }
}

// How a text is to a number.
fn text_to_number(
    alloc: Global,
    version: u8,
    text: &Str,
    n: &i64,
) -> Result<Option<Ordering>, NoMemory>
    ensures { IfOk result (λ r. (o : PlainOrdering)
        → ((m : ℤ) × AreTwins version m text.now × (int_cmp m n.now ≡ o)) ↔ (r ≡ Some o)) }
{
    match twin_number(alloc, version, text)? {
        Some(m) => Ok(Some(compare_numbers(&m, n))),
        None => Ok(None),
    }
}

// How a number is to a datum, where the version orders them.
fn number_to(alloc: Global, version: u8, m: &i64, d: &Datum) -> Result<Option<Ordering>, NoMemory>
    ensures { IfOk result (λ r. (o : PlainOrdering)
        → StandIn version o (Value.Data (Datum.Int m.now)) (Value.Data d.now) ↔ (r ≡ Some o)) }
{
    match d {
        Datum::Int(n) => Ok(Some(compare_numbers(m, n))),
        Datum::Text(t) => {
            let order = number_to_text(alloc, version, m, t)?;
            Ok(order)
        }
        _ => Ok(None),
    }
}

// How a text is to a datum.
fn text_to(alloc: Global, version: u8, s: &Str, d: &Datum) -> Result<Option<Ordering>, NoMemory>
    ensures { IfOk result (λ r. (o : PlainOrdering)
        → StandIn version o (Value.Data (Datum.Text s.now)) (Value.Data d.now) ↔ (r ≡ Some o)) }
{
    match d {
        Datum::Int(n) => {
            let order = text_to_number(alloc, version, s, n)?;
            Ok(order)
        }
        Datum::Text(t) => Ok(Some(s.cmp(t))),
        _ => Ok(None),
    }
}

// How two data are to each other.
fn order_of_data(
    alloc: Global,
    version: u8,
    d: &Datum,
    e: &Datum,
) -> Result<Option<Ordering>, NoMemory>
    ensures { IfOk result (λ r. (o : PlainOrdering)
        → StandIn version o (Value.Data d.now) (Value.Data e.now) ↔ (r ≡ Some o)) }
{
    match d {
        Datum::Int(m) => {
            let order = number_to(alloc, version, m, e)?;
            Ok(order)
        }
        Datum::Text(s) => {
            let order = text_to(alloc, version, s, e)?;
            Ok(order)
        }
        _ => Ok(None),
    }
}

// How the values are to each other.
fn order_of(alloc: Global, version: u8, u: &Value, v: &Value) -> Result<Option<Ordering>, NoMemory>
    ensures { IfOk result (λ r. (o : PlainOrdering)
        → StandIn version o u.now v.now ↔ (r ≡ Some o)) }
{
    match (u, v) {
        (Value::Data(d), Value::Data(e)) => {
            let order = order_of_data(alloc, version, d, e)?;
            Ok(order)
        }
        _ => Ok(None),
    }
}

// Whether the comparison holds.
pub(crate) fn compares(
    alloc: Global,
    version: u8,
    op: Op,
    u: &Value,
    v: &Value,
) -> Result<bool, NoMemory>
    ensures { IfOk result (λ b. IsTrue b ↔ Compares version op u.now v.now) }
{
    match op {
        Op::Eq => Ok(is_equal(alloc, version, u, v)?),
        Op::Ne => {
            let same = is_equal(alloc, version, u, v)?;
            Ok(!same)
        }
        Op::Lt | Op::Le | Op::Gt | Op::Ge => {
            let order = order_of(alloc, version, u, v)?;
            Ok(allows(op, order))
        }
        Op::Texts(test) => Ok(texts_hold(alloc, test, u, v)?),
    }
}

// Whether one of the four orders holds of values that are so.
fn allows(op: Op, order: Option<Ordering>) -> bool
    ensures { IsTrue result ↔ Allows op order }
{
    match (op, order) {
        (Op::Lt, Some(Ordering::Less)) => true,
        (Op::Le, Some(Ordering::Less | Ordering::Equal)) => true,
        (Op::Gt, Some(Ordering::Greater)) => true,
        (Op::Ge, Some(Ordering::Greater | Ordering::Equal)) => true,
        _ => false,
    }
}

// The text that is the number's twin.
fn text_twin(alloc: Global, version: u8, n: i64) -> Result<Option<Value>, NoMemory>
    ensures { IfOk result (λ r. (w : Item) → IsTwinOf version (Value.Data (Datum.Int n)) w
        ↔ (r ≡ Some w)) }
{
    if version < 2 {
        return Ok(None);
    }
    let spelled = format!(in alloc; "{n}")?;
    let text = Str::new(alloc, spelled.as_bytes())?;
    Ok(Some(Value::Data(Datum::Text(text))))
}

// The value's twin, if it has one.
fn twin_of(alloc: Global, version: u8, v: &Value) -> Result<Option<Value>, NoMemory>
    ensures { IfOk result (λ r. (w : Item) → IsTwinOf version v.now w ↔ (r ≡ Some w)) }
{
    match v {
        Value::Data(Datum::Int(n)) => {
            let twin = text_twin(alloc, version, *n)?;
            Ok(twin)
        }
        Value::Data(Datum::Text(s)) => match twin_number(alloc, version, s)? {
            Some(n) => Ok(Some(Value::Data(Datum::Int(n)))),
            None => Ok(None),
        },
        _ => Ok(None),
    }
}

/// The values that equal this one under the version: itself, and its twin.
pub fn equals_of(alloc: Global, version: u8, v: &Value) -> Result<Vec<Value>, NoMemory>
    ensures { IfOk result (λ values. (w : Item)
        → Contains values.items w ↔ IsEqual version v.now w) }
{
    let mut values = Vec::new(alloc);
    values.push(copy(alloc, v)?)?;
    if let Some(twin) = twin_of(alloc, version, v)? {
        values.push(twin)?;
    }
    Ok(values)
}

fn add_all(values: &mut Vec<Value>, more: Vec<Value>) -> Result<(), NoMemory>
    ensures { IfOk result (λ _. values.new.items ≡ values.old.items ++ more.items) }
{
    let mut more = more;
    values.append(&mut more)?;
    Ok(())
}

/// The values that equal one of the constants under the version, some perhaps twice.
pub fn equals_of_any(
    alloc: Global,
    version: u8,
    constants: &ValueSet,
) -> Result<Vec<Value>, NoMemory>
    ensures { IfOk result (λ values. (w : Item)
        → Contains values.items w ↔ IsOneOf version constants.now w) }
{
    let mut values = Vec::new(alloc);
    for constant in constants.items() {
        let equals = equals_of(alloc, version, constant)?;
        add_all(&mut values, equals)?;
    }
    Ok(values)
}
