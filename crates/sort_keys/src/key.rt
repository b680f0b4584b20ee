// A value as a key compares it.
ghost use Rattle.std.specs.Prelude.{◌≡◌, IfOk};
ghost use Rattle.sort_keys.specs.Keys.{stands_at, key_of, key_cmp, lesser};
ghost use Rattle.key_spec.specs.Keys.{folded_text};

use sd_value::{Datum, NoMemory, Str, Value, copy};
use std::alloc::Global;
use std::cmp::Ordering;
use text_functions::fold;

/// A value, and where it stands among others. A text is folded once, when its key is made.
#[derive(Debug, Drop)]
pub struct Key {
    pub stands: Value,
    pub value: Value,
}

// The text as it is folded, if it is UTF-8, and else as it is.
fn folded_text(alloc: Global, text: &Str) -> Result<Str, NoMemory>
    ensures { IfOk result (λ t. t ≡ folded_text text.now) }
{
    match str::from_utf8(text.bytes()) {
        Ok(plain) => {
            let folded = fold(alloc, plain)?;
            let folded = Str::new(alloc, folded.as_bytes())?;
            Ok(folded)
        }
        Err(_) => text.copy(alloc),
    }
}

// Where a value stands, by `fold` if its texts are folded.
fn stands_at(alloc: Global, by_fold: bool, value: &Value) -> Result<Value, NoMemory>
    ensures { IfOk result (λ v. v ≡ stands_at by_fold value.now) }
{
    match value {
        Value::Data(Datum::Text(text)) if by_fold => {
            let folded = folded_text(alloc, text)?;
            Ok(Value::Data(Datum::Text(folded)))
        }
        _ => copy(alloc, value),
    }
}

impl Key {
    /// The key of a value.
    pub fn of(alloc: Global, by_fold: bool, value: &Value) -> Result<Key, NoMemory>
        ensures { IfOk result (λ k. k ≡ key_of by_fold value.now) }
    {
        let stands = stands_at(alloc, by_fold, value)?;
        let value = copy(alloc, value)?;
        Ok(Key { stands, value })
    }

    /// An equal key.
    pub fn copy(&self, alloc: Global) -> Result<Key, NoMemory>
        ensures { IfOk result (λ k. k ≡ self.now) }
    {
        let stands = copy(alloc, &self.stands)?;
        let value = copy(alloc, &self.value)?;
        Ok(Key { stands, value })
    }

    /// Where the value stands, and the value.
    pub fn into_parts(self) -> (Value, Value)
        ensures { (result.0 ≡ self.stands) × (result.1 ≡ self.value) }
    {
        (self.stands, self.value)
    }

    /// By where they stand, ties by value. The values are compared only then, since most keys differ before.
    pub fn compare(&self, other: &Key) -> Ordering
        ensures { result ≡ key_cmp self.now other.now }
    {
        match self.stands.cmp(&other.stands) {
            Ordering::Less => Ordering::Less,
            Ordering::Equal => self.value.cmp(&other.value),
            Ordering::Greater => Ordering::Greater,
        }
    }
}

/// The lesser of two keys, the first of two that tie.
pub fn lesser(first: Option<Key>, second: Option<Key>) -> Option<Key>
    ensures { result ≡ lesser key_cmp first second }
{
    match (first, second) {
        (None, second) => second,
        (Some(first), None) => Some(first),
        (Some(first), Some(second)) => {
            if second.compare(&first).is_lt() {
                Some(second)
            } else {
                Some(first)
            }
        }
    }
}
