//! Numbers that texts spell.
ghost use Rattle.std.specs.Prelude.{◌≡◌, ℤ, MatchOption};
ghost use Rattle.std.specs.Int.{w64};
ghost use Rattle.std.specs.Int.RustNames.{FitsSigned};
ghost use Rattle.function_spec.specs.Numbers.{Spells};

/// The number that an optional sign and digits spell, if it has 64 bits.
pub fn number(text: &[u8]) -> Option<i64>
    ensures { MatchOption result
        ((z : ℤ) → Spells text.now z → FitsSigned w64 z → ⊥) (λ n. Spells text.now n) }
{
    let Ok(text) = str::from_utf8(text) else {
        return None;
    };
    match text.parse::<i64>() {
        Ok(number) => Some(number),
        Err(_) => None,
    }
}
