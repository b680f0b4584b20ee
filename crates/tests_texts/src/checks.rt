// How answers are compared with a row.
use std::test::Fail;

/// Fails with the reason where a row doesn't hold.
pub fn check(holds: bool, reason: &str) -> Result<(), Fail> {
    if holds {
        return Ok(());
    }
    Err(Fail::new(reason))
}

/// Compares two texts.
pub fn check_text(found: &[u8], wanted: &[u8]) -> Result<(), Fail> {
    if found == wanted {
        return Ok(());
    }
    Err(Fail::new(format_args!("{found:?} in place of {wanted:?}")))
}
