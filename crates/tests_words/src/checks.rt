// How answers are compared with a row.
use std::str::from_utf8;
use std::test::Fail;

/// Fails with the row's text where its answer is another.
pub fn check(holds: bool, text: &[u8]) -> Result<(), Fail> {
    if holds {
        return Ok(());
    }
    let text = from_utf8(text);
    Err(Fail::new(format_args!("another answer to {text:?}")))
}

/// Compares two texts of the row with this text.
pub fn check_text(text: &[u8], found: &[u8], wanted: &[u8]) -> Result<(), Fail> {
    if found == wanted {
        return Ok(());
    }
    let text = from_utf8(text);
    let found = from_utf8(found);
    let wanted = from_utf8(wanted);
    Err(Fail::new(format_args!("{text:?}: {found:?} in place of {wanted:?}")))
}
