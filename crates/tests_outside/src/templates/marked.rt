// Texts that show the place of their refusal.
use sd_value::NoMemory;
use std::alloc::Global;
use template_reader::{TmplRefusal, read_templates};

/// What is reported of a refused text: a number, and a place in the text.
#[derive(Clone, Copy, PartialEq)]
pub struct Reported {
    pub number: u32,
    pub place: u64,
}

// The text without its mark, and with its quotes.
fn text_of(alloc: Global, row: &str) -> Result<Vec<u8>, NoMemory> {
    let mut text = Vec::new(alloc);
    for byte in row.as_bytes() {
        match byte {
            b'^' => {}
            b'\'' => text.push(b'"')?,
            _ => text.push(*byte)?,
        }
    }
    Ok(text)
}

// The most bytes of a file of templates.
const LIMIT: u64 = 4096;

/// What is reported of the text, or none where it is a file of templates.
pub fn report_of(alloc: Global, text: &[u8]) -> Option<Reported> {
    let (number, place) = match read_templates(alloc, text, LIMIT) {
        Ok(_) | Err(TmplRefusal::NoMemory) => return None,
        Err(TmplRefusal::TooLong(place)) => (24, place),
        Err(TmplRefusal::Expected(place)) => (81, place),
        Err(TmplRefusal::Unclosed(place)) => (82, place),
        Err(TmplRefusal::Twice(place)) => (83, place),
        Err(TmplRefusal::TooDeep(place)) => (84, place),
        Err(TmplRefusal::UnknownVariable(place)) => (85, place),
        Err(TmplRefusal::Unknown(place)) => (86, place),
        Err(TmplRefusal::TooLarge(place)) => (87, place),
    };
    Some(Reported { number, place })
}

/// Whether a text is reported with the number and the place of its mark. It has `^` before the refused place and `'` for
/// each quote; one without a mark is a file of templates.
pub fn is_marked(alloc: Global, number: u32, row: &str) -> Result<bool, NoMemory> {
    let text = text_of(alloc, row)?;
    let found = report_of(alloc, &text);
    Ok(match row.find('^') {
        Some(place) => {
            let place = place as u64;
            found == Some(Reported { number, place })
        }
        None => found.is_none(),
    })
}
