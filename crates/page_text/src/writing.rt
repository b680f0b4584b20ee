// A text written out.
ghost use Rattle.std.specs.Prelude.{◌≡◌, ◌≤◌, ◌<◌, ◌+◌, ◌∷◌, [], ℕ, List, length, drop, IfOk, IfSome, MatchOption, ◌^◌};
ghost use Rattle.page_spec.specs.declared.TheConstants as limits;
ghost use Rattle.page_text.specs.Texts.{text_at, AreTexts};
ghost use Rattle.page_text.specs.Places.{fragments_at};

use crate::{Draft, Fragment};
use sd_value::NoMemory;
use std::alloc::Global;

/// How many parts of a text are written.
#[derive(Clone, Copy, Drop)]
pub struct Cursor {
    number: usize,
    at: usize,
}

// The part that is next.
fn next(drafts: &[Draft], place: Cursor) -> Option<&Fragment>
    requires { place.number < length drafts.now }
    ensures small { IfSome result (λ _. place.at + 1 < 2 ^ 64) }
    ensures part { MatchOption result
        (drop place.at (fragments_at drafts.now place.number) ≡ [])
        (λ f. drop place.at (fragments_at drafts.now place.number) ≡ f.now
        ∷ drop (place.at + 1) (fragments_at drafts.now place.number)) }
{
    let fragments = drafts[place.number].fragments();
    if place.at < fragments.len() {
        Some(&fragments[place.at])
    } else {
        None
    }
}

/// The text with the number, where it isn't longer than a page may be. The parts are written one after another, with
/// a stack of the texts that are begun.
pub fn written(alloc: Global, drafts: &[Draft], number: usize) -> Result<Vec<u8>, NoMemory>
    requires texts { (ts : List (List ℕ)) × AreTexts drafts.now ts }
    requires in_range { number < length drafts.now }
    ensures { IfOk result
        (λ bytes. (ts : List (List ℕ)) → AreTexts drafts.now ts
        → length (text_at ts number) ≤ limits.PAGE_LIMIT → bytes.items ≡ text_at ts number) }
{
    let mut out = Vec::new(alloc);
    let mut stack = Vec::new(alloc);
    let mut top = Cursor { number, at: 0 };
    loop {
        match next(drafts, top) {
            Some(Fragment::Stretch(text)) => {
                out.extend_from_slice(text.bytes())?;
                top = Cursor {
                    number: top.number,
                    at: top.at + 1,
                };
            }
            Some(Fragment::Whole(inner)) => {
                stack.push(Cursor {
                    number: top.number,
                    at: top.at + 1,
                })?;
                top = Cursor {
                    number: *inner,
                    at: 0,
                };
            }
            None => match stack.pop() {
                Some(outer) => top = outer,
                None => return Ok(out),
            },
        }
    }
}
