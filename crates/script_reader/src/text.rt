//! The reader of the bytes of a script.

ghost use Rattle.std.specs.Prelude.{◌≡◌, ℕ, List, All, IfOk};
ghost use Rattle.script_reader.specs.Script.{Reads, told, HasOneAnswer, IsScripted};
ghost use Rattle.script_reader.specs.ScriptText.{is_event, events};

use crate::reading::phrases;
use sd_lex::tokens;
use std::alloc::Global;
use token_reader::TextRefusal;
use wire::WireEvent;

/// Whether the phrase is an event: an empty piece is none.
fn is_event(phrase: &WireEvent) -> bool
    ensures { result ≡ is_event phrase.now }
{
    match phrase {
        WireEvent::Bytes(_, piece) => !piece.bytes().is_empty(),
        WireEvent::Opened(_)
        | WireEvent::Ended(_)
        | WireEvent::Lost(_)
        | WireEvent::Change(_)
        | WireEvent::Done => true,
    }
}

/// The events of these phrases.
fn events_of(phrases: Vec<WireEvent>) -> Vec<WireEvent>
    ensures { result.items ≡ events phrases.items }
{
    let mut phrases = phrases;
    phrases.retain(|phrase| is_event(phrase));
    phrases
}

/// The events of a script of at most `limit` bytes, in order:
///
/// ```text
/// script := { "open" Int | "bytes" Int Quoted | "end" Int | "lost" Int | "change" Quoted }
/// ```
///
/// Each number is a connection's, from 1 on. The text of a change may replace or edit the data of the run. An empty
/// piece of bytes is no event. A text of more bytes is `TooLong`, one that has no tokens has the lexer's refusal, and one that is
/// no script is `Expected` at the first token such that no script begins with the tokens up to and with it, or at its
/// end where more is wanted.
pub fn read_script(alloc: Global, bytes: &[u8], limit: u64) -> Result<Vec<WireEvent>, TextRefusal>
    ensures exact { Reads limit bytes.now (told result) }
    ensures events { IfOk result (λ events. All IsScripted events.items) }
{
    let tokens = tokens(alloc, bytes, limit)?;
    let phrases = phrases(alloc, tokens.as_slice(), bytes.len() as u64)?;
    Ok(events_of(phrases))
}

/// The contract of `read_script` admits one answer besides out of memory.
pub fn a_script_has_one_answer()
    ensures { (limit : ℕ) (bytes : List ℕ) → HasOneAnswer limit bytes }
{}
