//! The reader of scripts over tokens.

ghost use Rattle.std.specs.Prelude.{◌≡◌, List, []};
ghost use Rattle.grammar.specs.Reading.{repeat, starts};
ghost use Rattle.token_reader.specs.Gives.{Gives};
ghost use Rattle.happenings.specs.declared.event.WireEvent.{WireEvent as AnyEvent};
ghost use Rattle.script_reader.specs.Terminals.{read_connection};
ghost use Rattle.script_reader.specs.Reading.{read_opening, read_piece, read_ending, read_loss, read_change};
ghost use Rattle.script_reader.specs.Reading.{read_phrase, begins_phrase, read_phrases};
ghost use Rattle.script_reader.specs.Spelled.{Spells};

use sd_lex::{Token, TokenKind};
use std::alloc::Global;
use token_reader::{Halt, TokenRefusal, has_word, place_of, quoted_at, word_at};
use wire::WireEvent;

/// The number of a connection at the front.
fn connection_at(tokens: &[Token]) -> Result<(u64, &[Token]), Halt<Token>>
    ensures { Gives (λ x. x.0) (λ x. x.1.now) result (read_connection tokens.now) }
{
    if let [first, rest @ ..] = tokens {
        if let TokenKind::Int(number) = &first.kind {
            if *number > 0 {
                return Ok((number.unsigned_abs(), rest));
            }
        }
    }
    Err(Halt::Expected(tokens))
}

#[tactic(auto, unfolding(crate::specs::Reading::read_opening))]
fn opening_at(tokens: &[Token]) -> Result<(WireEvent, &[Token]), Halt<Token>>
    ensures { Gives (λ x. x.0) (λ x. x.1.now) result (read_opening tokens.now) }
{
    let (_, rest) = word_at(tokens, b"open")?;
    let (number, rest) = connection_at(rest)?;
    Ok((WireEvent::Opened(number), rest))
}

#[tactic(auto, unfolding(crate::specs::Reading::read_piece))]
fn piece_at(alloc: Global, tokens: &[Token]) -> Result<(WireEvent, &[Token]), Halt<Token>>
    ensures { Gives (λ x. x.0) (λ x. x.1.now) result (read_piece tokens.now) }
{
    let (_, rest) = word_at(tokens, b"bytes")?;
    let (number, rest) = connection_at(rest)?;
    let (bytes, rest) = quoted_at(alloc, rest)?;
    Ok((WireEvent::Bytes(number, bytes.text), rest))
}

#[tactic(auto, unfolding(crate::specs::Reading::read_ending))]
fn ending_at(tokens: &[Token]) -> Result<(WireEvent, &[Token]), Halt<Token>>
    ensures { Gives (λ x. x.0) (λ x. x.1.now) result (read_ending tokens.now) }
{
    let (_, rest) = word_at(tokens, b"end")?;
    let (number, rest) = connection_at(rest)?;
    Ok((WireEvent::Ended(number), rest))
}

#[tactic(auto, unfolding(crate::specs::Reading::read_loss))]
fn loss_at(tokens: &[Token]) -> Result<(WireEvent, &[Token]), Halt<Token>>
    ensures { Gives (λ x. x.0) (λ x. x.1.now) result (read_loss tokens.now) }
{
    let (_, rest) = word_at(tokens, b"lost")?;
    let (number, rest) = connection_at(rest)?;
    Ok((WireEvent::Lost(number), rest))
}

#[tactic(auto, unfolding(crate::specs::Reading::read_change))]
fn change_at(alloc: Global, tokens: &[Token]) -> Result<(WireEvent, &[Token]), Halt<Token>>
    ensures { Gives (λ x. x.0) (λ x. x.1.now) result (read_change tokens.now) }
{
    let (_, rest) = word_at(tokens, b"change")?;
    let (text, rest) = quoted_at(alloc, rest)?;
    Ok((WireEvent::Change(text.text), rest))
}

#[tactic(auto, unfolding(crate::specs::Reading::read_phrase))]
fn phrase_at(alloc: Global, tokens: &[Token]) -> Result<(WireEvent, &[Token]), Halt<Token>>
    ensures { Gives (λ x. x.0) (λ x. x.1.now) result (read_phrase tokens.now) }
{
    if has_word(tokens, b"open") {
        opening_at(tokens)
    } else if has_word(tokens, b"bytes") {
        piece_at(alloc, tokens)
    } else if has_word(tokens, b"end") {
        ending_at(tokens)
    } else if has_word(tokens, b"lost") {
        loss_at(tokens)
    } else {
        change_at(alloc, tokens)
    }
}

/// Whether a phrase is next.
fn has_phrase(tokens: &[Token]) -> bool
    ensures { result ≡ starts begins_phrase tokens.now }
{
    has_word(tokens, b"open")
        || has_word(tokens, b"bytes")
        || has_word(tokens, b"end")
        || has_word(tokens, b"lost")
        || has_word(tokens, b"change")
}

fn phrases_at(alloc: Global, tokens: &[Token]) -> Result<(Vec<WireEvent>, &[Token]), Halt<Token>>
    ensures { Gives (λ x. x.0.items) (λ x. x.1.now) result
        (repeat begins_phrase read_phrase tokens.now) }
{
    let mut phrases = Vec::new(alloc);
    let mut rest = tokens;
    'phrases: while has_phrase(rest) {
        let (phrase, after) = phrase_at(alloc, rest)?;
        phrases.push(phrase)?;
        rest = after;
    }
    Ok((phrases, rest))
}

#[tactic(auto, unfolding(crate::specs::Reading::read_phrases))]
fn script_at(alloc: Global, tokens: &[Token]) -> Result<Vec<WireEvent>, Halt<Token>>
    ensures { Gives (λ x. x.items) (λ _. []) result (read_phrases tokens.now) }
{
    let (phrases, rest) = phrases_at(alloc, tokens)?;
    if !rest.is_empty() {
        return Err(Halt::Expected(rest));
    }
    Ok(phrases)
}

/// The phrases that these tokens spell, pieces without bytes among them. The text ends at `text_end`.
pub fn phrases(
    alloc: Global,
    tokens: &[Token],
    text_end: u64,
) -> Result<Vec<WireEvent>, TokenRefusal>
    ensures { Spells tokens.now text_end result }
{
    match script_at(alloc, tokens) {
        Ok(phrases) => Ok(phrases),
        Err(Halt::Expected(rest)) => Err(TokenRefusal::Expected(place_of(rest, text_end))),
        // This grammar has no limits, so this never comes.
        Err(Halt::TooDeep(rest)) => Err(TokenRefusal::Expected(place_of(rest, text_end))),
        Err(Halt::NoMemory) => Err(TokenRefusal::NoMemory),
    }
}
