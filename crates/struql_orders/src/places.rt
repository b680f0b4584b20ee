// The readers of places.

ghost use Rattle.std.specs.Prelude.{◌≡◌, true, map};
ghost use Rattle.grammar.specs.Reading.{take_one, repeat, starts};
ghost use Rattle.order_spec.specs.Read.{place_of};
ghost use Rattle.token_reader.specs.Gives.{Gives};
ghost use Rattle.struql_orders.specs.Terminals.{count_value, begins_place};
ghost use Rattle.struql_orders.specs.Reading.{read_position, read_next, read_previous, read_page, read_place};

use order_spec::Place;
use sd_lex::{Token, TokenKind};
use std::alloc::Global;
use struql_text::{Keyword, keyword_at};
use token_reader::{Halt, has_word, quoted_at, word_at};

// A number from 1 on.
fn count_at(tokens: &[Token]) -> Result<(u64, &[Token]), Halt<Token>>
    ensures { Gives (λ x. x.0) (λ x. x.1.now) result (take_one true count_value tokens.now) }
{
    if let [first, rest @ ..] = tokens {
        if let TokenKind::Int(n) = &first.kind {
            let count = *n;
            if count > 0 {
                return Ok((count as u64, rest));
            }
        }
    }
    Err(Halt::Expected(tokens))
}

#[tactic(auto, unfolding(crate::specs::Reading::read_position))]
fn position_at(alloc: Global, tokens: &[Token]) -> Result<(Place, &[Token]), Halt<Token>>
    ensures { Gives (λ x. place_of x.0) (λ x. x.1.now) result (read_position tokens.now) }
{
    let (_, rest) = word_at(tokens, b"position")?;
    let (label, rest) = quoted_at(alloc, rest)?;
    Ok((Place::Position(label.text), rest))
}

#[tactic(auto, unfolding(crate::specs::Reading::read_next))]
fn next_at(alloc: Global, tokens: &[Token]) -> Result<(Place, &[Token]), Halt<Token>>
    ensures { Gives (λ x. place_of x.0) (λ x. x.1.now) result (read_next tokens.now) }
{
    let (_, rest) = word_at(tokens, b"next")?;
    let (label, rest) = quoted_at(alloc, rest)?;
    Ok((Place::Next(label.text), rest))
}

#[tactic(auto, unfolding(crate::specs::Reading::read_previous))]
fn previous_at(alloc: Global, tokens: &[Token]) -> Result<(Place, &[Token]), Halt<Token>>
    ensures { Gives (λ x. place_of x.0) (λ x. x.1.now) result (read_previous tokens.now) }
{
    let (_, rest) = word_at(tokens, b"previous")?;
    let (label, rest) = quoted_at(alloc, rest)?;
    Ok((Place::Previous(label.text), rest))
}

#[tactic(auto, unfolding(crate::specs::Reading::read_page))]
fn page_at(alloc: Global, tokens: &[Token]) -> Result<(Place, &[Token]), Halt<Token>>
    ensures { Gives (λ x. place_of x.0) (λ x. x.1.now) result (read_page tokens.now) }
{
    let (_, rest) = word_at(tokens, b"page")?;
    let (label, rest) = quoted_at(alloc, rest)?;
    let (_, rest) = keyword_at(rest, Keyword::Of)?;
    let (count, rest) = count_at(rest)?;
    Ok((Place::Page(label.text, count), rest))
}

#[tactic(auto, unfolding(crate::specs::Reading::read_place))]
fn place_at(alloc: Global, tokens: &[Token]) -> Result<(Place, &[Token]), Halt<Token>>
    ensures { Gives (λ x. place_of x.0) (λ x. x.1.now) result (read_place tokens.now) }
{
    if has_word(tokens, b"position") {
        position_at(alloc, tokens)
    } else if has_word(tokens, b"next") {
        next_at(alloc, tokens)
    } else if has_word(tokens, b"previous") {
        previous_at(alloc, tokens)
    } else {
        page_at(alloc, tokens)
    }
}

fn has_place(tokens: &[Token]) -> bool
    ensures { result ≡ starts begins_place tokens.now }
{
    has_word(tokens, b"position")
        || has_word(tokens, b"next")
        || has_word(tokens, b"previous")
        || has_word(tokens, b"page")
}

/// Places, one after another.
pub(crate) fn places_at(
    alloc: Global,
    tokens: &[Token],
) -> Result<(Vec<Place>, &[Token]), Halt<Token>>
    ensures { Gives (λ x. map place_of x.0.items) (λ x. x.1.now) result
        (repeat begins_place read_place tokens.now) }
{
    let mut places = Vec::new(alloc);
    let mut rest = tokens;
    'places: while has_place(rest) {
        let (place, after) = place_at(alloc, rest)?;
        places.push(place)?;
        rest = after;
    }
    Ok((places, rest))
}
