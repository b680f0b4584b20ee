//! The reader of constraints over tokens.

ghost use Rattle.std.specs.Prelude.{◌≡◌, [], true};
ghost use Rattle.grammar.specs.Reading.{take_one, repeat, starts};
ghost use Rattle.token_reader.specs.Gives.{Gives};
ghost use Rattle.constraints.specs.Terminals.{bare_value};
ghost use Rattle.constraints.specs.Reading.{read_reachable, read_each, read_only, read_never, read_one, read_phrase};
ghost use Rattle.constraints.specs.Reading.{begins_phrase, read_phrases};
ghost use Rattle.constraints.specs.Spelled.{Spells};

use sd_lex::{Token, TokenKind};
use sd_value::Str;
use std::alloc::Global;
use token_reader::{Halt, TokenRefusal, Word, has_word, place_of, quoted_at, word_at};

/// A constraint as it is written: its functions with their places.
#[derive(Debug)]
pub enum Phrase {
    Reachable {
        function: Word,
        root: Word,
    },
    Each {
        function: Word,
        label: Str,
        target: Word,
    },
    Only {
        function: Word,
        label: Str,
        target: Word,
    },
    Never {
        function: Word,
        label: Str,
    },
    One {
        function: Word,
        label: Str,
    },
}

// Written out, so that it is proved here once, and not again in each crate that drops one.
impl Drop for Phrase {
    fn drop(self) {
        match self {
            Phrase::Reachable {
                function: _function,
                root: _root,
            } => {}
            Phrase::Each {
                function: _function,
                label: _label,
                target: _target,
            } => {}
            Phrase::Only {
                function: _function,
                label: _label,
                target: _target,
            } => {}
            Phrase::Never {
                function: _function,
                label: _label,
            } => {}
            Phrase::One {
                function: _function,
                label: _label,
            } => {}
        }
    }
}

/// A bare name at the front.
fn bare_at(alloc: Global, tokens: &[Token]) -> Result<(Word, &[Token]), Halt<Token>>
    ensures { Gives (λ x. x.0) (λ x. x.1.now) result (take_one true bare_value tokens.now) }
{
    if let [first, rest @ ..] = tokens {
        if let TokenKind::Name(text) = &first.kind {
            let text = text.copy(alloc)?;
            let place = first.span.start;
            return Ok((Word { text, place }, rest));
        }
    }
    Err(Halt::Expected(tokens))
}

#[tactic(auto, unfolding(crate::specs::Reading::read_reachable))]
fn reachable_at(alloc: Global, tokens: &[Token]) -> Result<(Phrase, &[Token]), Halt<Token>>
    ensures { Gives (λ x. x.0) (λ x. x.1.now) result (read_reachable tokens.now) }
{
    let (_, rest) = word_at(tokens, b"REACHABLE")?;
    let (function, rest) = bare_at(alloc, rest)?;
    let (_, rest) = word_at(rest, b"FROM")?;
    let (root, rest) = bare_at(alloc, rest)?;
    Ok((Phrase::Reachable { function, root }, rest))
}

#[tactic(auto, unfolding(crate::specs::Reading::read_each))]
fn each_at(alloc: Global, tokens: &[Token]) -> Result<(Phrase, &[Token]), Halt<Token>>
    ensures { Gives (λ x. x.0) (λ x. x.1.now) result (read_each tokens.now) }
{
    let (_, rest) = word_at(tokens, b"EACH")?;
    let (function, rest) = bare_at(alloc, rest)?;
    let (_, rest) = word_at(rest, b"LINKS")?;
    let (label, rest) = quoted_at(alloc, rest)?;
    let (_, rest) = word_at(rest, b"TO")?;
    let (target, rest) = bare_at(alloc, rest)?;
    let label = label.text;
    Ok((
        Phrase::Each {
            function,
            label,
            target,
        },
        rest,
    ))
}

#[tactic(auto, unfolding(crate::specs::Reading::read_only))]
fn only_at(alloc: Global, tokens: &[Token]) -> Result<(Phrase, &[Token]), Halt<Token>>
    ensures { Gives (λ x. x.0) (λ x. x.1.now) result (read_only tokens.now) }
{
    let (_, rest) = word_at(tokens, b"ONLY")?;
    let (function, rest) = bare_at(alloc, rest)?;
    let (_, rest) = word_at(rest, b"LINKS")?;
    let (label, rest) = quoted_at(alloc, rest)?;
    let (_, rest) = word_at(rest, b"TO")?;
    let (target, rest) = bare_at(alloc, rest)?;
    let label = label.text;
    Ok((
        Phrase::Only {
            function,
            label,
            target,
        },
        rest,
    ))
}

#[tactic(auto, unfolding(crate::specs::Reading::read_never))]
fn never_at(alloc: Global, tokens: &[Token]) -> Result<(Phrase, &[Token]), Halt<Token>>
    ensures { Gives (λ x. x.0) (λ x. x.1.now) result (read_never tokens.now) }
{
    let (_, rest) = word_at(tokens, b"NONE")?;
    let (function, rest) = bare_at(alloc, rest)?;
    let (_, rest) = word_at(rest, b"LINKS")?;
    let (label, rest) = quoted_at(alloc, rest)?;
    let label = label.text;
    Ok((Phrase::Never { function, label }, rest))
}

#[tactic(auto, unfolding(crate::specs::Reading::read_one))]
fn one_at(alloc: Global, tokens: &[Token]) -> Result<(Phrase, &[Token]), Halt<Token>>
    ensures { Gives (λ x. x.0) (λ x. x.1.now) result (read_one tokens.now) }
{
    let (_, rest) = word_at(tokens, b"ONE")?;
    let (function, rest) = bare_at(alloc, rest)?;
    let (_, rest) = word_at(rest, b"LINKS")?;
    let (label, rest) = quoted_at(alloc, rest)?;
    let label = label.text;
    Ok((Phrase::One { function, label }, rest))
}

#[tactic(auto, unfolding(crate::specs::Reading::read_phrase))]
fn phrase_at(alloc: Global, tokens: &[Token]) -> Result<(Phrase, &[Token]), Halt<Token>>
    ensures { Gives (λ x. x.0) (λ x. x.1.now) result (read_phrase tokens.now) }
{
    if has_word(tokens, b"REACHABLE") {
        reachable_at(alloc, tokens)
    } else if has_word(tokens, b"EACH") {
        each_at(alloc, tokens)
    } else if has_word(tokens, b"ONLY") {
        only_at(alloc, tokens)
    } else if has_word(tokens, b"NONE") {
        never_at(alloc, tokens)
    } else {
        one_at(alloc, tokens)
    }
}

/// Whether a constraint is next.
fn has_phrase(tokens: &[Token]) -> bool
    ensures { result ≡ starts begins_phrase tokens.now }
{
    has_word(tokens, b"REACHABLE")
        || has_word(tokens, b"EACH")
        || has_word(tokens, b"ONLY")
        || has_word(tokens, b"NONE")
        || has_word(tokens, b"ONE")
}

fn phrases_at(alloc: Global, tokens: &[Token]) -> Result<(Vec<Phrase>, &[Token]), Halt<Token>>
    ensures { Gives (λ x. x.0.items) (λ x. x.1.now) result
        (repeat begins_phrase read_phrase tokens.now) }
{
    let mut phrases = Vec::new(alloc);
    let mut rest = tokens;
    'phrases: while has_phrase(rest) {
        let (phrase, after) = phrase_at(alloc, rest)?;
        phrases.push(phrase)?;
        rest = after;
    }
    Ok((phrases, rest))
}

#[tactic(auto, unfolding(crate::specs::Reading::read_phrases))]
fn all_at(alloc: Global, tokens: &[Token]) -> Result<Vec<Phrase>, Halt<Token>>
    ensures { Gives (λ x. x.items) (λ _. []) result (read_phrases tokens.now) }
{
    let (phrases, rest) = phrases_at(alloc, tokens)?;
    if !rest.is_empty() {
        return Err(Halt::Expected(rest));
    }
    Ok(phrases)
}

/// The constraints that these tokens spell. The text ends at `text_end`.
pub fn phrases(alloc: Global, tokens: &[Token], text_end: u64) -> Result<Vec<Phrase>, TokenRefusal>
    ensures { Spells tokens.now text_end result }
{
    match all_at(alloc, tokens) {
        Ok(phrases) => Ok(phrases),
        Err(Halt::Expected(rest)) => Err(TokenRefusal::Expected(place_of(rest, text_end))),
        // This grammar has no limits, so this never comes.
        Err(Halt::TooDeep(rest)) => Err(TokenRefusal::Expected(place_of(rest, text_end))),
        Err(Halt::NoMemory) => Err(TokenRefusal::NoMemory),
    }
}
