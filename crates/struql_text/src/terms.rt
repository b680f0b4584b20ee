//! The readers of terms, links and collections.

ghost use Rattle.std.specs.Prelude.{◌≡◌, [], ◌∷◌, map};
ghost use Rattle.grammar.specs.Reading.{iterate};
ghost use Rattle.sd_lex.specs.declared.token.Sign.TheVariants as sign_kinds;
ghost use Rattle.struql_ast.specs.Written.{term_written, target_written, link_written, collect_written};
ghost use Rattle.token_reader.specs.Terminals.{is_sign};
ghost use Rattle.struql_text.specs.Grammar.{target_span as span_of_target};
ghost use Rattle.token_reader.specs.Gives.{Gives};
ghost use Rattle.struql_text.specs.Reading.{read_operand, read_further, read_next, read_listed, read_arguments};
ghost use Rattle.struql_text.specs.Reading.{read_term, read_made, read_named_target, read_source};
ghost use Rattle.struql_text.specs.Reading.{read_operand_target, read_target, read_link, read_collect};

use crate::aggregates::named_end_at;
use crate::expression::from_to;
use crate::keyword::Word;
use crate::tokens::{collection_at, label_at, name_at, operand_at, sign_at};
use sd_lex::{Sign, Span, Token};
use std::alloc::Global;
use struql_ast::{Collect, Link, Operand, SkolemTerm, Target};
use token_reader::{Halt, has_sign};

/// A comma and an operand.
#[tactic(auto, unfolding(crate::specs::Reading::read_next))]
fn next_operand_at(
    alloc: Global,
    version: u8,
    tokens: &[Token],
) -> Result<(Operand, &[Token]), Halt<Token>>
    ensures { Gives (λ x. x.0) (λ x. x.1.now) result (read_next (read_operand version) tokens.now) }
{
    let (_, rest) = sign_at(tokens, Sign::Comma)?;
    operand_at(alloc, version, rest)
}

/// This operand, and those behind it.
fn operands_from(
    alloc: Global,
    version: u8,
    first: Operand,
    tokens: &[Token],
) -> Result<(Vec<Operand>, &[Token]), Halt<Token>>
    ensures { Gives (λ x. x.0.items) (λ x. x.1.now) result
        (iterate (is_sign sign_kinds.Comma) (read_further (read_operand version)) (first ∷ []) tokens.now) }
{
    let mut items = Vec::new(alloc);
    items.push(first)?;
    let mut rest = tokens;
    'list: while has_sign(rest, Sign::Comma) {
        let (item, after) = next_operand_at(alloc, version, rest)?;
        items.push(item)?;
        rest = after;
    }
    Ok((items, rest))
}

#[tactic(auto, unfolding(crate::specs::Reading::read_listed))]
pub(crate) fn operands_at(
    alloc: Global,
    version: u8,
    tokens: &[Token],
) -> Result<(Vec<Operand>, &[Token]), Halt<Token>>
    ensures { Gives (λ x. x.0.items) (λ x. x.1.now) result (read_listed (read_operand version) tokens.now) }
{
    let (first, rest) = operand_at(alloc, version, tokens)?;
    operands_from(alloc, version, first, rest)
}

/// The arguments of a function, which make its name a term.
#[tactic(auto, unfolding(crate::specs::Reading::read_arguments, crate::specs::Reading::read_nullary, crate::specs::Reading::read_applied))]
pub(crate) fn arguments_at(
    alloc: Global,
    version: u8,
    function: Word,
    tokens: &[Token],
) -> Result<(SkolemTerm, &[Token]), Halt<Token>>
    ensures { Gives (λ x. term_written x.0) (λ x. x.1.now) result
        (read_arguments version function tokens.now) }
{
    let (_, rest) = sign_at(tokens, Sign::OpenParen)?;
    let (args, rest) = if has_sign(rest, Sign::CloseParen) {
        (Vec::new(alloc), rest)
    } else {
        operands_at(alloc, version, rest)?
    };
    let (close, rest) = sign_at(rest, Sign::CloseParen)?;
    let span = from_to(function.span, close);
    let function = function.text;
    Ok((
        SkolemTerm {
            function,
            args,
            span,
        },
        rest,
    ))
}

/// A term.
#[tactic(auto, unfolding(crate::specs::Reading::read_term))]
pub fn term_at(
    alloc: Global,
    version: u8,
    tokens: &[Token],
) -> Result<(SkolemTerm, &[Token]), Halt<Token>>
    ensures { Gives (λ x. term_written x.0) (λ x. x.1.now) result (read_term version tokens.now) }
{
    let (function, rest) = name_at(alloc, version, tokens)?;
    arguments_at(alloc, version, function, rest)
}

/// What a name is by what is behind it: a term or a variable.
#[tactic(auto, unfolding(crate::specs::Reading::read_named_target, crate::specs::Reading::read_made))]
fn named_target_at(
    alloc: Global,
    version: u8,
    name: Word,
    tokens: &[Token],
) -> Result<(Target, &[Token]), Halt<Token>>
    ensures { Gives (λ x. target_written x.0) (λ x. x.1.now) result
        (read_named_target version name tokens.now) }
{
    if has_sign(tokens, Sign::OpenParen) {
        let (term, rest) = arguments_at(alloc, version, name, tokens)?;
        Ok((Target::Made(term), rest))
    } else {
        let variable = Operand::Variable(name.text, name.span);
        Ok((Target::Plain(variable), tokens))
    }
}

/// A name or a term.
#[tactic(auto, unfolding(crate::specs::Reading::read_source))]
fn source_at(
    alloc: Global,
    version: u8,
    tokens: &[Token],
) -> Result<(Target, &[Token]), Halt<Token>>
    ensures { Gives (λ x. target_written x.0) (λ x. x.1.now) result (read_source version tokens.now) }
{
    let (name, rest) = name_at(alloc, version, tokens)?;
    named_target_at(alloc, version, name, rest)
}

/// An operand, a term or an aggregate.
#[tactic(auto, unfolding(crate::specs::Reading::read_target, crate::specs::Reading::read_operand_target))]
fn target_at(
    alloc: Global,
    version: u8,
    tokens: &[Token],
) -> Result<(Target, &[Token]), Halt<Token>>
    ensures { Gives (λ x. target_written x.0) (λ x. x.1.now) result (read_target version tokens.now) }
{
    let (operand, rest) = operand_at(alloc, version, tokens)?;
    match operand {
        Operand::Variable(text, span) => named_end_at(alloc, version, Word { text, span }, rest),
        Operand::Constant(value, span) => {
            Ok((Target::Plain(Operand::Constant(value, span)), rest))
        }
    }
}

fn span_of(target: &Target) -> Span
    ensures { result ≡ span_of_target (target_written target.now) }
{
    match target {
        Target::Plain(Operand::Variable(_, span)) => *span,
        Target::Plain(Operand::Constant(_, span)) => *span,
        Target::Made(term) => term.span,
        Target::Summed(_, span) => *span,
    }
}

/// A link.
#[tactic(auto, unfolding(crate::specs::Reading::read_link))]
pub fn link_at(
    alloc: Global,
    version: u8,
    tokens: &[Token],
) -> Result<(Link, &[Token]), Halt<Token>>
    ensures { Gives (λ x. link_written x.0) (λ x. x.1.now) result (read_link version tokens.now) }
{
    let (source, rest) = source_at(alloc, version, tokens)?;
    let (_, rest) = sign_at(rest, Sign::Arrow)?;
    let (label, rest) = label_at(alloc, version, rest)?;
    let (_, rest) = sign_at(rest, Sign::Arrow)?;
    let (target, rest) = target_at(alloc, version, rest)?;
    let span = from_to(span_of(&source), span_of(&target));
    Ok((
        Link {
            source,
            label,
            target,
            span,
        },
        rest,
    ))
}

/// A value for a collection.
#[tactic(auto, unfolding(crate::specs::Reading::read_collect))]
pub fn collect_at(
    alloc: Global,
    version: u8,
    tokens: &[Token],
) -> Result<(Collect, &[Token]), Halt<Token>>
    ensures { Gives (λ x. collect_written x.0) (λ x. x.1.now) result (read_collect version tokens.now) }
{
    let (collection, rest) = collection_at(alloc, version, tokens)?;
    let (_, rest) = sign_at(rest, Sign::OpenParen)?;
    let (target, rest) = source_at(alloc, version, rest)?;
    let (close, rest) = sign_at(rest, Sign::CloseParen)?;
    let span = from_to(collection.span, close);
    let collection = collection.text;
    Ok((
        Collect {
            collection,
            target,
            span,
        },
        rest,
    ))
}
