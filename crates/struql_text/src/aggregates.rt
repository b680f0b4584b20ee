//! The readers of what a link may end at: terms, and in version 3 aggregates.

ghost use Rattle.std.specs.Prelude.{◌≡◌, ◌∷◌, IfOk};
ghost use Rattle.std.specs.Str.{bytes_eq};
ghost use Rattle.struql_ast.specs.Written.{term_written, target_written};
ghost use Rattle.token_reader.specs.Gives.{Gives};
ghost use Rattle.struql_text.specs.Terminals.{aggregate_named as named, is_sum as summing};
ghost use Rattle.struql_text.specs.Grammar.{aggregate_of as aggregate_from, called as called_by};
ghost use Rattle.struql_text.specs.Reading.{read_sum_over, read_sum_of_more, read_sum_term_end, read_sum_end};
ghost use Rattle.struql_text.specs.Reading.{read_sum_target, read_applied_target, read_named_end};

use crate::expression::from_to;
use crate::keyword::{Keyword, Word};
use crate::terms::{arguments_at, operands_at};
use crate::tokens::{has_keyword, keyword_at, name_at, operand_at, sign_at};
use sd_lex::{Sign, Span, Token};
use sd_value::{NoMemory, Str};
use std::alloc::Global;
use struql_ast::{Aggregate, Operand, SkolemTerm, Target};
use token_reader::{Halt, has_sign};

fn is_word(text: &[u8], word: &[u8]) -> bool
    ensures { result ≡ bytes_eq text.now word.now }
{
    text == word
}

/// `count`, `min` or `max` of a variable.
#[tactic(auto, unfolding(crate::specs::Terminals::aggregate_named))]
fn aggregate_named(
    alloc: Global,
    function: &Str,
    variable: &Str,
    span: Span,
) -> Result<Option<Aggregate>, NoMemory>
    ensures { IfOk result (λ a. a ≡ named function.now variable.now span) }
{
    let function = function.bytes();
    if is_word(function, b"count") {
        Ok(Some(Aggregate::Count(variable.copy(alloc)?, span)))
    } else if is_word(function, b"min") {
        Ok(Some(Aggregate::Min(variable.copy(alloc)?, span)))
    } else if is_word(function, b"max") {
        Ok(Some(Aggregate::Max(variable.copy(alloc)?, span)))
    } else {
        Ok(None)
    }
}

/// The aggregate that a function makes of one variable.
fn aggregate_of(
    alloc: Global,
    function: &Str,
    args: &[Operand],
) -> Result<Option<Aggregate>, NoMemory>
    ensures { IfOk result (λ a. a ≡ aggregate_from function.now args.now) }
{
    match args {
        [Operand::Variable(name, span)] => aggregate_named(alloc, function, name, *span),
        _ => Ok(None),
    }
}

/// The term, or in version 3 the aggregate that it is at a link's end.
fn called(alloc: Global, version: u8, term: SkolemTerm) -> Result<Target, NoMemory>
    ensures { IfOk result (λ t. target_written t ≡ called_by version (term_written term)) }
{
    if version != 3 {
        return Ok(Target::Made(term));
    }
    match aggregate_of(alloc, &term.function, term.args.as_slice())? {
        Some(aggregate) => Ok(Target::Summed(aggregate, term.span)),
        None => Ok(Target::Made(term)),
    }
}

/// The end of a sum from `OF` on.
#[tactic(auto, unfolding(crate::specs::Reading::read_sum_over))]
fn sum_over_at(
    alloc: Global,
    version: u8,
    function: Word,
    value: Word,
    tokens: &[Token],
) -> Result<(Target, &[Token]), Halt<Token>>
    ensures { Gives (λ x. target_written x.0) (λ x. x.1.now) result
        (read_sum_over version function value.text value.span tokens.now) }
{
    let (_, rest) = keyword_at(tokens, Keyword::Of)?;
    let (key, rest) = name_at(alloc, version, rest)?;
    let (close, rest) = sign_at(rest, Sign::CloseParen)?;
    let aggregate = Aggregate::Sum {
        value: value.text,
        value_span: value.span,
        key: key.text,
        key_span: key.span,
    };
    Ok((
        Target::Summed(aggregate, from_to(function.span, close)),
        rest,
    ))
}

/// The end of `sum` with further arguments.
#[tactic(auto, unfolding(crate::specs::Reading::read_sum_of_more))]
fn sum_of_more_at(
    alloc: Global,
    version: u8,
    function: Word,
    first: Operand,
    tokens: &[Token],
) -> Result<(Target, &[Token]), Halt<Token>>
    ensures { Gives (λ x. target_written x.0) (λ x. x.1.now) result
        (read_sum_of_more version function first tokens.now) }
{
    let (_, rest) = sign_at(tokens, Sign::Comma)?;
    let (args, rest) = operands_at(alloc, version, rest)?;
    let (close, rest) = sign_at(rest, Sign::CloseParen)?;
    let args = put_first(alloc, first, args)?;
    let span = from_to(function.span, close);
    Ok((
        Target::Made(SkolemTerm {
            function: function.text,
            args,
            span,
        }),
        rest,
    ))
}

fn put_first(alloc: Global, first: Operand, args: Vec<Operand>) -> Result<Vec<Operand>, NoMemory>
    ensures { IfOk result (λ all. all.items ≡ first ∷ args.items) }
{
    let mut args = args;
    let mut all = Vec::new(alloc);
    all.push(first)?;
    all.append(&mut args)?;
    Ok(all)
}

/// `sum` as a term, after its first argument.
#[tactic(auto, unfolding(crate::specs::Reading::read_sum_term_end, crate::specs::Reading::read_sum_of_one))]
fn sum_term_end_at(
    alloc: Global,
    version: u8,
    function: Word,
    first: Operand,
    tokens: &[Token],
) -> Result<(Target, &[Token]), Halt<Token>>
    ensures { Gives (λ x. target_written x.0) (λ x. x.1.now) result
        (read_sum_term_end version function first tokens.now) }
{
    if has_sign(tokens, Sign::CloseParen) {
        let (close, rest) = sign_at(tokens, Sign::CloseParen)?;
        let mut args = Vec::new(alloc);
        args.push(first)?;
        let span = from_to(function.span, close);
        return Ok((
            Target::Made(SkolemTerm {
                function: function.text,
                args,
                span,
            }),
            rest,
        ));
    }
    sum_of_more_at(alloc, version, function, first, tokens)
}

/// `sum`, after its first argument.
#[tactic(auto, unfolding(crate::specs::Reading::read_sum_end))]
fn sum_end_at(
    alloc: Global,
    version: u8,
    function: Word,
    first: Operand,
    tokens: &[Token],
) -> Result<(Target, &[Token]), Halt<Token>>
    ensures { Gives (λ x. target_written x.0) (λ x. x.1.now) result
        (read_sum_end version function first tokens.now) }
{
    match first {
        Operand::Variable(text, span) => {
            if has_keyword(tokens, Keyword::Of) {
                return sum_over_at(alloc, version, function, Word { text, span }, tokens);
            }
            sum_term_end_at(
                alloc,
                version,
                function,
                Operand::Variable(text, span),
                tokens,
            )
        }
        Operand::Constant(value, span) => {
            sum_term_end_at(
                alloc,
                version,
                function,
                Operand::Constant(value, span),
                tokens,
            )
        }
    }
}

/// `sum(v OF x)`, or a term of the function `sum`.
#[tactic(auto, unfolding(crate::specs::Reading::read_sum_target, crate::specs::Reading::read_sum_of_none, crate::specs::Reading::read_sum_of_some, crate::specs::Reading::read_nullary))]
fn sum_target_at(
    alloc: Global,
    version: u8,
    function: Word,
    tokens: &[Token],
) -> Result<(Target, &[Token]), Halt<Token>>
    ensures { Gives (λ x. target_written x.0) (λ x. x.1.now) result
        (read_sum_target version function tokens.now) }
{
    let (_, rest) = sign_at(tokens, Sign::OpenParen)?;
    if has_sign(rest, Sign::CloseParen) {
        let (close, rest) = sign_at(rest, Sign::CloseParen)?;
        let span = from_to(function.span, close);
        let term = SkolemTerm {
            function: function.text,
            args: Vec::new(alloc),
            span,
        };
        return Ok((Target::Made(term), rest));
    }
    let (first, rest) = operand_at(alloc, version, rest)?;
    sum_end_at(alloc, version, function, first, rest)
}

/// Arguments behind a name, which make a term or an aggregate.
#[tactic(auto, unfolding(crate::specs::Reading::read_applied_target, crate::specs::Reading::read_by_sum, crate::specs::Reading::read_called_target))]
fn applied_at(
    alloc: Global,
    version: u8,
    name: Word,
    tokens: &[Token],
) -> Result<(Target, &[Token]), Halt<Token>>
    ensures { Gives (λ x. target_written x.0) (λ x. x.1.now) result
        (read_applied_target version name tokens.now) }
{
    if is_sum(version, &name.text) {
        sum_target_at(alloc, version, name, tokens)
    } else {
        let (term, rest) = arguments_at(alloc, version, name, tokens)?;
        let target = called(alloc, version, term)?;
        Ok((target, rest))
    }
}

#[tactic(auto, unfolding(crate::specs::Terminals::is_sum))]
fn is_sum(version: u8, function: &Str) -> bool
    ensures { result ≡ summing version function.now }
{
    version == 3 && is_word(function.bytes(), b"sum")
}

/// What a name is at a link's end, by what is behind it: a term, an aggregate or a variable.
#[tactic(auto, unfolding(crate::specs::Reading::read_named_end))]
pub(crate) fn named_end_at(
    alloc: Global,
    version: u8,
    name: Word,
    tokens: &[Token],
) -> Result<(Target, &[Token]), Halt<Token>>
    ensures { Gives (λ x. target_written x.0) (λ x. x.1.now) result
        (read_named_end version name tokens.now) }
{
    if has_sign(tokens, Sign::OpenParen) {
        applied_at(alloc, version, name, tokens)
    } else {
        let variable = Operand::Variable(name.text, name.span);
        Ok((Target::Plain(variable), tokens))
    }
}
