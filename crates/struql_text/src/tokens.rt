//! Single tokens.

ghost use Rattle.std.specs.Prelude.{◌≡◌, true};
ghost use Rattle.grammar.specs.Reading.{take_one, starts};
ghost use Rattle.token_reader.specs.Gives.{Gives};
ghost use Rattle.struql_text.specs.Terminals.{sign_value, keyword_value, is_keyword, is_name, name_value};
ghost use Rattle.struql_text.specs.Terminals.{collection_value, operand_value, constant_value, label_value, op_value};
ghost use Rattle.token_reader.specs.Terminals.{is_sign};

use crate::keyword::{Keyword, Word, keyword_in, keyword_of};
use query_spec::Op;
use sd_lex::{Sign, Span, Token, TokenKind};
use sd_value::{Datum, Value};
use std::alloc::Global;
use struql_ast::{LinkLabel, Operand};
use token_reader::Halt;

/// This sign at the front, and its place.
pub fn sign_at(tokens: &[Token], sign: Sign) -> Result<(Span, &[Token]), Halt<Token>>
    ensures { Gives (λ x. x.0) (λ x. x.1.now) result (take_one true (sign_value sign) tokens.now) }
{
    if let [first, rest @ ..] = tokens {
        if let TokenKind::Sign(found) = &first.kind {
            if *found == sign {
                return Ok((first.span, rest));
            }
        }
    }
    Err(Halt::Expected(tokens))
}

fn is_keyword(token: &Token, keyword: Keyword) -> bool
    ensures { result ≡ is_keyword keyword token.now }
{
    match &token.kind {
        TokenKind::Name(text) => match keyword_of(text.bytes()) {
            Some(found) => found == keyword,
            None => false,
        },
        _ => false,
    }
}

fn is_name(version: u8, token: &Token) -> bool
    ensures { result ≡ is_name version token.now }
{
    match &token.kind {
        TokenKind::Name(text) => keyword_in(version, text.bytes()).is_none(),
        _ => false,
    }
}

/// This keyword at the front, and its place.
pub fn keyword_at(tokens: &[Token], keyword: Keyword) -> Result<(Span, &[Token]), Halt<Token>>
    ensures { Gives (λ x. x.0) (λ x. x.1.now) result
        (take_one true (keyword_value keyword) tokens.now) }
{
    if let [first, rest @ ..] = tokens {
        if is_keyword(first, keyword) {
            return Ok((first.span, rest));
        }
    }
    Err(Halt::Expected(tokens))
}

/// Whether this keyword is next.
pub fn has_keyword(tokens: &[Token], keyword: Keyword) -> bool
    ensures { result ≡ starts (is_keyword keyword) tokens.now }
{
    match tokens {
        [] => false,
        [first, ..] => is_keyword(first, keyword),
    }
}

/// Whether a name is next.
pub fn has_name(version: u8, tokens: &[Token]) -> bool
    ensures { result ≡ starts (is_name version) tokens.now }
{
    match tokens {
        [] => false,
        [first, ..] => is_name(version, first),
    }
}

/// A name at the front.
pub fn name_at(
    alloc: Global,
    version: u8,
    tokens: &[Token],
) -> Result<(Word, &[Token]), Halt<Token>>
    ensures { Gives (λ x. x.0) (λ x. x.1.now) result (take_one true (name_value version) tokens.now) }
{
    if let [first, rest @ ..] = tokens {
        if let TokenKind::Name(text) = &first.kind {
            if let None = keyword_in(version, text.bytes()) {
                let text = text.copy(alloc)?;
                let span = first.span;
                return Ok((Word { text, span }, rest));
            }
        }
    }
    Err(Halt::Expected(tokens))
}

/// The name of a collection at the front: a name, or a quoted text.
pub fn collection_at(
    alloc: Global,
    version: u8,
    tokens: &[Token],
) -> Result<(Word, &[Token]), Halt<Token>>
    ensures { Gives (λ x. x.0) (λ x. x.1.now) result (take_one true (collection_value version) tokens.now) }
{
    let [first, rest @ ..] = tokens else {
        return Err(Halt::Expected(tokens));
    };
    let span = first.span;
    match &first.kind {
        TokenKind::Name(text) => match keyword_in(version, text.bytes()) {
            Some(_) => Err(Halt::Expected(tokens)),
            None => {
                let text = text.copy(alloc)?;
                Ok((Word { text, span }, rest))
            }
        },
        TokenKind::Quoted(text) => {
            let text = text.copy(alloc)?;
            Ok((Word { text, span }, rest))
        }
        TokenKind::Int(_) | TokenKind::Sign(_) => Err(Halt::Expected(tokens)),
    }
}

/// A variable or a constant at the front.
pub fn operand_at(
    alloc: Global,
    version: u8,
    tokens: &[Token],
) -> Result<(Operand, &[Token]), Halt<Token>>
    ensures { Gives (λ x. x.0) (λ x. x.1.now) result (take_one true (operand_value version) tokens.now) }
{
    let [first, rest @ ..] = tokens else {
        return Err(Halt::Expected(tokens));
    };
    match &first.kind {
        TokenKind::Name(text) => match keyword_in(version, text.bytes()) {
            Some(_) => Err(Halt::Expected(tokens)),
            None => Ok((Operand::Variable(text.copy(alloc)?, first.span), rest)),
        },
        TokenKind::Quoted(text) => {
            let value = Value::Data(Datum::Text(text.copy(alloc)?));
            Ok((Operand::Constant(value, first.span), rest))
        }
        TokenKind::Int(n) => {
            let value = Value::Data(Datum::Int(*n));
            Ok((Operand::Constant(value, first.span), rest))
        }
        TokenKind::Sign(_) => Err(Halt::Expected(tokens)),
    }
}

/// A constant at the front.
pub fn constant_at(alloc: Global, tokens: &[Token]) -> Result<(Value, &[Token]), Halt<Token>>
    ensures { Gives (λ x. x.0) (λ x. x.1.now) result (take_one true constant_value tokens.now) }
{
    let [first, rest @ ..] = tokens else {
        return Err(Halt::Expected(tokens));
    };
    match &first.kind {
        TokenKind::Quoted(text) => Ok((Value::Data(Datum::Text(text.copy(alloc)?)), rest)),
        TokenKind::Int(n) => Ok((Value::Data(Datum::Int(*n)), rest)),
        TokenKind::Name(_) | TokenKind::Sign(_) => Err(Halt::Expected(tokens)),
    }
}

/// A link's label at the front.
pub fn label_at(
    alloc: Global,
    version: u8,
    tokens: &[Token],
) -> Result<(LinkLabel, &[Token]), Halt<Token>>
    ensures { Gives (λ x. x.0) (λ x. x.1.now) result (take_one true (label_value version) tokens.now) }
{
    let [first, rest @ ..] = tokens else {
        return Err(Halt::Expected(tokens));
    };
    match &first.kind {
        TokenKind::Name(text) => match keyword_in(version, text.bytes()) {
            Some(_) => Err(Halt::Expected(tokens)),
            None => Ok((LinkLabel::Variable(text.copy(alloc)?, first.span), rest)),
        },
        TokenKind::Quoted(text) => Ok((LinkLabel::Quoted(text.copy(alloc)?), rest)),
        TokenKind::Int(_) | TokenKind::Sign(_) => Err(Halt::Expected(tokens)),
    }
}

/// A comparison's sign at the front.
pub fn op_at(tokens: &[Token]) -> Result<(Op, &[Token]), Halt<Token>>
    ensures { Gives (λ x. x.0) (λ x. x.1.now) result (take_one true op_value tokens.now) }
{
    let [first, rest @ ..] = tokens else {
        return Err(Halt::Expected(tokens));
    };
    let TokenKind::Sign(sign) = &first.kind else {
        return Err(Halt::Expected(tokens));
    };
    match sign {
        Sign::Eq => Ok((Op::Eq, rest)),
        Sign::Ne => Ok((Op::Ne, rest)),
        Sign::Lt => Ok((Op::Lt, rest)),
        Sign::Le => Ok((Op::Le, rest)),
        Sign::Gt => Ok((Op::Gt, rest)),
        Sign::Ge => Ok((Op::Ge, rest)),
        Sign::Arrow
        | Sign::OpenParen
        | Sign::CloseParen
        | Sign::OpenBrace
        | Sign::CloseBrace
        | Sign::Comma
        | Sign::Dot
        | Sign::Bar
        | Sign::Star
        | Sign::Amp => Err(Halt::Expected(tokens)),
    }
}
