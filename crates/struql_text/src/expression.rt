//! The reader of path expressions.

ghost use Rattle.std.specs.Prelude.{◌≡◌, true, nat_lt};
ghost use Rattle.grammar.specs.Reading.{iterate, guard};
ghost use Rattle.sd_lex.specs.declared.token.Sign.TheVariants as sign_kinds;
ghost use Rattle.rpe.specs.Reading.{regex_of};
ghost use Rattle.token_reader.specs.Terminals.{is_sign};
ghost use Rattle.struql_text.specs.Terminals.{from_to};
ghost use Rattle.token_reader.specs.Gives.{Gives};
ghost use Rattle.struql_text.specs.Found.{found};
ghost use Rattle.struql_text.specs.Expression.{bounded, stars as star_count};
ghost use Rattle.struql_text.specs.Reading.{read_leaf, read_post, read_seq, read_alt, read_atom, read_star_step};
ghost use Rattle.struql_text.specs.Reading.{read_dot_step, read_bar_step, read_paren};

use crate::keyword::{Keyword, keyword_of};
use crate::tokens::sign_at;
use rpe::Rpe;
use sd_lex::{Sign, Span, Token, TokenKind};
use std::alloc::Global;
use token_reader::{Halt, has_sign};

/// An expression, its place, and how many signs `.` and `|` are up to its end.
#[derive(Drop)]
pub struct Found {
    pub tree: Rpe,
    pub span: Span,
    pub signs: u32,
}

/// From the beginning of the one to the end of the other.
pub fn from_to(first: Span, last: Span) -> Span
    ensures { result ≡ from_to first last }
{
    Span {
        start: first.start,
        end: last.end,
    }
}

/// A label, `true` or `*` at the front.
#[tactic(auto, unfolding(crate::specs::Reading::read_leaf))]
fn leaf_at(alloc: Global, signs: u32, tokens: &[Token]) -> Result<(Found, &[Token]), Halt<Token>>
    ensures { Gives (λ x. found x.0) (λ x. x.1.now) result (read_leaf signs tokens.now) }
{
    let [first, rest @ ..] = tokens else {
        return Err(Halt::Expected(tokens));
    };
    let span = first.span;
    match &first.kind {
        TokenKind::Quoted(text) => {
            let tree = Rpe::Label(text.copy(alloc)?);
            Ok((Found { tree, span, signs }, rest))
        }
        TokenKind::Name(word) => {
            if let Some(keyword) = keyword_of(word.bytes()) {
                if keyword == Keyword::True {
                    let tree = Rpe::Any;
                    return Ok((Found { tree, span, signs }, rest));
                }
            }
            Err(Halt::Expected(tokens))
        }
        TokenKind::Sign(sign) => {
            if *sign == Sign::Star {
                let tree = Rpe::Star(Box::new(alloc, Rpe::Any)?);
                Ok((Found { tree, span, signs }, rest))
            } else {
                Err(Halt::Expected(tokens))
            }
        }
        TokenKind::Int(_) => Err(Halt::Expected(tokens)),
    }
}

/// Whether fewer than `limit` Stars are directly one within another at the top.
fn has_fewer_stars(tree: &Rpe, limit: u32) -> bool
    ensures { result ≡ nat_lt (star_count (regex_of tree.now)) limit }
{
    match tree {
        Rpe::Star(inner) => limit > 0 && has_fewer_stars(inner, limit - 1),
        Rpe::Label(_) | Rpe::Any | Rpe::Empty | Rpe::Seq(_, _) | Rpe::Alt(_, _) => limit > 0,
    }
}

/// The stars behind an expression.
fn star_steps_at(
    alloc: Global,
    first: Found,
    tokens: &[Token],
) -> Result<(Found, &[Token]), Halt<Token>>
    ensures { Gives (λ x. found x.0) (λ x. x.1.now) result
        (iterate (is_sign sign_kinds.Star) (λ e. guard (bounded.star e.tree) (read_star_step e))
        (found first) tokens.now) }
{
    let mut so_far = first;
    let mut rest = tokens;
    'stars: while has_sign(rest, Sign::Star) {
        let (starred, after) = star_step_at(alloc, so_far, rest)?;
        so_far = starred;
        rest = after;
    }
    Ok((so_far, rest))
}

/// One star behind an expression.
#[tactic(auto, unfolding(crate::specs::Reading::read_star_step))]
fn star_step_at(
    alloc: Global,
    inner: Found,
    tokens: &[Token],
) -> Result<(Found, &[Token]), Halt<Token>>
    ensures { Gives (λ x. found x.0) (λ x. x.1.now) result
        (guard (bounded.star (regex_of inner.tree)) (read_star_step (found inner)) tokens.now) }
{
    if !has_fewer_stars(&inner.tree, 64) {
        return Err(Halt::TooDeep(tokens));
    }
    let (star, rest) = sign_at(tokens, Sign::Star)?;
    let span = from_to(inner.span, star);
    let signs = inner.signs;
    let tree = Rpe::Star(Box::new(alloc, inner.tree)?);
    Ok((Found { tree, span, signs }, rest))
}

/// An expression with `depth` parentheses still to open.
#[cycle(expression)]
#[tactic(auto, unfolding(crate::specs::Reading::read_alt))]
pub fn alt_at<'a>(
    alloc: Global,
    depth: u32,
    signs: u32,
    tokens: &'a [Token],
) -> Result<(Found, &'a [Token]), Halt<'a, Token>>
    ensures { Gives (λ x. found x.0) (λ x. x.1.now) result
        (read_alt (read_atom depth) signs tokens.now) }
{
    let (first, rest) = seq_at(alloc, depth, signs, tokens)?;
    bar_steps_at(alloc, depth, first, rest)
}

/// The signs `|` behind an expression, each with what is behind it.
#[cycle(expression)]
fn bar_steps_at<'a>(
    alloc: Global,
    depth: u32,
    first: Found,
    tokens: &'a [Token],
) -> Result<(Found, &'a [Token]), Halt<'a, Token>>
    ensures { Gives (λ x. found x.0) (λ x. x.1.now) result
        (iterate (is_sign sign_kinds.Bar)
        (λ e. guard (bounded.sign e.signs) (read_bar_step (read_atom depth) e)) (found first)
        tokens.now) }
{
    let mut so_far = first;
    let mut rest = tokens;
    'bars: while has_sign(rest, Sign::Bar) {
        let (wider, after) = bar_step_at(alloc, depth, so_far, rest)?;
        so_far = wider;
        rest = after;
    }
    Ok((so_far, rest))
}

#[cycle(expression)]
#[tactic(auto, unfolding(crate::specs::Reading::read_bar_step))]
fn bar_step_at<'a>(
    alloc: Global,
    depth: u32,
    left: Found,
    tokens: &'a [Token],
) -> Result<(Found, &'a [Token]), Halt<'a, Token>>
    ensures { Gives (λ x. found x.0) (λ x. x.1.now) result
        (guard (bounded.sign left.signs) (read_bar_step (read_atom depth) (found left))
        tokens.now) }
{
    if left.signs >= 1023 {
        return Err(Halt::TooDeep(tokens));
    }
    let (_, rest) = sign_at(tokens, Sign::Bar)?;
    let (right, rest) = seq_at(alloc, depth, left.signs + 1, rest)?;
    let span = from_to(left.span, right.span);
    let signs = right.signs;
    let tree = Rpe::Alt(Box::new(alloc, left.tree)?, Box::new(alloc, right.tree)?);
    Ok((Found { tree, span, signs }, rest))
}

#[cycle(expression)]
#[tactic(auto, unfolding(crate::specs::Reading::read_seq))]
fn seq_at<'a>(
    alloc: Global,
    depth: u32,
    signs: u32,
    tokens: &'a [Token],
) -> Result<(Found, &'a [Token]), Halt<'a, Token>>
    ensures { Gives (λ x. found x.0) (λ x. x.1.now) result
        (read_seq (read_atom depth) signs tokens.now) }
{
    let (first, rest) = post_at(alloc, depth, signs, tokens)?;
    dot_steps_at(alloc, depth, first, rest)
}

/// The signs `.` behind an expression, each with what is behind it.
#[cycle(expression)]
fn dot_steps_at<'a>(
    alloc: Global,
    depth: u32,
    first: Found,
    tokens: &'a [Token],
) -> Result<(Found, &'a [Token]), Halt<'a, Token>>
    ensures { Gives (λ x. found x.0) (λ x. x.1.now) result
        (iterate (is_sign sign_kinds.Dot)
        (λ e. guard (bounded.sign e.signs) (read_dot_step (read_atom depth) e)) (found first)
        tokens.now) }
{
    let mut so_far = first;
    let mut rest = tokens;
    'dots: while has_sign(rest, Sign::Dot) {
        let (longer, after) = dot_step_at(alloc, depth, so_far, rest)?;
        so_far = longer;
        rest = after;
    }
    Ok((so_far, rest))
}

#[cycle(expression)]
#[tactic(auto, unfolding(crate::specs::Reading::read_dot_step))]
fn dot_step_at<'a>(
    alloc: Global,
    depth: u32,
    left: Found,
    tokens: &'a [Token],
) -> Result<(Found, &'a [Token]), Halt<'a, Token>>
    ensures { Gives (λ x. found x.0) (λ x. x.1.now) result
        (guard (bounded.sign left.signs) (read_dot_step (read_atom depth) (found left))
        tokens.now) }
{
    if left.signs >= 1023 {
        return Err(Halt::TooDeep(tokens));
    }
    let (_, rest) = sign_at(tokens, Sign::Dot)?;
    let (right, rest) = post_at(alloc, depth, left.signs + 1, rest)?;
    let span = from_to(left.span, right.span);
    let signs = right.signs;
    let tree = Rpe::Seq(Box::new(alloc, left.tree)?, Box::new(alloc, right.tree)?);
    Ok((Found { tree, span, signs }, rest))
}

#[cycle(expression)]
#[tactic(auto, unfolding(crate::specs::Reading::read_post))]
fn post_at<'a>(
    alloc: Global,
    depth: u32,
    signs: u32,
    tokens: &'a [Token],
) -> Result<(Found, &'a [Token]), Halt<'a, Token>>
    ensures { Gives (λ x. found x.0) (λ x. x.1.now) result
        (read_post (read_atom depth) signs tokens.now) }
{
    let (atom, rest) = atom_at(alloc, depth, signs, tokens)?;
    star_steps_at(alloc, atom, rest)
}

#[cycle(expression)]
fn atom_at<'a>(
    alloc: Global,
    depth: u32,
    signs: u32,
    tokens: &'a [Token],
) -> Result<(Found, &'a [Token]), Halt<'a, Token>>
    ensures { Gives (λ x. found x.0) (λ x. x.1.now) result (read_atom depth signs tokens.now) }
{
    if !has_sign(tokens, Sign::OpenParen) {
        leaf_at(alloc, signs, tokens)
    } else if depth == 0 {
        Err(Halt::TooDeep(tokens))
    } else {
        paren_at(alloc, depth - 1, signs, tokens)
    }
}

#[cycle(expression)]
#[tactic(auto, unfolding(crate::specs::Reading::read_paren, crate::specs::Reading::read_empty_close, crate::specs::Reading::read_within))]
fn paren_at<'a>(
    alloc: Global,
    depth: u32,
    signs: u32,
    tokens: &'a [Token],
) -> Result<(Found, &'a [Token]), Halt<'a, Token>>
    ensures { Gives (λ x. found x.0) (λ x. x.1.now) result
        (read_paren (read_alt (read_atom depth)) signs tokens.now) }
{
    let (open, rest) = sign_at(tokens, Sign::OpenParen)?;
    if has_sign(rest, Sign::CloseParen) {
        let (close, rest) = sign_at(rest, Sign::CloseParen)?;
        let tree = Rpe::Empty;
        let span = from_to(open, close);
        return Ok((Found { tree, span, signs }, rest));
    }
    let (inner, rest) = alt_at(alloc, depth, signs, rest)?;
    let (close, rest) = sign_at(rest, Sign::CloseParen)?;
    let span = from_to(open, close);
    let signs = inner.signs;
    let tree = inner.tree;
    Ok((Found { tree, span, signs }, rest))
}
