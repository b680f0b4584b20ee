//! Lists with commas between their items.

ghost use Rattle.std.specs.Prelude.{◌≡◌, ◌≤◌, ℕ, List, [], ◌∷◌, length, map};
ghost use Rattle.sd_lex.specs.declared.token.Token.{Token};
ghost use Rattle.sd_lex.specs.declared.token.Sign.TheVariants as sign_kinds;
ghost use Rattle.grammar.specs.Reading.{Outcome, Read, iterate};
ghost use Rattle.token_reader.specs.Terminals.{is_sign};
ghost use Rattle.token_reader.specs.Gives.{Gives};
ghost use Rattle.struql_text.specs.Reading.{read_next, read_further, read_listed};
ghost use Rattle.struql_parse.specs.Reading.{read_optional};

use sd_lex::{Sign, Token};
use std::alloc::Global;
use struql_text::{Keyword, has_keyword, keyword_at, sign_at};
use token_reader::{Halt, has_sign};

/// Items of a clause: what is written of one, and how one is read in each version.
pub trait Listed: Drop {
    ghost Written: { Type 0 };

    ghost written: { Self → Written };

    ghost read: { ℕ → List Token → Outcome Token Written };

    /// An item at the front.
    fn item_at(
        alloc: Global,
        version: u8,
        tokens: &[Token],
    ) -> Result<(Self, &[Token]), Halt<Token>>
        ensures { Gives (λ x. written x.0) (λ x. x.1.now) result (read version tokens.now) };

    /// Reading an item leaves no more tokens than there were.
    ghost keeps: { (version : ℕ) (tokens : List Token) (item : Written) (rest : List Token)
        → read version tokens ≡ Read item rest → length rest ≤ length tokens };
}

/// A comma and an item.
#[tactic(auto, unfolding(struql_text::specs::Reading::read_next))]
fn next_at<T: Listed>(
    alloc: Global,
    version: u8,
    tokens: &[Token],
) -> Result<(T, &[Token]), Halt<Token>>
    ensures { Gives (λ x. T.written x.0) (λ x. x.1.now) result
        (read_next (T.read version) tokens.now) }
{
    let (_, rest) = sign_at(tokens, Sign::Comma)?;
    T::item_at(alloc, version, rest)
}

/// This item, and those behind it.
fn list_from<T: Listed>(
    alloc: Global,
    version: u8,
    first: T,
    tokens: &[Token],
) -> Result<(Vec<T>, &[Token]), Halt<Token>>
    ensures { Gives (λ x. map T.written x.0.items) (λ x. x.1.now) result
        (iterate (is_sign sign_kinds.Comma) (read_further (T.read version)) (T.written first ∷ [])
        tokens.now) }
{
    let mut items = Vec::new(alloc);
    items.push(first)?;
    let mut rest = tokens;
    'list: while has_sign(rest, Sign::Comma) {
        let (item, after) = next_at(alloc, version, rest)?;
        items.push(item)?;
        rest = after;
    }
    Ok((items, rest))
}

/// Items with commas between them.
#[tactic(auto, unfolding(struql_text::specs::Reading::read_listed))]
pub fn list_at<T: Listed>(
    alloc: Global,
    version: u8,
    tokens: &[Token],
) -> Result<(Vec<T>, &[Token]), Halt<Token>>
    ensures { Gives (λ x. map T.written x.0.items) (λ x. x.1.now) result
        (read_listed (T.read version) tokens.now) }
{
    let (first, rest) = T::item_at(alloc, version, tokens)?;
    list_from(alloc, version, first, rest)
}

/// The clause of this keyword, if one is here.
#[tactic(auto, unfolding(crate::specs::Reading::read_optional, crate::specs::Reading::read_clause))]
pub fn clause_at<T: Listed>(
    alloc: Global,
    version: u8,
    keyword: Keyword,
    tokens: &[Token],
) -> Result<(Vec<T>, &[Token]), Halt<Token>>
    ensures { Gives (λ x. map T.written x.0.items) (λ x. x.1.now) result
        (read_optional keyword (T.read version) tokens.now) }
{
    if has_keyword(tokens, keyword) {
        let (_, rest) = keyword_at(tokens, keyword)?;
        list_at(alloc, version, rest)
    } else {
        Ok((Vec::new(alloc), tokens))
    }
}
