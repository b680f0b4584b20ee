// The readers of words, and of the keywords that may be left out.

ghost use Rattle.std.specs.Prelude.{◌∷◌, []};
ghost use Rattle.grammar.specs.Reading.{repeat, with_front};
ghost use Rattle.sd_lex.specs.declared.token.Sign.TheVariants as signs;
ghost use Rattle.token_reader.specs.Gives.{Gives};
ghost use Rattle.token_reader.specs.Terminals.{is_sign};
ghost use Rattle.struql_orders.specs.Reading.{read_label, read_further_label, read_labels, read_flag};

use sd_lex::{Sign, Token};
use sd_value::Str;
use std::alloc::Global;
use struql_text::{Keyword, collection_at, has_keyword, keyword_at};
use token_reader::{Halt, has_sign, sign_at};

#[tactic(auto, unfolding(crate::specs::Reading::read_label))]
fn label_at(alloc: Global, tokens: &[Token]) -> Result<(Str, &[Token]), Halt<Token>>
    ensures { Gives (λ x. x.0) (λ x. x.1.now) result (read_label tokens.now) }
{
    let (label, rest) = collection_at(alloc, 3, tokens)?;
    Ok((label.text, rest))
}

#[tactic(auto, unfolding(crate::specs::Reading::read_further_label))]
fn further_label_at(alloc: Global, tokens: &[Token]) -> Result<(Str, &[Token]), Halt<Token>>
    ensures { Gives (λ x. x.0) (λ x. x.1.now) result (read_further_label tokens.now) }
{
    let (_, rest) = sign_at(tokens, Sign::Dot)?;
    label_at(alloc, rest)
}

// The first label, and those after it.
fn further_labels_at(
    alloc: Global,
    first: Str,
    tokens: &[Token],
) -> Result<(Vec<Str>, &[Token]), Halt<Token>>
    ensures { Gives (λ x. x.0.items) (λ x. x.1.now) result
        (with_front (first ∷ []) (repeat (is_sign signs.Dot) read_further_label tokens.now)) }
{
    let mut labels = Vec::new(alloc);
    labels.push(first)?;
    let mut rest = tokens;
    'labels: while has_sign(rest, Sign::Dot) {
        let (label, after) = further_label_at(alloc, rest)?;
        labels.push(label)?;
        rest = after;
    }
    Ok((labels, rest))
}

/// A word: labels with dots between them.
#[tactic(auto, unfolding(crate::specs::Reading::read_labels))]
pub(crate) fn labels_at(
    alloc: Global,
    tokens: &[Token],
) -> Result<(Vec<Str>, &[Token]), Halt<Token>>
    ensures { Gives (λ x. x.0.items) (λ x. x.1.now) result (read_labels tokens.now) }
{
    let (first, rest) = label_at(alloc, tokens)?;
    further_labels_at(alloc, first, rest)
}

/// Whether this keyword is at the front, which may be left out.
#[tactic(auto, unfolding(crate::specs::Reading::read_flag))]
pub(crate) fn flag_at(tokens: &[Token], keyword: Keyword) -> Result<(bool, &[Token]), Halt<Token>>
    ensures { Gives (λ x. x.0) (λ x. x.1.now) result (read_flag keyword tokens.now) }
{
    if has_keyword(tokens, keyword) {
        let (_, rest) = keyword_at(tokens, keyword)?;
        Ok((true, rest))
    } else {
        Ok((false, tokens))
    }
}
