// The readers of ORDERs.

ghost use Rattle.std.specs.Prelude.{map};
ghost use Rattle.grammar.specs.Reading.{repeat};
ghost use Rattle.order_spec.specs.Read.{order_of};
ghost use Rattle.struql_text.specs.declared.keyword.Keyword.TheVariants as words;
ghost use Rattle.struql_text.specs.Terminals.{is_keyword};
ghost use Rattle.token_reader.specs.Gives.{Gives};
ghost use Rattle.struql_orders.specs.Reading.{read_order, read_orders};

use crate::labels::{flag_at, labels_at};
use crate::places::places_at;
use order_spec::Order;
use sd_lex::{Sign, Token};
use std::alloc::Global;
use struql_text::{Keyword, collection_at, has_keyword, keyword_at};
use token_reader::{Halt, sign_at};

#[tactic(auto, unfolding(crate::specs::Reading::read_order))]
fn order_at(alloc: Global, tokens: &[Token]) -> Result<(Order, &[Token]), Halt<Token>>
    ensures { Gives (λ x. order_of x.0) (λ x. x.1.now) result (read_order tokens.now) }
{
    let (_, rest) = keyword_at(tokens, Keyword::Order)?;
    let (collection, rest) = collection_at(alloc, 3, rest)?;
    let (_, rest) = keyword_at(rest, Keyword::By)?;
    let (word, rest) = labels_at(alloc, rest)?;
    let (fold, rest) = flag_at(rest, Keyword::Fold)?;
    let (descend, rest) = flag_at(rest, Keyword::Descend)?;
    let (_, rest) = sign_at(rest, Sign::OpenBrace)?;
    let (places, rest) = places_at(alloc, rest)?;
    let (_, rest) = sign_at(rest, Sign::CloseBrace)?;
    let collection = collection.text;
    Ok((
        Order {
            collection,
            word,
            fold,
            descend,
            places,
        },
        rest,
    ))
}

// ORDERs, one after another.
fn some_orders_at(alloc: Global, tokens: &[Token]) -> Result<(Vec<Order>, &[Token]), Halt<Token>>
    ensures { Gives (λ x. map order_of x.0.items) (λ x. x.1.now) result
        (repeat (is_keyword words.Order) read_order tokens.now) }
{
    let mut orders = Vec::new(alloc);
    let mut rest = tokens;
    'orders: while has_keyword(rest, Keyword::Order) {
        let (order, after) = order_at(alloc, rest)?;
        orders.push(order)?;
        rest = after;
    }
    Ok((orders, rest))
}

/// The ORDERs at the front: there are such in version 3 alone.
#[tactic(auto, unfolding(crate::specs::Reading::read_orders))]
pub fn orders_at(
    alloc: Global,
    version: u8,
    tokens: &[Token],
) -> Result<(Vec<Order>, &[Token]), Halt<Token>>
    ensures { Gives (λ x. map order_of x.0.items) (λ x. x.1.now) result
        (read_orders version tokens.now) }
{
    if version == 3 {
        some_orders_at(alloc, tokens)
    } else {
        Ok((Vec::new(alloc), tokens))
    }
}
