//! The words of the grammar, and other names.

ghost use Rattle.std.specs.Prelude.{◌≡◌, ◌||◌};
ghost use Rattle.std.specs.Str.{bytes_eq};
ghost use Rattle.struql_text.specs.Terminals.{keyword_of, keyword_in, is_late};

use sd_lex::Span;
use sd_value::Str;

/// A word that is never a name.
#[derive(Clone, Copy, Debug, PartialEq, Eq)]
pub enum Keyword {
    Input,
    Output,
    Where,
    Create,
    Link,
    Collect,
    Not,
    In,
    True,
    /// From version 3 on, as those after it.
    NoneOf,
    Order,
    By,
    Of,
    Descend,
    Fold,
}

/// A name, and its place.
#[derive(Debug, Drop)]
pub struct Word {
    pub text: Str,
    pub span: Span,
}

fn is_either(word: &[u8], upper: &[u8], lower: &[u8]) -> bool
    ensures { result ≡ (bytes_eq word.now upper.now || bytes_eq word.now lower.now) }
{
    word == upper || word == lower
}

/// The keyword that this word is in some version, in all upper or all lower case.
#[tactic(auto, unfolding(crate::specs::Terminals::keyword_of))]
pub fn keyword_of(word: &[u8]) -> Option<Keyword>
    ensures { result ≡ keyword_of word.now }
{
    if is_either(word, b"INPUT", b"input") {
        Some(Keyword::Input)
    } else if is_either(word, b"OUTPUT", b"output") {
        Some(Keyword::Output)
    } else if is_either(word, b"WHERE", b"where") {
        Some(Keyword::Where)
    } else if is_either(word, b"CREATE", b"create") {
        Some(Keyword::Create)
    } else if is_either(word, b"LINK", b"link") {
        Some(Keyword::Link)
    } else if is_either(word, b"COLLECT", b"collect") {
        Some(Keyword::Collect)
    } else if is_either(word, b"NOT", b"not") {
        Some(Keyword::Not)
    } else if is_either(word, b"IN", b"in") {
        Some(Keyword::In)
    } else if is_either(word, b"TRUE", b"true") {
        Some(Keyword::True)
    } else if is_either(word, b"NONE", b"none") {
        Some(Keyword::NoneOf)
    } else if is_either(word, b"ORDER", b"order") {
        Some(Keyword::Order)
    } else if is_either(word, b"BY", b"by") {
        Some(Keyword::By)
    } else if is_either(word, b"OF", b"of") {
        Some(Keyword::Of)
    } else if is_either(word, b"DESCEND", b"descend") {
        Some(Keyword::Descend)
    } else if is_either(word, b"FOLD", b"fold") {
        Some(Keyword::Fold)
    } else {
        None
    }
}

// The words that are keywords from version 3 on.
fn is_late(keyword: Keyword) -> bool
    ensures { result ≡ is_late keyword }
{
    match keyword {
        Keyword::NoneOf
        | Keyword::Order
        | Keyword::By
        | Keyword::Of
        | Keyword::Descend
        | Keyword::Fold => true,
        Keyword::Input
        | Keyword::Output
        | Keyword::Where
        | Keyword::Create
        | Keyword::Link
        | Keyword::Collect
        | Keyword::Not
        | Keyword::In
        | Keyword::True => false,
    }
}

/// The keyword that this word is in a version, in all upper or all lower case.
pub fn keyword_in(version: u8, word: &[u8]) -> Option<Keyword>
    ensures { result ≡ keyword_in version word.now }
{
    match keyword_of(word) {
        Some(keyword) => {
            if is_late(keyword) && version != 3 {
                None
            } else {
                Some(keyword)
            }
        }
        None => None,
    }
}
