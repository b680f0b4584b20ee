//! The reader of data text over tokens.

ghost use Rattle.std.specs.Prelude.{◌≡◌, IfOk, length, List, [], map, ◌∷◌, ◌++◌, ◌<◌, MatchOption, Some, None, ◌↔◌, IsTrue, true};
ghost use Rattle.std.specs.Prelude.{IfSome};
ghost use Rattle.grammar.specs.Reading.{take_one, repeat, starts, with_front};
ghost use Rattle.sd_lex.specs.declared.token.Sign.TheVariants as signs;
ghost use Rattle.token_reader.specs.Gives.{Gives, IsReal};
ghost use Rattle.grammar.specs.Fault.{Every};
ghost use Rattle.ddl_text.specs.DataText.{statement};
ghost use Rattle.ddl_text.specs.Stated.{States, IsOnly};
ghost use Rattle.token_reader.specs.Terminals.{is_name, is_sign, is_word};
ghost use Rattle.ddl_text.specs.Terminals.{kind_value};
ghost use Rattle.ddl_text.specs.Reading.{read_entry, read_directive, read_kinded, read_node, read_value, read_field};
ghost use Rattle.ddl_text.specs.Reading.{read_further_name, read_collections, read_in, read_object, read_statement};
ghost use Rattle.ddl_text.specs.Reading.{read_file, begins_statement};

use crate::tree::{
    Content, Entries, Entry, Field, Fields, Given, Kind, KindWord, Statement, Words,
};
use sd_lex::{Sign, Token, TokenKind};
use std::alloc::Global;
use token_reader::{
    Halt, TokenRefusal, Word, has_name, has_sign, has_word, name_at, place_of, quoted_at, sign_at,
    word_at,
};

/// A kind's word at the front.
fn kind_at(tokens: &[Token]) -> Result<(KindWord, &[Token]), Halt<Token>>
    ensures { Gives (λ x. x.0) (λ x. x.1.now) result (take_one true kind_value tokens.now) }
{
    let [first, rest @ ..] = tokens else {
        return Err(Halt::Expected(tokens));
    };
    let TokenKind::Name(word) = &first.kind else {
        return Err(Halt::Expected(tokens));
    };
    let place = first.span.start;
    if word.bytes() == b"text".as_slice() {
        Ok((
            KindWord {
                kind: Kind::Text,
                place,
            },
            rest,
        ))
    } else if word.bytes() == b"url".as_slice() {
        Ok((
            KindWord {
                kind: Kind::Url,
                place,
            },
            rest,
        ))
    } else if word.bytes() == b"file".as_slice() {
        Ok((
            KindWord {
                kind: Kind::File,
                place,
            },
            rest,
        ))
    } else {
        Err(Halt::Expected(tokens))
    }
}

#[tactic(auto, unfolding(crate::specs::Reading::read_entry))]
fn entry_at(alloc: Global, tokens: &[Token]) -> Result<(Entry, &[Token]), Halt<Token>>
    ensures { Gives (λ x. x.0) (λ x. x.1.now) result (read_entry tokens.now) }
{
    let (name, rest) = name_at(alloc, tokens)?;
    let (kind, rest) = kind_at(rest)?;
    Ok((Entry { name, kind }, rest))
}

fn entries_at(alloc: Global, tokens: &[Token]) -> Result<(Vec<Entry>, &[Token]), Halt<Token>>
    ensures { Gives (λ x. x.0.items) (λ x. x.1.now) result (repeat is_name read_entry tokens.now) }
{
    let mut entries = Vec::new(alloc);
    let mut rest = tokens;
    'entries: while has_name(rest) {
        let (entry, after) = entry_at(alloc, rest)?;
        entries.push(entry)?;
        rest = after;
    }
    Ok((entries, rest))
}

#[tactic(auto, unfolding(crate::specs::Reading::read_directive))]
fn directive_at(alloc: Global, tokens: &[Token]) -> Result<(Statement, &[Token]), Halt<Token>>
    ensures { Gives (λ x. x.0) (λ x. x.1.now) result (read_directive tokens.now) }
{
    let (_, rest) = word_at(tokens, b"collection")?;
    let (collection, rest) = name_at(alloc, rest)?;
    let (_, rest) = sign_at(rest, Sign::OpenBrace)?;
    let (entries, rest) = entries_at(alloc, rest)?;
    let (_, rest) = sign_at(rest, Sign::CloseBrace)?;
    Ok((
        Statement::Collection(collection, Entries::new(entries)),
        rest,
    ))
}

#[tactic(auto, unfolding(crate::specs::Reading::read_kinded))]
fn kinded_at(alloc: Global, tokens: &[Token]) -> Result<(Given, &[Token]), Halt<Token>>
    ensures { Gives (λ x. x.0) (λ x. x.1.now) result (read_kinded tokens.now) }
{
    let (word, rest) = kind_at(tokens)?;
    let (text, rest) = quoted_at(alloc, rest)?;
    let content = Content::Kinded(word.kind, text.text);
    Ok((
        Given {
            content,
            place: word.place,
        },
        rest,
    ))
}

#[tactic(auto, unfolding(crate::specs::Reading::read_node))]
fn node_at(alloc: Global, tokens: &[Token]) -> Result<(Given, &[Token]), Halt<Token>>
    ensures { Gives (λ x. x.0) (λ x. x.1.now) result (read_node tokens.now) }
{
    let (place, rest) = sign_at(tokens, Sign::Amp)?;
    let (name, rest) = name_at(alloc, rest)?;
    let content = Content::Node(name.text);
    Ok((Given { content, place }, rest))
}

#[tactic(auto, unfolding(crate::specs::Reading::read_value))]
fn value_at(alloc: Global, tokens: &[Token]) -> Result<(Given, &[Token]), Halt<Token>>
    ensures { Gives (λ x. x.0) (λ x. x.1.now) result (read_value tokens.now) }
{
    let [first, rest @ ..] = tokens else {
        return kinded_at(alloc, tokens);
    };
    let place = first.span.start;
    match &first.kind {
        TokenKind::Int(n) => Ok((
            Given {
                content: Content::Number(*n),
                place,
            },
            rest,
        )),
        TokenKind::Quoted(text) => {
            let content = Content::Plain(text.copy(alloc)?);
            Ok((Given { content, place }, rest))
        }
        TokenKind::Sign(Sign::Amp) => node_at(alloc, tokens),
        TokenKind::Name(_) | TokenKind::Sign(_) => kinded_at(alloc, tokens),
    }
}

/// A label and its value at the front.
#[tactic(auto, unfolding(crate::specs::Reading::read_field))]
pub fn field_at(alloc: Global, tokens: &[Token]) -> Result<(Field, &[Token]), Halt<Token>>
    ensures { Gives (λ x. x.0) (λ x. x.1.now) result (read_field tokens.now) }
{
    let (name, rest) = name_at(alloc, tokens)?;
    let (value, rest) = value_at(alloc, rest)?;
    Ok((Field { name, value }, rest))
}

fn fields_at(alloc: Global, tokens: &[Token]) -> Result<(Vec<Field>, &[Token]), Halt<Token>>
    ensures { Gives (λ x. x.0.items) (λ x. x.1.now) result (repeat is_name read_field tokens.now) }
{
    let mut fields = Vec::new(alloc);
    let mut rest = tokens;
    'fields: while has_name(rest) {
        let (field, after) = field_at(alloc, rest)?;
        fields.push(field)?;
        rest = after;
    }
    Ok((fields, rest))
}

/// The names of `in`, perhaps none.
#[tactic(auto, unfolding(crate::specs::Reading::read_in))]
fn collections_at(alloc: Global, tokens: &[Token]) -> Result<(Vec<Word>, &[Token]), Halt<Token>>
    ensures { Gives (λ x. x.0.items) (λ x. x.1.now) result (read_in tokens.now) }
{
    if has_word(tokens, b"in") {
        names_at(alloc, tokens)
    } else {
        Ok((Vec::new(alloc), tokens))
    }
}

#[tactic(auto, unfolding(crate::specs::Reading::read_further_name))]
fn further_name_at(alloc: Global, tokens: &[Token]) -> Result<(Word, &[Token]), Halt<Token>>
    ensures { Gives (λ x. x.0) (λ x. x.1.now) result (read_further_name tokens.now) }
{
    let (_, rest) = sign_at(tokens, Sign::Comma)?;
    name_at(alloc, rest)
}

/// The names behind the first of `in`, added to it.
fn further_names_at(
    alloc: Global,
    first: Word,
    tokens: &[Token],
) -> Result<(Vec<Word>, &[Token]), Halt<Token>>
    ensures { Gives (λ x. x.0.items) (λ x. x.1.now) result
        (with_front (first ∷ []) (repeat (is_sign signs.Comma) read_further_name tokens.now)) }
{
    let mut names = Vec::new(alloc);
    names.push(first)?;
    let mut rest = tokens;
    'names: while has_sign(rest, Sign::Comma) {
        let (name, after) = further_name_at(alloc, rest)?;
        names.push(name)?;
        rest = after;
    }
    Ok((names, rest))
}

#[tactic(auto, unfolding(crate::specs::Reading::read_collections))]
fn names_at(alloc: Global, tokens: &[Token]) -> Result<(Vec<Word>, &[Token]), Halt<Token>>
    ensures { Gives (λ x. x.0.items) (λ x. x.1.now) result (read_collections tokens.now) }
{
    let (_, rest) = word_at(tokens, b"in")?;
    let (first, rest) = name_at(alloc, rest)?;
    further_names_at(alloc, first, rest)
}

#[tactic(auto, unfolding(crate::specs::Reading::read_object))]
fn object_at(alloc: Global, tokens: &[Token]) -> Result<(Statement, &[Token]), Halt<Token>>
    ensures { Gives (λ x. x.0) (λ x. x.1.now) result (read_object tokens.now) }
{
    let (_, rest) = word_at(tokens, b"object")?;
    let (name, rest) = name_at(alloc, rest)?;
    let (collections, rest) = collections_at(alloc, rest)?;
    let (_, rest) = sign_at(rest, Sign::OpenBrace)?;
    let (fields, rest) = fields_at(alloc, rest)?;
    let (_, rest) = sign_at(rest, Sign::CloseBrace)?;
    Ok((
        Statement::Object(name, Words::new(collections), Fields::new(fields)),
        rest,
    ))
}

#[tactic(auto, unfolding(crate::specs::Reading::read_statement))]
fn statement_at(alloc: Global, tokens: &[Token]) -> Result<(Statement, &[Token]), Halt<Token>>
    ensures { Gives (λ x. x.0) (λ x. x.1.now) result (read_statement tokens.now) }
{
    if has_word(tokens, b"collection") {
        directive_at(alloc, tokens)
    } else {
        object_at(alloc, tokens)
    }
}

/// Whether a statement is next.
fn has_statement(tokens: &[Token]) -> bool
    ensures { result ≡ starts begins_statement tokens.now }
{
    has_word(tokens, b"collection") || has_word(tokens, b"object")
}

fn statements_at(alloc: Global, tokens: &[Token]) -> Result<(Vec<Statement>, &[Token]), Halt<Token>>
    ensures { Gives (λ x. x.0.items) (λ x. x.1.now) result
        (repeat begins_statement read_statement tokens.now) }
{
    let mut statements = Vec::new(alloc);
    let mut rest = tokens;
    'statements: while has_statement(rest) {
        let (statement, after) = statement_at(alloc, rest)?;
        statements.push(statement)?;
        rest = after;
    }
    Ok((statements, rest))
}

#[tactic(auto, unfolding(crate::specs::Reading::read_file))]
fn file_at(alloc: Global, tokens: &[Token]) -> Result<Vec<Statement>, Halt<Token>>
    ensures { Gives (λ x. x.items) (λ _. []) result (read_file tokens.now) }
{
    let (statements, rest) = statements_at(alloc, tokens)?;
    if !rest.is_empty() {
        return Err(Halt::Expected(rest));
    }
    Ok(statements)
}

/// The statements that these tokens spell. The text ends at `text_end`.
pub fn statements(
    alloc: Global,
    tokens: &[Token],
    text_end: u64,
) -> Result<Vec<Statement>, TokenRefusal>
    ensures exact { States tokens.now text_end result }
    ensures only { IsOnly tokens.now result }
{
    match file_at(alloc, tokens) {
        Ok(statements) => Ok(statements),
        Err(Halt::Expected(rest)) => Err(TokenRefusal::Expected(place_of(rest, text_end))),
        // This grammar has no limits, so this never comes.
        Err(Halt::TooDeep(rest)) => Err(TokenRefusal::Expected(place_of(rest, text_end))),
        Err(Halt::NoMemory) => Err(TokenRefusal::NoMemory),
    }
}

/// The statement that these tokens spell. `None` may also be out of memory.
pub(crate) fn one_statement(alloc: Global, tokens: &[Token]) -> Option<Statement>
    ensures { IfSome result (statement tokens.now) }
{
    let Ok((statement, rest)) = statement_at(alloc, tokens) else {
        return None;
    };
    if rest.is_empty() {
        Some(statement)
    } else {
        None
    }
}
