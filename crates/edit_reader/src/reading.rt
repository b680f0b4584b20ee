//! The reader of edits over tokens.

ghost use Rattle.std.specs.Prelude.{◌≡◌, []};
ghost use Rattle.token_reader.specs.Gives.{Gives};
ghost use Rattle.edit_reader.specs.EditText.{kinded_value, value_of, edge_of, member_of};
ghost use Rattle.edit_reader.specs.Reading.{read_adding, read_removing, read_entering, read_leaving, read_action, read_phrase, read_whole};
ghost use Rattle.edit_reader.specs.Spelled.{Spells};

use ddl_text::{Content, Field, Kind, field_at};
use edit_spec::Edit;
use graph_spec::{Edge, Member};
use sd_lex::Token;
use sd_value::{Datum, Str, Value};
use std::alloc::Global;
use token_reader::{Halt, TokenRefusal, Word, has_word, name_at, place_of, word_at};

/// A text of a kind, as a value.
fn kinded(kind: Kind, text: Str) -> Value
    ensures { result ≡ kinded_value kind text }
{
    match kind {
        Kind::Text => Value::Data(Datum::Text(text)),
        Kind::Url => Value::Data(Datum::Url(text)),
        Kind::File => Value::Data(Datum::File(text)),
    }
}

/// The value that is written.
fn value(content: Content) -> Value
    ensures { result ≡ value_of content }
{
    match content {
        Content::Number(n) => Value::Data(Datum::Int(n)),
        Content::Plain(text) => Value::Data(Datum::Text(text)),
        Content::Kinded(kind, text) => kinded(kind, text),
        Content::Node(name) => Value::Data(Datum::Node(name)),
    }
}

/// The edge of a node, and of a label and an end.
fn edge(from: Word, field: Field) -> Edge
    ensures { result ≡ edge_of from field }
{
    Edge {
        from: from.text,
        label: field.name.text,
        to: value(field.value.content),
    }
}

/// The node in the collection.
fn member(node: Word, collection: Word) -> Member
    ensures { result ≡ member_of node collection }
{
    Member {
        collection: collection.text,
        node: node.text,
    }
}

#[tactic(auto, unfolding(crate::specs::Reading::read_adding))]
fn adding_at(alloc: Global, tokens: &[Token]) -> Result<(Edit, &[Token]), Halt<Token>>
    ensures { Gives (λ x. x.0) (λ x. x.1.now) result (read_adding tokens.now) }
{
    let (_, rest) = word_at(tokens, b"add")?;
    let (from, rest) = name_at(alloc, rest)?;
    let (field, rest) = field_at(alloc, rest)?;
    Ok((Edit::Add(edge(from, field)), rest))
}

#[tactic(auto, unfolding(crate::specs::Reading::read_removing))]
fn removing_at(alloc: Global, tokens: &[Token]) -> Result<(Edit, &[Token]), Halt<Token>>
    ensures { Gives (λ x. x.0) (λ x. x.1.now) result (read_removing tokens.now) }
{
    let (_, rest) = word_at(tokens, b"remove")?;
    let (from, rest) = name_at(alloc, rest)?;
    let (field, rest) = field_at(alloc, rest)?;
    Ok((Edit::Remove(edge(from, field)), rest))
}

#[tactic(auto, unfolding(crate::specs::Reading::read_entering))]
fn entering_at(alloc: Global, tokens: &[Token]) -> Result<(Edit, &[Token]), Halt<Token>>
    ensures { Gives (λ x. x.0) (λ x. x.1.now) result (read_entering tokens.now) }
{
    let (_, rest) = word_at(tokens, b"enter")?;
    let (node, rest) = name_at(alloc, rest)?;
    let (collection, rest) = name_at(alloc, rest)?;
    Ok((Edit::Enter(member(node, collection)), rest))
}

#[tactic(auto, unfolding(crate::specs::Reading::read_leaving))]
fn leaving_at(alloc: Global, tokens: &[Token]) -> Result<(Edit, &[Token]), Halt<Token>>
    ensures { Gives (λ x. x.0) (λ x. x.1.now) result (read_leaving tokens.now) }
{
    let (_, rest) = word_at(tokens, b"leave")?;
    let (node, rest) = name_at(alloc, rest)?;
    let (collection, rest) = name_at(alloc, rest)?;
    Ok((Edit::Leave(member(node, collection)), rest))
}

#[tactic(auto, unfolding(crate::specs::Reading::read_action))]
fn action_at(alloc: Global, tokens: &[Token]) -> Result<(Edit, &[Token]), Halt<Token>>
    ensures { Gives (λ x. x.0) (λ x. x.1.now) result (read_action tokens.now) }
{
    if has_word(tokens, b"add") {
        adding_at(alloc, tokens)
    } else if has_word(tokens, b"remove") {
        removing_at(alloc, tokens)
    } else if has_word(tokens, b"enter") {
        entering_at(alloc, tokens)
    } else {
        leaving_at(alloc, tokens)
    }
}

#[tactic(auto, unfolding(crate::specs::Reading::read_phrase))]
fn phrase_at(alloc: Global, tokens: &[Token]) -> Result<(Edit, &[Token]), Halt<Token>>
    ensures { Gives (λ x. x.0) (λ x. x.1.now) result (read_phrase tokens.now) }
{
    let (_, rest) = word_at(tokens, b"edit")?;
    action_at(alloc, rest)
}

#[tactic(auto, unfolding(crate::specs::Reading::read_whole))]
fn whole_at(alloc: Global, tokens: &[Token]) -> Result<Edit, Halt<Token>>
    ensures { Gives (λ x. x) (λ _. []) result (read_whole tokens.now) }
{
    let (edit, rest) = phrase_at(alloc, tokens)?;
    if !rest.is_empty() {
        return Err(Halt::Expected(rest));
    }
    Ok(edit)
}

/// The edit that these tokens spell. The text ends at `text_end`.
pub fn spelled(alloc: Global, tokens: &[Token], text_end: u64) -> Result<Edit, TokenRefusal>
    ensures { Spells tokens.now text_end result }
{
    match whole_at(alloc, tokens) {
        Ok(edit) => Ok(edit),
        Err(Halt::Expected(rest)) => Err(TokenRefusal::Expected(place_of(rest, text_end))),
        // This grammar has no limits, so this never comes.
        Err(Halt::TooDeep(rest)) => Err(TokenRefusal::Expected(place_of(rest, text_end))),
        Err(Halt::NoMemory) => Err(TokenRefusal::NoMemory),
    }
}
