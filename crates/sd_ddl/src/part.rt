// What a data text says, part by part.
ghost use Rattle.std.specs.Prelude.{◌≡◌, IfOk, OnOk, ◌++◌, map};
ghost use Rattle.std.specs.List.{flat_map};
ghost use Rattle.sd_ddl.specs.Steps.{place_of};
ghost use Rattle.sd_ddl.specs.Parts.{parts, parts_of, kind_part, member_part, edge_part};

use ddl_text::{Content, Entry, Field, Given, KindWord, Statement};
use sd_value::{NoMemory, Str};
use std::alloc::Global;
use token_reader::Word;

/// The kind that a directive gives the texts of an attribute.
#[derive(Drop)]
pub struct Giving {
    pub collection: Str,
    pub attribute: Str,
    pub kind: KindWord,
}

/// One thing that a data text says. A name or a value has its place with it.
#[derive(Drop)]
pub enum Part {
    Gives(Giving),
    Node(Word),
    /// A collection, and the node in it.
    Member(Word, Str),
    /// An object, an attribute, and its value.
    Edge(Str, Str, Given),
}

impl Part {
    /// Where it is: its name, its value, or the kind that it gives.
    pub(crate) fn place(&self) -> u64
        ensures { result ≡ place_of self.now }
    {
        match self {
            Part::Gives(giving) => giving.kind.place,
            Part::Node(name) => name.place,
            Part::Member(collection, _) => collection.place,
            Part::Edge(_, _, given) => given.place,
        }
    }
}

fn copy_word(alloc: Global, word: &Word) -> Result<Word, NoMemory>
    ensures { IfOk result (λ w. w ≡ word.now) }
{
    Ok(Word {
        text: word.text.copy(alloc)?,
        place: word.place,
    })
}

fn copy_given(alloc: Global, given: &Given) -> Result<Given, NoMemory>
    ensures { IfOk result (λ g. g ≡ given.now) }
{
    let content = match &given.content {
        Content::Number(n) => Content::Number(*n),
        Content::Plain(text) => Content::Plain(text.copy(alloc)?),
        Content::Kinded(kind, text) => Content::Kinded(*kind, text.copy(alloc)?),
        Content::Node(name) => Content::Node(name.copy(alloc)?),
    };
    Ok(Given {
        content,
        place: given.place,
    })
}

// Adds what a directive says.
fn push_kinds(
    alloc: Global,
    collection: &Str,
    entries: &[Entry],
    parts: &mut Vec<Part>,
) -> Result<(), NoMemory>
    ensures { OnOk result
        (parts.new.items ≡ parts.old.items ++ map (kind_part collection.now) entries.now) }
{
    for entry in entries {
        parts.push(Part::Gives(Giving {
            collection: collection.copy(alloc)?,
            attribute: entry.name.text.copy(alloc)?,
            kind: entry.kind,
        }))?;
    }
    Ok(())
}

// Adds that the object is in these collections.
fn push_members(
    alloc: Global,
    object: &Str,
    collections: &[Word],
    parts: &mut Vec<Part>,
) -> Result<(), NoMemory>
    ensures { OnOk result
        (parts.new.items ≡ parts.old.items ++ map (member_part object.now) collections.now) }
{
    for collection in collections {
        let node = object.copy(alloc)?;
        parts.push(Part::Member(copy_word(alloc, collection)?, node))?;
    }
    Ok(())
}

// Adds the object's attributes.
fn push_edges(
    alloc: Global,
    object: &Str,
    fields: &[Field],
    parts: &mut Vec<Part>,
) -> Result<(), NoMemory>
    ensures { OnOk result
        (parts.new.items ≡ parts.old.items ++ map (edge_part object.now) fields.now) }
{
    for field in fields {
        let from = object.copy(alloc)?;
        let label = field.name.text.copy(alloc)?;
        parts.push(Part::Edge(from, label, copy_given(alloc, &field.value)?))?;
    }
    Ok(())
}

fn push_statement(
    alloc: Global,
    statement: &Statement,
    parts: &mut Vec<Part>,
) -> Result<(), NoMemory>
    ensures { OnOk result (parts.new.items ≡ parts.old.items ++ parts_of statement.now) }
{
    match statement {
        Statement::Collection(name, entries) => {
            push_kinds(alloc, &name.text, entries.items(), parts)
        }
        Statement::Object(name, collections, fields) => {
            parts.push(Part::Node(copy_word(alloc, name)?))?;
            push_members(alloc, &name.text, collections.items(), parts)?;
            push_edges(alloc, &name.text, fields.items(), parts)
        }
    }
}

/// What these statements say, in their order.
pub(crate) fn parts_of(alloc: Global, statements: &[Statement]) -> Result<Vec<Part>, NoMemory>
    ensures { IfOk result (λ found. found.items ≡ parts statements.now) }
{
    let mut parts = Vec::new(alloc);
    for statement in statements {
        push_statement(alloc, statement, &mut parts)?;
    }
    Ok(parts)
}
