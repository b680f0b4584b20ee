//! What a data text states, in the order of the text, with places.

ghost use Rattle.std.specs.Prelude.{◌≡◌, List, IfOk};
ghost use Rattle.token_reader.specs.declared.reading.Word.{Word};
ghost use Rattle.ddl_text.specs.declared.tree.Entry.{Entry};
ghost use Rattle.ddl_text.specs.declared.tree.Field.{Field};

use sd_value::Str;
use std::marker::Model;
use token_reader::Word;

/// The kind of a text value.
#[derive(Clone, Copy, PartialEq, Eq)]
pub enum Kind {
    Text,
    Url,
    File,
}

/// A kind and where its word begins.
#[derive(Clone, Copy)]
pub struct KindWord {
    pub kind: Kind,
    pub place: u64,
}

/// A kind that a directive gives an attribute.
#[derive(Drop)]
pub struct Entry {
    pub name: Word,
    pub kind: KindWord,
}

/// A value as it is written. `Plain` is a text without a kind.
#[derive(Drop)]
pub enum Content {
    Number(i64),
    Plain(Str),
    Kinded(Kind, Str),
    Node(Str),
}

/// A value and where it begins.
#[derive(Drop)]
pub struct Given {
    pub content: Content,
    pub place: u64,
}

/// An attribute of an object and its value.
#[derive(Drop)]
pub struct Field {
    pub name: Word,
    pub value: Given,
}

/// A list of names.
#[derive(Drop)]
pub struct Words {
    items: Vec<Word>,
}

impl Model for Words {
    ghost Value = { List Word };

    ghost view = { λ w. w.items.items };
}

impl Words {
    /// These words, in their order.
    pub fn new(items: Vec<Word>) -> Words
        ensures { result ≡ items.items }
    {
        Words { items }
    }

    /// The words, in their order.
    pub fn items(&self) -> &[Word]
        ensures { result.now ≡ self.now }
    {
        self.items.as_slice()
    }
}

/// A directive's entries.
#[derive(Drop)]
pub struct Entries {
    items: Vec<Entry>,
}

impl Model for Entries {
    ghost Value = { List Entry };

    ghost view = { λ w. w.items.items };
}

impl Entries {
    /// These entries, in their order.
    pub fn new(items: Vec<Entry>) -> Entries
        ensures { result ≡ items.items }
    {
        Entries { items }
    }

    /// The entries, in their order.
    pub fn items(&self) -> &[Entry]
        ensures { result.now ≡ self.now }
    {
        self.items.as_slice()
    }
}

/// An object's attributes.
#[derive(Drop)]
pub struct Fields {
    items: Vec<Field>,
}

impl Model for Fields {
    ghost Value = { List Field };

    ghost view = { λ w. w.items.items };
}

impl Fields {
    /// These attributes, in their order.
    pub fn new(items: Vec<Field>) -> Fields
        ensures { result ≡ items.items }
    {
        Fields { items }
    }

    /// The attributes, in their order.
    pub fn items(&self) -> &[Field]
        ensures { result.now ≡ self.now }
    {
        self.items.as_slice()
    }
}

/// A statement of a data text.
#[derive(Drop)]
pub enum Statement {
    /// A collection and the kinds of its objects' attributes.
    Collection(Word, Entries),
    /// An object, its collections and its attributes.
    Object(Word, Words, Fields),
}
