//! How BibTeX is read: definitions, and the types of items.
#![tactic(auto)]

ghost use Rattle.std.specs.Prelude.{◌≡◌, List};
ghost use Rattle.bibtex_spec.specs.declared.Field.{Field};

use sd_value::Str;
use std::marker::Model;

/// A field's name, in lower case, and the text of its value.
#[derive(Drop)]
pub struct Field {
    pub name: Str,
    pub text: Str,
}

/// The fields of an entry.
#[derive(Drop)]
pub struct Fields {
    items: Vec<Field>,
}

impl Model for Fields {
    ghost Value = { List Field };

    ghost view = { λ w. w.items.items };
}

impl Fields {
    /// Fields in this order.
    pub fn new(items: Vec<Field>) -> Fields
        ensures { result ≡ items.items }
    {
        Fields { items }
    }

    /// The fields, in order.
    pub fn items(&self) -> &[Field]
        ensures { result.now ≡ self.now }
    {
        self.items.as_slice()
    }
}

/// An entry. Its type is in lower case, and `left` bytes of the text are left from its key on.
#[derive(Drop)]
pub struct Entry {
    pub class: Str,
    pub key: Str,
    pub left: u64,
    pub fields: Fields,
}

/// What begins with an `@`.
#[derive(Drop)]
pub enum Item {
    /// A comment or a preamble.
    Passes,
    /// A macro's name, in lower case, and its text.
    Defines(Str, Str),
    Enters(Entry),
}

/// What a byte does to a text that ends at a closing byte.
#[derive(Clone, Copy)]
pub enum Nesting {
    Closes,
    /// This brace closes nothing.
    Unpaired,
    /// This brace is within 64 that are open.
    TooDeep,
    /// The text goes on, with so many open.
    Goes(u64),
}

/// Where in a text a byte is.
#[derive(Clone, Copy)]
pub enum Spot {
    /// Outside of all items.
    Outside,
    /// Behind the `@` of an item, up to the byte that opens it; whether a key comes next.
    Word(bool),
    /// Before the key of an item that this byte closes.
    BeforeKey(u8),
    /// In the key of an item that this byte closes.
    Key(u8),
    /// Behind the key of an item that this byte closes, outside of texts.
    Body(u8),
    /// In a text that the first byte closes, with so many open, of an item that the second byte closes.
    Text(u8, u64, u8),
}
