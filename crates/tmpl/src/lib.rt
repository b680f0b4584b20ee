//! Templates as data: the types of the code, and how they read as plain trees.
#![tactic(auto)]

ghost use Rattle.std.specs.Prelude.{All, ◌≡◌, ◌<◌, length};

mod uses;

use sd_value::{NoMemory, Str, Value};
use std::alloc::Global;
use std::marker::Model;
pub use uses::{ExprUse, uses_of};

/// The labels of a path, in order.
#[derive(Drop)]
pub struct Word {
    pub labels: Vec<Str>,
}

impl Model for Word {
    ghost use Rattle.std.specs.Prelude.{ℕ, List};

    ghost Value = { List (List ℕ) };

    ghost view = { λ w. w.labels.items };
}

impl Word {
    /// Its labels.
    pub fn labels(&self) -> &[Str]
        ensures { result.now ≡ self.now }
    {
        self.labels.as_slice()
    }
}

/// Where an expression's words begin: at the value that the template presents, at a loop's value,
/// the loops of a file being numbered from 0 in the order of the text, or at each value of a
/// collection.
#[derive(Drop)]
pub enum WordRoot {
    Here,
    Loop(u32),
    Collection(Str),
}

/// The values that a word reaches from where it begins.
#[derive(Drop)]
pub struct Expr {
    pub root: WordRoot,
    pub word: Word,
}

/// A KEY: the word that finds a value's key, whether a text counts as it is folded, and whether the
/// greatest comes first.
#[derive(Drop)]
pub struct SortKey {
    pub word: Word,
    pub fold: bool,
    pub descend: bool,
}

/// The KEYs of a tag, in order.
#[derive(Drop)]
pub struct SortKeys {
    list: Vec<SortKey>,
}

impl Model for SortKeys {
    ghost use Rattle.std.specs.Prelude.{List};
    ghost use Rattle.tmpl.specs.declared.SortKey.{SortKey};

    ghost Value = { List SortKey };

    ghost view = { λ k. k.list.items };
}

impl SortKeys {
    ghost use Rattle.std.specs.Prelude.{◌≡◌, ◌++◌, ◌∷◌, [], OnOk};

    /// No key. It takes no memory.
    pub fn none(alloc: Global) -> SortKeys
        ensures { result ≡ [] }
    {
        SortKeys {
            list: Vec::new(alloc),
        }
    }

    /// Puts a key after the others.
    /// # Errors
    /// Out of memory.
    pub fn push(&mut self, key: SortKey) -> Result<(), NoMemory>
        ensures { OnOk result (self.new ≡ self.old ++ key ∷ []) }
    {
        self.list.push(key)?;
        Ok(())
    }

    /// The keys in their order.
    pub fn list(&self) -> &[SortKey]
        ensures { result.now ≡ self.now }
    {
        self.list.as_slice()
    }
}

/// How the values of an expression are put in order, by their keys and at last by value, whether
/// the whole order is turned round, how many of them are taken, all without a limit, and which text
/// is between two of them.
#[derive(Drop)]
pub struct Order {
    pub keys: SortKeys,
    pub descend: bool,
    pub limit: Option<usize>,
    pub delimiter: Option<Str>,
}

/// How a text is written.
#[derive(Clone, Copy, Debug, PartialEq, Eq)]
pub enum Writing {
    /// Within HTML, where each byte that HTML reads as its own is an entity.
    Escaped,
    /// As it stands.
    Raw,
    /// Within HTML, with a break at the end of each line.
    Lines,
    /// Within an attribute of HTML, as an address.
    Url,
    /// Within a string of JSON.
    Json,
}

/// How a value is shown.
#[derive(Drop)]
pub enum Mode {
    /// As its text, written so.
    Written(Writing),
    /// By its own template, in place.
    Embed,
    /// As a link, whose label the word finds from the value; without a word the value is the label.
    Link(Option<Word>),
    /// As a link with this label.
    Labelled(Str),
}

/// An SFMT: the values of an expression, shown one after another.
#[derive(Drop)]
pub struct Format {
    pub values: Expr,
    pub mode: Mode,
    pub order: Order,
}

/// A comparison of a template.
#[derive(Drop)]
pub enum Cmp {
    Eq,
    Ne,
    Lt,
    Le,
    Gt,
    Ge,
}

/// What a choice compares the values of its expression with.
#[derive(Drop)]
pub struct Against {
    pub compare: Cmp,
    pub constant: Value,
}

/// What a choice compares the number of its expression's values with.
#[derive(Drop)]
pub struct Number {
    pub compare: Cmp,
    pub constant: i64,
}

/// What a choice asks of the values of its expression.
#[derive(Drop)]
pub enum Test {
    /// Whether there is one.
    Any,
    /// Whether one of them compares so.
    Compares(Against),
    /// Whether their number compares so.
    Counts(Number),
    /// Whether one of them is a value of this expression too.
    Same(Expr),
}

/// A stretch of text, values shown, how many values there are, a choice of two bodies, or a body
/// for each value.
#[cycle(part)]
#[derive(Drop)]
pub enum Part {
    Text(Str),
    Format(Format),
    Count(Expr),
    Choice(Choice),
    Repeat(Repeat),
}

/// An SIF: one body or another, as a test of an expression's values says.
#[cycle(part)]
#[derive(Drop)]
pub struct Choice {
    pub negated: bool,
    pub values: Expr,
    pub test: Test,
    pub taken: Vec<Part>,
    pub other: Vec<Part>,
}

/// An SFOR: a body once for each value of an expression.
#[cycle(part)]
#[derive(Drop)]
pub struct Repeat {
    pub number: u32,
    pub values: Expr,
    pub order: Order,
    pub body: Vec<Part>,
}

/// The body of a template.
#[derive(Drop)]
pub struct Template {
    pub parts: Vec<Part>,
}

/// A name, and the number of its template.
#[derive(Drop)]
pub struct NamedTemplate {
    pub name: Str,
    pub template: u32,
}

/// A file of templates, its function templates and its collection templates each in the order of
/// the file.
pub struct Templates {
    functions: Vec<NamedTemplate>,
    collections: Vec<NamedTemplate>,
    bodies: Vec<Template>,
    pub ghost functions_in_range: { All (λ n. n.template < length bodies.items) functions.items },
    pub ghost collections_in_range: { All (λ n. n.template < length bodies.items) collections.items },
}

// Written out, so that it is proved here once, and not again in each crate that drops one.
impl Drop for Templates {
    fn drop(self) {
        let Templates {
            functions: _functions,
            collections: _collections,
            bodies: _bodies,
        } = self;
    }
}

impl Templates {
    ghost use Rattle.std.specs.Prelude.{All, ◌<◌, ◌≡◌, length, map, get_or};
    ghost use Rattle.tmpl.specs.Body.{done};
    ghost use Rattle.tmpl.specs.Reading.{file_of, named_of, template_body};

    /// The file with these templates, each named by the number of its body.
    pub fn of(
        functions: Vec<NamedTemplate>,
        collections: Vec<NamedTemplate>,
        bodies: Vec<Template>,
    ) -> Templates
        requires functions { All (λ n. n.template < length bodies.items) functions.items }
        requires collections { All (λ n. n.template < length bodies.items) collections.items }
        ensures functions { (file_of result).functions ≡ map named_of functions.items }
        ensures collections { (file_of result).collections ≡ map named_of collections.items }
        ensures bodies { (file_of result).bodies ≡ map template_body bodies.items }
    {
        Templates {
            functions,
            collections,
            bodies,
        }
    }

    /// How many templates there are; they are numbered from 0.
    pub fn count(&self) -> usize
        ensures { result ≡ length (file_of self.now).bodies }
    {
        self.bodies.len()
    }

    /// The function templates, in the order of the file.
    pub fn functions(&self) -> &[NamedTemplate]
        ensures { map named_of result.now ≡ (file_of self.now).functions }
    {
        self.functions.as_slice()
    }

    /// The collection templates, in the order of the file.
    pub fn collections(&self) -> &[NamedTemplate]
        ensures { map named_of result.now ≡ (file_of self.now).collections }
    {
        self.collections.as_slice()
    }

    /// The template of this number.
    pub fn template(&self, number: u32) -> &Template
        requires { number < length (file_of self.now).bodies }
        ensures { template_body result.now ≡ get_or (file_of self.now).bodies number done }
    {
        &self.bodies[number as usize]
    }
}
