//! Templates, one after another.

ghost use Rattle.std.specs.Prelude.{◌≡◌, true, map, option_map, IfOk};
ghost use Rattle.grammar.specs.Reading.{take_one, starts};
ghost use Rattle.grammar.specs.Reading as reading;
ghost use Rattle.template_items.specs.declared.item.Mark.TheVariants as marks;
ghost use Rattle.token_reader.specs.Gives.{Gives};
ghost use Rattle.template_tags.specs.Terminals.{is_mark};
ghost use Rattle.template_reader.specs.Template.{is_sort, named_value};
ghost use Rattle.template_reader.specs.Entries.{head_of, entry_of, GivesAll};
ghost use Rattle.template_reader.specs.Reading.{read_collection_head, read_function_head, read_named_head, is_named};
ghost use Rattle.template_reader.specs.Reading.{read_head_rest, read_template, whole_of, read_file};

use crate::body::body_at;
use sd_value::{NoMemory, Str};
use std::alloc::Global;
use template_items::{Item, Mark};
use template_layouts::label_of;
use template_tags::{has_mark, mark_at, name_at};
use tmpl::Part;
use token_reader::Halt;

/// The sort and name of what a template presents.
#[derive(Drop)]
pub struct Head {
    pub of_collection: bool,
    pub name: Str,
}

/// A template as it is in the file.
#[derive(Drop)]
pub struct Entry {
    pub of_collection: bool,
    pub name: Str,
    pub parts: Vec<Part>,
}

/// Whether this is the word that may be before a collection's name.
pub fn is_sort(word: &[u8]) -> bool
    ensures { result ≡ is_sort word.now }
{
    word == b"COLLECTION".as_slice()
}

/// Whether a collection's name is next, behind the word COLLECTION.
fn has_named(items: &[Item], word: &[u8]) -> bool
    ensures { result ≡ starts (is_named word.now) items.now }
{
    match items {
        [] => false,
        [first, ..] => is_sort(word) && label_of(first).is_some(),
    }
}

/// A collection's name at the front, behind the word COLLECTION.
fn named_at<'a>(
    alloc: Global,
    items: &'a [Item],
    word: &[u8],
) -> Result<(Str, &'a [Item]), Halt<'a, Item>>
    ensures { Gives (λ x. x.0) (λ x. x.1.now) result
        (take_one true (named_value word.now) items.now) }
{
    if let [first, rest @ ..] = items {
        if is_sort(word) {
            if let Some(name) = label_of(first) {
                return Ok((name.copy(alloc)?, rest));
            }
        }
    }
    Err(Halt::Expected(items))
}

#[tactic(auto, unfolding(crate::specs::Reading::read_named_head, crate::specs::Reading::read_collection_head))]
fn named_head_at<'a>(
    alloc: Global,
    items: &'a [Item],
    word: &[u8],
) -> Result<(Head, &'a [Item]), Halt<'a, Item>>
    ensures { Gives (λ x. head_of x.0) (λ x. x.1.now) result (read_named_head word.now items.now) }
{
    let (name, rest) = named_at(alloc, items, word)?;
    let (_, rest) = mark_at(rest, Mark::Close)?;
    Ok((
        Head {
            of_collection: true,
            name,
        },
        rest,
    ))
}

#[tactic(auto, unfolding(crate::specs::Reading::read_function_head))]
fn function_head_at(items: &[Item], name: Str) -> Result<(Head, &[Item]), Halt<Item>>
    ensures { Gives (λ x. head_of x.0) (λ x. x.1.now) result (read_function_head name items.now) }
{
    let (_, rest) = mark_at(items, Mark::Close)?;
    Ok((
        Head {
            of_collection: false,
            name,
        },
        rest,
    ))
}

/// What is behind the first name of a template's tag.
#[tactic(auto, unfolding(crate::specs::Reading::read_head_rest))]
fn head_rest_at(alloc: Global, items: &[Item], word: Str) -> Result<(Head, &[Item]), Halt<Item>>
    ensures { Gives (λ x. head_of x.0) (λ x. x.1.now) result (read_head_rest word items.now) }
{
    if has_named(items, word.bytes()) {
        named_head_at(alloc, items, word.bytes())
    } else {
        function_head_at(items, word)
    }
}

/// A template.
#[tactic(auto, unfolding(crate::specs::Reading::read_template))]
fn template_at(alloc: Global, items: &[Item]) -> Result<(Entry, &[Item]), Halt<Item>>
    ensures { Gives (λ x. entry_of x.0) (λ x. x.1.now) result (read_template items.now) }
{
    let (_, rest) = mark_at(items, Mark::OpenTemplate)?;
    let (word, rest) = name_at(alloc, rest)?;
    let (head, rest) = head_rest_at(alloc, rest, word)?;
    let (parts, rest) = body_at(alloc, 32, &[], rest)?;
    let (_, rest) = mark_at(rest, Mark::EndTemplate)?;
    Ok((
        Entry {
            of_collection: head.of_collection,
            name: head.name,
            parts,
        },
        rest,
    ))
}

/// Templates, one after another.
fn templates_at(alloc: Global, items: &[Item]) -> Result<(Vec<Entry>, &[Item]), Halt<Item>>
    ensures { Gives (λ x. map entry_of x.0.items) (λ x. x.1.now) result
        (reading.repeat (is_mark marks.OpenTemplate) read_template items.now) }
{
    let mut entries = Vec::new(alloc);
    let mut rest = items;
    'list: while has_mark(rest, Mark::OpenTemplate) {
        let (entry, after) = template_at(alloc, rest)?;
        entries.push(entry)?;
        rest = after;
    }
    Ok((entries, rest))
}

/// A template alone, if the items are one.
pub fn alone(alloc: Global, items: &[Item]) -> Result<Option<Entry>, NoMemory>
    ensures { IfOk result (λ o. option_map entry_of o ≡ whole_of (read_template items.now)) }
{
    match template_at(alloc, items) {
        Ok((entry, rest)) => match rest {
            [] => Ok(Some(entry)),
            [_, ..] => Ok(None),
        },
        Err(Halt::Expected(_)) => Ok(None),
        Err(Halt::TooDeep(_)) => Ok(None),
        Err(Halt::NoMemory) => Err(NoMemory),
    }
}

/// A whole file.
#[tactic(auto, unfolding(crate::specs::Reading::read_file))]
pub fn file_at(alloc: Global, items: &[Item]) -> Result<Vec<Entry>, Halt<Item>>
    ensures { GivesAll result (read_file items.now) }
{
    let (entries, rest) = templates_at(alloc, items)?;
    match rest {
        [] => Ok(entries),
        _ => Err(Halt::Expected(rest)),
    }
}
