//! Names of templates, and tags that are never closed.

ghost use Rattle.std.specs.Prelude.{◌≡◌, not, IfOk, None, []};
ghost use Rattle.template_reader.specs.Faults.{second_name, title_of, titles, Seen, is_seen, see, first_twice};
ghost use Rattle.template_reader.specs.Faults.{nothing_seen, HoldNames, twice, opens_body, closes_body, open_tags};
ghost use Rattle.template_reader.specs.Faults.{last_of, innermost};

use crate::file::is_sort;
use sd_lex::TokenKind;
use sd_value::{NoMemory, Str};
use std::alloc::Global;
use std::collections::BTreeSet;
use template_items::{Item, ItemKind, Mark};
use template_layouts::{is_mark, label_of, leads};
use template_tags::has_mark;

/// The sort, name and place of what a template presents.
#[derive(Drop)]
pub struct Title {
    pub of_collection: bool,
    pub name: Str,
    pub place: u64,
}

/// The name behind the word COLLECTION, and its place.
fn second_name(alloc: Global, word: &[u8], items: &[Item]) -> Result<Option<(Str, u64)>, NoMemory>
    ensures { IfOk result (λ o. o ≡ second_name word.now items.now) }
{
    if let [first, rest @ ..] = items {
        if is_sort(word) && !leads(first, rest) {
            if let Some(name) = label_of(first) {
                return Ok(Some((name.copy(alloc)?, first.place)));
            }
        }
    }
    Ok(None)
}

/// The name of a template whose tag begins the items.
fn title_of(alloc: Global, items: &[Item]) -> Result<Option<Title>, NoMemory>
    ensures { IfOk result (λ o. o ≡ title_of items.now) }
{
    if !has_mark(items, Mark::OpenTemplate) {
        return Ok(None);
    }
    if let [_, first, rest @ ..] = items {
        if let ItemKind::Token(TokenKind::Name(word)) = &first.kind {
            return match second_name(alloc, word.bytes(), rest)? {
                Some((name, place)) => Ok(Some(Title {
                    of_collection: true,
                    name,
                    place,
                })),
                None => Ok(Some(Title {
                    of_collection: false,
                    name: word.copy(alloc)?,
                    place: first.place,
                })),
            };
        }
    }
    Ok(None)
}

/// The names of the templates.
fn titles(alloc: Global, items: &[Item]) -> Result<Vec<Title>, NoMemory>
    ensures { IfOk result (λ v. v.items ≡ titles items.now) }
{
    let mut found = Vec::new(alloc);
    let mut rest = items;
    'items: loop {
        let [_, later @ ..] = rest else {
            return Ok(found);
        };
        if let Some(title) = title_of(alloc, rest)? {
            found.push(title)?;
        }
        rest = later;
    }
}

/// The names that were seen.
#[derive(Drop)]
struct Names {
    functions: BTreeSet<Str>,
    collections: BTreeSet<Str>,
}

impl Names {
    /// One more name; whether it is new.
    fn add(&mut self, alloc: Global, title: &Title) -> Result<bool, NoMemory>
        ensures fresh { IfOk result (λ fresh. (s : Seen) → HoldNames self.old s
            → fresh ≡ not (is_seen s title.now)) }
        ensures holds { IfOk result (λ fresh. (s : Seen) → HoldNames self.old s
            → HoldNames self.new (see s title.now)) }
    {
        let name = title.name.copy(alloc)?;
        if title.of_collection {
            Ok(self.collections.insert(name)?)
        } else {
            Ok(self.functions.insert(name)?)
        }
    }
}

/// The place of the first name that a template of the same sort has before.
fn first_twice(alloc: Global, titles: &[Title]) -> Result<Option<u64>, NoMemory>
    ensures { IfOk result (λ o. o ≡ first_twice nothing_seen titles.now) }
{
    let mut names = Names {
        functions: BTreeSet::new(alloc),
        collections: BTreeSet::new(alloc),
    };
    for title in titles {
        if !names.add(alloc, title)? {
            return Ok(Some(title.place));
        }
    }
    Ok(None)
}

/// The place of the first name that occurs twice.
pub fn twice(alloc: Global, items: &[Item]) -> Result<Option<u64>, NoMemory>
    ensures { IfOk result (λ o. o ≡ twice items.now) }
{
    let titles = titles(alloc, items)?;
    first_twice(alloc, titles.as_slice())
}

fn opens_body(item: &Item) -> bool
    ensures { result ≡ opens_body item.now }
{
    is_mark(item, Mark::OpenTemplate)
        || is_mark(item, Mark::OpenChoice)
        || is_mark(item, Mark::OpenRepeat)
}

fn closes_body(item: &Item) -> bool
    ensures { result ≡ closes_body item.now }
{
    is_mark(item, Mark::EndTemplate)
        || is_mark(item, Mark::EndChoice)
        || is_mark(item, Mark::EndRepeat)
}

/// The places of the tags that are open behind these items.
fn open_tags(alloc: Global, items: &[Item]) -> Result<Vec<u64>, NoMemory>
    ensures { IfOk result (λ v. v.items ≡ open_tags [] items.now) }
{
    let mut open_at = Vec::new(alloc);
    for item in items {
        if opens_body(item) {
            open_at.push(item.place)?;
        } else if closes_body(item) {
            open_at.pop();
        }
    }
    Ok(open_at)
}

fn last_of(places: &[u64]) -> u64
    ensures { result ≡ last_of 0 places.now }
{
    let mut found = 0;
    for place in places {
        found = *place;
    }
    found
}

/// The place of the innermost tag that is open behind these items.
pub fn innermost(alloc: Global, items: &[Item]) -> Result<u64, NoMemory>
    ensures { IfOk result (λ place. place ≡ innermost items.now) }
{
    let open_at = open_tags(alloc, items)?;
    Ok(last_of(open_at.as_slice()))
}
