//! The template, layout or fragment that is read.

ghost use Rattle.std.specs.Prelude.{◌≡◌, ◌++◌, ◌∷◌, [], option_copied, IfOk, OnOk, Some};
ghost use Rattle.template_tags.specs.Terminals.{name_value, label_value};
ghost use Rattle.template_layouts.specs.Together.{fragment_of, open_of, above_of, Answers, nothing_open, kept, tag_items};
ghost use Rattle.template_layouts.specs.Together.{opens, tagged, named, is_above, titles, frames, precedes, with_items};
ghost use Rattle.template_layouts.specs.Together.{included_by, includes};

use crate::above::{Above, Fragment, find, find_layout};
use crate::measure::{
    Measure, begun, is_too_deep, is_too_large, measured, no_measure, sum, with_fragment,
};
use crate::met::{Halted, Met};
use crate::refusal::TmplRefusal;
use crate::written::{Sort, copied, sort_of};
use sd_lex::TokenKind;
use sd_value::{NoMemory, Str};
use std::alloc::Global;
use template_items::{Item, ItemKind};

/// The template, layout or fragment that is read: its name with its place, the layout it is in, the items of its tag, if it
/// is a template, and those of its body so far.
#[derive(Drop)]
pub struct Open {
    pub sort: Sort,
    pub name: Str,
    pub place: u64,
    pub frame: Option<Str>,
    pub tag: Vec<Item>,
    pub measure: Measure,
    pub items: Vec<Item>,
}

/// The name that an item is.
fn name_of(item: &Item) -> Option<&Str>
    ensures { option_copied result ≡ name_value item.now }
{
    match &item.kind {
        ItemKind::Token(token) => match token {
            TokenKind::Name(text) => Some(text),
            TokenKind::Quoted(_) | TokenKind::Int(_) | TokenKind::Sign(_) => None,
        },
        ItemKind::Text(_) | ItemKind::Mark(_) => None,
    }
}

/// The name or quoted text that an item is.
pub fn label_of(item: &Item) -> Option<&Str>
    ensures { option_copied result ≡ label_value item.now }
{
    match &item.kind {
        ItemKind::Token(token) => match token {
            TokenKind::Name(text) | TokenKind::Quoted(text) => Some(text),
            TokenKind::Int(_) | TokenKind::Sign(_) => None,
        },
        ItemKind::Text(_) | ItemKind::Mark(_) => None,
    }
}

/// Adds equal items.
pub fn extend(alloc: Global, items: &mut Vec<Item>, more: &[Item]) -> Result<(), NoMemory>
    ensures { OnOk result (items.new.items ≡ items.old.items ++ more.now) }
{
    for item in more {
        let copy = copied(alloc, item)?;
        items.push(copy)?;
    }
    Ok(())
}

/// Adds an equal item.
pub fn push(alloc: Global, items: &mut Vec<Item>, item: &Item) -> Result<(), NoMemory>
    ensures { OnOk result (items.new.items ≡ items.old.items ++ item.now ∷ []) }
{
    let copy = copied(alloc, item)?;
    items.push(copy)?;
    Ok(())
}

pub fn nothing_open(alloc: Global) -> Result<Open, NoMemory>
    ensures { IfOk result (λ o. open_of o ≡ nothing_open) }
{
    Ok(Open {
        sort: Sort::Template,
        name: Str::new(alloc, b"")?,
        place: 0,
        frame: None,
        tag: Vec::new(alloc),
        measure: no_measure(),
        items: Vec::new(alloc),
    })
}

/// One more item of the body.
pub fn keep(alloc: Global, opened: &mut Open, item: &Item) -> Result<(), NoMemory>
    ensures { OnOk result (open_of opened.new ≡ kept (open_of opened.old) item.now) }
{
    push(alloc, &mut opened.items, item)?;
    opened.measure = measured(opened.measure, item);
    Ok(())
}

/// One more item of the tag, which a template is read with.
pub fn tag(alloc: Global, opened: &mut Open, item: &Item) -> Result<(), NoMemory>
    ensures { OnOk result (open_of opened.new ≡ tagged (open_of opened.old) item.now) }
{
    match opened.sort {
        Sort::Template => push(alloc, &mut opened.tag, item),
        Sort::Layout | Sort::Fragment => Ok(()),
    }
}

pub fn opens(alloc: Global, item: &Item) -> Result<Open, NoMemory>
    ensures { IfOk result (λ o. open_of o ≡ opens item.now) }
{
    let mut opened = nothing_open(alloc)?;
    opened.sort = sort_of(&item.kind);
    opened.place = item.place;
    tag(alloc, &mut opened, item)?;
    Ok(opened)
}

/// With this name.
fn name(alloc: Global, opened: &mut Open, name: &Str, item: &Item) -> Result<(), NoMemory>
    ensures { OnOk result (open_of opened.new
        ≡ named (open_of opened.old) name.now item.now) }
{
    opened.name = name.copy(alloc)?;
    opened.place = item.place;
    tag(alloc, opened, item)
}

/// Whether the name is above, of the same sort of thing that is put in or round.
fn is_above(sort: Sort, above: &Above, name: &Str) -> bool
    ensures { result ≡ is_above sort (above_of above.now) name.now }
{
    match sort {
        Sort::Template => false,
        Sort::Layout => find_layout(&above.layouts, name).is_some(),
        Sort::Fragment => find(&above.fragments, name).is_some(),
    }
}

/// A name in an opening tag.
pub fn title(alloc: Global, above: &Above, opened: &mut Open, item: &Item) -> Result<(), Halted>
    ensures { Answers (λ _. open_of opened.new) result
        (titles (above_of above.now) (open_of opened.old) item.now) }
{
    let Some(label) = label_of(item) else {
        tag(alloc, opened, item)?;
        return Ok(());
    };
    if is_above(opened.sort, above, label) {
        return Err(Halted::Met(Met {
            place: item.place,
            refusal: TmplRefusal::Twice(item.place),
        }));
    }
    name(alloc, opened, label, item)?;
    Ok(())
}

/// The layout's name in an opening tag.
pub fn frame(alloc: Global, above: &Above, opened: &mut Open, item: &Item) -> Result<(), Halted>
    ensures { Answers (λ _. open_of opened.new) result
        (frames (above_of above.now) (open_of opened.old) item.now) }
{
    let Some(name) = name_of(item) else {
        return Ok(());
    };
    if !is_above(Sort::Layout, above, name) {
        return Err(Halted::Met(Met {
            place: item.place,
            refusal: TmplRefusal::Unknown(item.place),
        }));
    }
    opened.frame = Some(name.copy(alloc)?);
    Ok(())
}

pub fn precede(opened: &mut Open, item: &Item)
    ensures { open_of opened.new ≡ precedes (open_of opened.old) item.now }
{
    opened.measure = begun(opened.measure, item.place);
}

/// With a fragment put in.
fn put_in(alloc: Global, opened: &mut Open, fragment: &Fragment) -> Result<(), NoMemory>
    ensures { OnOk result (open_of opened.new
        ≡ with_items (open_of opened.old) (fragment_of fragment.now)) }
{
    let measure = opened.measure;
    if !is_too_large(sum(measure.bytes, fragment.measure.bytes)) {
        extend(alloc, &mut opened.items, &fragment.items)?;
    }
    opened.measure = with_fragment(measure, fragment.measure);
    Ok(())
}

/// With this fragment put in, unless tags go too deep with it.
fn included(
    alloc: Global,
    fragment: &Fragment,
    opened: &mut Open,
    item: &Item,
) -> Result<(), Halted>
    ensures { Answers (λ _. open_of opened.new) result
        (included_by (Some (fragment_of fragment.now)) (open_of opened.old) item.now) }
{
    if is_too_deep(sum(opened.measure.depth, fragment.measure.deepest)) {
        return Err(Halted::Met(Met {
            place: item.place,
            refusal: TmplRefusal::TooDeep(opened.measure.from),
        }));
    }
    put_in(alloc, opened, fragment)?;
    Ok(())
}

/// The name in `<SINCLUDE`.
pub fn include(alloc: Global, above: &Above, opened: &mut Open, item: &Item) -> Result<(), Halted>
    ensures { Answers (λ _. open_of opened.new) result
        (includes (above_of above.now) (open_of opened.old) item.now) }
{
    let Some(name) = name_of(item) else {
        return Ok(());
    };
    match find(&above.fragments, name) {
        Some(fragment) => included(alloc, fragment, opened, item),
        None => Err(Halted::Met(Met {
            place: item.place,
            refusal: TmplRefusal::Unknown(item.place),
        })),
    }
}
