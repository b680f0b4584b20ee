//! Labels, collections and functions among the items of a file of templates.

ghost use Rattle.std.specs.Prelude.{◌≡◌, ◌++◌, ◌∷◌, [], IfOk, option_copied};
ghost use Rattle.lint_spec.specs.declared.Asked.TheVariants as asked;
ghost use Rattle.lint_spec.specs.QueryClaims.{claim};
ghost use Rattle.lint_spec.specs.TemplateClaims.{name_of, label_of, is_equals as equals};
ghost use Rattle.lint_spec.specs.TemplateClaims.{label_claims, word_claims, of_page};
ghost use Rattle.lint_spec.specs.TemplateClaims.{is_word_setting as word_setting};
ghost use Rattle.lint_spec.specs.TemplateClaims.{has_label, title_function, title_claims, shown_claims, target_claims, raw_claims};

use crate::markup::is_unsafe;
use lint_spec::{Asked, Claim, Markup};
use sd_lex::{Sign, TokenKind};
use sd_value::{NoMemory, Str};
use std::alloc::Global;
use template_items::{Item, ItemKind};
use template_layouts::leads;

/// Adds what is asked for at a byte.
pub(crate) fn push(found: &mut Vec<Claim>, asked: Asked, at: u64) -> Result<(), NoMemory>
    ensures { IfOk result (λ _. found.new.items ≡ found.old.items ++ claim asked at ∷ []) }
{
    found.push(Claim { asked, at })?;
    Ok(())
}

// The name that an item is.
fn name_of(item: &Item) -> Option<&Str>
    ensures { option_copied result ≡ name_of item.now.kind }
{
    match &item.kind {
        ItemKind::Token(token) => match token {
            TokenKind::Name(name) => Some(name),
            TokenKind::Quoted(_) | TokenKind::Int(_) | TokenKind::Sign(_) => None,
        },
        ItemKind::Text(_) | ItemKind::Mark(_) => None,
    }
}

/// The label that an item is: a name or a quoted text.
pub(crate) fn label_of(item: &Item) -> Option<&Str>
    ensures { option_copied result ≡ label_of item.now.kind }
{
    match &item.kind {
        ItemKind::Token(token) => match token {
            TokenKind::Name(text) | TokenKind::Quoted(text) => Some(text),
            TokenKind::Int(_) | TokenKind::Sign(_) => None,
        },
        ItemKind::Text(_) | ItemKind::Mark(_) => None,
    }
}

// Whether the item is `=`.
fn is_equals(item: &Item) -> bool
    ensures { result ≡ equals item.now.kind }
{
    match &item.kind {
        ItemKind::Token(TokenKind::Sign(sign)) => match *sign {
            Sign::Eq => true,
            _ => false,
        },
        _ => false,
    }
}

/// Adds the label that the items begin with, of a link or an edge.
pub(crate) fn push_step(
    alloc: Global,
    found: &mut Vec<Claim>,
    items: &[Item],
) -> Result<(), NoMemory>
    ensures { IfOk result (λ _. found.new.items
        ≡ found.old.items ++ label_claims asked.Step items.now) }
{
    match items {
        [] => Ok(()),
        [first, ..] => match label_of(first) {
            Some(label) => push(found, Asked::Step(label.copy(alloc)?), first.place),
            None => Ok(()),
        },
    }
}

/// Adds the collection that the items begin with.
pub(crate) fn push_collection(
    alloc: Global,
    found: &mut Vec<Claim>,
    items: &[Item],
) -> Result<(), NoMemory>
    ensures { IfOk result (λ _. found.new.items
        ≡ found.old.items ++ label_claims asked.Collection items.now) }
{
    match items {
        [] => Ok(()),
        [first, ..] => match label_of(first) {
            Some(name) => push(found, Asked::Collection(name.copy(alloc)?), first.place),
            None => Ok(()),
        },
    }
}

// A label behind `@`, in a template of the function or of a collection.
fn of_page(alloc: Global, function: &Option<Str>, label: &Str) -> Result<Asked, NoMemory>
    ensures { IfOk result (λ a. a ≡ of_page function.now label.now) }
{
    match function {
        None => Ok(Asked::Step(label.copy(alloc)?)),
        Some(function) => Ok(Asked::LinkOf {
            function: function.copy(alloc)?,
            label: label.copy(alloc)?,
        }),
    }
}

/// Adds the label that the items begin with, behind `@`.
pub(crate) fn push_of_page(
    alloc: Global,
    found: &mut Vec<Claim>,
    function: &Option<Str>,
    items: &[Item],
) -> Result<(), NoMemory>
    ensures { IfOk result (λ _. found.new.items
        ≡ found.old.items ++ label_claims (of_page function.now) items.now) }
{
    match items {
        [] => Ok(()),
        [first, ..] => match label_of(first) {
            Some(label) => push(found, of_page(alloc, function, label)?, first.place),
            None => Ok(()),
        },
    }
}

/// Adds the first label of the word behind `KEY` or `LINK`.
pub(crate) fn push_word(
    alloc: Global,
    found: &mut Vec<Claim>,
    items: &[Item],
) -> Result<(), NoMemory>
    ensures { IfOk result (λ _. found.new.items ≡ found.old.items ++ word_claims items.now) }
{
    match items {
        [] => Ok(()),
        [first, rest @ ..] => {
            if is_equals(first) {
                push_step(alloc, found, rest)
            } else {
                Ok(())
            }
        }
    }
}

/// Whether a word may follow the setting.
pub(crate) fn is_word_setting(name: &Str) -> bool
    ensures { result ≡ word_setting name.now }
{
    name.bytes() == b"KEY".as_slice() || name.bytes() == b"LINK".as_slice()
}

fn has_label(items: &[Item]) -> bool
    ensures { result ≡ has_label items.now }
{
    match items {
        [] => false,
        [first, rest @ ..] => label_of(first).is_some() && !leads(first, rest),
    }
}

/// The function of a template with these items behind `<TEMPLATE`; none where it is a collection's.
pub(crate) fn title_function(alloc: Global, items: &[Item]) -> Result<Option<Str>, NoMemory>
    ensures { IfOk result (λ f. f ≡ title_function items.now) }
{
    let [first, rest @ ..] = items else {
        return Ok(None);
    };
    let Some(name) = name_of(first) else {
        return Ok(None);
    };
    if name.bytes() == b"COLLECTION".as_slice() && has_label(rest) {
        Ok(None)
    } else {
        Ok(Some(name.copy(alloc)?))
    }
}

/// Adds the function that a template presents.
pub(crate) fn push_title(
    alloc: Global,
    found: &mut Vec<Claim>,
    items: &[Item],
) -> Result<(), NoMemory>
    ensures { IfOk result (λ _. found.new.items ≡ found.old.items ++ title_claims items.now) }
{
    match items {
        [] => Ok(()),
        [first, ..] => match title_function(alloc, items)? {
            Some(function) => push(found, Asked::Presented(function), first.place),
            None => Ok(()),
        },
    }
}

/// Adds a tag that shows a value at such a place, if what is shown there may be read as more than text.
pub(crate) fn push_shown(found: &mut Vec<Claim>, place: Markup, at: u64) -> Result<(), NoMemory>
    ensures { IfOk result (λ _. found.new.items ≡ found.old.items ++ shown_claims place at) }
{
    if is_unsafe(place) {
        push(found, Asked::Shown, at)
    } else {
        Ok(())
    }
}

/// Adds what LINK asks for, if the name is it.
pub(crate) fn push_targets(found: &mut Vec<Claim>, name: &Str, at: u64) -> Result<(), NoMemory>
    ensures { IfOk result (λ _. found.new.items ≡ found.old.items ++ target_claims name.now at) }
{
    if name.bytes() == b"LINK".as_slice() {
        push(found, Asked::Targets, at)
    } else {
        Ok(())
    }
}

/// Adds what a mode that shows a value as it stands asks for, if the name is one.
pub(crate) fn push_raw(found: &mut Vec<Claim>, name: &Str, at: u64) -> Result<(), NoMemory>
    ensures { IfOk result (λ _. found.new.items ≡ found.old.items ++ raw_claims name.now at) }
{
    if name.bytes() == b"RAW".as_slice() || name.bytes() == b"PLAIN".as_slice() {
        push(found, Asked::Raw, at)
    } else {
        Ok(())
    }
}
