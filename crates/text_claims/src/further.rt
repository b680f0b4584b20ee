//! Labels by which the words of templates go on.

ghost use Rattle.std.specs.Prelude.{◌≡◌, ◌++◌, IfOk};
ghost use Rattle.lint_spec.specs.TemplateClaims.{first_label, label_behind, further_labels};

use crate::words::label_of;
use sd_lex::{Sign, TokenKind};
use sd_value::{NoMemory, Str};
use std::alloc::Global;
use template_items::{Item, ItemKind};

// Adds the label that the items begin with.
fn push_first(alloc: Global, found: &mut Vec<Str>, items: &[Item]) -> Result<(), NoMemory>
    ensures { IfOk result (λ _. found.new.items ≡ found.old.items ++ first_label items.now) }
{
    match items {
        [] => Ok(()),
        [first, ..] => match label_of(first) {
            Some(label) => {
                found.push(label.copy(alloc)?)?;
                Ok(())
            }
            None => Ok(()),
        },
    }
}

// Adds the label behind the item, where it is `.`.
fn push_behind(
    alloc: Global,
    found: &mut Vec<Str>,
    item: &Item,
    later: &[Item],
) -> Result<(), NoMemory>
    ensures { IfOk result (λ _. found.new.items
        ≡ found.old.items ++ label_behind item.now.kind later.now) }
{
    match &item.kind {
        ItemKind::Token(TokenKind::Sign(sign)) => match *sign {
            Sign::Dot => push_first(alloc, found, later),
            _ => Ok(()),
        },
        _ => Ok(()),
    }
}

/// The labels by which the words of a file of templates go on, by its items, in their order.
/// # Errors
/// Out of memory.
pub fn further_labels(alloc: Global, items: &[Item]) -> Result<Vec<Str>, NoMemory>
    ensures { IfOk result (λ found. found.items ≡ further_labels items.now) }
{
    let mut found = Vec::new(alloc);
    let mut rest = items;
    'items: loop {
        let [item, later @ ..] = rest else {
            return Ok(found);
        };
        push_behind(alloc, &mut found, item, later)?;
        rest = later;
    }
}
