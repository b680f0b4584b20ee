//! What the items of a file of templates ask for.

ghost use Rattle.std.specs.Prelude.{◌≡◌, ◌++◌, All, IfOk};
ghost use Rattle.lint_spec.specs.TemplateClaims.{item_claims, known, before_next, template_claims};
ghost use Rattle.template_items.specs.Scanning.{EndsWithin};
ghost use Rattle.text_claims.specs.Limits.{text_end};

use crate::markup::{after_text, after_value};
use crate::tags::push_tags;
use crate::words::{
    is_word_setting, push_collection, push_of_page, push_raw, push_shown, push_step, push_targets,
    push_title, push_word, title_function,
};
use lint_spec::{Before, Claim, Markup};
use sd_lex::{Sign, TokenKind};
use sd_value::{NoMemory, Str};
use std::alloc::Global;
use template_items::{Item, ItemKind, Mark};

// Adds what a mark asks for.
fn push_mark(
    alloc: Global,
    found: &mut Vec<Claim>,
    before: &Before,
    item: &Item,
    later: &[Item],
    mark: Mark,
) -> Result<(), NoMemory>
    requires { item.now.kind ≡ ItemKind.Mark mark }
    ensures { IfOk result (λ _. found.new.items ≡ found.old.items
        ++ item_claims before.now item.now.kind item.now.place later.now) }
{
    match mark {
        Mark::OpenTemplate => push_title(alloc, found, later),
        Mark::OpenFormat => push_shown(found, before.markup, item.place),
        Mark::HereOf => push_of_page(alloc, found, &before.function, later),
        Mark::Hash => push_collection(alloc, found, later),
        _ => Ok(()),
    }
}

// Adds what a name asks for.
fn push_name(
    alloc: Global,
    found: &mut Vec<Claim>,
    before: &Before,
    item: &Item,
    later: &[Item],
    name: &Str,
) -> Result<(), NoMemory>
    requires { item.now.kind ≡ ItemKind.Token (TokenKind.Name name.now) }
    ensures { IfOk result (λ _. found.new.items ≡ found.old.items
        ++ item_claims before.now item.now.kind item.now.place later.now) }
{
    if before.labelled {
        return Ok(());
    }
    push_targets(found, name, item.place)?;
    push_raw(found, name, item.place)?;
    if is_word_setting(name) {
        push_word(alloc, found, later)
    } else {
        Ok(())
    }
}

// Adds what an item asks for, by what is before it and behind it.
fn push_item(
    alloc: Global,
    found: &mut Vec<Claim>,
    before: &Before,
    item: &Item,
    later: &[Item],
) -> Result<(), NoMemory>
    requires { EndsWithin text_end item.now }
    ensures { IfOk result (λ _. found.new.items ≡ found.old.items
        ++ item_claims before.now item.now.kind item.now.place later.now) }
{
    match &item.kind {
        ItemKind::Text(text) => push_tags(alloc, found, item.place, text.bytes()),
        ItemKind::Mark(mark) => push_mark(alloc, found, before, item, later, *mark),
        ItemKind::Token(token) => match token {
            TokenKind::Name(name) => push_name(alloc, found, before, item, later, name),
            TokenKind::Sign(sign) => match *sign {
                Sign::Dot => push_step(alloc, found, later),
                _ => Ok(()),
            },
            TokenKind::Quoted(_) | TokenKind::Int(_) => Ok(()),
        },
    }
}

// What is known further on in a template.
fn known(before: Before, labelled: bool, markup: Markup) -> Before
    ensures { result ≡ known before labelled markup }
{
    let Before {
        function,
        labelled: _,
        markup: _,
    } = before;
    Before {
        function,
        labelled,
        markup,
    }
}

// What is known behind an item.
fn next(alloc: Global, before: Before, item: &Item, later: &[Item]) -> Result<Before, NoMemory>
    ensures { IfOk result (λ b. b ≡ before_next before item.now.kind later.now) }
{
    let place = before.markup;
    match &item.kind {
        ItemKind::Text(text) => Ok(known(before, false, after_text(place, text.bytes()))),
        ItemKind::Mark(mark) => match *mark {
            Mark::OpenTemplate => Ok(Before {
                function: title_function(alloc, later)?,
                labelled: false,
                markup: Markup::Content,
            }),
            Mark::OpenLayout | Mark::OpenFragment => Ok(Before {
                function: None,
                labelled: false,
                markup: Markup::Content,
            }),
            Mark::OpenFormat => Ok(known(before, false, after_value(place))),
            Mark::HereOf | Mark::Hash => Ok(known(before, true, place)),
            _ => Ok(known(before, false, place)),
        },
        ItemKind::Token(token) => match token {
            TokenKind::Sign(sign) => match *sign {
                Sign::Dot | Sign::Eq => Ok(known(before, true, place)),
                _ => Ok(known(before, false, place)),
            },
            _ => Ok(known(before, false, place)),
        },
    }
}

/// All that a file of templates asks for, by its items, in their order. The texts among them end within a text of fewer
/// bytes than 64 bits number.
/// # Errors
/// Out of memory.
pub fn claims_of_templates(alloc: Global, items: &[Item]) -> Result<Vec<Claim>, NoMemory>
    requires { All (EndsWithin text_end) items.now }
    ensures { IfOk result (λ found. found.items ≡ template_claims items.now) }
{
    let mut found = Vec::new(alloc);
    let mut before = Before {
        function: None,
        labelled: false,
        markup: Markup::Content,
    };
    let mut rest = items;
    'items: loop {
        let [item, later @ ..] = rest else {
            return Ok(found);
        };
        push_item(alloc, &mut found, &before, item, later)?;
        before = next(alloc, before, item, later)?;
        rest = later;
    }
}
