//! What the expressions of a template read.
ghost use Rattle.std.specs.Prelude.{◌≡◌, ◌++◌, [], ◌∷◌, IfOk, map, option_copied};
ghost use Rattle.std.specs.List.{flat_map};
ghost use Rattle.tmpl.specs.Expressions.{key_words, label_words, use_of};
ghost use Rattle.edit_footprint.specs.Gathered.{AddsExpr, AddsUses};

use sd_value::{NoMemory, Str};
use std::alloc::Global;
use tmpl::{Expr, ExprUse, SortKey, Word, WordRoot};

/// Whether there is an EMBED, the labels that are read at the presented value alone, those that are read at any value,
/// and the collections.
#[derive(Drop)]
pub struct Reads {
    pub embeds: bool,
    pub own: Vec<Str>,
    pub others: Vec<Str>,
    pub collections: Vec<Str>,
}

fn add_labels(alloc: Global, labels: &[Str], out: &mut Vec<Str>) -> Result<(), NoMemory>
    ensures { IfOk result (λ _. out.new.items ≡ out.old.items ++ labels.now) }
{
    for label in labels {
        out.push(label.copy(alloc)?)?;
    }
    Ok(())
}

fn add_word(alloc: Global, word: Option<&Word>, out: &mut Vec<Str>) -> Result<(), NoMemory>
    ensures { IfOk result (λ _. out.new.items
        ≡ out.old.items ++ flat_map (λ w. w) (label_words (option_copied word.entry))) }
{
    match word {
        None => Ok(()),
        Some(word) => add_labels(alloc, word.labels(), out),
    }
}

fn add_keys(alloc: Global, keys: &[SortKey], out: &mut Vec<Str>) -> Result<(), NoMemory>
    ensures { IfOk result (λ _. out.new.items
        ≡ out.old.items ++ flat_map (λ w. w) (key_words keys.now)) }
{
    for key in keys {
        add_labels(alloc, key.word.labels(), out)?;
    }
    Ok(())
}

fn add_expr(alloc: Global, values: &Expr, reads: &mut Reads) -> Result<(), NoMemory>
    ensures { IfOk result (λ _. AddsExpr reads.old reads.new values.now) }
{
    match &values.root {
        WordRoot::Here => {
            if let [first, rest @ ..] = values.word.labels() {
                reads.own.push(first.copy(alloc)?)?;
                add_labels(alloc, rest, &mut reads.others)?;
            }
            Ok(())
        }
        WordRoot::Loop(_) => add_labels(alloc, values.word.labels(), &mut reads.others),
        WordRoot::Collection(name) => {
            reads.collections.push(name.copy(alloc)?)?;
            add_labels(alloc, values.word.labels(), &mut reads.others)
        }
    }
}

fn add_use(alloc: Global, x: &ExprUse, reads: &mut Reads) -> Result<(), NoMemory>
    ensures { IfOk result (λ _. AddsUses reads.old reads.new (use_of x.now ∷ [])) }
{
    add_expr(alloc, x.values, reads)?;
    add_keys(alloc, x.keys, &mut reads.others)?;
    add_word(alloc, x.label, &mut reads.others)?;
    if x.embeds {
        reads.embeds = true;
    }
    Ok(())
}

/// What the expressions of a body read.
pub fn gather(alloc: Global, uses: &[ExprUse], reads: &mut Reads) -> Result<(), NoMemory>
    ensures { IfOk result (λ _. AddsUses reads.old reads.new (map use_of uses.now)) }
{
    for x in uses {
        add_use(alloc, x, reads)?;
    }
    Ok(())
}
