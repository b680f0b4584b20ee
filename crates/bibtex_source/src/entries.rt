// The entries of a text by their keys, found before any is stated.
ghost use Rattle.std.specs.Prelude.{◌≡◌, ◌++◌, List, IfOk, OnOk, if◌then◌else◌};
ghost use Rattle.graph_spec.specs.DataGraph.{Name};
ghost use Rattle.bibtex_spec.specs.declared.Field.{Field as AnyField};
ghost use Rattle.bibtex_spec.specs.Macros.{months as month_macros};
ghost use Rattle.bibtex_source.specs.Source.{entries_by, no_entries, fields_at, seen};
ghost use Rattle.bibtex_source.specs.Text.{entry_of, entries_in, macros_behind, source_in};
ghost use Rattle.bibtex_source.specs.Found.{or_later};

use crate::halt::Halt;
use crate::macros::{Macros, months};
use crate::reading::item_at;
use crate::rules::BibRules;
use crate::source::{Parents, Reading};
use bibtex_bytes::behind_junk;
use bibtex_spec::Item;
use sd_value::NoMemory;
use std::alloc::Global;

// What an item defines, or the entry that it is.
fn note_item(macros: &mut Macros, parents: &mut Parents, item: Item) -> Result<(), NoMemory>
    ensures defines { OnOk result (macros.new ≡ macros_behind macros.old item) }
    ensures notes { OnOk result ((later : List (Name × List AnyField)) (k : Name)
        → or_later (entries_by parents.new k) (fields_at later k)
        ≡ or_later (entries_by parents.old k) (fields_at (entry_of item ++ later) k)) }
{
    match item {
        Item::Passes => Ok(()),
        Item::Defines(name, text) => macros.define(name, text),
        Item::Enters(entry) => parents.note(entry.key, entry.fields),
    }
}

// The entries of a text up to its end or its first fault.
fn entries_of(alloc: Global, macros: Macros, bytes: &[u8]) -> Result<Parents, NoMemory>
    ensures { IfOk result (λ p. (k : Name)
        → entries_by p k ≡ fields_at (entries_in macros bytes.now) k) }
{
    let mut macros = macros;
    let mut parents = Parents::new(alloc);
    let mut rest = bytes;
    'items: loop {
        let marked = behind_junk(rest);
        if marked.is_empty() {
            return Ok(parents);
        }
        match item_at(alloc, &macros, marked) {
            Ok((item, after)) => {
                note_item(&mut macros, &mut parents, item)?;
                rest = after;
            }
            Err(Halt::Expected(_)) => return Ok(parents),
            Err(Halt::Limit(_)) => return Ok(parents),
            Err(Halt::NoMemory) => return Err(NoMemory),
        }
    }
}

// The entries of a text, if the rules ask for them.
fn parents_by(alloc: Global, rules: BibRules, text: &[u8]) -> Result<Parents, NoMemory>
    ensures { IfOk result (λ p. (k : Name) → entries_by p k
        ≡ (if rules.crossrefs then fields_at (entries_in (month_macros rules.names) text.now)
        else no_entries) k) }
{
    if !rules.crossrefs {
        return Ok(Parents::new(alloc));
    }
    let macros = months(alloc, rules.names)?;
    entries_of(alloc, macros, text)
}

/// What a file is read by, of which this text is read.
pub(crate) fn reading_of<'a>(
    alloc: Global,
    rules: BibRules,
    file: &'a [u8],
    text: &'a [u8],
) -> Result<Reading<'a>, NoMemory>
    ensures { IfOk result (λ r. seen r ≡ source_in rules file.now text.now) }
{
    let parents = parents_by(alloc, rules, text)?;
    Ok(Reading {
        rules,
        file,
        text,
        parents,
    })
}
