// The fields that an entry has of others.
ghost use Rattle.std.specs.Prelude.{◌≡◌, ◌++◌, IfOk, OnOk, option_map};
ghost use Rattle.bibtex_source.specs.Source as specs;

use crate::source::Parents;
use bibtex_spec::Field;
use sd_value::{NoMemory, Str};
use std::alloc::Global;

/// The key in the first field `crossref`.
pub(crate) fn crossref_of(fields: &[Field]) -> Option<&Str>
    ensures { option_map (λ key. key.now) result ≡ specs.crossref_of fields.now }
{
    let mut rest = fields;
    'fields: while let Some((field, more)) = rest.split_first() {
        if field.name.bytes() == b"crossref".as_slice() {
            return Some(&field.text);
        }
        rest = more;
    }
    None
}

fn has_field(fields: &[Field], name: &Str) -> bool
    ensures { result ≡ specs.has_field fields.now name.now }
{
    let mut rest = fields;
    'fields: while let Some((field, more)) = rest.split_first() {
        if field.name.bytes() == name.bytes() {
            return true;
        }
        rest = more;
    }
    false
}

// Whether an entry with these fields takes no field of this name from another.
fn keeps_own(own: &[Field], name: &Str) -> bool
    ensures { result ≡ specs.keeps_own own.now name.now }
{
    name.bytes() == b"crossref".as_slice()
        || name.bytes() == b"bibtex".as_slice()
        || has_field(own, name)
}

fn copied(alloc: Global, field: &Field) -> Result<Field, NoMemory>
    ensures { IfOk result (λ f. f ≡ field.now) }
{
    Ok(Field {
        name: field.name.copy(alloc)?,
        text: field.text.copy(alloc)?,
    })
}

fn put_fields(alloc: Global, all: &mut Vec<Field>, fields: &[Field]) -> Result<(), NoMemory>
    ensures { OnOk result (all.new.items ≡ all.old.items ++ fields.now) }
{
    let mut rest = fields;
    'fields: while let Some((field, more)) = rest.split_first() {
        let field = copied(alloc, field)?;
        all.push(field)?;
        rest = more;
    }
    Ok(())
}

// Adds those of another entry's fields that an entry with these lacks.
fn put_lacking(
    alloc: Global,
    all: &mut Vec<Field>,
    own: &[Field],
    fields: &[Field],
) -> Result<(), NoMemory>
    ensures { OnOk result (all.new.items ≡ all.old.items ++ specs.lacking own.now fields.now) }
{
    let mut rest = fields;
    'fields: while let Some((field, more)) = rest.split_first() {
        if !keeps_own(own, &field.name) {
            let field = copied(alloc, field)?;
            all.push(field)?;
        }
        rest = more;
    }
    Ok(())
}

// The fields of an entry, and those of another that it lacks.
fn with_lacking(alloc: Global, own: &[Field], fields: &[Field]) -> Result<Vec<Field>, NoMemory>
    ensures { IfOk result (λ v. v.items ≡ own.now ++ specs.lacking own.now fields.now) }
{
    let mut all = Vec::new(alloc);
    put_fields(alloc, &mut all, own)?;
    put_lacking(alloc, &mut all, own, fields)?;
    Ok(all)
}

// Of how many other entries one may have fields.
#[tactic(auto, unfolding(crate::specs::Source::farthest))]
fn farthest() -> u64
    ensures { result ≡ specs.farthest }
{
    64
}

/// The fields of an entry, and what they lack of at most 64 others, each named by the one before.
pub(crate) fn gathered(
    alloc: Global,
    parents: &Parents,
    fields: &[Field],
) -> Result<Vec<Field>, NoMemory>
    ensures { IfOk result (λ v. v.items
        ≡ specs.gathered (specs.entries_by parents.now) specs.farthest fields.now fields.now) }
{
    let mut all = Vec::new(alloc);
    put_fields(alloc, &mut all, fields)?;
    let mut last = fields;
    let mut turns = farthest();
    'crossrefs: while turns > 0 {
        let Some(parent) = parents.parent_of(last) else {
            return Ok(all);
        };
        all = with_lacking(alloc, all.as_slice(), parent.items())?;
        last = parent.items();
        turns -= 1;
    }
    Ok(all)
}
