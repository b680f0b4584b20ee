//! The names of a query's functions and collections, block by block.

ghost use Rattle.std.specs.Prelude.{◌≡◌, ◌++◌, IfOk, map};
ghost use Rattle.std.specs.List.{flat_map};
ghost use Rattle.struql_ast.specs.Reading.{term_of, target_of, link_of, collect_of};
ghost use Rattle.query_blocks.specs.Blocks.{scope_of};
ghost use Rattle.tmpl.specs.Reading.{named_of, file_of};
ghost use Rattle.lint_spec.specs.Mistakes.{target_functions};
ghost use Rattle.lint_spec.specs.Mistakes as mistakes;

use query_blocks::QueryBlocks;
use sd_value::{NoMemory, Str};
use std::alloc::Global;
use struql_ast::{Collect, Link, SkolemTerm, Target};
use tmpl::{NamedTemplate, Templates};

// Adds the function of a target that is a term.
fn push_target(alloc: Global, found: &mut Vec<Str>, target: &Target) -> Result<(), NoMemory>
    ensures { IfOk result (λ _. found.new.items
        ≡ found.old.items ++ target_functions (target_of target.now)) }
{
    match target {
        Target::Plain(_) | Target::Summed(_, _) => Ok(()),
        Target::Made(term) => {
            found.push(term.function.copy(alloc)?)?;
            Ok(())
        }
    }
}

fn push_creates(alloc: Global, found: &mut Vec<Str>, terms: &[SkolemTerm]) -> Result<(), NoMemory>
    ensures { IfOk result (λ _. found.new.items
        ≡ found.old.items ++ map (λ t. t.function) (map term_of terms.now)) }
{
    for term in terms {
        found.push(term.function.copy(alloc)?)?;
    }
    Ok(())
}

fn push_links(alloc: Global, found: &mut Vec<Str>, links: &[Link]) -> Result<(), NoMemory>
    ensures { IfOk result (λ _. found.new.items
        ≡ found.old.items ++ flat_map (λ k. target_functions k.target) (map link_of links.now)) }
{
    for link in links {
        push_target(alloc, found, &link.target)?;
    }
    Ok(())
}

fn push_puts(alloc: Global, found: &mut Vec<Str>, collects: &[Collect]) -> Result<(), NoMemory>
    ensures { IfOk result (λ _. found.new.items ≡ found.old.items
        ++ flat_map (λ k. target_functions k.target) (map collect_of collects.now)) }
{
    for collect in collects {
        push_target(alloc, found, &collect.target)?;
    }
    Ok(())
}

fn push_collected(alloc: Global, found: &mut Vec<Str>, collects: &[Collect]) -> Result<(), NoMemory>
    ensures { IfOk result (λ _. found.new.items
        ≡ found.old.items ++ map (λ k. k.collection) (map collect_of collects.now)) }
{
    for collect in collects {
        found.push(collect.collection.copy(alloc)?)?;
    }
    Ok(())
}

fn push_named(
    alloc: Global,
    found: &mut Vec<Str>,
    templates: &[NamedTemplate],
) -> Result<(), NoMemory>
    ensures { IfOk result (λ _. found.new.items
        ≡ found.old.items ++ map (λ n. n.name) (map named_of templates.now)) }
{
    for template in templates {
        found.push(template.name.copy(alloc)?)?;
    }
    Ok(())
}

/// The functions in a CREATE.
pub(crate) fn created(alloc: Global, blocks: &QueryBlocks) -> Result<Vec<Str>, NoMemory>
    ensures { IfOk result (λ found. found.items ≡ mistakes.created (scope_of blocks.now).bodies) }
{
    let mut found = Vec::new(alloc);
    for block in &blocks.blocks {
        push_creates(alloc, &mut found, &block.creates)?;
    }
    Ok(found)
}

/// The collections of a COLLECT.
pub(crate) fn collected(alloc: Global, blocks: &QueryBlocks) -> Result<Vec<Str>, NoMemory>
    ensures { IfOk result (λ found. found.items ≡ mistakes.collected (scope_of blocks.now).bodies) }
{
    let mut found = Vec::new(alloc);
    for block in &blocks.blocks {
        push_collected(alloc, &mut found, &block.collects)?;
    }
    Ok(found)
}

fn push_all_linked(
    alloc: Global,
    found: &mut Vec<Str>,
    blocks: &QueryBlocks,
) -> Result<(), NoMemory>
    ensures { IfOk result (λ _. found.new.items
        ≡ found.old.items ++ mistakes.linked (scope_of blocks.now).bodies) }
{
    for block in &blocks.blocks {
        push_links(alloc, found, &block.links)?;
    }
    Ok(())
}

fn push_all_put(alloc: Global, found: &mut Vec<Str>, blocks: &QueryBlocks) -> Result<(), NoMemory>
    ensures { IfOk result (λ _. found.new.items
        ≡ found.old.items ++ mistakes.put (scope_of blocks.now).bodies) }
{
    for block in &blocks.blocks {
        push_puts(alloc, found, &block.collects)?;
    }
    Ok(())
}

/// The functions at the end of a LINK, and those in a COLLECT.
pub(crate) fn reached(alloc: Global, blocks: &QueryBlocks) -> Result<Vec<Str>, NoMemory>
    ensures { IfOk result (λ found. found.items ≡ mistakes.linked (scope_of blocks.now).bodies
        ++ mistakes.put (scope_of blocks.now).bodies) }
{
    let mut found = Vec::new(alloc);
    push_all_linked(alloc, &mut found, blocks)?;
    push_all_put(alloc, &mut found, blocks)?;
    Ok(found)
}

/// The functions whose pages a template presents.
pub(crate) fn presented(alloc: Global, templates: &Templates) -> Result<Vec<Str>, NoMemory>
    ensures { IfOk result (λ found. found.items ≡ mistakes.presented (file_of templates.now)) }
{
    let mut found = Vec::new(alloc);
    push_named(alloc, &mut found, templates.functions())?;
    Ok(found)
}
