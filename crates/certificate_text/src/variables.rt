// The variables of the links' chains.

ghost use Rattle.std.specs.Prelude.{◌≡◌, ◌++◌, ◌∷◌, [], IfOk, length, map};
ghost use Rattle.std.specs.List.{flat_map};
ghost use Rattle.query_blocks.specs.Blocks.{body_of, scope_of, AreCheckedBlocks};
ghost use Rattle.constraint_spec.specs.Placed.{links_of};
ghost use Rattle.certificate_text.specs.Lines.{variables_of_links, variables_at as listed_at};

use query_blocks::{QueryBlock, QueryBlocks};
use query_spec::Variable;
use sd_value::NoMemory;
use std::alloc::Global;
use struql_ast::Link;

// Adds the variables once for each of the links.
fn push_for_each<'a>(
    variables: &'a [Variable],
    links: &[Link],
    found: &mut Vec<&'a [Variable]>,
) -> Result<(), NoMemory>
    ensures { IfOk result (λ _. map (λ v. v.now) found.new.items ≡ map (λ v. v.now) found.old.items
        ++ flat_map (λ k. variables.now ∷ []) links.now) }
{
    for _link in links {
        found.push(variables)?;
    }
    Ok(())
}

/// For each link of the query the variables of its chain.
pub fn variables_by_link<'a>(
    alloc: Global,
    blocks: &'a QueryBlocks,
) -> Result<Vec<&'a [Variable]>, NoMemory>
    requires { AreCheckedBlocks blocks.now.version blocks.now.blocks.items }
    ensures { IfOk result (λ found. map (λ v. v.now) found.items
        ≡ variables_of_links (links_of (scope_of blocks.now))) }
{
    let mut found = Vec::new(alloc);
    for block in &blocks.blocks {
        push_for_each(block.chain.variables(), &block.links, &mut found)?;
    }
    Ok(found)
}

/// The variables of the link of this number, counted from 1.
pub fn variables_at<'a>(all: &[&'a [Variable]], number: usize) -> &'a [Variable]
    ensures { result.now ≡ listed_at (map (λ v. v.now) all.now) number }
{
    if number == 0 {
        return &[];
    }
    if number > all.len() {
        return &[];
    }
    all[number - 1]
}
