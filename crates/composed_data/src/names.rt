// The names under which a query collects.
ghost use Rattle.std.specs.Prelude.{◌≡◌, ◌++◌, IfOk, OnOk, map};
ghost use Rattle.std.specs.List.{flat_map};
ghost use Rattle.sd_value.specs.Order.{bytes_cmp};
ghost use Rattle.sd_value.specs.Ascending.{ListsExactly};
ghost use Rattle.query_blocks.specs.Blocks.{scope_of};
ghost use Rattle.composed_data.specs.Named.{IsCollectName};

use query_blocks::{QueryBlock, QueryBlocks};
use sd_value::{NoMemory, Str, sort_and_dedup};
use std::alloc::Global;
use struql_ast::Collect;

fn push_names(alloc: Global, collects: &[Collect], names: &mut Vec<Str>) -> Result<(), NoMemory>
    ensures { OnOk result
        (names.new.items ≡ names.old.items ++ map (λ c. c.collection) collects.now) }
{
    for collect in collects {
        names.push(collect.collection.copy(alloc)?)?;
    }
    Ok(())
}

fn names_in(alloc: Global, blocks: &[QueryBlock]) -> Result<Vec<Str>, NoMemory>
    ensures { IfOk result (λ names. names.items
        ≡ flat_map (λ b. map (λ c. c.collection) b.collects.items) blocks.now) }
{
    let mut names = Vec::new(alloc);
    for block in blocks {
        push_names(alloc, block.collects.as_slice(), &mut names)?;
    }
    Ok(names)
}

/// The names of the query's COLLECTs, strictly ascending.
/// # Errors
/// Out of memory.
pub fn collect_names(alloc: Global, scopes: &QueryBlocks) -> Result<Vec<Str>, NoMemory>
    ensures { IfOk result
        (λ names. ListsExactly bytes_cmp (IsCollectName (scope_of scopes.now)) names.items) }
{
    let mut names = names_in(alloc, scopes.blocks.as_slice())?;
    sort_and_dedup(&mut names);
    Ok(names)
}
