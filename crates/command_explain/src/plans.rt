// The text of a query's plans over a store.
ghost use Rattle.std.specs.Prelude.{◌≡◌, IfOk};
ghost use Rattle.command_explain.specs.Explained.{IsExplained};

use crate::block::explain_block;
use query_scoping::scoped_blocks;
use schema::paths_of;
use sd_value::NoMemory;
use std::alloc::Global;
use store::Store;
use struql_check::Checked;

/// The plans of a checked query's blocks over the store's graph, in the text's order: a line `block PATH`, and a line for
/// each step of the block's plan with nothing bound at first, `  use COND cost N` or `  domain X cost N`. A block's path
/// counts the blocks at each level from 1, as `2.1`. A block is planned with the conditions of all blocks round it before
/// its own.
pub fn plans_text<S: Store>(
    alloc: Global,
    checked: &Checked,
    store: &S,
) -> Result<Vec<u8>, NoMemory>
    ensures { IfOk result (λ text. IsExplained (S.graph store.now) checked.now text.items) }
{
    let paths = paths_of(alloc, &checked.query().blocks)?;
    let blocks = scoped_blocks(alloc, checked)?;
    let mut out = Vec::new(alloc);
    for i in 0..blocks.len() {
        explain_block(alloc, store, &paths[i], &blocks[i].chain, &mut out)?;
    }
    Ok(out)
}
