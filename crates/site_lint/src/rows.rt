//! Blocks without rows.

ghost use Rattle.std.specs.Prelude.{◌≡◌, ◌↔◌, List, IfOk, IsTrue};
ghost use Rattle.std.specs.List.{AllZip};
ghost use Rattle.sd_value.specs.declared.Value.{Value as AnyValue};
ghost use Rattle.query_spec.specs.Mentions.{IsWellMade};
ghost use Rattle.query_spec.specs.Rows.{IsRow};
ghost use Rattle.query_blocks.specs.Blocks.{AreCheckedBlocks};

use asker::Asker;
use query_blocks::QueryBlocks;
use query_spec::Bound;
use sd_value::NoMemory;
use skolem::all_free;
use std::alloc::Global;
use struql_ast::Chain;

// Whether the chain has no row.
fn is_without_rows<A: Asker>(alloc: Global, asker: &mut A, chain: &Chain) -> Result<bool, NoMemory>
    requires { IsWellMade chain.now }
    ensures graph { A.graph asker.new ≡ A.graph asker.old }
    ensures none { IfOk result (λ none. IsTrue none
        ↔ ((row : List AnyValue) → IsRow (A.graph asker.old) chain.now row → ⊥)) }
{
    let free = all_free(alloc, chain.variables().len())?;
    let bound = Bound::new(free);
    let found = asker.exists(alloc, chain, &bound)?;
    Ok(!found)
}

/// For each of the blocks, whether its chain has no row.
/// # Errors
/// Out of memory.
pub fn blocks_without_rows<A: Asker>(
    alloc: Global,
    asker: &mut A,
    blocks: &QueryBlocks,
) -> Result<Vec<bool>, NoMemory>
    requires { AreCheckedBlocks blocks.now.version blocks.now.blocks.items }
    ensures graph { A.graph asker.new ≡ A.graph asker.old }
    ensures none { IfOk result (λ marks. AllZip (λ b none. IsTrue none
        ↔ ((row : List AnyValue) → IsRow (A.graph asker.old) b.chain row → ⊥))
        blocks.now.blocks.items marks.items) }
{
    let mut marks = Vec::new(alloc);
    for block in &blocks.blocks {
        marks.push(is_without_rows(alloc, asker, &block.chain)?)?;
    }
    Ok(marks)
}
