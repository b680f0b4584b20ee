//! What the blocks of a query ask for.

ghost use Rattle.std.specs.Prelude.{◌≡◌, ◌++◌, IfOk, map};
ghost use Rattle.struql_ast.specs.Written.{blocks_written, query_written};
ghost use Rattle.lint_spec.specs.QueryClaims.{blocks_within, numbered_claims, query_claims};
ghost use Rattle.text_claims.specs.Blocks.{placed};

use crate::clauses::push_block;
use lint_spec::Claim;
use sd_value::NoMemory;
use std::alloc::Global;
use struql_ast::{Block, Query};

// Adds the blocks and those in them, in the text's order.
fn push_blocks<'a>(found: &mut Vec<&'a Block>, blocks: &'a [Block]) -> Result<(), NoMemory>
    ensures { IfOk result (λ _. map placed found.new.items
        ≡ map placed found.old.items ++ blocks_within (blocks_written blocks.now)) }
{
    for block in blocks {
        found.push(block)?;
        push_blocks(found, &block.blocks)?;
    }
    Ok(())
}

fn claims_of_blocks(alloc: Global, blocks: &[&Block]) -> Result<Vec<Claim>, NoMemory>
    ensures { IfOk result (λ found. found.items
        ≡ numbered_claims 0 (map placed blocks.now)) }
{
    let mut found = Vec::new(alloc);
    for i in 0..blocks.len() {
        push_block(alloc, &mut found, i as u64, blocks[i])?;
    }
    Ok(found)
}

/// All that a query asks for, in the order of its text.
/// # Errors
/// Out of memory.
pub fn claims_of_query(alloc: Global, query: &Query) -> Result<Vec<Claim>, NoMemory>
    ensures { IfOk result (λ found. found.items ≡ query_claims (query_written query.now)) }
{
    let mut blocks = Vec::new(alloc);
    push_blocks(&mut blocks, &query.blocks)?;
    claims_of_blocks(alloc, &blocks)
}
