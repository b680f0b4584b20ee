//! The blocks of a query, each with the conditions round it.

ghost use Rattle.std.specs.Prelude.{◌≡◌, ◌∷◌, IfOk};
ghost use Rattle.std.specs.List.{flat_map};
ghost use Rattle.struql_ast.specs.Written.{blocks_written, block_clauses, block_inner};
ghost use Rattle.struql_check.specs.Scope.{within};
ghost use Rattle.struql_check.specs.Faults.{SomeIn, BlockFault};
ghost use Rattle.struql_check.specs.First.{IsFirst};
ghost use Rattle.struql_check.specs.Known.{AreNames, here};

use crate::faults::{Fault, earlier};
use crate::mentions::{mentions_of, uses_of};
use crate::names::{Names, with_mentions};
use crate::passes::{
    first_of_chain, first_of_collects, first_of_conditions, first_of_links, first_of_mentions,
};
use crate::scope::Level;
use sd_value::NoMemory;
use std::alloc::Global;
use struql_ast::Block;

/// The first fault of a block's own clauses, under the conditions of all levels, of which its own
/// are the last.
fn first_of_clauses(
    alloc: Global,
    version: u8,
    block: &Block,
    levels: &[Level],
    names: &Names,
) -> Result<Option<Fault>, NoMemory>
    requires { AreNames (flat_map (λ ms. ms) levels.now) names.now }
    ensures { IfOk result (λ first. IsFirst (BlockFault version
        (record { round = levels.now; clauses = block_clauses block.now })) first) }
{
    let own = mentions_of(alloc, &block.conditions)?;
    let uses = uses_of(alloc, &block.creates, &block.links, &block.collects)?;
    let by_mention = earlier(
        first_of_mentions(levels, &own),
        first_of_mentions(levels, &uses),
    );
    let by_collect = first_of_collects(version, &block.collects);
    let by_link = earlier(first_of_links(&block.links), by_collect);
    let by_condition = earlier(first_of_conditions(&block.conditions), by_link);
    let by_chain = earlier(first_of_chain(names), by_condition);
    Ok(earlier(by_mention, by_chain))
}

/// Adds a block's level, and gives the variables of its chain.
fn enter(
    alloc: Global,
    block: &Block,
    levels: &mut Vec<Level>,
    names: &Names,
) -> Result<Names, NoMemory>
    requires { AreNames (flat_map (λ ms. ms) levels.old.items) names.now }
    ensures levels { IfOk result (λ _. levels.new.items ≡ here levels.old.items block.now) }
    ensures names { IfOk result (λ chain. AreNames (flat_map (λ ms. ms) levels.new.items) chain) }
{
    let own = mentions_of(alloc, &block.conditions)?;
    let chain = with_mentions(alloc, names, &own)?;
    let level = Level::new(alloc, own)?;
    levels.push(level)?;
    Ok(chain)
}

/// The first fault of a block and the blocks in it.
#[cycle(walk)]
fn first_of_block(
    alloc: Global,
    version: u8,
    block: &Block,
    levels: &mut Vec<Level>,
    names: &Names,
) -> Result<Option<Fault>, NoMemory>
    requires { AreNames (flat_map (λ ms. ms) levels.old.items) names.now }
    ensures levels { IfOk result (λ _. levels.new.items ≡ levels.old.items) }
    ensures first { IfOk result (λ first. IsFirst
        (SomeIn (BlockFault version) (record
        { round = here levels.old.items block.now; clauses = block_clauses block.now }
        ∷ within (here levels.old.items block.now) (block_inner block.now))) first) }
{
    let names = enter(alloc, block, levels, names)?;
    let by_clause = first_of_clauses(alloc, version, block, levels, &names)?;
    let by_block = first_of_blocks(alloc, version, &block.blocks, levels, &names)?;
    let _level = levels.pop();
    Ok(earlier(by_clause, by_block))
}

/// The first fault of blocks, given the levels of the blocks round them and the variables of these.
#[cycle(walk)]
pub(crate) fn first_of_blocks(
    alloc: Global,
    version: u8,
    blocks: &[Block],
    levels: &mut Vec<Level>,
    names: &Names,
) -> Result<Option<Fault>, NoMemory>
    requires { AreNames (flat_map (λ ms. ms) levels.old.items) names.now }
    ensures levels { IfOk result (λ _. levels.new.items ≡ levels.old.items) }
    ensures first { IfOk result (λ first. IsFirst
        (SomeIn (BlockFault version) (within levels.old.items (blocks_written blocks.now))) first) }
{
    let mut first = None;
    for block in blocks {
        first = earlier(first, first_of_block(alloc, version, block, levels, names)?);
    }
    Ok(first)
}
