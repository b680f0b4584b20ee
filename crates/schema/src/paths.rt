//! The paths of blocks.

ghost use Rattle.std.specs.Prelude.{◌≡◌, ◌++◌, [], IfOk, codes};
ghost use Rattle.std.specs.Fmt.{decimal};
ghost use Rattle.struql_ast.specs.Reading.{blocks_of};
ghost use Rattle.site_spec.specs.Paths.{paths_from};

use sd_value::{NoMemory, Str};
use std::alloc::Global;
use struql_ast::Block;
use token_writer::{put, put_number};

/// The number behind the front.
fn numbered(alloc: Global, front: &[u8], number: usize) -> Result<Str, NoMemory>
    ensures { IfOk result (λ path. path ≡ front.now ++ decimal number) }
{
    let mut path = Vec::from_slice(alloc, front)?;
    put_number(number as u128, &mut path)?;
    Str::of(alloc, path)
}

/// What the paths of the blocks within a block begin with.
fn front_within(alloc: Global, path: &Str) -> Result<Vec<u8>, NoMemory>
    ensures { IfOk result (λ front. front.items ≡ path.now ++ codes ".") }
{
    let mut front = Vec::from_slice(alloc, path.bytes())?;
    put(b".", &mut front)?;
    Ok(front)
}

/// Adds the paths of these blocks and of those in them, in the text's order.
fn push_paths(
    alloc: Global,
    front: &[u8],
    blocks: &[Block],
    found: &mut Vec<Str>,
) -> Result<(), NoMemory>
    ensures { IfOk result (λ _. found.new.items
        ≡ found.old.items ++ paths_from front.now 1 (blocks_of blocks.now)) }
{
    for (i, block) in blocks.iter().enumerate() {
        let path = numbered(alloc, front, i + 1)?;
        let within = front_within(alloc, &path)?;
        found.push(path)?;
        push_paths(alloc, &within, &block.blocks, found)?;
    }
    Ok(())
}

/// The paths of these blocks and of those in them, in the text's order.
pub fn paths_of(alloc: Global, blocks: &[Block]) -> Result<Vec<Str>, NoMemory>
    ensures { IfOk result (λ paths. paths.items ≡ paths_from [] 1 (blocks_of blocks.now)) }
{
    let mut found = Vec::new(alloc);
    push_paths(alloc, b"", blocks, &mut found)?;
    Ok(found)
}
