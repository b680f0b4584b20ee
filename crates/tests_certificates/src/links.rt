// All links of a query, by number.

ghost use Rattle.std.specs.Prelude.{◌≡◌, ◌++◌, IfOk, OnOk, IfSome, All, map, option_map, option_copied};
ghost use Rattle.query_blocks.specs.Blocks.{body_of, scope_of, AreCheckedBlocks};
ghost use Rattle.constraint_spec.specs.Placed.{body_links};
ghost use Rattle.constraint_recheck.specs.Recheck.{link_at as numbered};
ghost use Rattle.tests_certificates.specs.Links.{placed_link, HasOwnVariables, AreLinks};

use query_blocks::{QueryBlock, QueryBlocks};
use sd_value::NoMemory;
use std::alloc::Global;
use struql_ast::{Chain, Link};

/// A link of a query, and the chain of its block.
#[derive(Drop)]
pub struct QueryLink<'a> {
    pub chain: &'a Chain,
    pub link: &'a Link,
}

// Adds the links of a block.
fn add_block<'a>(block: &'a QueryBlock, links: &mut Vec<QueryLink<'a>>) -> Result<(), NoMemory>
    requires chains { All (λ k. HasOwnVariables k.chain.now) links.old.items }
    requires own { HasOwnVariables block.now.chain }
    ensures all { IfOk result (λ _. map placed_link links.new.items
        ≡ map placed_link links.old.items ++ body_links (body_of block.now)) }
    ensures chains { OnOk result (All (λ k. HasOwnVariables k.chain.now) links.new.items) }
{
    for link in &block.links {
        links.push(QueryLink {
            chain: &block.chain,
            link,
        })?;
    }
    Ok(())
}

/// All links of the query, in the text's order.
pub fn links_of<'a>(alloc: Global, query: &'a QueryBlocks) -> Result<Vec<QueryLink<'a>>, NoMemory>
    requires { AreCheckedBlocks query.now.version query.now.blocks.items }
    ensures { IfOk result (λ links. AreLinks (scope_of query.now) links.items) }
{
    let mut links = Vec::new(alloc);
    for block in &query.blocks {
        add_block(block, &mut links)?;
    }
    Ok(links)
}

/// The link of this number, counted from 1.
pub fn link_at<'a, 'b>(links: &'b [QueryLink<'a>], number: usize) -> Option<&'b QueryLink<'a>>
    requires { All (λ k. HasOwnVariables k.chain.now) links.now }
    ensures there { option_map placed_link (option_copied result)
        ≡ numbered (map placed_link links.now) number }
    ensures chain { IfSome result (λ k. HasOwnVariables k.now.chain.now) }
{
    if number == 0 {
        return None;
    }
    links.get(number - 1)
}
