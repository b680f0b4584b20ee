// What is in a site: every block's rows are asked for once.
ghost use Rattle.std.specs.Prelude.{◌≡◌, ◌⊎◌, Contains, IfOk, OnOk, length};
ghost use Rattle.query_spec.specs.Mentions.{IsWellMade};
ghost use Rattle.query_spec.specs.Rows.{value_in};
ghost use Rattle.struql_ast.specs.Reading.{collect_of};
ghost use Rattle.site_spec.specs.Site.{IsTermUnder, SomeOf, terms_of};
ghost use Rattle.query_blocks.specs.declared.QueryBlock.{QueryBlock as AnyScoped};
ghost use Rattle.query_blocks.specs.Blocks.{AreCheckedBlocks, body_of, scope_of};
ghost use Rattle.site_build.specs.Gains.{Gains};
ghost use Rattle.site_build.specs.Ranges.{AreRanges, range_at};
ghost use Rattle.site_build.specs.Materialised.{InJoinsOf, InSumsOf, IsPutUnder, BlockAdds, BlocksAdd, IsContents};

use crate::ascending::ascending;
use crate::made::add_rows;
use crate::ordered::{Joined, Put};
use crate::ranges::{Range, ranges_of};
use crate::sums::add_sums;
use crate::terms::{add_collect_terms, add_link_terms};
use asker::Asker;
use indexmap::{IndexMap, IndexSet};
use query_blocks::{QueryBlock, QueryBlocks};
use query_spec::Row;
use sd_value::{NoMemory, Term};
use site_lookups::rows_of;
use std::alloc::Global;

/// Terms, links, the values that COLLECTs put under names, and where each page's links are.
#[derive(Debug, Drop)]
pub struct Contents {
    pub terms: Vec<Term>,
    pub links: Vec<Joined>,
    pub puts: Vec<Put>,
    pub ranges: IndexMap<Term, Range>,
}

/// What rows have made so far. A set reports by a hash what was made before, and its items are as they came.
#[derive(Drop)]
pub(crate) struct Made {
    pub terms: IndexSet<Term>,
    pub links: IndexSet<Joined>,
    pub puts: IndexSet<Put>,
}

fn add_terms(
    alloc: Global,
    block: &QueryBlock,
    rows: &[Row],
    terms: &mut IndexSet<Term>,
) -> Result<(), NoMemory>
    ensures { OnOk result
        (Gains (λ p. SomeOf (λ row. SomeOf (λ t. IsTermUnder
        (value_in block.now.chain.variables row) t p) (terms_of (body_of block.now))) rows.now)
        terms.old.keys terms.new.keys) }
{
    let variables = block.chain.variables();
    let creates = block.creates.as_slice();
    add_rows(alloc, variables, rows, creates, terms)?;
    add_link_terms(
        alloc,
        variables,
        rows,
        creates,
        block.links.as_slice(),
        terms,
    )?;
    add_collect_terms(
        alloc,
        variables,
        rows,
        creates,
        block.collects.as_slice(),
        terms,
    )?;
    Ok(())
}

fn add_links(
    alloc: Global,
    block: &QueryBlock,
    rows: &[Row],
    links: &mut IndexSet<Joined>,
) -> Result<(), NoMemory>
    ensures { OnOk result
        (Gains (λ j. InJoinsOf rows.now block.now j ⊎ InSumsOf rows.now block.now j) links.old.keys
        links.new.keys) }
{
    let variables = block.chain.variables();
    let written = block.links.as_slice();
    add_rows(alloc, variables, rows, written, links)?;
    add_sums(alloc, variables, rows, written, links)?;
    Ok(())
}

fn add_puts(
    alloc: Global,
    block: &QueryBlock,
    rows: &[Row],
    puts: &mut IndexSet<Put>,
) -> Result<(), NoMemory>
    ensures { OnOk result
        (Gains (λ p. SomeOf (λ row. SomeOf (λ k. IsPutUnder (collect_of k)
        (value_in block.now.chain.variables row) p) block.now.collects.items) rows.now)
        puts.old.keys puts.new.keys) }
{
    add_rows(
        alloc,
        block.chain.variables(),
        rows,
        block.collects.as_slice(),
        puts,
    )?;
    Ok(())
}

// Adds what the rows of the block make.
fn add_block<A: Asker>(
    alloc: Global,
    asker: &mut A,
    block: &QueryBlock,
    made: &mut Made,
) -> Result<(), NoMemory>
    requires { IsWellMade block.now.chain }
    ensures graph { A.graph asker.new ≡ A.graph asker.old }
    ensures adds { OnOk result (BlockAdds (A.graph asker.old) block.now made.old made.new) }
{
    let rows = rows_of(alloc, asker, &block.chain)?;
    let rows = rows.as_slice();
    add_terms(alloc, block, rows, &mut made.terms)?;
    add_links(alloc, block, rows, &mut made.links)?;
    add_puts(alloc, block, rows, &mut made.puts)?;
    Ok(())
}

fn add_blocks<A: Asker>(
    alloc: Global,
    asker: &mut A,
    blocks: &[QueryBlock],
    made: &mut Made,
) -> Result<(), NoMemory>
    requires { (b : AnyScoped) → Contains blocks.now b → IsWellMade b.chain }
    ensures graph { A.graph asker.new ≡ A.graph asker.old }
    ensures adds { OnOk result (BlocksAdd (A.graph asker.old) blocks.now made.old made.new) }
{
    for block in blocks {
        add_block(alloc, asker, block, made)?;
    }
    Ok(())
}

/// What is in the site of the blocks over the asker's graph, in ascending lists.
pub fn contents_of<A: Asker>(
    alloc: Global,
    asker: &mut A,
    scopes: &QueryBlocks,
) -> Result<Contents, NoMemory>
    requires scoped { AreCheckedBlocks scopes.now.version scopes.now.blocks.items }
    ensures graph { A.graph asker.new ≡ A.graph asker.old }
    ensures contents { IfOk result
        (λ c. IsContents (A.graph asker.old)
        (scope_of scopes.now) c.terms.items c.links.items c.puts.items) }
    ensures ranges { IfOk result
        (λ c. AreRanges c.links.items (length c.links.items) (range_at c.ranges)) }
{
    let mut made = Made {
        terms: IndexSet::new(alloc),
        links: IndexSet::new(alloc),
        puts: IndexSet::new(alloc),
    };
    add_blocks(alloc, asker, scopes.blocks.as_slice(), &mut made)?;
    let Made { terms, links, puts } = made;
    let links = ascending(alloc, links)?;
    let ranges = ranges_of(alloc, links.as_slice())?;
    Ok(Contents {
        terms: ascending(alloc, terms)?,
        links,
        puts: ascending(alloc, puts)?,
        ranges,
    })
}
