//! The links of a query, with the functions at which they start.

ghost use Rattle.std.specs.Prelude.{◌≡◌, ◌++◌, IfOk, OnOk, map};
ghost use Rattle.std.specs.List.{flat_map};
ghost use Rattle.struql_ast.specs.Reading.{target_of, label_of, link_of};
ghost use Rattle.constraint_spec.specs.Placed.{body_links};
ghost use Rattle.query_blocks.specs.Blocks.{body_of, scope_of};
ghost use Rattle.link_index.specs.Links.{quoted_by, quoted_of, quoted_links, arc_by, arc_of, arc_links};
ghost use Rattle.link_index.specs.Found.{quoted_name, arc_name, placed};

use query_blocks::{QueryBlock, QueryBlocks};
use sd_value::{NoMemory, Str};
use std::alloc::Global;
use struql_ast::{Chain, Link, LinkLabel, Target};

/// A function and a quoted label by which one of its links is.
#[derive(Debug, Drop)]
pub struct QuotedLink<'a> {
    pub function: &'a Str,
    pub label: &'a Str,
}

/// A link whose label is an arc variable, the function at which it starts, and the chain of its block.
#[derive(Drop)]
pub struct ArcLink<'a> {
    pub function: &'a Str,
    pub chain: &'a Chain,
    pub link: &'a Link,
}

// Adds the link, if its label is quoted.
fn push_quoted<'a>(found: &mut Vec<QuotedLink<'a>>, link: &'a Link) -> Result<(), NoMemory>
    ensures { OnOk result (map quoted_name found.new.items ≡ map quoted_name found.old.items
        ++ quoted_by (target_of link.now.source) (label_of link.now.label)) }
{
    let Target::Made(term) = &link.source else {
        return Ok(());
    };
    let LinkLabel::Quoted(label) = &link.label else {
        return Ok(());
    };
    found.push(QuotedLink {
        function: &term.function,
        label,
    })?;
    Ok(())
}

fn push_quoted_of<'a>(
    found: &mut Vec<QuotedLink<'a>>,
    block: &'a QueryBlock,
) -> Result<(), NoMemory>
    ensures { OnOk result (map quoted_name found.new.items ≡ map quoted_name found.old.items
        ++ flat_map quoted_of (body_links (body_of block.now))) }
{
    for link in &block.links {
        push_quoted(found, link)?;
    }
    Ok(())
}

/// The links by quoted labels, in the text's order.
pub(crate) fn quoted_links<'a>(
    alloc: Global,
    query: &'a QueryBlocks,
) -> Result<Vec<QuotedLink<'a>>, NoMemory>
    ensures { IfOk result
        (λ found. map quoted_name found.items ≡ quoted_links (scope_of query.now)) }
{
    let mut found = Vec::new(alloc);
    for block in &query.blocks {
        push_quoted_of(&mut found, block)?;
    }
    Ok(found)
}

// Adds the link, if its label is a variable.
fn push_arc<'a>(
    found: &mut Vec<ArcLink<'a>>,
    chain: &'a Chain,
    link: &'a Link,
) -> Result<(), NoMemory>
    ensures { OnOk result (map arc_name found.new.items ≡ map arc_name found.old.items
        ++ arc_by (placed chain.now.conditions link.now) (target_of link.now.source)
        (label_of link.now.label)) }
{
    let Target::Made(term) = &link.source else {
        return Ok(());
    };
    let LinkLabel::Variable(_, _) = &link.label else {
        return Ok(());
    };
    found.push(ArcLink {
        function: &term.function,
        chain,
        link,
    })?;
    Ok(())
}

fn push_arcs_of<'a>(found: &mut Vec<ArcLink<'a>>, block: &'a QueryBlock) -> Result<(), NoMemory>
    ensures { OnOk result (map arc_name found.new.items ≡ map arc_name found.old.items
        ++ flat_map arc_of (body_links (body_of block.now))) }
{
    for link in &block.links {
        push_arc(found, &block.chain, link)?;
    }
    Ok(())
}

/// The links by variables, in the text's order.
pub(crate) fn arc_links<'a>(
    alloc: Global,
    query: &'a QueryBlocks,
) -> Result<Vec<ArcLink<'a>>, NoMemory>
    ensures { IfOk result (λ found. map arc_name found.items ≡ arc_links (scope_of query.now)) }
{
    let mut found = Vec::new(alloc);
    for block in &query.blocks {
        push_arcs_of(&mut found, block)?;
    }
    Ok(found)
}
