//! Links in the order in which they are looked up.

ghost use Rattle.std.specs.Prelude.{IfOk};
ghost use Rattle.query_blocks.specs.Blocks.{scope_of};
ghost use Rattle.link_index.specs.Found.{AreQuoted, AreArcs};

use crate::gathered::{ArcLink, QuotedLink, arc_links, quoted_links};
use query_blocks::QueryBlocks;
use sd_value::NoMemory;
use std::alloc::Global;

/// The links by quoted labels, by function and then by label.
pub(crate) fn sorted_quoted<'a>(
    alloc: Global,
    query: &'a QueryBlocks,
) -> Result<Vec<QuotedLink<'a>>, NoMemory>
    ensures { IfOk result (λ links. AreQuoted (scope_of query.now) links.items) }
{
    let mut links = quoted_links(alloc, query)?;
    links.sort_by(|a: &QuotedLink, b: &QuotedLink| {
        let by_label = a.label.cmp(b.label);
        a.function.cmp(b.function).then(by_label)
    })?;
    Ok(links)
}

/// The links by variables, by function.
pub(crate) fn sorted_arcs<'a>(
    alloc: Global,
    query: &'a QueryBlocks,
) -> Result<Vec<ArcLink<'a>>, NoMemory>
    ensures { IfOk result (λ links. AreArcs (scope_of query.now) links.items) }
{
    let mut links = arc_links(alloc, query)?;
    links.sort_by(|a: &ArcLink, b: &ArcLink| a.function.cmp(b.function))?;
    Ok(links)
}
