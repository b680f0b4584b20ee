// The nodes of a site's graph: those of the data, and the pages.
ghost use Rattle.std.specs.Prelude.{◌≡◌};
ghost use Rattle.site_spec.specs.Site.{SomeOf};
ghost use Rattle.compose.specs.Adding.{AddsAll};
ghost use Rattle.compose.specs.Stated.{data_node, page_node, IsNodeStated};

use crate::names::{node_name, page_name};
use sd_graph::{GraphBuilder, GraphRefusal};
use sd_value::{Str, Term};
use std::alloc::Global;

fn add_data_node(alloc: Global, builder: &mut GraphBuilder, name: &Str) -> Result<(), GraphRefusal>
    ensures { AddsAll (λ s. data_node name.now ≡ s) builder.old builder.new result }
{
    let name = node_name(alloc, name)?;
    builder.add_node(alloc, &name)
}

fn add_data_nodes(
    alloc: Global,
    builder: &mut GraphBuilder,
    names: &[Str],
) -> Result<(), GraphRefusal>
    ensures { AddsAll (λ s. SomeOf (λ n. data_node n ≡ s) names.now)
        builder.old builder.new result }
{
    for name in names {
        add_data_node(alloc, builder, name)?;
    }
    Ok(())
}

fn add_page(alloc: Global, builder: &mut GraphBuilder, page: &Term) -> Result<(), GraphRefusal>
    ensures { AddsAll (λ s. page_node page.now ≡ s) builder.old builder.new result }
{
    let name = page_name(alloc, page)?;
    builder.add_node(alloc, &name)
}

fn add_pages(alloc: Global, builder: &mut GraphBuilder, pages: &[Term]) -> Result<(), GraphRefusal>
    ensures { AddsAll (λ s. SomeOf (λ t. page_node t ≡ s) pages.now)
        builder.old builder.new result }
{
    for page in pages {
        add_page(alloc, builder, page)?;
    }
    Ok(())
}

/// Adds the nodes of the data of these names, and the pages as the nodes of their addresses.
pub fn add_nodes(
    alloc: Global,
    builder: &mut GraphBuilder,
    names: &[Str],
    pages: &[Term],
) -> Result<(), GraphRefusal>
    ensures { AddsAll (IsNodeStated names.now pages.now) builder.old builder.new result }
{
    add_data_nodes(alloc, builder, names)?;
    add_pages(alloc, builder, pages)
}
