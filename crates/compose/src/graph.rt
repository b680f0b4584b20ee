// The graph of a site.
ghost use Rattle.std.specs.Prelude.{◌≡◌, IfOk};
ghost use Rattle.graph_spec.specs.DataGraph.{DataGraph};
ghost use Rattle.sd_graph.specs.ProgramLimits.{AreWithinProgram};
ghost use Rattle.compose_spec.specs.Composed.{IsSiteGraph};
ghost use Rattle.compose.specs.Adding.{AddsAll};
ghost use Rattle.compose.specs.Listed.{IsListed, AnswersWithin};
ghost use Rattle.compose.specs.Stated.{IsSiteStated, IsStated};

use crate::collected::add_collections;
use crate::edges::add_data;
use crate::links::add_links;
use crate::nodes::add_nodes;
use sd_graph::{Graph, GraphBuilder, GraphRefusal, Limits};
use sd_value::{Str, Term};
use site_view::SiteView;
use std::alloc::Global;

// Adds the links of the pages, and what is collected.
fn add_site<V: SiteView>(
    alloc: Global,
    view: &mut V,
    builder: &mut GraphBuilder,
    pages: &[Term],
    labels: &[Str],
    collections: &[Str],
) -> Result<(), GraphRefusal>
    requires own { V.Own view.old }
    ensures own { V.Own view.new }
    ensures fixed { V.fixed view.new ≡ V.fixed view.old }
    ensures added { AddsAll
        (IsSiteStated (V.site (V.fixed view.old)) pages.now labels.now collections.now)
        builder.old builder.new result }
{
    add_links(alloc, view, builder, pages, labels)?;
    add_collections(alloc, view, builder, collections)
}

// Adds all edges and members.
fn add_edges<V: SiteView>(
    alloc: Global,
    view: &mut V,
    builder: &mut GraphBuilder,
    graph: &Graph,
    pages: &[Term],
    labels: &[Str],
    collections: &[Str],
) -> Result<(), GraphRefusal>
    requires own { V.Own view.old }
    ensures own { V.Own view.new }
    ensures fixed { V.fixed view.new ≡ V.fixed view.old }
    ensures added { AddsAll
        (IsStated (V.site (V.fixed view.old)) graph.now pages.now labels.now collections.now)
        builder.old builder.new result }
{
    add_data(alloc, builder, graph)?;
    add_site(alloc, view, builder, pages, labels, collections)
}

/// The graph of the view's site over the data graph, within the limits, which are no greater than the program's. `terms` are the site's terms, `labels` have all
/// labels of the pages' links, and `collections` the names under which anything else than the data's members is
/// collected. Each page is asked once for each label, and each collection once.
/// # Errors
/// `TooManyNodes` exactly where the site's graph has more nodes than the limit; `TooManyEdges` exactly where it has not,
/// and more edges and members together than their limit; out of memory.
pub fn site_graph<V: SiteView>(
    alloc: Global,
    view: &mut V,
    graph: &Graph,
    terms: &[Term],
    labels: &[Str],
    collections: &[Str],
    limits: Limits,
) -> Result<Graph, GraphRefusal>
    requires own { V.Own view.old }
    requires limits { AreWithinProgram limits }
    requires listed { IsListed (V.site (V.fixed view.old)) graph.now terms.now labels.now
        collections.now }
    ensures own { V.Own view.new }
    ensures fixed { V.fixed view.new ≡ V.fixed view.old }
    ensures graph { IfOk result (IsSiteGraph (V.site (V.fixed view.old)) graph.now.nodes) }
    ensures limits { (whole : DataGraph)
        → IsSiteGraph (V.site (V.fixed view.old)) graph.now.nodes whole
        → AnswersWithin limits whole result }
{
    let mut builder = GraphBuilder::new(alloc, limits);
    add_nodes(alloc, &mut builder, graph.nodes(), terms)?;
    add_edges(alloc, view, &mut builder, graph, terms, labels, collections)?;
    let whole = builder.finish(alloc)?;
    Ok(whole)
}
