// The same of data that were just gathered.
ghost use Rattle.site_spec.specs.Site.{scope_of};
ghost use Rattle.sd_graph.specs.ProgramLimits.{AreWithinProgram};
ghost use Rattle.composed_data.specs.SiteData.{SiteDataEnds};

use crate::graph::site_data;
use bindings::StoreAsker;
use index_store::IndexStore;
use query_scoping::scopes;
use sd_graph::{Graph, GraphBuilder, GraphRefusal, Limits};
use std::alloc::Global;
use struql_check::Checked;

/// The graph of the query's site over the data that were gathered, within the limits. The data's own graph is there twice
/// while it is made, for the store and beside it; their texts share their bytes.
/// # Errors
/// Those of `site_data`.
pub fn composed_data(
    alloc: Global,
    gathered: GraphBuilder,
    query: &Checked,
    limits: Limits,
) -> Result<Graph, GraphRefusal>
    requires { AreWithinProgram limits }
    ensures { SiteDataEnds limits gathered.graph (scope_of query.now) result }
{
    let scopes = scopes(alloc, query)?;
    let copied = gathered.copy(alloc)?;
    let other = copied.finish(alloc)?;
    let store = IndexStore::of(alloc, other)?;
    let graph = gathered.finish(alloc)?;
    site_data(alloc, &graph, StoreAsker::of(store), &scopes, limits)
}
