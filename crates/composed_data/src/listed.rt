//! What the graph of a site asks of the site is so of a query's.

ghost use Rattle.std.specs.Prelude.{List};
ghost use Rattle.sd_value.specs.Names.{Name, Label};
ghost use Rattle.sd_value.specs.Order.{bytes_cmp, term_cmp};
ghost use Rattle.sd_value.specs.Ascending.{ListsExactly};
ghost use Rattle.sd_value.specs.declared.Term.{Term as AnyTerm};
ghost use Rattle.sd_value.specs.declared.Value.{Value as AnyValue};
ghost use Rattle.graph_spec.specs.DataGraph.{DataGraph, IsWellFormed};
ghost use Rattle.site_spec.specs.Site.{InSite, Linked};
ghost use Rattle.query_blocks.specs.declared.QueryBlocks.{QueryBlocks as AnyBlocks};
ghost use Rattle.query_blocks.specs.Blocks.{AreCheckedBlocks, scope_of};
ghost use Rattle.weight_spec.specs.Site.{site_of};
ghost use Rattle.compose.specs.Listed.{IsListed};
ghost use Rattle.composed_data.specs.Named.{IsCollectName};

/// The site of a query's checked blocks over a data graph, with its terms, the labels of its links and the names of its
/// COLLECTs, is as the graph of a site asks.
pub fn a_querys_site_is_listed()
    ensures { (graph : DataGraph) (scopes : AnyBlocks) (terms : List AnyTerm)
        (labels : List Label) (collections : List Name) → IsWellFormed graph
        → AreCheckedBlocks scopes.version scopes.blocks.items
        → ListsExactly term_cmp (InSite graph (scope_of scopes)) terms
        → ListsExactly bytes_cmp (λ l. (u : AnyValue) × (v : AnyValue)
        × Linked graph (scope_of scopes) u l v) labels
        → ListsExactly bytes_cmp (IsCollectName (scope_of scopes)) collections
        → IsListed (site_of graph (scope_of scopes)) graph terms labels collections }
{}
