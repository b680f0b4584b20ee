//! Each query's site over each data graph has a graph.
#![tactic(auto)]

ghost use Rattle.graph_spec.specs.DataGraph.{DataGraph};
ghost use Rattle.site_spec.specs.Site.{Scope};
ghost use Rattle.weight_spec.specs.Site.{site_of};
ghost use Rattle.compose_spec.specs.Composed.{IsSiteGraph};

/// The site of a query over a data graph has a graph: its rows, and so its nodes, edges and members, are finitely many, and
/// whether a condition holds under an assignment is decided.
pub fn each_site_has_a_graph()
    ensures { (graph : DataGraph) (query : Scope)
        → (whole : DataGraph) × IsSiteGraph (site_of graph query) graph.nodes whole }
{}
