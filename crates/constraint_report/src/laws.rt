// The law of the crate: what a constraint means of a query's site.
ghost use Rattle.std.specs.Prelude.{◌↔◌};
ghost use Rattle.graph_spec.specs.DataGraph.{DataGraph};
ghost use Rattle.site_spec.specs.Site.{Scope};
ghost use Rattle.weight_spec.specs.Site.{site_of};
ghost use Rattle.constraint_spec.specs.declared.Constraint.{Constraint as AnyConstraint};
ghost use Rattle.constraint_spec.specs.Meets.{Meets};
ghost use Rattle.constraint_report.specs.Here.{HoldsIn};

/// The site of a query over data, as its pages see it, is as a constraint says exactly where the query's site meets the
/// constraint. Edges of the data start at no page.
pub fn a_site_holds_what_it_meets()
    ensures { (graph : DataGraph) (query : Scope) (c : AnyConstraint)
        → HoldsIn (site_of graph query) c ↔ Meets graph query c }
{}
