//! A trial of data graphs: each graph's whole site is built and looked through.

ghost use Rattle.std.specs.Prelude.{◌≡◌, ◌↔◌, IfOk, IsTrue};
ghost use Rattle.site_spec.specs.Site.{scope_of};
ghost use Rattle.constraint_spec.specs.Meets.{Meets};

use bindings::StoreAsker;
use constraint_report::report_of;
use constraint_spec::Constraint;
use index_store::IndexStore;
use query_scoping::ScopedQuery;
use refute_site::Oracle;
use sd_graph::Graph;
use sd_value::NoMemory;
use std::alloc::Global;
use std::slice::from_ref;

/// Tries data graphs for one checked query.
#[derive(Drop)]
pub struct SiteOracle<'a> {
    query: &'a ScopedQuery,
}

impl<'a> SiteOracle<'a> {
    /// The trial of the query.
    pub fn of(query: &'a ScopedQuery) -> SiteOracle<'a>
        ensures { result.query.now ≡ query.now }
    {
        SiteOracle { query }
    }
}

impl<'a> Oracle for SiteOracle<'a> {
    ghost scope = { λ t. scope_of t.query.now };

    ghost Own = { λ t. Unit {0} };

    fn met(
        &mut self,
        alloc: Global,
        graph: Graph,
        constraint: &Constraint,
    ) -> Result<bool, NoMemory> {
        let store = IndexStore::of(alloc, graph)?;
        let asker = StoreAsker::of(store);
        let report = report_of(alloc, asker, self.query.blocks(), from_ref(constraint))?;
        Ok(report.passed)
    }
}
