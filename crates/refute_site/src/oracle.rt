//! What tries a data graph for a counterexample: an interface.

ghost use Rattle.std.specs.Prelude.{◌≡◌, ◌↔◌, IfOk, IsTrue};
ghost use Rattle.site_spec.specs.Site.{Scope};
ghost use Rattle.constraint_spec.specs.Meets.{Meets};

use constraint_spec::Constraint;
use sd_graph::Graph;
use sd_value::NoMemory;
use std::alloc::Global;

/// What tries a data graph. Its meaning is a checked query, which never changes. `Own` is what an
/// implementation keeps true of itself from call to call.
pub trait Oracle {
    ghost scope: { Self → Scope };

    ghost Own: { Self → Type 0 };

    /// Whether the query's site over the graph meets the constraint.
    fn met(
        &mut self,
        alloc: Global,
        graph: Graph,
        constraint: &Constraint,
    ) -> Result<bool, NoMemory>
        requires own { Own self.old }
        ensures own { Own self.new }
        ensures scope { scope self.new ≡ scope self.old }
        ensures met { IfOk result
            (λ met. IsTrue met ↔ Meets graph (scope self.old) constraint.now) };
}
