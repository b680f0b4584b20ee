// Functions by name and then by number of arguments, and links by the functions at which they start.
ghost use Rattle.std.specs.Prelude.{refl};
ghost use Rattle.std.specs.Ordering.{eq_by_cmp, as_partial_cmp};
ghost use Rattle.std.specs.Cmp.{partial_equiv_from_equiv, eq_by_cmp_equiv, partial_order_from_agreeing_total};
ghost use Rattle.schema.specs.Orders.{function_cmp, function_cmp-total, function_cmp-exact, edge_cmp, edge_cmp-total};

use crate::{SchemaEdge, SchemaFunction};
use sd_value::ExactOrd;
use std::cmp::Ordering;

impl PartialEq for SchemaFunction {
    ghost eq = { eq_by_cmp function_cmp };

    ghost laws = { partial_equiv_from_equiv (eq_by_cmp_equiv function_cmp-total) };

    fn eq(&self, other: &SchemaFunction) -> bool {
        self.cmp(other).is_eq()
    }
}

impl Eq for SchemaFunction {
    ghost laws = { eq_by_cmp_equiv function_cmp-total };
}

impl PartialOrd for SchemaFunction {
    ghost partial_cmp = { as_partial_cmp function_cmp };

    ghost laws = { partial_order_from_agreeing_total function_cmp function_cmp-total (λ a b. refl)
        (λ a b. refl) };

    fn partial_cmp(&self, other: &SchemaFunction) -> Option<Ordering> {
        Some(self.cmp(other))
    }
}

impl Ord for SchemaFunction {
    ghost cmp = { function_cmp };

    ghost total = { function_cmp-total };

    ghost matches_partial_cmp = { λ a b. refl };

    ghost matches_eq = { λ a b. refl };

    fn cmp(&self, other: &SchemaFunction) -> Ordering {
        let by_name = self.name.cmp(&other.name);
        if by_name.is_ne() {
            return by_name;
        }
        self.arity.cmp(&other.arity)
    }
}

impl ExactOrd for SchemaFunction {
    ghost exact = { function_cmp-exact };
}

impl PartialEq for SchemaEdge {
    ghost eq = { eq_by_cmp edge_cmp };

    ghost laws = { partial_equiv_from_equiv (eq_by_cmp_equiv edge_cmp-total) };

    fn eq(&self, other: &SchemaEdge) -> bool {
        self.cmp(other).is_eq()
    }
}

impl Eq for SchemaEdge {
    ghost laws = { eq_by_cmp_equiv edge_cmp-total };
}

impl PartialOrd for SchemaEdge {
    ghost partial_cmp = { as_partial_cmp edge_cmp };

    ghost laws = { partial_order_from_agreeing_total edge_cmp edge_cmp-total (λ a b. refl)
        (λ a b. refl) };

    fn partial_cmp(&self, other: &SchemaEdge) -> Option<Ordering> {
        Some(self.cmp(other))
    }
}

impl Ord for SchemaEdge {
    ghost cmp = { edge_cmp };

    ghost total = { edge_cmp-total };

    ghost matches_partial_cmp = { λ a b. refl };

    ghost matches_eq = { λ a b. refl };

    fn cmp(&self, other: &SchemaEdge) -> Ordering {
        self.source.name.cmp(&other.source.name)
    }
}
