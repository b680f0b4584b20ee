// The integers of a graph that a program holds.
ghost use Rattle.std.specs.Prelude.{◌≡◌, ℤ};
ghost use Rattle.sd_value.specs.declared.Datum.TheVariants.{Int};
ghost use Rattle.sd_value.specs.declared.Value.TheVariants.{Data};
ghost use Rattle.graph_spec.specs.DataGraph.{IsWellFormed};
ghost use Rattle.ddl_laws.specs.RoundTrip.{IsI64, HasI64s};

use sd_graph::Graph;
use sd_value::{Datum, Value};

fn integer_fits(number: i64)
    ensures { IsI64 number }
{}

fn end_fits(end: &Value)
    ensures { (n : ℤ) → end.now ≡ Data (Int n) → IsI64 n }
{
    if let Value::Data(Datum::Int(number)) = end {
        integer_fits(*number);
    }
}

/// A graph that a program holds is well formed, and its integers are of 64 bits, as their type says. So its canonical
/// text is read again as this graph. It goes once over the edges.
pub fn integers_fit(graph: &Graph)
    ensures well_formed { IsWellFormed graph.now }
    ensures integers { HasI64s graph.now }
{
    for edge in graph.edges() {
        end_fits(&edge.to);
    }
}
