// The tests of a template.
ghost use Rattle.std.specs.Prelude.{◌≡◌, ◌↔◌, List, Contains, IfOk, IsTrue, pos};
ghost use Rattle.std.specs.Ordering.{int_cmp};
ghost use Rattle.std.specs.List.Sorted.{IsStrictlySortedBy};
ghost use Rattle.sd_value.specs.declared.Value.{Value};
ghost use Rattle.sd_value.specs.Order.{value_cmp};
ghost use Rattle.page_spec.specs.Pieces.{HoldsBetween, holds_of, TestHolds};
ghost use Rattle.demand_spec.specs.Reads.{KeepsOnly};
ghost use Rattle.render.specs.Asks.{TestAsks};

use crate::compares::{compares, holds_of};
use crate::values::{first, range};
use page_spec::Bound;
use sd_value::{NoMemory, Value};
use site_view::SiteView;
use sort_keys::is_among;
use std::alloc::Global;
use std::cmp::Ordering;
use tmpl::{Against, Expr, Number, Test};

/// Whether the test holds of the expression's values.
pub fn holds<V: SiteView>(
    alloc: Global,
    view: &mut V,
    here: &Value,
    loops: &[Bound],
    expr: &Expr,
    test: &Test,
) -> Result<bool, NoMemory>
    requires own { V.Own view.old }
    ensures own { V.Own view.new }
    ensures fixed { V.fixed view.new ≡ V.fixed view.old }
    ensures kept { KeepsOnly (TestAsks (V.site (V.fixed view.old)) record {
      here = here.now;
      loops = loops.now;
    } expr.now test.now) (V.kept view.old) (V.kept view.new) }
    ensures answer { IfOk result (λ r. IsTrue r
        ↔ TestHolds (V.site (V.fixed view.old)) record {
          here = here.now;
          loops = loops.now;
        } expr.now test.now) }
{
    let values = range(alloc, view, here, loops, expr)?;
    match test {
        Test::Any => Ok(has_any(values)),
        Test::Compares(against) => Ok(any_compares(values.as_slice(), against)),
        Test::Counts(number) => Ok(counts_so(values.len(), number)),
        Test::Same(other) => {
            let others = range(alloc, view, here, loops, other)?;
            Ok(have_common(values.as_slice(), others.as_slice()))
        }
    }
}

fn has_any(values: Vec<Value>) -> bool
    ensures { IsTrue result ↔ ((v : Value) × Contains values.items v) }
{
    match first(values) {
        None => false,
        Some(_) => true,
    }
}

fn any_compares(values: &[Value], against: &Against) -> bool
    ensures { IsTrue result
        ↔ ((v : Value) × Contains values.now v × HoldsBetween against.now.compare v
        against.now.constant) }
{
    for value in values {
        if compares(&against.compare, value, &against.constant) {
            return true;
        }
    }
    false
}

/// Whether so many compare so.
fn counts_so(count: usize, number: &Number) -> bool
    ensures { result ≡ holds_of number.now.compare (int_cmp (pos count) number.now.constant) }
{
    holds_of(&number.compare, count_cmp(count, number.constant))
}

fn count_cmp(count: usize, number: i64) -> Ordering
    ensures { result ≡ int_cmp (pos count) number }
{
    if number < 0 {
        Ordering::Greater
    } else {
        count.cmp(&(number as usize))
    }
}

/// Whether a value is among both; those of the second list ascend.
fn have_common(values: &[Value], others: &[Value]) -> bool
    ensures { IsStrictlySortedBy value_cmp others.now
        → IsTrue result ↔ ((v : Value) × Contains values.now v × Contains others.now v) }
{
    for value in values {
        if is_among(others, value) {
            return true;
        }
    }
    false
}
