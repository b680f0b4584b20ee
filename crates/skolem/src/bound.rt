//! One more value among those that are bound.
ghost use Rattle.std.specs.Prelude.{◌≡◌, ◌↔◌, length, map, Contains, IfOk, IsTrue, MatchOption};
ghost use Rattle.skolem.specs.Solved.{Adds, Refutes, HasName};

use crate::solve::put;
use query_spec::{Bound, Variable, index_of};
use sd_value::{NoMemory, Str, Value};
use std::alloc::Global;

// Whether a variable has the name.
fn is_declared(variables: &[Variable], name: &Str) -> bool
    ensures { IsTrue result ↔ Contains (map (λ v. v.name) variables.now) name.now }
{
    for variable in variables {
        if variable.name == *name {
            return true;
        }
    }
    false
}

/// The values that are bound, and one more for the variable with the name; none where no row has them all.
pub fn with_value(
    alloc: Global,
    variables: &[Variable],
    bound: &Bound,
    name: &Str,
    value: Value,
) -> Result<Option<Bound>, NoMemory>
    requires one_each { length bound.now ≡ length variables.now }
    ensures { IfOk result
        (λ b. MatchOption b (Refutes (HasName variables.now name.now value) bound.now)
        (λ b. Adds (HasName variables.now name.now value) bound.now b)) }
{
    if !is_declared(variables, name) {
        return Ok(None);
    }
    let mut values = bound.to_values(alloc)?;
    let slot = index_of(variables, name);
    if put(&mut values, slot, value) {
        Ok(Some(Bound::new(values)))
    } else {
        Ok(None)
    }
}
