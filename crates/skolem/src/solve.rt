//! Solving a written term against a page.
ghost use Rattle.std.specs.Prelude.{◌≡◌, ◌<◌, ℕ, List, Option, length, map, All, Contains, IfOk, MatchOption, MatchBool};
ghost use Rattle.sd_value.specs.declared.Value.{Value as AnyValue};
ghost use Rattle.query_spec.specs.Mentions.{IsDeclared};
ghost use Rattle.query_spec.specs.Rows.{Agrees};
ghost use Rattle.struql_ast.specs.Reading.{operand_of, term_of};
ghost use Rattle.site_spec.specs.Site.{IsTermUnder};
ghost use Rattle.skolem.specs.Solved.{Adds, Refutes, Solves, HasNone, HasAt, SolvesOperand};

use query_spec::{Bound, Variable, index_of};
use sd_value::{Datum, NoMemory, Term, Value, copy};
use std::alloc::Global;
use struql_ast::{Chain, Operand, SkolemTerm};

// Binds the variable of that number to the value; false where it is bound to another.
pub(crate) fn put(values: &mut Vec<Option<Value>>, slot: usize, value: Value) -> bool
    requires within { slot < length values.old.items }
    ensures { MatchBool result (Adds (HasAt slot value) values.old.items values.new.items)
        (Refutes (HasAt slot value) values.old.items) }
{
    if let Some(other) = &values[slot] {
        return *other == value;
    }
    values[slot] = Some(value);
    true
}

// Binds the operand's variable to the datum; false where the operand is, or is bound to, another.
fn bind(
    alloc: Global,
    variables: &[Variable],
    values: &mut Vec<Option<Value>>,
    operand: &Operand,
    datum: &Datum,
) -> Result<bool, NoMemory>
    requires declared { IsDeclared variables.now (operand_of operand.now) }
    requires one_each { length values.old.items ≡ length variables.now }
    ensures { IfOk result
        (λ b. MatchBool b
        (Adds (SolvesOperand variables.now (operand_of operand.now) datum.now)
        values.old.items values.new.items)
        (Refutes (SolvesOperand variables.now (operand_of operand.now) datum.now)
        values.old.items)) }
{
    let value = Value::Data(datum.copy(alloc)?);
    match operand {
        Operand::Constant(constant, _) => Ok(*constant == value),
        Operand::Variable(name, _) => {
            let slot = index_of(variables, name);
            Ok(put(values, slot, value))
        }
    }
}

/// No value for any of that many variables.
pub fn all_free(alloc: Global, count: usize) -> Result<Vec<Option<Value>>, NoMemory>
    ensures long { IfOk result (λ values. length values.items ≡ count) }
    ensures free { IfOk result (λ values.
        (row : List AnyValue) → length row ≡ count → Agrees row values.items) }
{
    let mut values = Vec::with_capacity(alloc, count)?;
    for _number in 0..count {
        values.push(None)?;
    }
    Ok(values)
}

/// The values that make the written term name the page, where some do.
pub fn matches(
    alloc: Global,
    skolem_term: &SkolemTerm,
    variables: &[Variable],
    term: &Term,
) -> Result<Option<Bound>, NoMemory>
    requires declared { All (IsDeclared variables.now) (term_of skolem_term.now).args }
    ensures { IfOk result
        (λ b. MatchOption b
        (HasNone variables.now (λ s. IsTermUnder s (term_of skolem_term.now) term.now))
        (λ bound. Solves variables.now
        (λ s. IsTermUnder s (term_of skolem_term.now) term.now) bound)) }
{
    if skolem_term.function != term.function {
        return Ok(None);
    }
    let written = skolem_term.args.as_slice();
    let args = term.args.items();
    if written.len() != args.len() {
        return Ok(None);
    }
    let mut values = all_free(alloc, variables.len())?;
    for i in 0..args.len() {
        if !bind(alloc, variables, &mut values, &written[i], &args[i])? {
            return Ok(None);
        }
    }
    Ok(Some(Bound::new(values)))
}
