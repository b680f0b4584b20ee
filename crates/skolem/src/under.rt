//! The page that a written term names under a row.
ghost use Rattle.std.specs.Prelude.{◌≡◌, List, IfOk, MatchOption};
ghost use Rattle.std.specs.Option.{option_copied};
ghost use Rattle.sd_value.specs.declared.Datum.{Datum as AnyDatum};
ghost use Rattle.sd_value.specs.declared.Term.{Term as AnyTerm};
ghost use Rattle.query_spec.specs.Holds.{operand_value};
ghost use Rattle.query_spec.specs.Rows.{value_in};
ghost use Rattle.struql_ast.specs.Reading.{operand_of, term_of};
ghost use Rattle.site_spec.specs.Site.{IsTermUnder};
ghost use Rattle.skolem.specs.Solved.{SolvesOperand};

use query_spec::Variable;
use sd_value::{Args, Datum, NoMemory, Str, Term, Value};
use std::alloc::Global;
use struql_ast::{Operand, SkolemTerm};

/// The value that a row gives a variable.
pub fn value_of<'a>(variables: &[Variable], row: &'a [Value], name: &Str) -> Option<&'a Value>
    ensures { option_copied result ≡ value_in variables.now row.now name.now }
{
    let [variable, variables @ ..] = variables else {
        return None;
    };
    let [value, row @ ..] = row else {
        return None;
    };
    if variable.name == *name {
        Some(value)
    } else {
        value_of(variables, row, name)
    }
}

/// The value that a row gives an operand.
pub fn operand_value<'a>(
    variables: &[Variable],
    row: &'a [Value],
    operand: &'a Operand,
) -> Option<&'a Value>
    ensures { option_copied result
        ≡ operand_value (value_in variables.now row.now) (operand_of operand.now) }
{
    match operand {
        Operand::Variable(name, _) => value_of(variables, row, name),
        Operand::Constant(value, _) => Some(value),
    }
}

// The datum that a row gives an operand.
fn datum_of<'a>(variables: &[Variable], row: &'a [Value], operand: &'a Operand) -> Option<&'a Datum>
    ensures { MatchOption result
        ((d : AnyDatum) → SolvesOperand variables.now (operand_of operand.now) d row.now → ⊥)
        (λ d. SolvesOperand variables.now (operand_of operand.now) d.now row.now) }
{
    let Some(value) = operand_value(variables, row, operand) else {
        return None;
    };
    match value {
        Value::Data(datum) => Some(datum),
        Value::Page(_) => None,
    }
}

/// The page that the written term names under the row, if it names one.
pub fn instance(
    alloc: Global,
    skolem_term: &SkolemTerm,
    variables: &[Variable],
    row: &[Value],
) -> Result<Option<Term>, NoMemory>
    ensures { IfOk result
        (λ o. MatchOption o
        ((p : AnyTerm) → IsTermUnder (value_in variables.now row.now) (term_of skolem_term.now) p
        → ⊥) (λ p. IsTermUnder (value_in variables.now row.now) (term_of skolem_term.now) p)) }
{
    let written = skolem_term.args.as_slice();
    let mut args = Vec::with_capacity(alloc, written.len())?;
    for operand in written {
        let Some(datum) = datum_of(variables, row, operand) else {
            return Ok(None);
        };
        args.push(datum.copy(alloc)?)?;
    }
    let function = skolem_term.function.copy(alloc)?;
    Ok(Some(Term {
        function,
        args: Args::new(alloc, args)?,
    }))
}
