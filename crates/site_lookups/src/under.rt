//! Targets under a row.
ghost use Rattle.std.specs.Prelude.{◌≡◌, IfOk, MatchOption};
ghost use Rattle.sd_value.specs.declared.Value.{Value as AnyValue};
ghost use Rattle.query_spec.specs.Holds.{operand_value};
ghost use Rattle.query_spec.specs.Rows.{value_in};
ghost use Rattle.struql_ast.specs.Reading.{operand_of, target_of};
ghost use Rattle.site_spec.specs.Site.{IsTargetUnder};

use query_spec::Variable;
use sd_value::{NoMemory, Value, copy};
use skolem::{instance, operand_value};
use std::alloc::Global;
use struql_ast::{Operand, Target};

// The value of an operand under the row.
fn plain_under(
    alloc: Global,
    variables: &[Variable],
    row: &[Value],
    operand: &Operand,
) -> Result<Option<Value>, NoMemory>
    ensures { IfOk result
        (λ o. o ≡ operand_value (value_in variables.now row.now) (operand_of operand.now)) }
{
    match operand_value(variables, row, operand) {
        Some(value) => {
            let value = copy(alloc, value)?;
            Ok(Some(value))
        }
        None => Ok(None),
    }
}

/// The target under the row, if it is a value there.
pub fn target_under(
    alloc: Global,
    variables: &[Variable],
    row: &[Value],
    target: &Target,
) -> Result<Option<Value>, NoMemory>
    ensures { IfOk result
        (λ o. MatchOption o
        ((v : AnyValue) → IsTargetUnder (value_in variables.now row.now) (target_of target.now) v
        → ⊥) (λ v. IsTargetUnder (value_in variables.now row.now) (target_of target.now) v)) }
{
    match target {
        Target::Plain(operand) => {
            let value = plain_under(alloc, variables, row, operand)?;
            Ok(value)
        }
        Target::Made(written) => match instance(alloc, written, variables, row)? {
            Some(term) => Ok(Some(Value::Page(term))),
            None => Ok(None),
        },
        Target::Summed(_, _) => Ok(None),
    }
}
