//! All functions in one call.
ghost use Rattle.std.specs.Prelude.{◌≡◌, IfOk};
ghost use Rattle.std.specs.Option.{option_to_list};
ghost use Rattle.sd_value.specs.Ascending.{ListsExactly};
ghost use Rattle.sd_value.specs.Order.{value_cmp};
ghost use Rattle.function_spec.specs.Functions.{Gives};

use crate::arithmetic::{div, minus, modulo, plus, times};
use crate::decimals::decimal;
use crate::joins::join;
use crate::parts_of_texts::{after, before, first, last, rest};
use crate::replacing::replace;
use crate::splits::split;
use crate::texts::{fold, length, lower, number, slug, trim, upper};
use function_spec::Function;
use sd_value::{NoMemory, Value};
use std::alloc::Global;

// The list of the value, or of none.
fn listed(alloc: Global, value: Option<Value>) -> Result<Vec<Value>, NoMemory>
    ensures { IfOk result (λ vs. vs.items ≡ option_to_list value) }
{
    let mut values = Vec::new(alloc);
    let Some(value) = value else {
        return Ok(values);
    };
    values.push(value)?;
    Ok(values)
}

/// All values that the function gives of the arguments, in the order of values.
pub fn values(
    alloc: Global,
    function: Function,
    arguments: &[Value],
) -> Result<Vec<Value>, NoMemory>
    ensures { IfOk result (λ vs.
        ListsExactly value_cmp (Gives function arguments.now) vs.items) }
{
    match function {
        Function::Lower => listed(alloc, lower(alloc, arguments)?),
        Function::Upper => listed(alloc, upper(alloc, arguments)?),
        Function::Fold => listed(alloc, fold(alloc, arguments)?),
        Function::Slug => listed(alloc, slug(alloc, arguments)?),
        Function::Trim => listed(alloc, trim(alloc, arguments)?),
        Function::First => listed(alloc, first(alloc, arguments)?),
        Function::Last => listed(alloc, last(alloc, arguments)?),
        Function::Rest => listed(alloc, rest(alloc, arguments)?),
        Function::Before => listed(alloc, before(alloc, arguments)?),
        Function::After => listed(alloc, after(alloc, arguments)?),
        Function::Replace => listed(alloc, replace(alloc, arguments)?),
        Function::Join => listed(alloc, join(alloc, arguments)?),
        Function::Length => listed(alloc, length(alloc, arguments)?),
        Function::Number => listed(alloc, number(alloc, arguments)?),
        Function::Decimal => listed(alloc, decimal(alloc, arguments)?),
        Function::Plus => listed(alloc, plus(arguments)),
        Function::Minus => listed(alloc, minus(arguments)),
        Function::Times => listed(alloc, times(arguments)),
        Function::Div => listed(alloc, div(arguments)),
        Function::Mod => listed(alloc, modulo(arguments)),
        Function::Split => split(alloc, arguments),
    }
}
