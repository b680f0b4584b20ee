//! Which variables of a chain a target is made of.
ghost use Rattle.std.specs.Prelude.{◌≡◌, IfOk, IsTrue, List, Contains, length, map};
ghost use Rattle.std.specs.List.{flat_map};
ghost use Rattle.query_spec.specs.Mentions.{operand_names};
ghost use Rattle.struql_ast.specs.Reading.{operand_of, target_of};
ghost use Rattle.site_lookups.specs.Wanted.{target_names, Tells};

use query_spec::Variable;
use sd_value::NoMemory;
use std::alloc::Global;
use struql_ast::{Operand, Target};

fn is_in(operand: &Operand, variable: &Variable) -> bool
    ensures { Contains (operand_names (operand_of operand.now)) variable.now.name → IsTrue result }
{
    match operand {
        Operand::Variable(name, _) => *name == variable.name,
        Operand::Constant(_, _) => false,
    }
}

fn is_in_any(operands: &[Operand], variable: &Variable) -> bool
    ensures { Contains (flat_map operand_names (map operand_of operands.now)) variable.now.name
        → IsTrue result }
{
    for operand in operands {
        if is_in(operand, variable) {
            return true;
        }
    }
    false
}

fn is_in_target(target: &Target, variable: &Variable) -> bool
    ensures { Contains (target_names (target_of target.now)) variable.now.name → IsTrue result }
{
    match target {
        Target::Plain(operand) => is_in(operand, variable),
        Target::Made(written) => is_in_any(written.args.as_slice(), variable),
        Target::Summed(_, _) => false,
    }
}

/// Flags of the variables that the target is made of.
pub(crate) fn variables_in(
    alloc: Global,
    variables: &[Variable],
    target: &Target,
) -> Result<Vec<bool>, NoMemory>
    ensures { IfOk result (λ flags. Tells variables.now (target_of target.now) flags.items) }
{
    let mut flags = Vec::new(alloc);
    for variable in variables {
        flags.push(is_in_target(target, variable))?;
    }
    Ok(flags)
}
