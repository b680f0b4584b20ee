// Names and numbers of variables in a copy.
ghost use Rattle.std.specs.Prelude.{◌≡◌, ◌<◌, ◌^◌, ◌++◌, codes, pos, IfOk};
ghost use Rattle.std.specs.List.{list_any};
ghost use Rattle.struql_ast.specs.Reading.{operand_of};
ghost use Rattle.counterexample_spec.specs.Values.{is_variable as names_variable, name_in as named};
ghost use Rattle.counterexample_spec.specs.Values.{number_in as numbered};
ghost use Rattle.refute_site.specs.Patterns.{copy_of};

use crate::freezing::ChainCopy;
use sd_value::{NoMemory, Str};
use std::alloc::Global;
use struql_ast::Operand;

fn is_variable(name: &Str, operand: &Operand) -> bool
    ensures { result ≡ names_variable name.now (operand_of operand.now) }
{
    match operand {
        Operand::Variable(x, _) => x == name,
        Operand::Constant(_, _) => false,
    }
}

fn is_among(name: &Str, operands: &[Operand]) -> bool
    ensures { result ≡ list_any (λ o. names_variable name.now (operand_of o)) operands.now }
{
    operands.iter().any(|operand| is_variable(name, operand))
}

fn with_ending(alloc: Global, name: &Str) -> Result<Str, NoMemory>
    ensures { IfOk result (λ s. s ≡ name.now ++ codes "_2") }
{
    let mut text = Vec::from_slice(alloc, name.bytes())?;
    text.extend_from_slice(b"_2")?;
    Str::of(alloc, text)
}

/// The variable's name in the copy.
pub(crate) fn name_in(alloc: Global, copy: ChainCopy, name: &Str) -> Result<Str, NoMemory>
    ensures { IfOk result (λ s. s ≡ named (copy_of copy.entry) name.now) }
{
    match copy {
        ChainCopy::First => name.copy(alloc),
        ChainCopy::Second(shared) => {
            if is_among(name, shared) {
                name.copy(alloc)
            } else {
                with_ending(alloc, name)
            }
        }
    }
}

/// The variable's number in the copy.
pub(crate) fn number_in(copy: ChainCopy, name: &Str, number: usize) -> i64
    requires { number < 2 ^ 62 }
    ensures { result ≡ pos (numbered (copy_of copy.entry) name.now number) }
{
    match copy {
        ChainCopy::First => number as i64,
        ChainCopy::Second(shared) => {
            if is_among(name, shared) {
                number as i64
            } else {
                (number + 32) as i64
            }
        }
    }
}
