//! The text of one block's plan.

ghost use Rattle.std.specs.Prelude.{◌≡◌, IfOk, map, false};
ghost use Rattle.query_spec.specs.Mentions.{IsWellMade};
ghost use Rattle.command_explain.specs.Explained.{AppendsBlock};

use crate::lines::put_steps;
use planner::{counts_of, plan};
use query_spec::Variable;
use sd_value::{NoMemory, Str};
use std::alloc::Global;
use store::Store;
use struql_ast::Chain;
use token_writer::put;

/// No variable is bound.
fn none_bound(alloc: Global, variables: &[Variable]) -> Result<Vec<bool>, NoMemory>
    ensures { IfOk result (λ bound. bound.items ≡ map (λ _. false) variables.now) }
{
    let mut bound = Vec::with_capacity(alloc, variables.len())?;
    for _variable in variables {
        bound.push(false)?;
    }
    Ok(bound)
}

/// Appends the line of a block's path, and the lines of its plan.
pub(crate) fn explain_block<S: Store>(
    alloc: Global,
    store: &S,
    path: &Str,
    chain: &Chain,
    out: &mut Vec<u8>,
) -> Result<(), NoMemory>
    requires { IsWellMade chain.now }
    ensures { IfOk result (λ _.
        AppendsBlock (S.graph store.now) path.now chain.now out.old.items out.new.items) }
{
    let counts = counts_of(alloc, store, chain)?;
    let bound = none_bound(alloc, chain.variables())?;
    let steps = plan(alloc, chain, &bound, &counts)?;
    put(b"block ", out)?;
    put(path.bytes(), out)?;
    put(b"\n", out)?;
    put_steps(chain, steps.steps(), out)?;
    Ok(())
}
